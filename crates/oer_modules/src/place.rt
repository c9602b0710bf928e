//! Where a byte of a text stands.
ghost use Rattle.std.specs.Prelude.{◌≡◌, ◌+◌, ◌<◌, ◌≤◌, ◌^◌, Some, drop, length, map, option_map, take};
ghost use Rattle.oer_module_lexer.specs.Lexing.{lex};
ghost use Rattle.oer_module_lexer.specs.Token.{spots_of, token_of};
ghost use Rattle.oer_modules.specs.Marks.{AreMarked, IsMarked};
ghost use Rattle.oer_modules.specs.Places.{AreInOrder, ArePartedAt, behind, beyond, goes_on, lexed_of, point_at, point_of, position_at, token_at};
ghost use Rattle.oer_modules.specs.Words.{place_words};

use crate::marks::Marks;
use oer_module_lexer::{Spot, Token, Tokens};
use std::fmt;

/// A line and a column; both count from 1.
#[derive(Clone, Copy)]
pub struct Position {
    pub line: usize,
    pub column: usize,
}

/// The position of the first byte of a text.
pub const FIRST: Position = Position { line: 1, column: 1 };

/// A place in one of the texts.
#[derive(Clone, Copy)]
pub struct Point<'t> {
    /// Which of the texts it is; they count from 1.
    pub text: usize,
    /// The byte, from 0. At the text's end it is the text's length.
    pub at: usize,
    /// The line, from 1: one more than the line feeds before the byte.
    pub line: usize,
    /// The column, from 1: one more than the characters that stand in the line before the byte.
    pub column: usize,
    /// The token that begins at the byte. There is none at the text's end, and where no token begins.
    pub token: Option<Token<'t>>,
}

/// A place before what is said of it, as `text 1, line 12, column 5: `; nothing where there is none.
#[derive(Clone, Copy)]
pub struct Before<'t>(pub Option<Point<'t>>);

impl fmt::Display for Before<'_> {
    ghost output = { λ before. Some (place_words (option_map point_of before.0)) };

    fn fmt<W: fmt::Write>(&self, f: &mut fmt::Formatter<W>) -> fmt::Result {
        match self.0 {
            Some(point) => write!(
                f,
                "text {}, line {}, column {}: ",
                point.text, point.line, point.column
            ),
            None => Ok(()),
        }
    }
}

/// Whether this byte of UTF-8 isn't the first of its character.
fn goes_on(byte: u8) -> bool
    ensures { result ≡ goes_on byte }
{
    127 < byte && byte < 192
}

/// The position behind a byte.
fn beyond(byte: u8, position: Position) -> Position
    requires line { position.line < 2 ^ 63 }
    requires column { position.column < 2 ^ 63 }
    ensures { result ≡ beyond byte position }
{
    if byte == b'\n' {
        return Position {
            line: position.line + 1,
            column: 1,
        };
    }
    if goes_on(byte) {
        return position;
    }
    Position {
        line: position.line,
        column: position.column + 1,
    }
}

/// What stands before the byte.
pub fn front(bytes: &[u8], at: usize) -> &[u8]
    ensures { result.now ≡ take at bytes.now }
{
    if at < bytes.len() {
        &bytes[..at]
    } else {
        bytes
    }
}

/// What stands from the byte on.
pub fn past(bytes: &[u8], at: usize) -> &[u8]
    ensures { result.now ≡ drop at bytes.now }
{
    if at < bytes.len() {
        &bytes[at..]
    } else {
        &bytes[bytes.len()..]
    }
}

/// The position behind these bytes, of which the first has this one.
pub fn behind(bytes: &[u8], start: Position) -> Position
    requires line { start.line + length bytes.now ≤ 2 ^ 63 }
    requires column { start.column + length bytes.now ≤ 2 ^ 63 }
    ensures { result ≡ behind bytes.now start }
{
    let mut position = start;
    for byte in bytes {
        position = beyond(*byte, position);
    }
    position
}

/// The line and the column of a byte.
pub fn position_at(at: usize, text: &str) -> Position
    ensures { result ≡ position_at at text.now }
{
    behind(front(text.as_bytes(), at), FIRST)
}

/// How many of the tokens of a text begin before the byte.
fn count_before(at: usize, spots: &[Spot<'_>]) -> usize
    requires { AreInOrder spots.now }
    ensures within { result ≤ length spots.now }
    ensures parted { ArePartedAt at spots.now result }
{
    spots.partition_point(|spot| spot.at < at)
}

/// The token of a text that begins at the byte.
fn token_at<'t>(at: usize, spots: &[Spot<'t>]) -> Option<Token<'t>>
    requires { AreInOrder spots.now }
    ensures { option_map token_of result ≡ token_at at (spots_of spots.now) }
{
    let spot = spots.get(count_before(at, spots))?;
    (spot.at == at).then_some(spot.token)
}

/// The line and the column of a byte of this text, which is that of the number, counted from 0.
fn position_in(marks: &[Marks], number: usize, text: &str, at: usize) -> Position
    requires { IsMarked text.now number marks.now }
    ensures { result ≡ position_at at text.now }
{
    if number < marks.len() {
        return marks[number].position_at(at, text);
    }
    position_at(at, text)
}

/// A place in the text of this number, counted from 0, if there is such a text. Where a text has marks, its lines aren't
/// counted from the start.
pub fn point_at<'t>(
    texts: &[&'t str],
    tokens: &[Tokens<'t>],
    marks: &[Marks],
    text: usize,
    at: usize,
) -> Option<Point<'t>>
    requires lexed { map lexed_of tokens.now ≡ map (λ t. lex t.now) texts.now }
    requires marked { AreMarked (map (λ t. t.now) texts.now) marks.now }
    ensures { option_map point_of result ≡ point_at (map (λ t. t.now) texts.now) text at }
{
    if text >= texts.len() || text >= tokens.len() {
        return None;
    }
    let position = position_in(marks, text, texts[text], at);
    Some(Point {
        text: text + 1,
        at,
        line: position.line,
        column: position.column,
        token: token_at(at, &tokens[text].spots),
    })
}
