//! From a text to its tokens.
ghost use Rattle.std.specs.Prelude.{◌≡◌, ◌≤◌, ◌<◌, drop, take, length, IfOk, IfSome, option_map};
ghost use Rattle.oer_lexer.specs.Lexing.{block_len, block_step, colons, dots, front_at, is_over, lex, number_step, quote_step, sign_at, sign_len, step_at, text_len, text_step};
ghost use Rattle.oer_lexer.specs.Token.{spots_of, token_by, token_of};
ghost use Rattle.std.specs.Str.{IsCharBoundary};

use crate::lengths::{
    Digit, block_len, digits_len, is_space, line_len, number_len, starts_with,
    starts_with_letter_or_digit, starts_with_two, tail, text_len, word_len,
};
use crate::token::{Kind, Sign, Spot, Token};
use std::alloc::{AllocError, Global};

/// The tokens of a text, as far as there are any.
#[derive(Drop)]
pub struct Tokens<'t> {
    pub spots: Vec<Spot<'t>>,
    /// The byte at which the tokens end.
    pub end: usize,
    /// Whether that is the text's end; else no token begins there, or it has no end.
    pub complete: bool,
}

/// What stands at the front of a text, and how many bytes it takes.
#[derive(Clone, Copy)]
pub enum Step {
    /// White space or a comment.
    Skip(usize),
    Take(Kind, usize),
    Sign(Sign),
    Bad,
}

/// The tokens of a text, each the longest that fits. White space is space, tab, line feed and
/// carriage return. A comment begins with `--` and ends with the next `--` or the line's end, or it
/// begins with `/*` and ends with its `*/`, and such comments nest. The error is that an allocation failed.
pub fn lex<'t>(alloc: Global, text: &'t str) -> Result<Tokens<'t>, AllocError>
    ensures spots { IfOk result (λ r. spots_of r.spots.items ≡ (lex text.now).spots) }
    ensures end { IfOk result (λ r. r.end ≡ (lex text.now).end) }
    ensures complete { IfOk result (λ r. r.complete ≡ (lex text.now).complete) }
{
    let mut spots = Vec::new(alloc);
    let mut rest = text;
    'tokens: while let Some((token, len)) = front(rest) {
        let at = text.len() - rest.len();
        rest = after(rest, len);
        if let Some(token) = token {
            spots.push(Spot { at, token })?;
        }
    }
    let end = text.len() - rest.len();
    let complete = rest.is_empty();
    Ok(Tokens {
        spots,
        end,
        complete,
    })
}

/// The token at the front, or none for white space or a comment, and how many bytes it takes.
#[tactic(auto, unfolding(crate::specs::Lexing::front_at))]
fn front<'t>(text: &'t str) -> Option<(Option<Token<'t>>, usize)>
    ensures value { option_map (λ r. (option_map token_of r.0, r.1)) result ≡ front_at text.now }
    ensures boundary { IfSome result (λ r. IsCharBoundary text.now r.1) }
    ensures some { IfSome result (λ r. (0 < r.1) × (r.1 ≤ length text.now)) }
{
    match step_at(text.as_bytes()) {
        Step::Skip(len) => Some((None, len)),
        Step::Take(kind, len) => Some((Some(token(kind, before(text, len))), len)),
        Step::Sign(sign) => Some((Some(Token::Sign(sign)), sign_len(sign))),
        Step::Bad => None,
    }
}

fn token<'t>(kind: Kind, text: &'t str) -> Token<'t>
    ensures { token_of result ≡ token_by kind text.now }
{
    match kind {
        Kind::Word => Token::Word(text),
        Kind::Number => Token::Number(text),
        Kind::Bits => Token::Bits(text),
        Kind::Digits => Token::Digits(text),
        Kind::Text => Token::Text(text),
    }
}

fn before(text: &str, len: usize) -> &str
    requires { IsCharBoundary text.now len }
    ensures { result.now ≡ take len text.now }
{
    text.split_at(len).0
}

fn after(text: &str, len: usize) -> &str
    requires { IsCharBoundary text.now len }
    ensures { result.now ≡ drop len text.now }
{
    text.split_at(len).1
}

/// What stands at the front.
#[tactic(auto, unfolding(crate::specs::Lexing::step_at))]
fn step_at(bytes: &[u8]) -> Step
    ensures { result ≡ step_at bytes.now }
{
    let Some((c, rest)) = bytes.split_first() else {
        return Step::Bad;
    };
    if is_space(*c) {
        return Step::Skip(1);
    }
    if *c == b'-' && starts_with(rest, b'-') {
        return Step::Skip(2 + line_len(tail(rest)));
    }
    if *c == b'/' && starts_with(rest, b'*') {
        return block_step(tail(rest));
    }
    if c.is_ascii_alphabetic() {
        return Step::Take(Kind::Word, 1 + word_len(rest));
    }
    if *c == b'\'' {
        return quote_step(rest);
    }
    if *c == b'"' {
        return text_step(rest);
    }
    number_step(number_len(bytes), bytes)
}

/// A comment, from after its `/*`.
fn block_step(bytes: &[u8]) -> Step
    ensures { result ≡ block_step (block_len bytes.now 0) }
{
    match block_len(bytes) {
        Some(n) => Step::Skip(2 + n),
        None => Step::Bad,
    }
}

/// A text, from after its opening quote.
fn text_step(bytes: &[u8]) -> Step
    ensures { result ≡ text_step (text_len bytes.now) }
{
    match text_len(bytes) {
        Some(n) => Step::Take(Kind::Text, 1 + n),
        None => Step::Bad,
    }
}

/// Bits or digits, from after their opening quote.
fn quote_step(bytes: &[u8]) -> Step
    ensures { result ≡ quote_step bytes.now }
{
    let digits = digits_len(Digit::Hexadecimal, bytes);
    if starts_with_two(&bytes[digits..], b'\'', b'H') {
        return Step::Take(Kind::Digits, 3 + digits);
    }
    let bits = digits_len(Digit::Binary, bytes);
    if starts_with_two(&bytes[bits..], b'\'', b'B') {
        return Step::Take(Kind::Bits, 3 + bits);
    }
    Step::Bad
}

/// A number of so many bytes, or else a sign.
fn number_step(n: usize, bytes: &[u8]) -> Step
    requires { n ≤ length bytes.now }
    ensures { result ≡ number_step n bytes.now }
{
    if n == 0 {
        return match sign_at(bytes) {
            Some(sign) => Step::Sign(sign),
            None => Step::Bad,
        };
    }
    if starts_with_letter_or_digit(&bytes[n..]) {
        return Step::Bad;
    }
    Step::Take(Kind::Number, n)
}

#[tactic(auto, unfolding(crate::specs::Lexing::sign_at))]
fn sign_at(bytes: &[u8]) -> Option<Sign>
    ensures { result ≡ sign_at bytes.now }
{
    let (c, rest) = bytes.split_first()?;
    match *c {
        b'{' => Some(Sign::OpenBrace),
        b'}' => Some(Sign::CloseBrace),
        b'(' => Some(Sign::OpenParenthesis),
        b')' => Some(Sign::CloseParenthesis),
        b'[' => Some(Sign::OpenBracket),
        b']' => Some(Sign::CloseBracket),
        b',' => Some(Sign::Comma),
        b'.' => dots(rest),
        b':' => colons(rest),
        _ => None,
    }
}

/// The sign after a point.
fn dots(bytes: &[u8]) -> Option<Sign>
    ensures { result ≡ dots bytes.now }
{
    if !starts_with(bytes, b'.') {
        return None;
    }
    if starts_with(&bytes[1..], b'.') {
        return Some(Sign::Ellipsis);
    }
    Some(Sign::Range)
}

/// The sign after a colon.
fn colons(bytes: &[u8]) -> Option<Sign>
    ensures { result ≡ colons bytes.now }
{
    if starts_with_two(bytes, b':', b'=') {
        Some(Sign::Assign)
    } else {
        None
    }
}

fn sign_len(sign: Sign) -> usize
    ensures { result ≡ sign_len sign }
{
    match sign {
        Sign::Range => 2,
        Sign::Ellipsis | Sign::Assign => 3,
        _ => 1,
    }
}
