//! From a text to its tokens.
ghost use Rattle.std.specs.Prelude.{◌≡◌, ◌≤◌, ◌<◌, ◌∷◌, drop, take, length, IfOk, IfSome, option_map};
ghost use Rattle.std.specs.Str.{IsCharBoundary};
ghost use Rattle.oer_lexer.specs.Lexing.{block_len};
ghost use Rattle.oer_module_lexer.specs.Lexing.{block_step, brackets, closing, colons, dots, front_at, lex, number_step, number_tail, quote_step, sign_at, sign_len, single, step_at, text_len, text_step, token_step};
ghost use Rattle.oer_module_lexer.specs.Token.{spots_of, token_by, token_of};

use crate::lengths::{
    Class, block_len, exponent_len, is_space, line_len, point_len, run_len, starts_with,
    starts_with_letter, starts_with_letter_or_digit, starts_with_two, tail, text_len, word_len,
};
use crate::token::{Kind, Sign, Spot, Token};
use std::alloc::{AllocError, Global};

/// The tokens of a text, as far as there are any.
#[derive(Drop)]
pub struct Tokens<'t> {
    pub spots: Vec<Spot<'t>>,
    /// The byte at which the tokens end.
    pub end: usize,
    /// Whether that is the text's end; else no token begins there, or it has no end.
    pub complete: bool,
}

/// What stands at the front of a text, and how many bytes it takes.
#[derive(Clone, Copy)]
pub enum Step {
    /// White space or a comment.
    Skip(usize),
    Take(Kind, usize),
    Sign(Sign),
    Bad,
}

/// The tokens of a text, each the longest that fits. White space is as X.680, 12.1.6 has it, comments
/// as 12.6: one begins with `--` and ends with the next `--` or the line's end, or it begins with
/// `/*` and ends with its `*/`, and such comments nest. The error is that an allocation failed.
pub fn lex<'t>(alloc: Global, text: &'t str) -> Result<Tokens<'t>, AllocError>
    ensures spots { IfOk result (λ r. spots_of r.spots.items ≡ (lex text.now).spots) }
    ensures end { IfOk result (λ r. r.end ≡ (lex text.now).end) }
    ensures complete { IfOk result (λ r. r.complete ≡ (lex text.now).complete) }
{
    let mut spots = Vec::new(alloc);
    let mut rest = text;
    'tokens: while let Some((token, len)) = front(rest) {
        let at = text.len() - rest.len();
        rest = after(rest, len);
        if let Some(token) = token {
            spots.push(Spot { at, token })?;
        }
    }
    let end = text.len() - rest.len();
    let complete = rest.is_empty();
    Ok(Tokens {
        spots,
        end,
        complete,
    })
}

/// The token at the front, or none for white space or a comment, and how many bytes it takes.
#[tactic(auto, unfolding(crate::specs::Lexing::front_at))]
fn front<'t>(text: &'t str) -> Option<(Option<Token<'t>>, usize)>
    ensures value { option_map (λ r. (option_map token_of r.0, r.1)) result ≡ front_at text.now }
    ensures boundary { IfSome result (λ r. IsCharBoundary text.now r.1) }
    ensures some { IfSome result (λ r. (0 < r.1) × (r.1 ≤ length text.now)) }
{
    match step_at(text.as_bytes()) {
        Step::Skip(len) => Some((None, len)),
        Step::Take(kind, len) => Some((Some(token(kind, before(text, len))), len)),
        Step::Sign(sign) => Some((Some(Token::Sign(sign)), sign_len(sign))),
        Step::Bad => None,
    }
}

fn token<'t>(kind: Kind, text: &'t str) -> Token<'t>
    ensures { token_of result ≡ token_by kind text.now }
{
    match kind {
        Kind::Word => Token::Word(text),
        Kind::Field => Token::Field(text),
        Kind::Number => Token::Number(text),
        Kind::Real => Token::Real(text),
        Kind::Bits => Token::Bits(text),
        Kind::Digits => Token::Digits(text),
        Kind::Text => Token::Text(text),
    }
}

fn before(text: &str, len: usize) -> &str
    requires { IsCharBoundary text.now len }
    ensures { result.now ≡ take len text.now }
{
    text.split_at(len).0
}

fn after(text: &str, len: usize) -> &str
    requires { IsCharBoundary text.now len }
    ensures { result.now ≡ drop len text.now }
{
    text.split_at(len).1
}

/// What stands at the front.
#[tactic(auto, unfolding(crate::specs::Lexing::step_at))]
fn step_at(bytes: &[u8]) -> Step
    ensures { result ≡ step_at bytes.now }
{
    let Some((c, rest)) = bytes.split_first() else {
        return Step::Bad;
    };
    if is_space(*c) {
        return Step::Skip(1);
    }
    if *c == 194 && starts_with(rest, 160) {
        return Step::Skip(2);
    }
    if *c == b'-' && starts_with(rest, b'-') {
        return Step::Skip(2 + line_len(tail(rest)));
    }
    if *c == b'/' && starts_with(rest, b'*') {
        return block_step(tail(rest));
    }
    token_step(*c, rest, bytes)
}

/// The token at the front, where this is neither white space nor a comment.
#[tactic(auto, unfolding(crate::specs::Lexing::token_step))]
fn token_step(c: u8, rest: &[u8], bytes: &[u8]) -> Step
    requires { bytes.now ≡ c ∷ rest.now }
    ensures { result ≡ token_step c rest.now }
{
    if c.is_ascii_alphabetic() {
        return Step::Take(Kind::Word, 1 + word_len(rest));
    }
    if c.is_ascii_digit() {
        return number_step(run_len(Class::Decimal, bytes), bytes);
    }
    if c == b'&' && starts_with_letter(rest) {
        return Step::Take(Kind::Field, 2 + word_len(tail(rest)));
    }
    if c == b'\'' {
        return quote_step(rest);
    }
    if c == b'"' {
        return text_step(rest);
    }
    match sign_at(c, rest) {
        Some(sign) => Step::Sign(sign),
        None => Step::Bad,
    }
}

/// A comment, from after its `/*`.
fn block_step(bytes: &[u8]) -> Step
    ensures { result ≡ block_step (block_len bytes.now 0) }
{
    match block_len(bytes) {
        Some(n) => Step::Skip(2 + n),
        None => Step::Bad,
    }
}

/// A text, from after its opening quote.
fn text_step(bytes: &[u8]) -> Step
    ensures { result ≡ text_step (text_len bytes.now) }
{
    match text_len(bytes) {
        Some(n) => Step::Take(Kind::Text, 1 + n),
        None => Step::Bad,
    }
}

/// Bits or hexadecimal digits, from after their opening quote.
fn quote_step(bytes: &[u8]) -> Step
    ensures { result ≡ quote_step bytes.now }
{
    let digits = run_len(Class::Hexadecimal, bytes);
    if starts_with_two(&bytes[digits..], b'\'', b'H') {
        return Step::Take(Kind::Digits, 3 + digits);
    }
    let bits = run_len(Class::Binary, bytes);
    if starts_with_two(&bytes[bits..], b'\'', b'B') {
        return Step::Take(Kind::Bits, 3 + bits);
    }
    Step::Bad
}

/// The decimal point and the exponent at the front, as far as they are there.
fn number_tail(bytes: &[u8]) -> usize
    ensures value { result ≡ number_tail bytes.now }
    ensures within { result ≤ length bytes.now }
{
    let point = point_len(bytes);
    point + exponent_len(&bytes[point..])
}

/// A number that begins with so many digits.
fn number_step(digits: usize, bytes: &[u8]) -> Step
    requires { digits ≤ length bytes.now }
    ensures { result ≡ number_step digits bytes.now }
{
    let more = number_tail(&bytes[digits..]);
    if starts_with_letter_or_digit(&bytes[digits + more..]) {
        return Step::Bad;
    }
    if more > 0 {
        return Step::Take(Kind::Real, digits + more);
    }
    if digits > 1 && starts_with(bytes, b'0') {
        return Step::Bad;
    }
    Step::Take(Kind::Number, digits)
}

/// The sign at the front.
fn sign_at(c: u8, rest: &[u8]) -> Option<Sign>
    ensures { result ≡ sign_at c rest.now }
{
    match c {
        b'.' => Some(dots(rest)),
        b':' => Some(colons(rest)),
        b'[' => Some(brackets(rest)),
        b']' => Some(closing(rest)),
        _ => single(c),
    }
}

/// A one-character sign that starts no longer sign.
#[tactic(auto, unfolding(crate::specs::Lexing::single))]
fn single(c: u8) -> Option<Sign>
    ensures { result ≡ single c }
{
    match c {
        b'{' => Some(Sign::OpenBrace),
        b'}' => Some(Sign::CloseBrace),
        b'(' => Some(Sign::OpenParenthesis),
        b')' => Some(Sign::CloseParenthesis),
        b'<' => Some(Sign::Less),
        b'>' => Some(Sign::Greater),
        b',' => Some(Sign::Comma),
        b';' => Some(Sign::Semicolon),
        b'=' => Some(Sign::Equals),
        b'-' => Some(Sign::Hyphen),
        b'@' => Some(Sign::At),
        b'|' => Some(Sign::Bar),
        b'!' => Some(Sign::Exclamation),
        b'^' => Some(Sign::Caret),
        _ => None,
    }
}

/// The sign after a point.
fn dots(bytes: &[u8]) -> Sign
    ensures { result ≡ dots bytes.now }
{
    if !starts_with(bytes, b'.') {
        return Sign::Point;
    }
    if starts_with(&bytes[1..], b'.') {
        return Sign::Ellipsis;
    }
    Sign::Range
}

/// The sign after a colon.
fn colons(bytes: &[u8]) -> Sign
    ensures { result ≡ colons bytes.now }
{
    if starts_with_two(bytes, b':', b'=') {
        return Sign::Assign;
    }
    Sign::Colon
}

/// The sign after an opening bracket.
fn brackets(bytes: &[u8]) -> Sign
    ensures { result ≡ brackets bytes.now }
{
    if starts_with(bytes, b'[') {
        return Sign::OpenGroup;
    }
    Sign::OpenBracket
}

/// The sign after a closing bracket.
fn closing(bytes: &[u8]) -> Sign
    ensures { result ≡ closing bytes.now }
{
    if starts_with(bytes, b']') {
        return Sign::CloseGroup;
    }
    Sign::CloseBracket
}

fn sign_len(sign: Sign) -> usize
    ensures { result ≡ sign_len sign }
{
    match sign {
        Sign::Range | Sign::OpenGroup | Sign::CloseGroup => 2,
        Sign::Ellipsis | Sign::Assign => 3,
        _ => 1,
    }
}
