//! How long the tokens and comments at the front of a text are, in bytes.
ghost use Rattle.std.specs.Char.{is_ascii_alphabetic};
ghost use Rattle.std.specs.Prelude.{◌≡◌, ◌≤◌, drop, length, IfSome};
ghost use Rattle.oer_lexer.specs.Characters.{is_letter_or_digit, starts, starts_with, starts_with_two};
ghost use Rattle.oer_lexer.specs.Lexing.{block_len, word_goes_on, word_len};
ghost use Rattle.oer_module_lexer.specs.Lexing.{exponent_len, exponent_start, is_exponent, is_line_end, is_of, is_space, line_end_len, line_ends, line_len, point_len, run_len, text_len};

/// What runs of characters consist of.
#[derive(Clone, Copy)]
pub enum Class {
    Decimal,
    /// Hexadecimal digits and white space.
    Hexadecimal,
    /// Binary digits and white space.
    Binary,
}

pub fn is_space(c: u8) -> bool
    ensures { result ≡ is_space c }
{
    c == b' ' || c == b'\t' || is_line_end(c)
}

fn is_line_end(c: u8) -> bool
    ensures { result ≡ is_line_end c }
{
    c == b'\n' || c == 11 || c == 12 || c == b'\r'
}

fn is_letter_or_digit(c: u8) -> bool
    ensures { result ≡ is_letter_or_digit c }
{
    c.is_ascii_alphabetic() || c.is_ascii_digit()
}

pub fn starts_with_letter_or_digit(bytes: &[u8]) -> bool
    ensures { result ≡ starts is_letter_or_digit bytes.now }
{
    match bytes.first() {
        Some(c) => is_letter_or_digit(*c),
        None => false,
    }
}

pub fn starts_with_letter(bytes: &[u8]) -> bool
    ensures { result ≡ starts is_ascii_alphabetic bytes.now }
{
    match bytes.first() {
        Some(c) => c.is_ascii_alphabetic(),
        None => false,
    }
}

pub fn starts_with(bytes: &[u8], byte: u8) -> bool
    ensures { result ≡ starts_with byte bytes.now }
{
    match bytes.first() {
        Some(c) => *c == byte,
        None => false,
    }
}

pub fn starts_with_two(bytes: &[u8], first: u8, second: u8) -> bool
    ensures { result ≡ starts_with_two first second bytes.now }
{
    match bytes.split_first() {
        Some((c, rest)) => *c == first && starts_with(rest, second),
        None => false,
    }
}

/// What follows the first byte.
pub fn tail(bytes: &[u8]) -> &[u8]
    ensures { result.now ≡ drop 1 bytes.now }
{
    if bytes.is_empty() { bytes } else { &bytes[1..] }
}

fn word_goes_on(bytes: &[u8]) -> bool
    ensures { result ≡ word_goes_on bytes.now }
{
    match bytes.split_first() {
        Some((c, rest)) => {
            is_letter_or_digit(*c) || *c == b'-' && starts_with_letter_or_digit(rest)
        }
        None => false,
    }
}

/// How many bytes belong to the word that began before.
#[tactic(auto, using(oer_lexer::proofs::ByteSteps::word_more, oer_lexer::proofs::ByteSteps::word_over))]
pub fn word_len(bytes: &[u8]) -> usize
    ensures value { result ≡ word_len bytes.now }
    ensures within { result ≤ length bytes.now }
{
    let mut n = 0;
    let mut rest = bytes;
    while word_goes_on(rest) {
        rest = tail(rest);
        n += 1;
    }
    n
}

fn is_of(class: Class, c: u8) -> bool
    ensures { result ≡ is_of class c }
{
    match class {
        Class::Decimal => c.is_ascii_digit(),
        Class::Hexadecimal => c.is_ascii_hexdigit() || is_space(c),
        Class::Binary => c == b'0' || c == b'1' || is_space(c),
    }
}

fn starts_with_one_of(class: Class, bytes: &[u8]) -> bool
    ensures { result ≡ starts (is_of class) bytes.now }
{
    match bytes.first() {
        Some(c) => is_of(class, *c),
        None => false,
    }
}

/// How many characters of the class stand at the front.
#[tactic(auto, using(crate::proofs::ByteSteps::run_more, crate::proofs::ByteSteps::run_over))]
pub fn run_len(class: Class, bytes: &[u8]) -> usize
    ensures value { result ≡ run_len class bytes.now }
    ensures within { result ≤ length bytes.now }
{
    let mut n = 0;
    let mut rest = bytes;
    while starts_with_one_of(class, rest) {
        rest = tail(rest);
        n += 1;
    }
    n
}

/// How long the decimal point at the front is with the digits after it, and 0 where there is none.
pub fn point_len(bytes: &[u8]) -> usize
    ensures value { result ≡ point_len bytes.now }
    ensures within { result ≤ length bytes.now }
{
    if !starts_with(bytes, b'.') || starts_with(tail(bytes), b'.') {
        return 0;
    }
    1 + run_len(Class::Decimal, tail(bytes))
}

fn starts_with_exponent(bytes: &[u8]) -> bool
    ensures { result ≡ starts is_exponent bytes.now }
{
    match bytes.first() {
        Some(c) => *c == b'e' || *c == b'E',
        None => false,
    }
}

/// How much of an exponent stands before its digits.
fn exponent_start(bytes: &[u8]) -> usize
    ensures value { result ≡ exponent_start bytes.now }
    ensures within { result ≤ length bytes.now }
{
    if !starts_with_exponent(bytes) {
        return 0;
    }
    if starts_with(tail(bytes), b'-') { 2 } else { 1 }
}

/// How long the exponent at the front is, and 0 where there is none.
pub fn exponent_len(bytes: &[u8]) -> usize
    ensures value { result ≡ exponent_len bytes.now }
    ensures within { result ≤ length bytes.now }
{
    let start = exponent_start(bytes);
    let digits = run_len(Class::Decimal, &bytes[start..]);
    if start == 0 || digits == 0 {
        return 0;
    }
    start + digits
}

fn line_ends(bytes: &[u8]) -> bool
    ensures { result ≡ line_ends bytes.now }
{
    match bytes.split_first() {
        Some((c, rest)) => is_line_end(*c) || *c == b'-' && starts_with(rest, b'-'),
        None => true,
    }
}

fn line_end_len(bytes: &[u8]) -> usize
    ensures { result ≡ line_end_len bytes.now }
{
    match bytes.first() {
        Some(c) => { if *c == b'-' { 2 } else { 1 } }
        None => 0,
    }
}

/// How long a comment is after its two hyphens.
#[tactic(auto, using(crate::proofs::ByteSteps::line_more, crate::proofs::ByteSteps::line_over, crate::proofs::ByteSteps::line_end_within))]
pub fn line_len(bytes: &[u8]) -> usize
    ensures value { result ≡ line_len bytes.now }
    ensures within { result ≤ length bytes.now }
{
    let mut n = 0;
    let mut rest = bytes;
    while !line_ends(rest) {
        rest = tail(rest);
        n += 1;
    }
    n + line_end_len(rest)
}

/// How long a comment is after its `/*`, or `None` where it has no end.
pub fn block_len(bytes: &[u8]) -> Option<usize>
    ensures value { result ≡ block_len bytes.now 0 }
    ensures within { IfSome result (λ n. n ≤ length bytes.now) }
{
    let mut n = 0;
    let mut depth: usize = 0;
    let mut rest = bytes;
    while rest.len() > 1 {
        if starts_with_two(rest, b'*', b'/') {
            if depth == 0 {
                return Some(n + 2);
            }
            depth -= 1;
            n += 2;
            rest = tail(tail(rest));
        } else if starts_with_two(rest, b'/', b'*') {
            depth += 1;
            n += 2;
            rest = tail(tail(rest));
        } else {
            n += 1;
            rest = tail(rest);
        }
    }
    None
}

/// How long a text is after its opening quote, with its closing one, or `None` where it has none.
pub fn text_len(bytes: &[u8]) -> Option<usize>
    ensures value { result ≡ text_len bytes.now }
    ensures within { IfSome result (λ n. n ≤ length bytes.now) }
{
    let mut n = 0;
    let mut rest = bytes;
    while !rest.is_empty() {
        if starts_with_two(rest, b'"', b'"') {
            n += 2;
            rest = tail(tail(rest));
        } else if starts_with(rest, b'"') {
            return Some(n + 1);
        } else {
            n += 1;
            rest = tail(rest);
        }
    }
    None
}
