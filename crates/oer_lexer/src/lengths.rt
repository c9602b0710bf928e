//! How long the tokens and comments at the front of a text are, in bytes.
ghost use Rattle.std.specs.Prelude.{◌≡◌, ◌≤◌, ◌==◌, nat_lt, drop, length, IfSome};
ghost use Rattle.oer_lexer.specs.Characters.{is_bit, is_first_digit, is_letter_or_digit, is_line_end, is_space, starts, starts_with, starts_with_two};
ghost use Rattle.oer_lexer.specs.Lexing.{block_len, digits_len, is_digit, line_end_len, line_ends, line_len, number_len, text_len, word_goes_on, word_len};

/// The digits of numbers and of quoted octets and bits.
#[derive(Clone, Copy)]
pub enum Digit {
    Decimal,
    Hexadecimal,
    Binary,
}

pub fn is_space(c: u8) -> bool
    ensures { result ≡ is_space c }
{
    c == b' ' || c == b'\t' || c == b'\n' || c == b'\r'
}

fn is_letter_or_digit(c: u8) -> bool
    ensures { result ≡ is_letter_or_digit c }
{
    c.is_ascii_alphabetic() || c.is_ascii_digit()
}

pub fn starts_with_letter_or_digit(bytes: &[u8]) -> bool
    ensures { result ≡ starts is_letter_or_digit bytes.now }
{
    match bytes.first() {
        Some(c) => is_letter_or_digit(*c),
        None => false,
    }
}

pub fn starts_with(bytes: &[u8], byte: u8) -> bool
    ensures { result ≡ starts_with byte bytes.now }
{
    match bytes.first() {
        Some(c) => *c == byte,
        None => false,
    }
}

pub fn starts_with_two(bytes: &[u8], first: u8, second: u8) -> bool
    ensures { result ≡ starts_with_two first second bytes.now }
{
    match bytes.split_first() {
        Some((c, rest)) => *c == first && starts_with(rest, second),
        None => false,
    }
}

fn starts_with_first_digit(bytes: &[u8]) -> bool
    ensures { result ≡ starts is_first_digit bytes.now }
{
    match bytes.first() {
        Some(c) => c.is_ascii_digit() && *c != b'0',
        None => false,
    }
}

fn is_digit(digit: Digit, c: u8) -> bool
    ensures { result ≡ is_digit digit c }
{
    match digit {
        Digit::Decimal => c.is_ascii_digit(),
        Digit::Hexadecimal => c.is_ascii_hexdigit(),
        Digit::Binary => c == b'0' || c == b'1',
    }
}

fn starts_with_digit(digit: Digit, bytes: &[u8]) -> bool
    ensures { result ≡ starts (is_digit digit) bytes.now }
{
    match bytes.first() {
        Some(c) => is_digit(digit, *c),
        None => false,
    }
}

/// What follows the first byte.
pub fn tail(bytes: &[u8]) -> &[u8]
    ensures { result.now ≡ drop 1 bytes.now }
{
    if bytes.is_empty() { bytes } else { &bytes[1..] }
}

fn word_goes_on(bytes: &[u8]) -> bool
    ensures { result ≡ word_goes_on bytes.now }
{
    match bytes.split_first() {
        Some((c, rest)) => {
            is_letter_or_digit(*c) || *c == b'-' && starts_with_letter_or_digit(rest)
        }
        None => false,
    }
}

/// How many bytes belong to the word that began before.
#[tactic(auto, using(crate::proofs::ByteSteps::word_more, crate::proofs::ByteSteps::word_over))]
pub fn word_len(bytes: &[u8]) -> usize
    ensures value { result ≡ word_len bytes.now }
    ensures within { result ≤ length bytes.now }
{
    let mut n = 0;
    let mut rest = bytes;
    while word_goes_on(rest) {
        rest = tail(rest);
        n += 1;
    }
    n
}

/// How many digits stand at the front.
#[tactic(auto, using(crate::proofs::ByteSteps::digits_more, crate::proofs::ByteSteps::digits_over))]
pub fn digits_len(digit: Digit, bytes: &[u8]) -> usize
    ensures value { result ≡ digits_len digit bytes.now }
    ensures within { result ≤ length bytes.now }
{
    let mut n = 0;
    let mut rest = bytes;
    while starts_with_digit(digit, rest) {
        rest = tail(rest);
        n += 1;
    }
    n
}

fn line_ends(bytes: &[u8]) -> bool
    ensures { result ≡ line_ends bytes.now }
{
    match bytes.split_first() {
        Some((c, rest)) => *c == b'\n' || *c == b'\r' || *c == b'-' && starts_with(rest, b'-'),
        None => true,
    }
}

fn line_end_len(bytes: &[u8]) -> usize
    ensures { result ≡ line_end_len bytes.now }
{
    match bytes.first() {
        Some(c) => { if *c == b'-' { 2 } else { 1 } }
        None => 0,
    }
}

/// How long a comment is after its two hyphens.
#[tactic(auto, using(crate::proofs::ByteSteps::line_more, crate::proofs::ByteSteps::line_over, crate::proofs::ByteSteps::line_end_within))]
pub fn line_len(bytes: &[u8]) -> usize
    ensures value { result ≡ line_len bytes.now }
    ensures within { result ≤ length bytes.now }
{
    let mut n = 0;
    let mut rest = bytes;
    while !line_ends(rest) {
        rest = tail(rest);
        n += 1;
    }
    n + line_end_len(rest)
}

/// How long a comment is after its `/*`, or `None` where it has no end.

pub fn block_len(bytes: &[u8]) -> Option<usize>
    ensures value { result ≡ block_len bytes.now 0 }
    ensures within { IfSome result (λ n. n ≤ length bytes.now) }
{
    let mut n = 0;
    let mut depth: usize = 0;
    let mut rest = bytes;
    while rest.len() > 1 {
        if starts_with_two(rest, b'*', b'/') {
            if depth == 0 {
                return Some(n + 2);
            }
            depth -= 1;
            n += 2;
            rest = tail(tail(rest));
        } else if starts_with_two(rest, b'/', b'*') {
            depth += 1;
            n += 2;
            rest = tail(tail(rest));
        } else {
            n += 1;
            rest = tail(rest);
        }
    }
    None
}

/// How long a text is after its opening quote, with its closing one, or `None` where it has none.

pub fn text_len(bytes: &[u8]) -> Option<usize>
    ensures value { result ≡ text_len bytes.now }
    ensures within { IfSome result (λ n. n ≤ length bytes.now) }
{
    let mut n = 0;
    let mut rest = bytes;
    while !rest.is_empty() {
        if starts_with_two(rest, b'"', b'"') {
            n += 2;
            rest = tail(tail(rest));
        } else if starts_with(rest, b'"') {
            return Some(n + 1);
        } else if starts_below_space(rest) {
            return None;
        } else {
            n += 1;
            rest = tail(rest);
        }
    }
    None
}

fn starts_below_space(bytes: &[u8]) -> bool
    ensures { result ≡ starts (λ c. nat_lt c 32) bytes.now }
{
    match bytes.first() {
        Some(c) => *c < b' ',
        None => false,
    }
}

/// How long the number at the front is, and 0 where there is none.
#[tactic(auto, unfolding(crate::specs::Lexing::number_len))]
pub fn number_len(bytes: &[u8]) -> usize
    ensures value { result ≡ number_len bytes.now }
    ensures within { result ≤ length bytes.now }
{
    let Some((c, rest)) = bytes.split_first() else {
        return 0;
    };
    if *c == b'0' {
        1
    } else if c.is_ascii_digit() {
        1 + digits_len(Digit::Decimal, rest)
    } else if *c == b'-' && starts_with_first_digit(rest) {
        1 + digits_len(Digit::Decimal, rest)
    } else {
        0
    }
}
