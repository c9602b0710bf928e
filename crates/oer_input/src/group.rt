//! A group of base64, character by character: four characters are three octets.
ghost use Rattle.std.specs.Prelude.{◌≡◌, ◌<◌, IfSome};
ghost use Rattle.oer_input.specs.Base64.{IsFit, IsFitStep, at_character, is_space, padding_at, sextet_at, sextet_of, step_at};

use crate::fault::Fault;

/// What may stand next in the text. White space may stand everywhere.
#[derive(Clone, Copy)]
pub enum Next {
    /// The first character of a group.
    First,
    /// The second character of a group. The first stands for this number.
    Second(u8),
    /// The third character of a group, or `==`. Four bits are left over, of the character at this place.
    Third(u8, usize),
    /// The fourth character of a group, or `=`. Two bits are left over, of the character at this place.
    Fourth(u8, usize),
    /// The second `=` of two.
    Padding,
    /// Nothing: the padding is whole.
    End,
}

/// What an octet of the text does.
#[derive(Clone, Copy)]
pub enum Step {
    /// The text goes on.
    To(Next),
    /// It has the last bits of this octet, and the text goes on.
    Octet(u8, Next),
    /// It can't stand there.
    Stops(Fault),
}

fn is_space(c: u8) -> bool
    ensures { result ≡ is_space c }
{
    c == b' ' || c == b'\t' || c == b'\n' || c == b'\r'
}

// The number that a character stands for: `+` and `/` are those of section 4, `-` and `_` those of section 5.
fn sextet_of(c: u8) -> Option<u8>
    ensures exact { result ≡ sextet_of c }
    ensures fit { IfSome result (λ n. n < 64) }
{
    match c {
        b'A'..=b'Z' => Some(c - b'A'),
        b'a'..=b'z' => Some(c - b'a' + 26),
        b'0'..=b'9' => Some(c - b'0' + 52),
        b'+' | b'-' => Some(62),
        b'/' | b'_' => Some(63),
        _ => None,
    }
}

// A character that stands for this number.
fn sextet_at(next: Next, at: usize, n: u8) -> Step
    requires next_fit { IsFit next }
    requires number { n < 64 }
    ensures exact { result ≡ sextet_at next at n }
    ensures fit { IsFitStep result }
{
    match next {
        Next::First => Step::To(Next::Second(n)),
        Next::Second(first) => Step::Octet(first * 4 + n / 16, Next::Third(n % 16, at)),
        Next::Third(left, _) => Step::Octet(left * 16 + n / 4, Next::Fourth(n % 4, at)),
        Next::Fourth(left, _) => Step::Octet(left * 64 + n, Next::First),
        Next::Padding | Next::End => Step::Stops(Fault::Padding(at)),
    }
}

// A `=`.
fn padding_at(next: Next, at: usize) -> Step
    ensures exact { result ≡ padding_at next at }
    ensures fit { IsFitStep result }
{
    match next {
        Next::Third(0, _) => Step::To(Next::Padding),
        Next::Fourth(0, _) | Next::Padding => Step::To(Next::End),
        Next::Third(_, last) | Next::Fourth(_, last) => Step::Stops(Fault::Bits(last)),
        Next::First | Next::Second(_) | Next::End => Step::Stops(Fault::Padding(at)),
    }
}

// What is neither white space nor `=`.
fn at_character(next: Next, at: usize, c: u8) -> Step
    requires { IsFit next }
    ensures exact { result ≡ at_character next at c }
    ensures fit { IsFitStep result }
{
    match sextet_of(c) {
        Some(n) => sextet_at(next, at, n),
        None => Step::Stops(Fault::Character(at)),
    }
}

/// What this octet of the text does, which stands at this place.
#[tactic(auto, unfolding(crate::specs::Base64::step_at))]
pub fn step_at(next: Next, at: usize, c: u8) -> Step
    requires { IsFit next }
    ensures exact { result ≡ step_at next at c }
    ensures fit { IsFitStep result }
{
    if is_space(c) {
        return Step::To(next);
    }
    if c == b'=' {
        return padding_at(next, at);
    }
    at_character(next, at, c)
}
