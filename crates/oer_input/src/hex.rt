//! Octets in hexadecimal digits.
ghost use Rattle.std.specs.Prelude.{◌≡◌, ◌<◌};
ghost use Rattle.oer_input.specs.Faults.{Gives};
ghost use Rattle.oer_input.specs.Hex.{IsFit, IsFitStep, at_free, at_octet, digit_of, ended, first, hex_of, is_separator, second, second_or_x, step_at};

use crate::fault::Fault;
use std::alloc::Global;

/// What may stand next in the text.
#[derive(Clone, Copy)]
pub enum Next {
    /// What separates octets, an octet, or an octet behind `0x`.
    Free,
    /// What separates octets, or an octet: one stands right before it.
    Octet,
    /// The first digit of an octet, behind `0x`.
    First,
    /// The second digit of an octet whose first is 0; or an x, and that 0 begins `0x`.
    SecondOrX,
    /// The second digit of an octet, of which this is the first.
    Second(u8),
}

/// What an octet of the text does.
#[derive(Clone, Copy)]
pub enum Step {
    /// The text goes on.
    To(Next),
    /// It is the last digit of this octet.
    Octet(u8),
    /// It can't stand there.
    Stops,
}

fn digit_of(c: u8) -> Option<u8>
    ensures { result ≡ digit_of c }
{
    match c {
        b'0'..=b'9' => Some(c - b'0'),
        b'A'..=b'F' => Some(c - b'A' + 10),
        b'a'..=b'f' => Some(c - b'a' + 10),
        _ => None,
    }
}

fn is_separator(c: u8) -> bool
    ensures { result ≡ is_separator c }
{
    c == b' ' || c == b'\t' || c == b'\n' || c == b'\r' || c == b':' || c == b'-' || c == b','
}

fn first(c: u8) -> Step
    ensures exact { result ≡ first c }
    ensures fit { IsFitStep result }
{
    match digit_of(c) {
        Some(high) => Step::To(Next::Second(high)),
        None => Step::Stops,
    }
}

fn second(high: u8, c: u8) -> Step
    requires { high < 16 }
    ensures exact { result ≡ second high c }
    ensures fit { IsFitStep result }
{
    match digit_of(c) {
        Some(low) => Step::Octet(high * 16 + low),
        None => Step::Stops,
    }
}

fn at_octet(c: u8) -> Step
    ensures exact { result ≡ at_octet c }
    ensures fit { IsFitStep result }
{
    if is_separator(c) {
        return Step::To(Next::Free);
    }
    first(c)
}

fn at_free(c: u8) -> Step
    ensures exact { result ≡ at_free c }
    ensures fit { IsFitStep result }
{
    if c == b'0' {
        return Step::To(Next::SecondOrX);
    }
    at_octet(c)
}

fn second_or_x(c: u8) -> Step
    ensures exact { result ≡ second_or_x c }
    ensures fit { IsFitStep result }
{
    if c == b'x' || c == b'X' {
        return Step::To(Next::First);
    }
    second(0, c)
}

#[tactic(auto, unfolding(crate::specs::Hex::step_at))]
fn step_at(next: Next, c: u8) -> Step
    requires { IsFit next }
    ensures exact { result ≡ step_at next c }
    ensures fit { IsFitStep result }
{
    match next {
        Next::Free => at_free(c),
        Next::Octet => at_octet(c),
        Next::First => first(c),
        Next::SecondOrX => second_or_x(c),
        Next::Second(high) => second(high, c),
    }
}

// What the octets are where the text ends.
fn ended(next: Next, at: usize, octets: Vec<u8>) -> Result<Vec<u8>, Fault>
    ensures { Gives result (ended next at octets.items) }
{
    match next {
        Next::Free | Next::Octet => Ok(octets),
        Next::First | Next::SecondOrX | Next::Second(_) => Err(Fault::Odd(at)),
    }
}

/// The octets that the digits of a text spell.
///
/// # Errors
/// Digit, if no digit is where one has to be; Odd, if the text ends there; Memory, if an allocation fails.
pub fn hex_octets(alloc: Global, text: &[u8]) -> Result<Vec<u8>, Fault>
    ensures { Gives result (hex_of text.now) }
{
    let mut octets = Vec::new(alloc);
    let mut next = Next::Free;
    for (at, c) in text.iter().enumerate() {
        match step_at(next, *c) {
            Step::To(after) => next = after,
            Step::Octet(octet) => {
                octets.push(octet)?;
                next = Next::Octet;
            }
            Step::Stops => return Err(Fault::Digit(at)),
        }
    }
    ended(next, text.len(), octets)
}
