//! What is added to the error of hexadecimal digits.
ghost use Rattle.std.specs.Prelude.{◌≡◌, ◌≤◌, IfOk, length, string_bytes};
ghost use Rattle.oer_explain.specs.Digits.{digits_before, digits_notes, digits_sentence};

use crate::place::notes_at;
use oer_places::is_digit;
use std::alloc::{AllocError, Global};

// How many digits a text begins with.
fn digits_before(text: &[u8]) -> usize
    ensures count { result ≡ digits_before text.now }
    ensures most { result ≤ length text.now }
{
    let mut count = 0;
    for octet in text {
        if !is_digit(*octet) {
            return count;
        }
        count += 1;
    }
    count
}

// What is wrong at the end of the digits.
fn digits_sentence(is_end: bool) -> &'static str
    ensures { result.now ≡ digits_sentence is_end }
{
    if is_end {
        return "the last digit is alone, and two spell an octet";
    }
    "a hexadecimal digit has to be here"
}

/// What is added where the text is not an even number of hexadecimal digits: the place behind those that it begins with, and what is wrong
/// there; nothing where it is. It fails where an allocation does.
pub fn digits_notes(alloc: Global, text: &str) -> Result<String, AllocError>
    ensures { IfOk result (λ notes. string_bytes notes ≡ digits_notes text.now) }
{
    let text = text.as_bytes();
    let at = digits_before(text);
    let is_end = at == text.len();
    if is_end && at % 2 == 0 {
        return Ok(String::new(alloc));
    }
    notes_at(alloc, text, at, digits_sentence(is_end), "")
}
