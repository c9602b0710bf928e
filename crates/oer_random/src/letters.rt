//! The characters of strings.
ghost use Rattle.std.specs.Prelude.{◌≡◌, ◌<◌, IfOk, encode_utf8_all, map, string_bytes};
ghost use Rattle.std.specs.Char.{InScalarRange};
ghost use Rattle.oer_random.specs.Leaves.{letter as spec_letter, numeric_letter as spec_numeric, printable_letter as spec_printable, sign as spec_sign, text_of as spec_text, utf8_letter as spec_utf8};
ghost use Rattle.oer_random.specs.Words.{words as spec_words};

use crate::words::words;
use std::alloc::{AllocError, Global};

/// The kinds of strings of characters.
#[derive(Clone, Copy)]
pub enum Letters {
    Ia5,
    Visible,
    Numeric,
    Printable,
    Utf8,
}

/// The signs of a PrintableString.
const SIGNS: &[u8; 12] = b" '()+,-./:=?";

fn numeric_letter(number: u64) -> u64
    requires { number < 11 }
    ensures { result ≡ spec_numeric number }
{
    if number < 10 { 48 + number } else { 32 }
}

fn sign(number: u64) -> u64
    requires { number < 12 }
    ensures { result ≡ spec_sign number }
{
    u64::from(SIGNS[number as usize])
}

fn printable_letter(number: u64) -> u64
    requires { number < 74 }
    ensures { result ≡ spec_printable number }
{
    match number {
        0..=25 => 65 + number,
        26..=51 => 71 + number,
        52..=61 => number - 4,
        _ => sign(number - 62),
    }
}

/// A character that has 1, 2, 3, or 3 or 4 octets in UTF-8.
fn utf8_letter(octets: u64, number: u64) -> u64
    ensures { result ≡ spec_utf8 octets number }
{
    match octets {
        0 => number % 128,
        1 => 128 + number % 1920,
        2 => 2048 + number % 53248,
        _ => 57344 + number % 1_056_768,
    }
}

fn code(letters: Letters, number: u64) -> u64
    ensures { result ≡ spec_letter letters number }
{
    match letters {
        Letters::Ia5 => number % 128,
        Letters::Visible => 32 + number % 95,
        Letters::Numeric => numeric_letter(number % 11),
        Letters::Printable => printable_letter(number % 74),
        Letters::Utf8 => utf8_letter(number % 4, number / 4),
    }
}

fn letter(letters: Letters, number: u64) -> char
    ensures { result ≡ spec_letter letters number }
{
    match char::from_u32(code(letters, number) as u32) {
        Some(letter) => letter,
        None => unreachable!(),
    }
}

/// So many characters.
pub(crate) fn text(
    alloc: Global,
    letters: Letters,
    count: u64,
    seed: u64,
) -> Result<String, AllocError>
    ensures { IfOk result (λ s. string_bytes s ≡ spec_text letters count seed) }
{
    let words = words(alloc, seed, count)?;
    let mut text = String::new(alloc);
    for word in &words {
        text.push(letter(letters, *word))?;
    }
    Ok(text)
}
