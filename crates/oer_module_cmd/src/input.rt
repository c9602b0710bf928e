//! The text of modules on standard input.
ghost use Rattle.std.specs.Prelude.{◌≡◌, ℕ, List, IfOk, false, true, map, string_bytes};
ghost use Rattle.oer_module_options.specs.Scan.{text_of};
ghost use Rattle.oer_module_cmd.specs.Errors.{Gives};
ghost use Rattle.oer_module_cmd.specs.Input.{GivesAll, MayBeLeft, input_for, reads_input, status_after, text_in, text_or, with_input};

use crate::error::Error;
use oer_module_options::is_input;
use std::alloc::{AllocError, Global};
use std::io::{ErrorKind, Read};

// The text that octets are.
fn text_in<'a>(octets: Vec<u8>) -> Result<String, Error<'a>>
    ensures { Gives string_bytes result (text_in octets.items) }
{
    match String::from_utf8(octets) {
        Ok(text) => Ok(text),
        Err(_) => Err(Error::NotText),
    }
}

// All that the input has left, as a text.
fn read_text<'a, R: Read>(alloc: Global, input: &mut R) -> Result<String, Error<'a>>
    ensures exact { (xs : List ℕ) × MayBeLeft (R.remaining input.old) xs × Gives string_bytes result (text_in xs) }
    ensures takes { GivesAll (status_after result) (R.remaining input.old) (R.remaining input.new) }
{
    let mut octets = Vec::new(alloc);
    match input.read_to_end(&mut octets) {
        Ok(_) => text_in(octets),
        Err(error) if error.kind() == ErrorKind::OutOfMemory => Err(Error::Memory),
        Err(_) => Err(Error::Input),
    }
}

/// Whether one of the texts is that on standard input.
pub fn reads_input(texts: &[&str]) -> bool
    ensures { result ≡ reads_input (map text_of texts.now) }
{
    for text in texts {
        if is_input(text) {
            return true;
        }
    }
    false
}

/// All that the input has left, where one of the texts asks for it, and else no text.
///
/// # Errors
/// NotText, if it isn't UTF-8; Input, if a read fails; Memory, if an allocation fails.
pub fn input_for<'a, R: Read>(
    alloc: Global,
    texts: &[&str],
    input: &mut R,
) -> Result<String, Error<'a>>
    ensures exact { (xs : List ℕ) × MayBeLeft (R.remaining input.old) xs × Gives string_bytes result (input_for (map text_of texts.now) xs) }
    ensures untouched { reads_input (map text_of texts.now) ≡ false → input.new ≡ input.old }
    ensures takes { reads_input (map text_of texts.now) ≡ true
        → GivesAll (status_after result) (R.remaining input.old) (R.remaining input.new) }
{
    if reads_input(texts) {
        return read_text(alloc, input);
    }
    Ok(String::new(alloc))
}

fn text_or<'a>(given: &'a str, text: &'a str) -> &'a str
    ensures { result.now ≡ text_or given.entry.now text.entry.now }
{
    if is_input(text) { given } else { text }
}

/// The texts, with that on standard input in the place of `-`.
pub fn with_input<'a>(
    alloc: Global,
    given: &'a str,
    texts: &[&'a str],
) -> Result<Vec<&'a str>, AllocError>
    ensures { IfOk result (λ made. map text_of made.items ≡ with_input given.entry.now (map text_of texts.now)) }
{
    let mut made = Vec::new(alloc);
    for text in texts {
        made.push(text_or(given, text))?;
    }
    Ok(made)
}
