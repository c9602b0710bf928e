//! The octets that `--in` gives, and the words without it.
ghost use Rattle.std.specs.Prelude.{◌≡◌, List, ℕ, false, true, map, option_map, string_bytes};
ghost use Rattle.oer_input_cmd.specs.Errors.{Gives, status_of};
ghost use Rattle.oer_input_cmd.specs.Asked.{asked_of};
ghost use Rattle.oer_input_cmd.specs.Given.{Ends, asks_input, given, given_by, given_of, is_read, octets_for, octets_seen, status_with};
ghost use Rattle.oer_input_cmd.specs.Input.{GivesAll, MayBeLeft, status_after};

use crate::asked::{Asked, Program, asked_by};
use crate::error::{Error, report};
use crate::input::read_octets;
use oer_input::Coding;
use oer_words::without_option;
use std::alloc::Global;
use std::io::{Read, Write};

/// The octets that `--in` gives, and the words that stay, the program's name first.
#[derive(Drop)]
pub struct Given {
    /// None with `--in=raw`, where the octets are those that standard input has left.
    pub octets: Option<Vec<u8>>,
    pub words: Vec<String>,
}

// The octets that the input spells; none where it isn't a text.
fn octets_for<R: Read>(
    alloc: Global,
    coding: Coding,
    input: &mut R,
) -> Result<Option<Vec<u8>>, Error>
    ensures exact { (xs : List ℕ) × MayBeLeft (R.remaining input.old) xs × Gives octets_seen result (octets_for coding xs) }
    ensures untouched { is_read coding ≡ false → input.new ≡ input.old }
    ensures takes { is_read coding ≡ true → GivesAll (status_after result) (R.remaining input.old) (R.remaining input.new) }
{
    match coding {
        Coding::Raw => Ok(None),
        Coding::Hex | Coding::Base64 => match read_octets(alloc, coding, input) {
            Ok(octets) => Ok(Some(octets)),
            Err(error) => Err(error),
        },
    }
}

// The same with the words that stay.
fn given_by<R: Read>(alloc: Global, asked: Asked, input: &mut R) -> Result<Given, Error>
    ensures exact { (xs : List ℕ) × MayBeLeft (R.remaining input.old) xs × Gives given_of result (given_by xs (asked_of asked)) }
    ensures untouched { is_read asked.coding ≡ false → input.new ≡ input.old }
    ensures takes { is_read asked.coding ≡ true → GivesAll (status_after result) (R.remaining input.old) (R.remaining input.new) }
{
    match octets_for(alloc, asked.coding, input) {
        Ok(octets) => Ok(Given {
            octets,
            words: asked.words,
        }),
        Err(error) => Err(error),
    }
}

// What `--in` among the words gives.
fn given_from<R: Read>(
    alloc: Global,
    program: Program,
    words: &[String],
    input: &mut R,
) -> Result<Option<Given>, Error>
    ensures exact { (xs : List ℕ) × MayBeLeft (R.remaining input.old) xs
        × Gives (option_map given_of) result (given program (map string_bytes words.now) xs) }
    ensures untouched { asks_input program (map string_bytes words.now) ≡ false → input.new ≡ input.old }
    ensures takes { asks_input program (map string_bytes words.now) ≡ true
        → GivesAll (status_after result) (R.remaining input.old) (R.remaining input.new) }
{
    let Ok(found) = without_option(alloc, "--in", words) else {
        return Err(Error::Memory);
    };
    let asked = match asked_by(program, found) {
        Ok(Some(asked)) => asked,
        Ok(None) => return Ok(None),
        Err(error) => return Err(error),
    };
    match given_by(alloc, asked, input) {
        Ok(given) => Ok(Some(given)),
        Err(error) => Err(error),
    }
}

/// What `--in` among the words gives: the octets that all the input has left spells, and the words without `--in`, the
/// program's name first; none where there is no `--in`. With `--in=raw` the input isn't read, and the octets are none.
///
/// # Errors
/// An error is told of in one line on `errors`, and its status is returned: 2 where the words are at fault, or where the input
/// spells no octets; 3 where a read or an allocation failed.
pub fn input_given<R: Read, E: Write>(
    alloc: Global,
    program: Program,
    words: &[String],
    input: &mut R,
    errors: &mut E,
) -> Result<Option<Given>, u8>
    ensures exact { (xs : List ℕ) × MayBeLeft (R.remaining input.old) xs
        × Ends (option_map given_of) result (given program (map string_bytes words.now) xs)
        (E.contents errors.old) (E.contents errors.new) }
    ensures untouched { asks_input program (map string_bytes words.now) ≡ false → input.new ≡ input.old }
    ensures takes { asks_input program (map string_bytes words.now) ≡ true
        → GivesAll (status_with result) (R.remaining input.old) (R.remaining input.new) }
{
    match given_from(alloc, program, words, input) {
        Ok(given) => Ok(given),
        Err(error) => Err(report(alloc, error, errors)),
    }
}
