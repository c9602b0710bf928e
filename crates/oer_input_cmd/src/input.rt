//! The octets that standard input spells.
ghost use Rattle.std.specs.Prelude.{◌≡◌, ℕ, List};
ghost use Rattle.oer_input.specs.Octets.{octets_of};
ghost use Rattle.oer_input_cmd.specs.Errors.{Gives};
ghost use Rattle.oer_input_cmd.specs.Input.{GivesAll, MayBeLeft, by_fault, items_of, status_after};

use crate::error::Error;
use oer_input::{Coding, octets_in};
use std::alloc::Global;
use std::io::{ErrorKind, Read};

// The octets that a text spells.
fn octets_by(alloc: Global, coding: Coding, text: &[u8]) -> Result<Vec<u8>, Error>
    ensures { Gives items_of result (by_fault (octets_of coding text.now)) }
{
    match octets_in(alloc, coding, text) {
        Ok(octets) => Ok(octets),
        Err(fault) => Err(Error::from(fault)),
    }
}

/// The octets that all that the input has left spells.
///
/// # Errors
/// Text, if it spells none; Input, if a read fails; Memory, if an allocation fails.
pub fn read_octets<R: Read>(alloc: Global, coding: Coding, input: &mut R) -> Result<Vec<u8>, Error>
    ensures exact { (xs : List ℕ) × MayBeLeft (R.remaining input.old) xs × Gives items_of result (by_fault (octets_of coding xs)) }
    ensures takes { GivesAll (status_after result) (R.remaining input.old) (R.remaining input.new) }
{
    let mut text = Vec::new(alloc);
    match input.read_to_end(&mut text) {
        Ok(_) => octets_by(alloc, coding, &text),
        Err(error) if error.kind() == ErrorKind::OutOfMemory => Err(Error::Memory),
        Err(_) => Err(Error::Input),
    }
}
