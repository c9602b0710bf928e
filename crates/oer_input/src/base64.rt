//! Octets in base64 (RFC 4648).
ghost use Rattle.std.specs.Prelude.{◌≡◌};
ghost use Rattle.oer_input.specs.Faults.{Gives};
ghost use Rattle.oer_input.specs.Base64.{base64_of, ended};

use crate::fault::Fault;
use crate::group::{Next, Step, step_at};
use std::alloc::Global;

// What the octets are where the text ends.
fn ended(next: Next, at: usize, octets: Vec<u8>) -> Result<Vec<u8>, Fault>
    ensures { Gives result (ended next at octets.items) }
{
    match next {
        Next::First | Next::End => Ok(octets),
        Next::Second(_) => Err(Fault::Length(at)),
        Next::Third(left, last) | Next::Fourth(left, last) => {
            if left == 0 {
                Ok(octets)
            } else {
                Err(Fault::Bits(last))
            }
        }
        Next::Padding => Err(Fault::Padding(at)),
    }
}

/// The octets that a text in base64 spells.
///
/// # Errors
/// Character, if something is in the text that base64 doesn't have; Padding, if a `=` is where none may be, or lacks, or
/// something follows it; Length, if the last group has one character; Bits, if the bits that are left over aren't 0; Memory, if an
/// allocation fails.
pub fn base64_octets(alloc: Global, text: &[u8]) -> Result<Vec<u8>, Fault>
    ensures { Gives result (base64_of text.now) }
{
    let mut octets = Vec::new(alloc);
    let mut next = Next::First;
    for (at, c) in text.iter().enumerate() {
        match step_at(next, at, *c) {
            Step::To(after) => next = after,
            Step::Octet(octet, after) => {
                octets.push(octet)?;
                next = after;
            }
            Step::Stops(fault) => return Err(fault),
        }
    }
    ended(next, text.len(), octets)
}
