//! The octets that a text spells.
ghost use Rattle.std.specs.Prelude.{◌≡◌, ℕ, List, false, IfOk, IfErr};
ghost use Rattle.oer_input.specs.Faults.{Gives, is_memory};
ghost use Rattle.oer_input.specs.Octets.{Spells, octets_of};

use crate::base64::base64_octets;
use crate::coding::Coding;
use crate::fault::Fault;
use crate::hex::hex_octets;
use std::alloc::Global;

/// The octets that a text spells in this coding.
///
/// # Errors
/// The first that comes from the left. In hexadecimal digits: Digit, if no digit is where one has to be; Odd, if the text ends
/// there. In base64: Character, if something is in the text that base64 doesn't have; Padding, if a `=` is where none may be, or is
/// missing after another, or if a character of base64 stands behind a `=`; Length, if the last group has one character; Bits,
/// if the bits that are left over aren't 0. In each: Memory, if an allocation fails.
pub fn octets_in(alloc: Global, coding: Coding, text: &[u8]) -> Result<Vec<u8>, Fault>
    // Read from the left: which octets, and which error.
    ensures exact { Gives result (octets_of coding text.now) }
    // The text spells the octets, by the rule. One that spells none is an error, and no other is.
    ensures spells { IfOk result (λ octets. Spells coding text.now octets.items) }
    ensures rejects { IfErr result (λ fault. is_memory fault ≡ false → (os : List ℕ) → Spells coding text.now os → ⊥) }
{
    match coding {
        Coding::Raw => Ok(Vec::from_slice(alloc, text)?),
        Coding::Hex => hex_octets(alloc, text),
        Coding::Base64 => base64_octets(alloc, text),
    }
}
