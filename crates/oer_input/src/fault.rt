//! Why a text spells no octets.
ghost use Rattle.std.specs.Prelude.{◌≡◌, Some};
ghost use Rattle.oer_input.specs.Faults.{text_of};
ghost use Rattle.oer_input.specs.declared.fault.Fault.TheVariants.{Memory};

use std::alloc::{AllocError, AllocFailed};
use std::error::Error;
use std::fmt;

/// Why a text spells no octets, and the place in the text, in octets from 0. It displays as `Digit at 7`.
#[derive(Clone, Copy, Debug, PartialEq, Eq)]
pub enum Fault {
    /// Here a hexadecimal digit has to be, and something else stands there.
    Digit(usize),
    /// The text ends here, where a hexadecimal digit has to be.
    Odd(usize),
    /// Here is no character of base64, no `=` and no white space.
    Character(usize),
    /// Here is a `=` where none may be, or a character of base64 behind a `=`; or the text ends here, and lacks a `=`.
    Padding(usize),
    /// The text ends here, and its last group has one character.
    Length(usize),
    /// This is the last character, and the bits that are left over aren't 0.
    Bits(usize),
    /// An allocation failed.
    Memory,
}

impl fmt::Display for Fault {
    ghost output = { λ fault. Some (text_of fault) };

    fn fmt<W: fmt::Write>(&self, f: &mut fmt::Formatter<W>) -> fmt::Result {
        match self {
            Fault::Digit(at) => write!(f, "Digit at {at}"),
            Fault::Odd(at) => write!(f, "Odd at {at}"),
            Fault::Character(at) => write!(f, "Character at {at}"),
            Fault::Padding(at) => write!(f, "Padding at {at}"),
            Fault::Length(at) => write!(f, "Length at {at}"),
            Fault::Bits(at) => write!(f, "Bits at {at}"),
            Fault::Memory => f.write_str("out of memory"),
        }
    }
}

impl Error for Fault {}

impl From<AllocError> for Fault {
    ghost from_gives = { λ _ fault. fault ≡ Memory };

    fn from(_: AllocError) -> Fault {
        Fault::Memory
    }
}

impl<T: Drop> From<AllocFailed<T>> for Fault {
    ghost from_gives = { λ _ fault. fault ≡ Memory };

    fn from(_: AllocFailed<T>) -> Fault {
        Fault::Memory
    }
}
