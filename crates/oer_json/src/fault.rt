//! Why JSON is refused.
ghost use Rattle.std.specs.Prelude.{◌≡◌};
ghost use Rattle.oer_json.specs.Faults.{json_fault_name};
ghost use Rattle.oer_json.specs.declared.fault.JsonFault.TheVariants.{Memory};

use std::alloc::{AllocError, AllocFailed};
use std::error::Error;
use std::fmt;

/// Why JSON is not taken as a value of a type. The faults are numbered from 1 in this
/// order. It displays as its name.
#[derive(Clone, Copy, Debug, PartialEq, Eq)]
pub enum JsonFault {
    /// An allocation failed.
    Memory,
    /// The JSON is of another kind than the type's values have, or its text has another form; the
    /// object of a CHOICE has no key or several.
    Kind,
    /// A key that is no component, addition or alternative, or text that is no item's name.
    Name,
    /// A component that must be there has no key.
    Missing,
    /// An integer outside 128 bits and a sign, the number of an item outside 64 bits and a sign, an
    /// arc above 2^128 - 1, a place above 65,535, or a tag's number above 2^32 - 1.
    Range,
    /// The value is of the right form and doesn't fit the type.
    Misfit,
}

impl fmt::Display for JsonFault {
    fn fmt<W: fmt::Write>(&self, f: &mut fmt::Formatter<W>) -> fmt::Result {
        f.write_str(self.name())
    }
}

impl Error for JsonFault {}

impl JsonFault {
    /// The name of the fault, as it is written here.
    pub fn name(self) -> &'static str
        ensures { result.now ≡ json_fault_name self }
    {
        match self {
            JsonFault::Memory => "Memory",
            JsonFault::Kind => "Kind",
            JsonFault::Name => "Name",
            JsonFault::Missing => "Missing",
            JsonFault::Range => "Range",
            JsonFault::Misfit => "Misfit",
        }
    }
}

impl From<AllocError> for JsonFault {
    ghost from_gives = { λ _ e. e ≡ Memory };

    fn from(_: AllocError) -> JsonFault {
        JsonFault::Memory
    }
}

impl<T: Drop> From<AllocFailed<T>> for JsonFault {
    ghost from_gives = { λ _ e. e ≡ Memory };

    fn from(_: AllocFailed<T>) -> JsonFault {
        JsonFault::Memory
    }
}
