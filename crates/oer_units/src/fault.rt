//! Why octets are rejected.
ghost use Rattle.std.specs.Prelude.{◌≡◌};
ghost use Rattle.oer_units.specs.Faults.{why_number, why_name};

use thiserror::Error;

/// Why octets are rejected by a reader. It displays as its name.
#[derive(Clone, Copy, Debug, PartialEq, Eq, Error)]
#[error("{}", self.name())]
pub enum Why {
    /// An allocation failed.
    Memory,
    /// The source failed.
    Device,
    /// The reader gave no further octet.
    End,
    /// The limit would be passed, outside an open type.
    Limit,
    /// An open type would be passed, or was not filled.
    Window,
    /// A length determinant begins with `80`.
    LengthForm,
    /// A counted number of no octets.
    EmptyNumber,
    /// A number outside its range or bounds.
    IntegerRange,
    /// An enumeration with count 0, or outside 64 bits.
    EnumForm,
    /// An unlisted number, and the enumeration is not extensible.
    UnknownEnum,
    /// A size outside its constraint, or above 2^64 - 1.
    Size,
    /// A character outside the type, or not UTF-8.
    Character,
    /// No initial octet of a bit string, or a wrong one.
    BitUnused,
    /// Contents that are no object identifier.
    ObjectId,
    /// A nonzero padding bit of a preamble.
    PreamblePadding,
    /// No spelling of a tag, or a number above 2^32 - 1.
    TagForm,
    /// A tag that no alternative has, and the CHOICE has no extension marker.
    UnknownAlternative,
    /// A set bit for an addition past place 65,535.
    UnknownAddition,
}

impl Why {
    /// The number of the reason, from 1 on.
    pub fn number(self) -> u8
        ensures { result ≡ why_number self }
    {
        match self {
            Why::Memory => 1,
            Why::Device => 2,
            Why::End => 3,
            Why::Limit => 4,
            Why::Window => 5,
            Why::LengthForm => 6,
            Why::EmptyNumber => 7,
            Why::IntegerRange => 8,
            Why::EnumForm => 9,
            Why::UnknownEnum => 10,
            Why::Size => 11,
            Why::Character => 12,
            Why::BitUnused => 13,
            Why::ObjectId => 14,
            Why::PreamblePadding => 15,
            Why::TagForm => 16,
            Why::UnknownAlternative => 17,
            Why::UnknownAddition => 18,
        }
    }

    /// The name of the reason, as it is written here.
    pub fn name(self) -> &'static str
        ensures { result.now ≡ why_name self }
    {
        match self {
            Why::Memory => "Memory",
            Why::Device => "Device",
            Why::End => "End",
            Why::Limit => "Limit",
            Why::Window => "Window",
            Why::LengthForm => "LengthForm",
            Why::EmptyNumber => "EmptyNumber",
            Why::IntegerRange => "IntegerRange",
            Why::EnumForm => "EnumForm",
            Why::UnknownEnum => "UnknownEnum",
            Why::Size => "Size",
            Why::Character => "Character",
            Why::BitUnused => "BitUnused",
            Why::ObjectId => "ObjectId",
            Why::PreamblePadding => "PreamblePadding",
            Why::TagForm => "TagForm",
            Why::UnknownAlternative => "UnknownAlternative",
            Why::UnknownAddition => "UnknownAddition",
        }
    }
}

/// An error, and how many octets had been read when it was found.
#[derive(Clone, Copy, Debug, PartialEq, Eq, Error)]
#[error("{why} at {taken}")]
pub struct ReadFault {
    pub taken: u64,
    pub why: Why,
}

/// The sink failed after it took so many octets of the unit.
#[derive(Clone, Copy, Debug, PartialEq, Eq, Error)]
#[error("the sink failed after {written} octets")]
pub struct SinkFault {
    pub written: u64,
}
