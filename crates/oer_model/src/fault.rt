//! Why a shape is no type.
ghost use Rattle.std.specs.Prelude.{◌≡◌};
ghost use Rattle.oer_model.specs.Faults.{schema_fault_name};

use std::error::Error;
use std::fmt;

/// Why a shape is no type. The faults are numbered from 1 in this order. It displays as its name.
#[derive(Clone, Copy, Debug, PartialEq, Eq)]
pub enum SchemaFault {
    /// More than 32 levels.
    TooDeep,
    /// More than 4,096 parts: types, the whole one included, and items of enumerations.
    TooManyParts,
    /// The lower bound of an INTEGER is above its upper bound.
    BoundOrder,
    /// The lower end of a size is above its upper end.
    SizeOrder,
    /// A name that is no identifier (X.680, 12.3): a letter a to z, then letters, digits and
    /// hyphens, no hyphen last and no two together.
    BadName,
    /// The same name twice in one SEQUENCE, CHOICE or ENUMERATED, root and additions together.
    RepeatedName,
    /// An ENUMERATED without items, or a CHOICE without alternatives in its root.
    NoItems,
    /// The same number twice in one ENUMERATED.
    RepeatedNumber,
    /// The same tag twice in one CHOICE, root and additions together.
    RepeatedTag,
    /// A default that doesn't fit its component's type.
    DefaultMisfit,
    /// A SEQUENCE OF whose elements may take no octets.
    EmptyElement,
}

impl fmt::Display for SchemaFault {
    fn fmt<W: fmt::Write>(&self, f: &mut fmt::Formatter<W>) -> fmt::Result {
        f.write_str(self.name())
    }
}

impl Error for SchemaFault {}

impl SchemaFault {
    /// The name of the fault, as it is written here.
    pub fn name(self) -> &'static str
        ensures { result.now ≡ schema_fault_name self }
    {
        match self {
            SchemaFault::TooDeep => "TooDeep",
            SchemaFault::TooManyParts => "TooManyParts",
            SchemaFault::BoundOrder => "BoundOrder",
            SchemaFault::SizeOrder => "SizeOrder",
            SchemaFault::BadName => "BadName",
            SchemaFault::RepeatedName => "RepeatedName",
            SchemaFault::NoItems => "NoItems",
            SchemaFault::RepeatedNumber => "RepeatedNumber",
            SchemaFault::RepeatedTag => "RepeatedTag",
            SchemaFault::DefaultMisfit => "DefaultMisfit",
            SchemaFault::EmptyElement => "EmptyElement",
        }
    }
}
