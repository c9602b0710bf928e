//! What is wrong with a text.
ghost use Rattle.std.specs.Prelude.{◌≡◌};
ghost use Rattle.oer_value_notation.specs.Faults.{text_why_name};
ghost use Rattle.oer_value_notation.specs.declared.fault.TextWhy.TheVariants.{Memory};

use oer_types::SchemaFault;
use std::alloc::{AllocError, AllocFailed};
use std::fmt;
use thiserror::Error;

/// Why a text is rejected. The reasons are numbered from 1 in this order. It displays as its
/// name.
#[derive(Clone, Copy, Debug, PartialEq, Eq)]
pub enum TextWhy {
    /// An allocation failed.
    Memory,
    /// No token begins here, or it has no end.
    Token,
    /// A token that the grammar doesn't have here.
    Syntax,
    /// A number out of range for its place: bounds and INTEGER defaults have 128 bits and a sign,
    /// items 64 bits and a sign, sizes 64 bits, tags 32 bits, arcs 128 bits.
    Number,
    /// A Name that no earlier definition has.
    Name,
    /// A Name that is defined twice.
    Repeated,
    /// Tags on some alternatives only, or numbers on some items only.
    Mixed,
    /// A value that isn't in the notation of the component's type.
    Default,
    /// The type isn't well-formed.
    Schema(SchemaFault),
}

impl fmt::Display for TextWhy {
    fn fmt<W: fmt::Write>(&self, f: &mut fmt::Formatter<W>) -> fmt::Result {
        f.write_str(self.name())
    }
}

impl std::error::Error for TextWhy {}

impl TextWhy {
    /// The name of the reason, as it is written here; for `Schema` that of the fault.
    pub fn name(self) -> &'static str
        ensures { result.now ≡ text_why_name self }
    {
        match self {
            TextWhy::Memory => "Memory",
            TextWhy::Token => "Token",
            TextWhy::Syntax => "Syntax",
            TextWhy::Number => "Number",
            TextWhy::Name => "Name",
            TextWhy::Repeated => "Repeated",
            TextWhy::Mixed => "Mixed",
            TextWhy::Default => "Default",
            TextWhy::Schema(fault) => fault.name(),
        }
    }
}

/// What is wrong with a text, and the byte at which the token or type begins that shows it; at the
/// text's end it is the text's length.
#[derive(Clone, Copy, Debug, PartialEq, Eq, Error)]
#[error("{why} at {at}")]
pub struct TextFault {
    pub at: usize,
    pub why: TextWhy,
}

impl From<AllocError> for TextFault {
    ghost from_gives = { λ _ e. e.why ≡ Memory };

    fn from(_: AllocError) -> TextFault {
        TextFault {
            at: 0,
            why: TextWhy::Memory,
        }
    }
}

impl<T: Drop> From<AllocFailed<T>> for TextFault {
    ghost from_gives = { λ _ e. e.why ≡ Memory };

    fn from(_: AllocFailed<T>) -> TextFault {
        TextFault {
            at: 0,
            why: TextWhy::Memory,
        }
    }
}
