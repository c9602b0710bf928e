//! Why a type has no text.
ghost use Rattle.std.specs.Prelude.{◌≡◌};
ghost use Rattle.oer_printer.specs.declared.fault.PrintFault.TheVariants as print;

use std::alloc::AllocError;
use thiserror::Error;

/// Why a type has no text.
#[derive(Clone, Copy, Debug, PartialEq, Eq, Error)]
pub enum PrintFault {
    /// An allocation failed.
    #[error("Memory")]
    Memory,
    /// A default is of constructed type, is an enumeration number that no item has, or is a text
    /// with a character below U+0020.
    #[error("NoNotation")]
    NoNotation,
}

impl From<AllocError> for PrintFault {
    ghost from_gives = { λ _ e. e ≡ print.Memory };

    fn from(_: AllocError) -> PrintFault {
        PrintFault::Memory
    }
}
