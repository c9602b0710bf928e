//! Why a reference stands for nothing.
ghost use Rattle.std.specs.Prelude.{◌≡◌};
ghost use Rattle.oer_module_syntax.specs.declared.fault.Why.TheVariants.{Memory};
ghost use Rattle.oer_module_values.specs.declared.error.Why.TheVariants.{Unread};

use oer_module_names::{NameError, Place};
use oer_module_syntax::Fault;
use std::alloc::{AllocError, AllocFailed};

/// Why a type or a value stands for nothing that can be told.
#[derive(Clone, Copy, PartialEq, Eq)]
pub enum Why<'n> {
    /// Tokens that can't be read as items or as a value, or memory that couldn't be had.
    Unread(oer_module_syntax::Why),
    /// A name that stands for no assignment.
    Unnamed(NameError<'n>),
    /// The way from reference to reference comes round, or has more than 255 steps.
    Circular,
    /// The name of something else than a type or a set of values.
    NotAType,
    /// The name of something else than a value.
    NotAValue,
    /// A value, or a type that governs one, that is of another kind than what is asked for.
    NotANumber,
    /// An item of an enumeration that has no number in parentheses.
    Unnumbered,
    /// What depends on parameters, or on a field of a class or an object.
    Unsettled,
    /// A number that doesn't fit 128 bits with a sign.
    TooLarge,
}

/// Why a type or a value stands for nothing that can be told, and where that shows. Where memory couldn't be had, the
/// place says nothing.
#[derive(Clone, Copy, PartialEq, Eq)]
pub struct Error<'n> {
    pub place: Place,
    pub why: Why<'n>,
}

/// The fault of tokens of this module.
pub fn unread<'n>(module: usize, fault: Fault) -> Error<'n>
    ensures place { result.place ≡ record { «module» = «module»; at = fault.at } }
    ensures why { result.why ≡ Unread fault.why }
{
    Error {
        place: Place {
            module,
            at: fault.at,
        },
        why: Why::Unread(fault.why),
    }
}

const NOWHERE: Place = Place { module: 0, at: 0 };

impl<'n> From<AllocError> for Error<'n> {
    ghost from_gives = { λ _ e. e.why ≡ Unread Memory };

    fn from(_: AllocError) -> Error<'n> {
        Error {
            place: NOWHERE,
            why: Why::Unread(oer_module_syntax::Why::Memory),
        }
    }
}

impl<'n, T: Drop> From<AllocFailed<T>> for Error<'n> {
    ghost from_gives = { λ _ e. e.why ≡ Unread Memory };

    fn from(_: AllocFailed<T>) -> Error<'n> {
        Error {
            place: NOWHERE,
            why: Why::Unread(oer_module_syntax::Why::Memory),
        }
    }
}
