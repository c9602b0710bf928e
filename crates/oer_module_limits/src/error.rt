//! Why a type has no limits.
ghost use Rattle.std.specs.Prelude.{◌≡◌};
ghost use Rattle.oer_module_syntax.specs.declared.fault.Why.TheVariants as fault;
ghost use Rattle.oer_module_values.specs.declared.error.Why.TheVariants as told;
ghost use Rattle.oer_module_limits.specs.declared.error.Why.TheVariants.{Unresolved};

use oer_module_names::Place;
use std::alloc::{AllocError, AllocFailed};

/// Why a type has no limits.
#[derive(Clone, Copy, PartialEq, Eq)]
pub enum Why<'n> {
    /// What a reference stands for can't be told, tokens can't be read, or memory couldn't be had.
    Unresolved(oer_module_values::Why<'n>),
    /// Sets nest deeper than is read.
    TooDeep,
    /// Elements that the type doesn't have, or a type that has no such limits (X.680, 51.1).
    Inapplicable,
    /// A value that is no whole number.
    NotANumber,
    /// `<` at MIN or MAX, which isn't read.
    OpenEnd,
    /// A number at the end of 128 bits with a sign.
    TooLarge,
    /// The name of a set of values, which isn't read.
    ValueSet,
    /// A contained type, which isn't read (X.680, 51.3).
    Contained,
    /// No value is allowed.
    Empty,
    /// The octets depend on whether EXCEPT bounds, or a constraint that has an extension marker and is followed by another, on
    /// which readers differ; or SIZE with a marker is a part of a set.
    Differs,
}

/// Why a type has no limits, and where that shows. Where memory couldn't be had, the place says nothing.
#[derive(Clone, Copy, PartialEq, Eq)]
pub struct Error<'n> {
    pub place: Place,
    pub why: Why<'n>,
}

const NOWHERE: Place = Place { module: 0, at: 0 };

impl<'n> From<oer_module_values::Error<'n>> for Error<'n> {
    ghost from_gives = { λ e r. r ≡ record { place = e.place; why = Unresolved e.why } };

    fn from(error: oer_module_values::Error<'n>) -> Error<'n> {
        Error {
            place: error.place,
            why: Why::Unresolved(error.why),
        }
    }
}

impl<'n> From<AllocError> for Error<'n> {
    ghost from_gives = { λ _ e. e.why ≡ Unresolved (told.Unread fault.Memory) };

    fn from(_: AllocError) -> Error<'n> {
        Error {
            place: NOWHERE,
            why: Why::Unresolved(oer_module_values::Why::Unread(oer_module_syntax::Why::Memory)),
        }
    }
}

impl<'n, T: Drop> From<AllocFailed<T>> for Error<'n> {
    ghost from_gives = { λ _ e. e.why ≡ Unresolved (told.Unread fault.Memory) };

    fn from(_: AllocFailed<T>) -> Error<'n> {
        Error {
            place: NOWHERE,
            why: Why::Unresolved(oer_module_values::Why::Unread(oer_module_syntax::Why::Memory)),
        }
    }
}
