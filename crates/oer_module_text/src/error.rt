//! Why a type of a module has no text in our notation.
ghost use Rattle.std.specs.Prelude.{◌≡◌};
ghost use Rattle.oer_module_syntax.specs.declared.fault.Why.TheVariants as fault;
ghost use Rattle.oer_module_values.specs.declared.error.Why.TheVariants as told;
ghost use Rattle.oer_module_text.specs.Errors.{by_limits};
ghost use Rattle.oer_module_text.specs.declared.error.Why.TheVariants.{NotTaken, Unresolved};

use oer_module_names::Place;
use std::alloc::{AllocError, AllocFailed};

/// A part of ASN.1 that our types don't have, or that isn't read yet.
#[derive(Clone, Copy, Debug, PartialEq, Eq)]
pub enum Part {
    /// A type with a word of its own, as REAL.
    Word,
    /// SET.
    Set,
    /// SET OF.
    SetOf,
    /// Additions between `[[` and `]]`.
    Group,
    /// A second `...`, with components of the root behind it.
    SecondMarker,
    /// EXTENSIBILITY IMPLIED in the module's header.
    Implied,
    /// COMPONENTS OF.
    ComponentsOf,
    /// A name with actual parameters, or of a definition that has parameters.
    Parameters,
    /// A field of a class or an object that isn't a type's.
    Field,
    /// The type of an alternative, by `<`.
    Selection,
    /// INSTANCE OF.
    InstanceOf,
    /// ANY DEFINED BY.
    AnyDefinedBy,
    /// Named bits where the size isn't fixed: canonical octets leave out last bits that are 0.
    NamedBits,
    /// DEFAULT behind `...`.
    AddedDefault,
    /// A value after DEFAULT that our notation has no text for.
    Value,
    /// A CHOICE without a tag that is an alternative: it has the tags of its own alternatives.
    Untagged,
    /// Brackets in a module whose header has INSTRUCTIONS for another encoding.
    Instructions,
}

/// Why a type of a module has no text in our notation.
#[derive(Clone, Copy, PartialEq, Eq)]
pub enum Why<'n> {
    /// What a reference stands for can't be told, tokens can't be read, or memory couldn't be had.
    Unresolved(oer_module_values::Why<'n>),
    /// The numbers or the sizes that a type allows can't be told.
    Unlimited(oer_module_limits::Why<'n>),
    /// A part of ASN.1 that our types don't have, or that isn't read yet.
    NotTaken(Part),
    /// The number of an item of an ENUMERATED is that of another, or below one before it behind `...`, or too large.
    Misnumbered,
    /// The number of a tag that isn't between 0 and 2^32 - 1.
    TagNumber,
    /// A value after DEFAULT that is none of the type.
    NoSuchValue,
    /// Types nest deeper than 32 levels.
    TooDeep,
    /// A type has more than 4,096 parts: each type in it, itself included, and each item of an ENUMERATED.
    TooManyParts,
    /// The text of a type has more octets than it may have.
    TooLong,
    /// A size that 64 bits don't hold, or the number of an item that 64 bits with a sign don't.
    TooWide,
}

/// Why a type of a module has no text in our notation, and where that shows. Where memory couldn't be had, the place says
/// nothing.
#[derive(Clone, Copy, PartialEq, Eq)]
pub struct Error<'n> {
    pub place: Place,
    pub why: Why<'n>,
}

/// The error of a part that isn't taken, in a module at a byte.
pub fn refused<'n>(module: usize, at: usize, part: Part) -> Error<'n>
    ensures place { result.place ≡ record { «module» = «module»; at = at } }
    ensures why { result.why ≡ NotTaken part }
{
    Error {
        place: Place { module, at },
        why: Why::NotTaken(part),
    }
}

const NOWHERE: Place = Place { module: 0, at: 0 };

impl<'n> From<oer_module_values::Error<'n>> for Error<'n> {
    ghost from_gives = { λ e r. r ≡ record { place = e.place; why = Unresolved e.why } };

    fn from(error: oer_module_values::Error<'n>) -> Error<'n> {
        Error {
            place: error.place,
            why: Why::Unresolved(error.why),
        }
    }
}

impl<'n> From<oer_module_limits::Error<'n>> for Error<'n> {
    ghost from_gives = { λ e r. r ≡ record { place = e.place; why = by_limits e.why } };

    fn from(error: oer_module_limits::Error<'n>) -> Error<'n> {
        let why = match error.why {
            oer_module_limits::Why::Unresolved(why) => Why::Unresolved(why),
            why => Why::Unlimited(why),
        };
        Error {
            place: error.place,
            why,
        }
    }
}

impl<'n> From<AllocError> for Error<'n> {
    ghost from_gives = { λ _ e. e.why ≡ Unresolved (told.Unread fault.Memory) };

    fn from(_: AllocError) -> Error<'n> {
        Error {
            place: NOWHERE,
            why: Why::Unresolved(oer_module_values::Why::Unread(oer_module_syntax::Why::Memory)),
        }
    }
}

impl<'n, T: Drop> From<AllocFailed<T>> for Error<'n> {
    ghost from_gives = { λ _ e. e.why ≡ Unresolved (told.Unread fault.Memory) };

    fn from(_: AllocFailed<T>) -> Error<'n> {
        Error {
            place: NOWHERE,
            why: Why::Unresolved(oer_module_values::Why::Unread(oer_module_syntax::Why::Memory)),
        }
    }
}
