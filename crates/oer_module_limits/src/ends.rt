//! Values and ranges of values as ranges of numbers.
ghost use Rattle.std.specs.Prelude.{◌≡◌, ◌<◌, length, option_map};
ghost use Rattle.std.specs.Option.{ForSome};
ghost use Rattle.oer_module_bounds.specs.Sets.{set_of};
ghost use Rattle.oer_module_names.specs.Views.{modules_in};
ghost use Rattle.oer_module_terms.specs.Trees.{atom_of, bound_of, value_of};
ghost use Rattle.oer_module_values.specs.Views.{type_in};
ghost use Rattle.oer_module_limits.specs.Ends.{atom_number, high_by, low_by, lowered, raised, ranged, single, spanned, unbounded, value_number};
ghost use Rattle.oer_module_limits.specs.Errors.{Gives, seen};

use crate::error::{Error, Why};
use oer_module_bounds::{Range, Set};
use oer_module_names::{Names, Place};
use oer_module_terms::{Amount, Atom, Bound, Value};
use oer_module_values::{TypeIn, integer, number};
use std::alloc::Global;

/// The number past this one, if it is excluded.
fn raised<'n>(place: Place, excluded: bool, number: i128) -> Result<i128, Error<'n>>
    ensures { seen (λ n. n) result ≡ raised place excluded number }
{
    if !excluded {
        return Ok(number);
    }
    if number == i128::MAX {
        return Err(Error {
            place,
            why: Why::TooLarge,
        });
    }
    Ok(number + 1)
}

/// The number before this one, if it is excluded.
fn lowered<'n>(place: Place, excluded: bool, number: i128) -> Result<i128, Error<'n>>
    ensures { seen (λ n. n) result ≡ lowered place excluded number }
{
    if !excluded {
        return Ok(number);
    }
    if number == i128::MIN {
        return Err(Error {
            place,
            why: Why::TooLarge,
        });
    }
    Ok(number - 1)
}

fn unbounded<'n>(place: Place, excluded: bool) -> Result<Option<i128>, Error<'n>>
    ensures { seen (λ n. n) result ≡ unbounded place excluded }
{
    if excluded {
        return Err(Error {
            place,
            why: Why::OpenEnd,
        });
    }
    Ok(None)
}

/// The numbers from `low` to `high`.
#[tactic(auto, using(crate::proofs::Views::sets))]
fn spanned<'n>(place: Place, low: Option<i128>, high: Option<i128>) -> Result<Set, Error<'n>>
    ensures { seen set_of result ≡ spanned place low high }
{
    match Range::new(low, high) {
        Some(range) => Ok(Set::Range(range)),
        None => Err(Error {
            place,
            why: Why::TooLarge,
        }),
    }
}

fn atom_number<'m, 's, 't>(
    alloc: Global,
    names: &Names<'m, 's, 't>,
    governor: Option<TypeIn<'m, 's, 't>>,
    place: Place,
    atom: Atom<'s, 't>,
) -> Result<i128, Error<'t>>
    requires governor { ForSome governor (λ t. t.«module» < length (modules_in names.now)) }
    requires place { place.«module» < length (modules_in names.now) }
    ensures { Gives (λ n. n) result (atom_number (modules_in names.now) (option_map type_in governor.entry) place (atom_of atom.entry)) }
{
    let Atom::Amount(amount) = atom else {
        return Err(Error {
            place,
            why: Why::NotANumber,
        });
    };
    let number = match governor {
        Some(of) => number(alloc, names, of, place, amount)?,
        None => integer(alloc, names, place, amount)?,
    };
    Ok(number)
}

/// The number that a value in a module is, where a type governs it, if one does.
#[tactic(auto, using(oer_module_terms::proofs::Views::views))]
fn value_number<'m, 's, 't>(
    alloc: Global,
    names: &Names<'m, 's, 't>,
    governor: Option<TypeIn<'m, 's, 't>>,
    module: usize,
    value: &Value<'s, 't>,
) -> Result<i128, Error<'t>>
    requires governor { ForSome governor (λ t. t.«module» < length (modules_in names.now)) }
    requires place { «module» < length (modules_in names.now) }
    ensures { Gives (λ n. n) result (value_number (modules_in names.now) (option_map type_in governor.entry) «module» (value_of value.now)) }
{
    match value {
        Value::Atom { at, atom } => {
            let place = Place { module, at: *at };
            atom_number(alloc, names, governor, place, *atom)
        }
        Value::Numbered { at, .. } | Value::Choice { at, .. } | Value::Braces { at, .. } => {
            Err(Error {
                place: Place { module, at: *at },
                why: Why::NotANumber,
            })
        }
    }
}

/// The lower end of a range at a place.
fn low_end<'m, 's, 't>(
    alloc: Global,
    names: &Names<'m, 's, 't>,
    governor: Option<TypeIn<'m, 's, 't>>,
    place: Place,
    bound: &Bound<'s, 't>,
) -> Result<Option<i128>, Error<'t>>
    requires governor { ForSome governor (λ t. t.«module» < length (modules_in names.now)) }
    requires place { place.«module» < length (modules_in names.now) }
    ensures { Gives (λ n. n) result (low_by (modules_in names.now) (option_map type_in governor.entry) place (bound_of bound.now).limit bound.now.excluded) }
{
    let Some(value) = &bound.limit else {
        return unbounded(place, bound.excluded);
    };
    let number = value_number(alloc, names, governor, place.module, value)?;
    let number = raised(place, bound.excluded, number)?;
    Ok(Some(number))
}

/// The upper end of a range at a place.
fn high_end<'m, 's, 't>(
    alloc: Global,
    names: &Names<'m, 's, 't>,
    governor: Option<TypeIn<'m, 's, 't>>,
    place: Place,
    bound: &Bound<'s, 't>,
) -> Result<Option<i128>, Error<'t>>
    requires governor { ForSome governor (λ t. t.«module» < length (modules_in names.now)) }
    requires place { place.«module» < length (modules_in names.now) }
    ensures { Gives (λ n. n) result (high_by (modules_in names.now) (option_map type_in governor.entry) place (bound_of bound.now).limit bound.now.excluded) }
{
    let Some(value) = &bound.limit else {
        return unbounded(place, bound.excluded);
    };
    let number = value_number(alloc, names, governor, place.module, value)?;
    let number = lowered(place, bound.excluded, number)?;
    Ok(Some(number))
}

/// A single value.
#[tactic(auto, unfolding(crate::specs::Ends::single))]
pub fn single<'m, 's, 't>(
    alloc: Global,
    names: &Names<'m, 's, 't>,
    governor: Option<TypeIn<'m, 's, 't>>,
    place: Place,
    value: &Value<'s, 't>,
) -> Result<Set, Error<'t>>
    requires governor { ForSome governor (λ t. t.«module» < length (modules_in names.now)) }
    requires place { place.«module» < length (modules_in names.now) }
    ensures { Gives set_of result (single (modules_in names.now) (option_map type_in governor.entry) place (value_of value.now)) }
{
    let number = value_number(alloc, names, governor, place.module, value)?;
    spanned(place, Some(number), Some(number))
}

/// A range at a place.
#[tactic(auto, unfolding(crate::specs::Ends::ranged))]
pub fn ranged<'m, 's, 't>(
    alloc: Global,
    names: &Names<'m, 's, 't>,
    governor: Option<TypeIn<'m, 's, 't>>,
    place: Place,
    lower: &Bound<'s, 't>,
    upper: &Bound<'s, 't>,
) -> Result<Set, Error<'t>>
    requires governor { ForSome governor (λ t. t.«module» < length (modules_in names.now)) }
    requires place { place.«module» < length (modules_in names.now) }
    ensures { Gives set_of result (ranged (modules_in names.now) (option_map type_in governor.entry) place (bound_of lower.now) (bound_of upper.now)) }
{
    let low = low_end(alloc, names, governor, place, lower)?;
    let high = high_end(alloc, names, governor, place, upper)?;
    spanned(place, low, high)
}
