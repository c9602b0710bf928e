//! From a value to the one for which its name stands.
ghost use Rattle.std.specs.Prelude.{◌≡◌, ◌<◌, IfOk, IfSome, length, option_map};
ghost use Rattle.oer_module_names.specs.Views.{modules_in};
ghost use Rattle.oer_module_terms.specs.Trees.{value_of};
ghost use Rattle.oer_module_text.specs.Errors.{Gives};
ghost use Rattle.oer_module_values.specs.Looks.{path_seen};
ghost use Rattle.oer_module_values.specs.Views.{referent_of};
ghost use Rattle.oer_module_defaults.specs.Governors.{governor_of};
ghost use Rattle.oer_module_defaults.specs.Walks.{defined, name_in, reference_at, source_place, step, valued};
ghost use Rattle.oer_module_defaults.specs.Views.{IsOutcomeWithin, IsSourceWithin, name_seen, outcome_of, source_of};

use crate::atoms::single;
use crate::governor::{Governor, Kind, governing, of_kind};
use crate::items::is_own;
use crate::kept::{place_of_first, value_in};
use oer_module_lexer::Spot;
use oer_module_names::{Names, Place};
use oer_module_syntax::Body;
use oer_module_terms::{Amount, Atom, Value};
use oer_module_text::{Error, Part, Why};
use oer_module_values::{Path, Referent, TypeIn, path_of, referred};
use std::alloc::Global;

/// The tokens of a value, what governs it, and which of the modules the tokens stand in.
#[derive(Clone, Copy)]
pub struct Source<'m, 's, 't> {
    pub module: usize,
    pub governor: Governor<'m, 's, 't>,
    pub spots: &'s [Spot<'t>],
}

/// What tokens are: a value, or a name that stands for the value of other tokens.
#[derive(Drop)]
pub enum Outcome<'m, 's, 't> {
    Reached(Value<'s, 't>),
    Goes(Source<'m, 's, 't>),
}

/// A name, and what stands behind it.
#[derive(Clone, Copy)]
pub struct Name<'t> {
    pub name: &'t str,
    pub path: Path<'t>,
}

/// Where the tokens of a value stand.
pub fn source_place(source: Source<'_, '_, '_>) -> Place
    ensures { result ≡ source_place (source_of source.entry) }
{
    place_of_first(source.module, source.spots)
}

/// The name that a value is, if it is one.
pub fn name_in<'t>(value: &Value<'_, 't>) -> Option<Name<'t>>
    ensures { option_map name_seen result ≡ name_in (value_of value.now) }
{
    match single(value) {
        Some(Atom::Amount(Amount::Named { name, path })) => Some(Name {
            name,
            path: path_of(path),
        }),
        _ => None,
    }
}

/// The value that a name refers to, of a kind; the name stands at a place.
fn defined<'m, 's, 't>(
    alloc: Global,
    names: &Names<'m, 's, 't>,
    place: Place,
    kind: Kind,
    referent: Referent<'m, 's, 't>,
) -> Result<Source<'m, 's, 't>, Error<'t>>
    requires { referent.«module» < length (modules_in names.now) }
    ensures value { Gives source_of result (defined (modules_in names.now) place kind (referent_of referent.entry)) }
    ensures within { IfOk result (IsSourceWithin (modules_in names.now)) }
{
    let module = referent.module;
    if !referent.assignment.parameters.is_empty() {
        return Err(Error {
            place,
            why: Why::NotTaken(Part::Parameters),
        });
    }
    let Body::Value { governor, value } = &referent.assignment.body else {
        return Err(Error {
            place,
            why: Why::Unresolved(oer_module_values::Why::NotAValue),
        });
    };
    let of = TypeIn {
        module,
        syntax: governor,
    };
    let governor = governing(alloc, names, place, of)?;
    let governor = of_kind(place, kind, governor)?;
    Ok(Source {
        module,
        governor,
        spots: value,
    })
}

/// The value that a name and the path behind it stand for.
#[tactic(auto, unfolding(crate::specs::Walks::valued))]
fn valued<'m, 's, 't>(
    alloc: Global,
    names: &Names<'m, 's, 't>,
    place: Place,
    kind: Kind,
    name: Name<'t>,
) -> Result<Source<'m, 's, 't>, Error<'t>>
    requires { place.«module» < length (modules_in names.now) }
    ensures value { Gives source_of result (valued (modules_in names.now) place kind name.entry.name.now (path_seen name.entry.path)) }
    ensures within { IfOk result (IsSourceWithin (modules_in names.now)) }
{
    let Some(referent) = referred(names, place, name.name, name.path)? else {
        return Err(Error {
            place,
            why: Why::NotTaken(Part::Field),
        });
    };
    defined(alloc, names, place, kind, referent)
}

/// The value for which another at a place stands, if that is the name of one.
pub fn reference_in<'m, 's, 't>(
    alloc: Global,
    names: &Names<'m, 's, 't>,
    place: Place,
    governor: Governor<'m, 's, 't>,
    value: &Value<'s, 't>,
) -> Result<Option<Source<'m, 's, 't>>, Error<'t>>
    requires { place.«module» < length (modules_in names.now) }
    ensures value { Gives (option_map source_of) result
        (reference_at (modules_in names.now) place (governor_of governor.entry) (value_of value.now)) }
    ensures within { IfOk result (λ o. IfSome o (IsSourceWithin (modules_in names.now))) }
{
    let Some(name) = name_in(value) else {
        return Ok(None);
    };
    if is_own(alloc, governor, name.name, name.path)? {
        return Ok(None);
    }
    let next = valued(alloc, names, place, governor.kind, name)?;
    Ok(Some(next))
}

/// One step from tokens to their value.
#[tactic(auto, unfolding(crate::specs::Walks::step))]
pub fn step<'m, 's, 't>(
    alloc: Global,
    names: &Names<'m, 's, 't>,
    source: Source<'m, 's, 't>,
) -> Result<Outcome<'m, 's, 't>, Error<'t>>
    requires { IsSourceWithin (modules_in names.now) source }
    ensures value { Gives outcome_of result (step (modules_in names.now) (source_of source.entry)) }
    ensures within { IfOk result (IsOutcomeWithin (modules_in names.now)) }
{
    let value = value_in(alloc, source.module, source.spots)?;
    let next = reference_in(alloc, names, source_place(source), source.governor, &value)?;
    match next {
        Some(next) => Ok(Outcome::Goes(next)),
        None => Ok(Outcome::Reached(value)),
    }
}
