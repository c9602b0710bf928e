//! What constraints allow, as sets of numbers.
ghost use Rattle.std.specs.Prelude.{◌≡◌, ◌<◌, length, map, Ok};
ghost use Rattle.std.specs.List.{All};
ghost use Rattle.oer_module_bounds.specs.Sets as bounds;
ghost use Rattle.oer_module_bounds.specs.Sets.{constraint_of as bounding_of, set_of};
ghost use Rattle.oer_module_lexer.specs.Token.{spots_of};
ghost use Rattle.oer_module_names.specs.Views.{modules_in};
ghost use Rattle.oer_module_terms.specs.Trees.{constraint_of, elements_of, simple_of, value_of};
ghost use Rattle.oer_module_values.specs.Views.{given_of, meaning_of, type_in};
ghost use Rattle.oer_module_limits.specs.Errors.{Gives};
ghost use Rattle.oer_module_limits.specs.Sets.{constraint, constraints, each, given_row, given_rows, own_rows, row, rows, set_at, set_by, simple_by, single_by, sized_by, unseen_by};
ghost use Rattle.oer_module_limits.specs.Views.{IsGivenWithin, IsMeasureWithin, IsWithin, measure_seen};

use crate::ends::{ranged, single};
use crate::error::{Error, Why};
use crate::kept::read_row;
use crate::marks::{is_extensible, is_mixed};
use crate::measure::{Measure, measure_of, own};
use oer_module_bounds::{Constraint, Range, Set};
use oer_module_lexer::Spot;
use oer_module_names::{Names, Place};
use oer_module_terms::{Elements, Simple, Value};
use oer_module_values::{Given, Meaning, TypeIn};
use std::alloc::Global;

/// FROM, or a narrowing, at a place: it says nothing of sizes.
#[tactic(auto, using(crate::proofs::Views::sets))]
fn unseen<'t>(measure: Measure<'_, '_, '_>, place: Place) -> Result<Set, Error<'t>>
    ensures { Gives set_of result (unseen_by (measure_seen measure.entry) place) }
{
    match measure {
        Measure::Number(_) => Err(Error {
            place,
            why: Why::Inapplicable,
        }),
        Measure::Size => Ok(Set::Unknown),
    }
}

/// The set of elements in a constraint at a place. So many levels of sets and contained types may nest.
#[cycle(sets)]
#[tactic(auto, unfolding(crate::specs::Sets::set_at))]
pub fn set_of<'m, 's, 't>(
    alloc: Global,
    names: &Names<'m, 's, 't>,
    levels: u8,
    measure: Measure<'m, 's, 't>,
    place: Place,
    elements: &'m Elements<'s, 't>,
) -> Result<Set, Error<'t>>
    requires measure { IsMeasureWithin (length (modules_in names.now)) measure }
    requires place { place.«module» < length (modules_in names.now) }
    ensures { Gives set_of result (set_at (modules_in names.now) levels (measure_seen measure.entry) place (elements_of elements.now)) }
{
    if levels == 0 {
        return Err(Error {
            place,
            why: Why::TooDeep,
        });
    }
    set_by(alloc, names, levels - 1, measure, place, elements)
}

/// The same, in whose sets and contained types so many levels may nest.
#[cycle(sets)]
#[tactic(auto, unfolding(crate::specs::Sets::set_by), using(crate::proofs::Views::levels))]
fn set_by<'m, 's, 't>(
    alloc: Global,
    names: &Names<'m, 's, 't>,
    levels: u8,
    measure: Measure<'m, 's, 't>,
    place: Place,
    elements: &'m Elements<'s, 't>,
) -> Result<Set, Error<'t>>
    requires measure { IsMeasureWithin (length (modules_in names.now)) measure }
    requires place { place.«module» < length (modules_in names.now) }
    ensures { Gives set_of result (set_by (modules_in names.now) (set_at (modules_in names.now) levels) (measure_seen measure.entry) place (elements_of elements.now)) }
{
    let module = place.module;
    match elements {
        Elements::Union(members) => {
            let sets = sets_of(alloc, names, levels, measure, place, members)?;
            Ok(Set::Union(sets))
        }
        Elements::Intersection(members) => {
            let sets = sets_of(alloc, names, levels, measure, place, members)?;
            Ok(Set::Intersection(sets))
        }
        Elements::Except(from, excluded) => {
            let from = set_of(alloc, names, levels, measure, place, from)?;
            let excluded = set_of(alloc, names, levels, measure, place, excluded)?;
            except(alloc, from, excluded)
        }
        Elements::AllExcept(excluded) => {
            let excluded = set_of(alloc, names, levels, measure, place, excluded)?;
            except(alloc, Set::Range(Range::everything()), excluded)
        }
        Elements::Size { at, size } => {
            let place = Place { module, at: *at };
            sized(alloc, names, levels, measure, place, size)
        }
        Elements::Alphabet { at, .. } => unseen(measure, Place { module, at: *at }),
        Elements::Simple(simple) => simple_set(alloc, names, measure, place, simple),
    }
}

/// The numbers of the first that the second doesn't have.
#[tactic(auto, using(crate::proofs::Views::sets))]
fn except<'t>(alloc: Global, from: Set, excluded: Set) -> Result<Set, Error<'t>>
    ensures { Gives set_of result (Ok (bounds.except (set_of from) (set_of excluded))) }
{
    let from = Box::new(alloc, from)?;
    let excluded = Box::new(alloc, excluded)?;
    Ok(Set::Except(from, excluded))
}

/// The sets of elements, one after another.
#[cycle(sets)]
fn sets_of<'m, 's, 't>(
    alloc: Global,
    names: &Names<'m, 's, 't>,
    levels: u8,
    measure: Measure<'m, 's, 't>,
    place: Place,
    members: &'m [Elements<'s, 't>],
) -> Result<Vec<Set>, Error<'t>>
    requires measure { IsMeasureWithin (length (modules_in names.now)) measure }
    requires place { place.«module» < length (modules_in names.now) }
    ensures { Gives (λ v. map set_of v.items) result (each (set_at (modules_in names.now) levels) (measure_seen measure.entry) place (map elements_of members.now)) }
{
    let mut sets = Vec::new(alloc);
    for member in members.iter() {
        let found = set_of(alloc, names, levels, measure, place, member)?;
        sets.push(found)?;
    }
    Ok(sets)
}

/// SIZE and a constraint, at a place. An extension marker there is that of the constraint in which SIZE stands.
#[cycle(sets)]
fn sized<'m, 's, 't>(
    alloc: Global,
    names: &Names<'m, 's, 't>,
    levels: u8,
    measure: Measure<'m, 's, 't>,
    place: Place,
    size: &'m oer_module_terms::Constraint<'s, 't>,
) -> Result<Set, Error<'t>>
    requires { place.«module» < length (modules_in names.now) }
    ensures { Gives set_of result (sized_by (set_at (modules_in names.now) levels) (measure_seen measure.entry) place (constraint_of size.now)) }
{
    let Measure::Size = measure else {
        return Err(Error {
            place,
            why: Why::Inapplicable,
        });
    };
    let constraint = constraint(
        alloc,
        names,
        levels,
        Measure::Number(None),
        place.module,
        size,
    )?;
    Ok(constraint.root)
}

/// A constraint in a module. Where it is general it bounds nothing.
#[cycle(sets)]
#[tactic(auto, using(crate::proofs::Views::written, crate::proofs::Views::sets))]
fn constraint<'m, 's, 't>(
    alloc: Global,
    names: &Names<'m, 's, 't>,
    levels: u8,
    measure: Measure<'m, 's, 't>,
    module: usize,
    written: &'m oer_module_terms::Constraint<'s, 't>,
) -> Result<Constraint, Error<'t>>
    requires measure { IsMeasureWithin (length (modules_in names.now)) measure }
    requires place { «module» < length (modules_in names.now) }
    ensures { Gives bounding_of result (constraint (set_at (modules_in names.now) levels) (measure_seen measure.entry) «module» (constraint_of written.now)) }
{
    match written {
        oer_module_terms::Constraint::Subtype { at, root, .. } => {
            let place = Place { module, at: *at };
            if is_mixed(root) {
                return Err(Error {
                    place,
                    why: Why::Differs,
                });
            }
            let root = set_of(alloc, names, levels, measure, place, root)?;
            let extensible = is_extensible(written);
            Ok(Constraint { root, extensible })
        }
        oer_module_terms::Constraint::General { .. } => Ok(Constraint {
            root: Set::Unknown,
            extensible: false,
        }),
    }
}

/// The constraints in a row, from tokens of a module.
#[tactic(auto, unfolding(crate::specs::Sets::row))]
fn row<'m, 's, 't>(
    alloc: Global,
    names: &Names<'m, 's, 't>,
    levels: u8,
    measure: Measure<'m, 's, 't>,
    module: usize,
    spots: &'s [Spot<'t>],
) -> Result<Vec<Constraint>, Error<'t>>
    requires measure { IsMeasureWithin (length (modules_in names.now)) measure }
    requires place { «module» < length (modules_in names.now) }
    ensures { Gives (λ v. map bounding_of v.items) result (row (set_at (modules_in names.now) levels) (measure_seen measure.entry) «module» (spots_of spots.now)) }
{
    let written = read_row(alloc, module, spots)?;
    constraints(alloc, names, levels, measure, module, &written)
}

/// What constraints in a module say, one after another.
fn constraints<'m, 's, 't>(
    alloc: Global,
    names: &Names<'m, 's, 't>,
    levels: u8,
    measure: Measure<'m, 's, 't>,
    module: usize,
    written: &'m [oer_module_terms::Constraint<'s, 't>],
) -> Result<Vec<Constraint>, Error<'t>>
    requires measure { IsMeasureWithin (length (modules_in names.now)) measure }
    requires place { «module» < length (modules_in names.now) }
    ensures { Gives (λ v. map bounding_of v.items) result (constraints (set_at (modules_in names.now) levels) (measure_seen measure.entry) «module» (map constraint_of written.now)) }
{
    let mut found = Vec::new(alloc);
    for one in written.iter() {
        let said = constraint(alloc, names, levels, measure, module, one)?;
        found.push(said)?;
    }
    Ok(found)
}

/// What is given where a reference stands.
fn given_row<'m, 's, 't>(
    alloc: Global,
    names: &Names<'m, 's, 't>,
    levels: u8,
    measure: Measure<'m, 's, 't>,
    given: Given<'s, 't>,
) -> Result<Vec<Constraint>, Error<'t>>
    requires measure { IsMeasureWithin (length (modules_in names.now)) measure }
    requires given { IsGivenWithin (modules_in names.now) (given_of given) }
    ensures { Gives (λ v. map bounding_of v.items) result (given_row (set_at (modules_in names.now) levels) (measure_seen measure.entry) (given_of given.entry)) }
{
    match given {
        Given::Constraints { module, spots } => row(alloc, names, levels, measure, module, spots),
        Given::Set { module, .. } => Err(Error {
            place: Place { module, at: 0 },
            why: Why::ValueSet,
        }),
    }
}

/// What is given on the way to a type.
fn given_rows<'m, 's, 't>(
    alloc: Global,
    names: &Names<'m, 's, 't>,
    levels: u8,
    measure: Measure<'m, 's, 't>,
    given: &[Given<'s, 't>],
) -> Result<Vec<Constraint>, Error<'t>>
    requires measure { IsMeasureWithin (length (modules_in names.now)) measure }
    requires given { All (λ g. IsGivenWithin (modules_in names.now) (given_of g)) given.now }
    ensures { Gives (λ v. map bounding_of v.items) result (given_rows (set_at (modules_in names.now) levels) (measure_seen measure.entry) (map given_of given.now)) }
{
    let mut found = Vec::new(alloc);
    for one in given.iter() {
        let mut more = given_row(alloc, names, levels, measure, *one)?;
        found.append(&mut more)?;
    }
    Ok(found)
}

/// A type's own constraints.
#[tactic(auto, unfolding(crate::specs::Sets::own_rows))]
fn own_rows<'m, 's, 't>(
    alloc: Global,
    names: &Names<'m, 's, 't>,
    levels: u8,
    measure: Measure<'m, 's, 't>,
    of: TypeIn<'m, 's, 't>,
) -> Result<Vec<Constraint>, Error<'t>>
    requires { of.«module» < length (modules_in names.now) }
    ensures { Gives (λ v. map bounding_of v.items) result (own_rows (set_at (modules_in names.now) levels) (measure_seen measure.entry) (type_in of.entry)) }
{
    let (mine, spots) = own(measure, of)?;
    row(alloc, names, levels, mine, of.module, spots)
}

/// The constraints of what a type stands for, the nearest last.
#[tactic(auto, unfolding(crate::specs::Sets::rows))]
pub fn constraints_of<'m, 's, 't>(
    alloc: Global,
    names: &Names<'m, 's, 't>,
    levels: u8,
    measure: Measure<'m, 's, 't>,
    meaning: &Meaning<'m, 's, 't>,
) -> Result<Vec<Constraint>, Error<'t>>
    requires { IsWithin (modules_in names.now) meaning.now }
    ensures { Gives (λ v. map bounding_of v.items) result (rows (set_at (modules_in names.now) levels) (measure_seen measure.entry) (meaning_of meaning.now)) }
{
    let of = meaning.of;
    let mut found = own_rows(alloc, names, levels, measure, of)?;
    let mut more = given_rows(
        alloc,
        names,
        levels,
        measure_of(measure, of),
        &meaning.given,
    )?;
    found.append(&mut more)?;
    Ok(found)
}

/// Elements that hold no other set, at a place.
#[tactic(auto, unfolding(crate::specs::Sets::simple_by), using(crate::proofs::Views::sets))]
fn simple_set<'m, 's, 't>(
    alloc: Global,
    names: &Names<'m, 's, 't>,
    measure: Measure<'m, 's, 't>,
    place: Place,
    simple: &Simple<'s, 't>,
) -> Result<Set, Error<'t>>
    requires measure { IsMeasureWithin (length (modules_in names.now)) measure }
    requires place { place.«module» < length (modules_in names.now) }
    ensures { Gives set_of result (simple_by (modules_in names.now) (measure_seen measure.entry) place (simple_of simple.now)) }
{
    let module = place.module;
    match simple {
        Simple::Type(_) => Err(Error {
            place,
            why: Why::Contained,
        }),
        Simple::Value(value) => single_of(alloc, names, measure, place, value),
        Simple::Range { at, lower, upper } => {
            let place = Place { module, at: *at };
            let Measure::Number(governor) = measure else {
                return Err(Error {
                    place,
                    why: Why::Inapplicable,
                });
            };
            ranged(alloc, names, governor, place, lower, upper)
        }
        Simple::Narrowing { at, .. } => unseen(measure, Place { module, at: *at }),
    }
}

/// A single value, which says nothing of sizes.
fn single_of<'m, 's, 't>(
    alloc: Global,
    names: &Names<'m, 's, 't>,
    measure: Measure<'m, 's, 't>,
    place: Place,
    value: &Value<'s, 't>,
) -> Result<Set, Error<'t>>
    requires measure { IsMeasureWithin (length (modules_in names.now)) measure }
    requires place { place.«module» < length (modules_in names.now) }
    ensures { Gives set_of result (single_by (modules_in names.now) (measure_seen measure.entry) place (value_of value.now)) }
{
    match measure {
        Measure::Number(governor) => single(alloc, names, governor, place, value),
        Measure::Size => Ok(Set::Unknown),
    }
}
