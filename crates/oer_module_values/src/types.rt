//! What a type stands for.
ghost use Rattle.std.specs.Prelude.{◌≡◌, ◌<◌, IfOk, IfSome, length, option_map, slice_get, Some};
ghost use Rattle.oer_module_lexer.specs.Token.{spots_of};
ghost use Rattle.oer_module_names.specs.Tables.{assignments_in};
ghost use Rattle.oer_module_names.specs.Views.{IsWithin, modules_in};
ghost use Rattle.oer_module_syntax.specs.Tree.{assignment_of};
ghost use Rattle.oer_module_values.specs.Errors.{Gives};
ghost use Rattle.oer_module_values.specs.Looks.{path_seen};
ghost use Rattle.oer_module_values.specs.Types.{entered, follow, meaning, referred, step};
ghost use Rattle.oer_module_values.specs.Views.{given_in, meaning_of, referent_of, type_in};

use crate::error::{Error, Why};
use crate::look::{Path, path_of, place_of};
use oer_module_lexer::Spot;
use oer_module_names::{Found, Names, Place};
use oer_module_syntax::{Assignment, Body, TypeSyntax};
use std::alloc::Global;

/// How many steps a way from reference to reference may have.
pub const MOST_STEPS: u8 = 255;

/// A type, and which of the modules it stands in.
#[derive(Clone, Copy)]
pub struct TypeIn<'m, 's, 't> {
    pub module: usize,
    pub syntax: &'m TypeSyntax<'s, 't>,
}

/// What narrows a type where a reference to it stands, and which of the modules that is.
#[derive(Clone, Copy)]
pub enum Given<'s, 't> {
    /// The constraints behind the name, parentheses included (X.680, 49.6).
    Constraints {
        module: usize,
        spots: &'s [Spot<'t>],
    },
    /// The values that the name stands for, braces included (X.680, 16.2).
    Set {
        module: usize,
        spots: &'s [Spot<'t>],
    },
}

/// What a type stands for: the type that is no reference, and what is given on the way to it, the nearest last. Its own
/// constraints stand in it.
#[derive(Drop)]
pub struct Meaning<'m, 's, 't> {
    pub of: TypeIn<'m, 's, 't>,
    pub given: Vec<Given<'s, 't>>,
}

/// An assignment, and which of the modules has it.
#[derive(Clone, Copy)]
pub struct Referent<'m, 's, 't> {
    pub module: usize,
    pub assignment: &'m Assignment<'s, 't>,
}

fn referent_at<'m, 's, 't>(names: &Names<'m, 's, 't>, found: Found) -> Referent<'m, 's, 't>
    requires { IsWithin (modules_in names.now) found }
    ensures module { result.«module» ≡ found.«module» }
    ensures assignment { slice_get (assignments_in (modules_in names.now) found.«module») found.assignment ≡ Some (assignment_of result.assignment.now) }
    ensures within { result.«module» < length (modules_in names.now) }
{
    Referent {
        module: found.module,
        assignment: names.assignment(found),
    }
}

/// The assignment that a name in a module and the path behind it name; none where that is a field (X.680, 14.1).
///
/// # Errors
/// Unnamed, at the place, if the name stands for no assignment.
pub fn referred<'m, 's, 't>(
    names: &Names<'m, 's, 't>,
    place: Place,
    name: &'t str,
    path: Path<'t>,
) -> Result<Option<Referent<'m, 's, 't>>, Error<'t>>
    requires { place.«module» < length (modules_in names.now) }
    ensures value { Gives (option_map referent_of) result (referred (modules_in names.now) place name.now (path_seen path.entry)) }
    ensures within { IfOk result (λ o. IfSome o (λ r. r.«module» < length (modules_in names.now))) }
{
    let found = match path {
        Path::Own => names.find(place.module, name),
        Path::Within(item) => names.find_in(place.module, name, item),
        Path::Fields => return Ok(None),
    };
    match found {
        Ok(found) => Ok(Some(referent_at(names, found))),
        Err(error) => Err(Error {
            place,
            why: Why::Unnamed(error),
        }),
    }
}

/// The type that a name stands for: that of the assignment, or of the set of values. What is given at the name and with
/// the set is added to what was given before.
fn entered<'m, 's, 't>(
    place: Place,
    constraints: &'s [Spot<'t>],
    referent: Referent<'m, 's, 't>,
    given: &mut Vec<Given<'s, 't>>,
) -> Result<Option<TypeIn<'m, 's, 't>>, Error<'t>>
    ensures { Gives (λ o. (option_map type_in o, given_in given.new.items)) result (entered place (spots_of constraints.now) (referent_of referent.entry) (given_in given.old.items)) }
{
    let module = referent.module;
    match &referent.assignment.body {
        Body::Type(syntax) => {
            given.push(Given::Constraints {
                module: place.module,
                spots: constraints,
            })?;
            Ok(Some(TypeIn { module, syntax }))
        }
        Body::Set { governor, set } => {
            given.push(Given::Constraints {
                module: place.module,
                spots: constraints,
            })?;
            given.push(Given::Set { module, spots: set })?;
            Ok(Some(TypeIn {
                module,
                syntax: governor,
            }))
        }
        _ => Err(Error {
            place,
            why: Why::NotAType,
        }),
    }
}

/// On to the type that a name stands for; none where that is a field. What is given at the name is added to what was given
/// before, with the values where the name is that of a set (X.680, 16.2).
///
/// # Errors
/// Unnamed; Unsettled, if the assignment has parameters; NotAType; or Unread, with Memory.
#[tactic(auto, unfolding(crate::specs::Types::follow))]
pub fn follow<'m, 's, 't>(
    names: &Names<'m, 's, 't>,
    place: Place,
    name: &'t str,
    path: Path<'t>,
    constraints: &'s [Spot<'t>],
    given: &mut Vec<Given<'s, 't>>,
) -> Result<Option<TypeIn<'m, 's, 't>>, Error<'t>>
    requires { place.«module» < length (modules_in names.now) }
    ensures value { Gives (λ o. (option_map type_in o, given_in given.new.items)) result (follow (modules_in names.now) place name.now (path_seen path.entry) (spots_of constraints.now) (given_in given.old.items)) }
    ensures within { IfOk result (λ o. IfSome o (λ t. t.«module» < length (modules_in names.now))) }
{
    let Some(referent) = referred(names, place, name, path)? else {
        return Ok(None);
    };
    if !referent.assignment.parameters.is_empty() {
        return Err(Error {
            place,
            why: Why::Unsettled,
        });
    }
    entered(place, constraints, referent, given)
}

/// One step from a type to what it stands for; none where it is no reference and has no tag.
#[tactic(auto, unfolding(crate::specs::Types::step), using(oer_module_syntax::proofs::Trees::trees))]
fn step<'m, 's, 't>(
    names: &Names<'m, 's, 't>,
    of: TypeIn<'m, 's, 't>,
    given: &mut Vec<Given<'s, 't>>,
) -> Result<Option<TypeIn<'m, 's, 't>>, Error<'t>>
    requires { of.«module» < length (modules_in names.now) }
    ensures value { Gives (λ o. (option_map type_in o, given_in given.new.items)) result (step (modules_in names.now) (type_in of.entry) (given_in given.old.items)) }
    ensures within { IfOk result (λ o. IfSome o (λ t. t.«module» < length (modules_in names.now))) }
{
    let module = of.module;
    match of.syntax {
        TypeSyntax::Tagged { inner, .. } => Ok(Some(TypeIn {
            module,
            syntax: inner,
        })),
        TypeSyntax::Named {
            at,
            name,
            path,
            parameters,
            constraints,
        } => {
            if !parameters.is_empty() {
                return Ok(None);
            }
            let place = Place { module, at: *at };
            follow(names, place, name, path_of(path), constraints, given)
        }
        _ => Ok(None),
    }
}

/// What a type stands for (X.680, 14.1, 16 and 17.3): the type that its definition does, through references and tags, up
/// to a type that is neither. A name with actual parameters, and a field of a class or an object, is where the way ends.
///
/// # Errors
/// The first on the way: of each name that it comes to, Unnamed; Unsettled, if the assignment has parameters;
/// NotAType. Circular comes last, after 255 steps. Or Unread, with Memory.
pub fn resolve<'m, 's, 't>(
    alloc: Global,
    names: &Names<'m, 's, 't>,
    of: TypeIn<'m, 's, 't>,
) -> Result<Meaning<'m, 's, 't>, Error<'t>>
    requires { of.«module» < length (modules_in names.now) }
    ensures value { Gives meaning_of result (meaning (modules_in names.now) (type_in of.entry)) }
    ensures within { IfOk result (λ m. m.of.«module» < length (modules_in names.now)) }
{
    let mut given = Vec::new(alloc);
    let mut here = of;
    'steps: for turn in 0..MOST_STEPS {
        match step(names, here, &mut given)? {
            Some(next) => here = next,
            None => {
                given.reverse();
                return Ok(Meaning { of: here, given });
            }
        }
    }
    Err(Error {
        place: Place {
            module: here.module,
            at: place_of(here.syntax),
        },
        why: Why::Circular,
    })
}
