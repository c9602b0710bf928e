//! The outermost tag of a type.
ghost use Rattle.std.specs.Prelude.{◌≡◌, ◌<◌, IfOk, length};
ghost use Rattle.oer_module_lexer.specs.Token.{spots_of};
ghost use Rattle.oer_module_names.specs.Views.{modules_in};
ghost use Rattle.oer_module_parts.specs.Tags.{tag_of};
ghost use Rattle.oer_module_syntax.specs.Tree.{tree_of};
ghost use Rattle.oer_module_text.specs.Errors.{Gives, seen};
ghost use Rattle.oer_module_values.specs.Looks.{path_seen};
ghost use Rattle.oer_module_values.specs.Views.{type_in};
ghost use Rattle.oer_module_tags.specs.Outermost.{fitting, outermost_tag, own_tag, referred, step, tag_in, written_tag};
ghost use Rattle.oer_module_tags.specs.Views.{IsOutcomeWithin, outcome_of};

use crate::header::has_tags_in_brackets;
use oer_module_lexer::Spot;
use oer_module_names::{Names, Place};
use oer_module_parts::{WrittenTag, over_kept, read_tag, universal_number};
use oer_module_syntax::{Builtin, TypeSyntax};
use oer_module_text::{Error, Part, Why, refused};
use oer_module_values::{MOST_STEPS, Path, TypeIn, follow, integer, path_of, place_of, unread};
use oer_units::{Class, Tag};
use std::alloc::Global;

/// What one step from a type tells of its outermost tag.
#[derive(Clone, Copy)]
pub enum Outcome<'m, 's, 't> {
    /// It is this one.
    Found(Tag),
    /// It is that of this type.
    Next(TypeIn<'m, 's, 't>),
}

/// A number as that of a tag, at the place of the tag.
pub fn fitting<'n>(place: Place, number: i128) -> Result<u32, Error<'n>>
    ensures { seen (λ n. n) result ≡ fitting place number }
{
    match u32::try_from(number) {
        Ok(number) => Ok(number),
        Err(_) => Err(Error {
            place,
            why: Why::TagNumber,
        }),
    }
}

/// The tag that tokens of a module write, brackets included, which begin at this byte.
fn tag_in<'s, 't>(
    module: usize,
    at: usize,
    spots: &'s [Spot<'t>],
) -> Result<WrittenTag<'s, 't>, Error<'t>>
    ensures { Gives tag_of result (tag_in «module» at (spots_of spots.now)) }
{
    let mut cursor = over_kept(spots, at);
    match read_tag(&mut cursor) {
        Ok(tag) => Ok(tag),
        Err(fault) => Err(Error::from(unread(module, fault))),
    }
}

/// The tag that stands before a type (X.680, 31.2).
#[tactic(auto, unfolding(crate::specs::Outermost::written_tag))]
fn written_tag<'m, 's, 't>(
    alloc: Global,
    names: &Names<'m, 's, 't>,
    module: usize,
    at: usize,
    spots: &'s [Spot<'t>],
) -> Result<Tag, Error<'t>>
    requires { «module» < length (modules_in names.now) }
    ensures { Gives (λ t. t) result (written_tag (modules_in names.now) «module» at (spots_of spots.now)) }
{
    if !has_tags_in_brackets(names, module) {
        return Err(refused(module, at, Part::Instructions));
    }
    let written = tag_in(module, at, spots)?;
    let place = Place { module, at };
    let whole = integer(alloc, names, place, written.number)?;
    let number = fitting(place, whole)?;
    Ok(Tag {
        class: written.class,
        number,
    })
}

/// The tag of a type with a word of its own (X.680, 8.4).
fn own_tag<'n>(module: usize, at: usize, builtin: Builtin) -> Result<Tag, Error<'n>>
    ensures { seen (λ t. t) result ≡ own_tag «module» at builtin }
{
    match universal_number(builtin) {
        Some(number) => Ok(Tag {
            class: Class::Universal,
            number,
        }),
        None => Err(refused(module, at, Part::Untagged)),
    }
}

/// The type that a name stands for.
#[tactic(auto, unfolding(crate::specs::Outermost::referred))]
fn referred<'m, 's, 't>(
    alloc: Global,
    names: &Names<'m, 's, 't>,
    place: Place,
    name: &'t str,
    path: Path<'t>,
    constraints: &'s [Spot<'t>],
) -> Result<TypeIn<'m, 's, 't>, Error<'t>>
    requires { place.«module» < length (modules_in names.now) }
    ensures value { Gives type_in result (referred (modules_in names.now) place name.now (path_seen path.entry) (spots_of constraints.now)) }
    ensures within { IfOk result (λ t. t.«module» < length (modules_in names.now)) }
{
    let mut given = Vec::new(alloc);
    match follow(names, place, name, path, constraints, &mut given)? {
        Some(next) => Ok(next),
        None => Err(refused(place.module, place.at, Part::Untagged)),
    }
}

/// One step from a type to its outermost tag.
#[tactic(auto, unfolding(crate::specs::Outermost::step), using(oer_module_syntax::proofs::Trees::trees))]
fn step<'m, 's, 't>(
    alloc: Global,
    names: &Names<'m, 's, 't>,
    of: TypeIn<'m, 's, 't>,
) -> Result<Outcome<'m, 's, 't>, Error<'t>>
    requires { of.«module» < length (modules_in names.now) }
    ensures value { Gives outcome_of result (step (modules_in names.now) (type_in of.entry)) }
    ensures within { IfOk result (IsOutcomeWithin (modules_in names.now)) }
{
    let module = of.module;
    match of.syntax {
        TypeSyntax::Tagged { at, tag, .. } => {
            let tag = written_tag(alloc, names, module, *at, tag)?;
            Ok(Outcome::Found(tag))
        }
        TypeSyntax::Named {
            at,
            name,
            path,
            parameters,
            constraints,
        } => {
            if !parameters.is_empty() {
                return Err(refused(module, *at, Part::Parameters));
            }
            let place = Place { module, at: *at };
            let next = referred(alloc, names, place, name, path_of(path), constraints)?;
            Ok(Outcome::Next(next))
        }
        TypeSyntax::Plain { at, builtin, .. }
        | TypeSyntax::Structure { at, builtin, .. }
        | TypeSyntax::ListOf { at, builtin, .. } => {
            let tag = own_tag(module, *at, *builtin)?;
            Ok(Outcome::Found(tag))
        }
        TypeSyntax::Selection { at, .. } => Err(refused(module, *at, Part::Selection)),
        TypeSyntax::InstanceOf { at, .. } => Err(refused(module, *at, Part::InstanceOf)),
        TypeSyntax::AnyDefinedBy { at, .. } => Err(refused(module, *at, Part::AnyDefinedBy)),
    }
}

/// The outermost tag of a type (X.680, 8, 31 and 17.3): the one that is written before it; or that of the type for which
/// its name stands; or the universal tag of its word.
///
/// # Errors
/// The first on the way from name to name. At a tag: NotTaken with Instructions, if the header of its module has
/// INSTRUCTIONS for anything but TAG; Unresolved with Unread, if brackets hold no tag; Unresolved, with what `integer`
/// returns; TagNumber, if the number isn't between 0 and 2^32 - 1. At a name: NotTaken with Parameters, if it has actual
/// ones; Unresolved, with what `follow` returns; NotTaken with Untagged, at a field. At a CHOICE: NotTaken with Untagged.
/// At a selection, INSTANCE OF or ANY DEFINED BY: NotTaken with that. Unresolved with Circular comes last, after 255 steps;
/// or with Unread and Memory, where an allocation failed.
pub fn outermost_tag<'m, 's, 't>(
    alloc: Global,
    names: &Names<'m, 's, 't>,
    of: TypeIn<'m, 's, 't>,
) -> Result<Tag, Error<'t>>
    requires { of.«module» < length (modules_in names.now) }
    ensures { Gives (λ t. t) result (outermost_tag (modules_in names.now) (type_in of.entry)) }
{
    let mut here = of;
    'steps: for turn in 0..MOST_STEPS {
        match step(alloc, names, here)? {
            Outcome::Found(tag) => return Ok(tag),
            Outcome::Next(next) => here = next,
        }
    }
    Err(Error {
        place: Place {
            module: here.module,
            at: place_of(here.syntax),
        },
        why: Why::Unresolved(oer_module_values::Why::Circular),
    })
}
