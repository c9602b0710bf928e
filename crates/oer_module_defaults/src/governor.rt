//! What governs a value: a type whose values are taken.
ghost use Rattle.std.specs.Prelude.{◌≡◌, ◌<◌, IfOk, IfSome, length, option_map};
ghost use Rattle.oer_module_lexer.specs.Token.{spots_of};
ghost use Rattle.oer_module_names.specs.Views.{modules_in};
ghost use Rattle.oer_module_syntax.specs.Tree.{tree_of};
ghost use Rattle.oer_module_text.specs.Errors.{Gives, seen};
ghost use Rattle.oer_module_values.specs.Views.{type_in};
ghost use Rattle.oer_module_defaults.specs.Governors.{governed, governor_of, governor_at, holds_others, is_same_type, is_taken_by, items_in};
ghost use Rattle.oer_module_defaults.specs.Governors.{kind_in, kind_of, list_kind, of_kind, same_kind, structure_kind};

use oer_module_lexer::Spot;
use oer_module_names::{Names, Place};
use oer_module_syntax::{Builtin, TypeSyntax};
use oer_module_text::{Error, Part, Why};
use oer_module_values::{TypeIn, place_of, resolve};
use std::alloc::Global;

/// The kinds of values that are taken.
#[derive(Clone, Copy, PartialEq, Eq)]
pub enum Kind {
    Boolean,
    Null,
    Integer,
    Enumerated,
    Octets,
    Bits,
    /// Those of the five types of strings.
    Text,
    /// Those of OBJECT IDENTIFIER.
    Arcs,
    Sequence,
    SequenceOf,
    Choice,
}

/// What governs a value (X.680, 3.8): a type that is no reference, which of the modules it stands in, the kind of its
/// values, and the items in its braces.
#[derive(Clone, Copy)]
pub struct Governor<'m, 's, 't> {
    pub module: usize,
    pub syntax: &'m TypeSyntax<'s, 't>,
    pub kind: Kind,
    pub items: &'s [Spot<'t>],
}

fn kind_of(builtin: Builtin) -> Option<Kind>
    ensures { result ≡ kind_of builtin }
{
    match builtin {
        Builtin::Boolean => Some(Kind::Boolean),
        Builtin::Null => Some(Kind::Null),
        Builtin::Integer => Some(Kind::Integer),
        Builtin::Enumerated => Some(Kind::Enumerated),
        Builtin::OctetString => Some(Kind::Octets),
        Builtin::BitString => Some(Kind::Bits),
        Builtin::Ia5String
        | Builtin::Iso646String
        | Builtin::NumericString
        | Builtin::PrintableString
        | Builtin::Utf8String
        | Builtin::VisibleString => Some(Kind::Text),
        Builtin::ObjectIdentifier => Some(Kind::Arcs),
        _ => None,
    }
}

fn structure_kind(builtin: Builtin) -> Option<Kind>
    ensures { result ≡ structure_kind builtin }
{
    match builtin {
        Builtin::Sequence => Some(Kind::Sequence),
        Builtin::Choice => Some(Kind::Choice),
        _ => None,
    }
}

fn list_kind(builtin: Builtin) -> Option<Kind>
    ensures { result ≡ list_kind builtin }
{
    match builtin {
        Builtin::Sequence => Some(Kind::SequenceOf),
        _ => None,
    }
}

/// The kind of the values of a type that is no reference.
#[tactic(auto, using(oer_module_syntax::proofs::Trees::trees))]
fn kind_in(syntax: &TypeSyntax<'_, '_>) -> Option<Kind>
    ensures { result ≡ kind_in (tree_of syntax.now) }
{
    match syntax {
        TypeSyntax::Plain { builtin, .. } => kind_of(*builtin),
        TypeSyntax::Structure { builtin, .. } => structure_kind(*builtin),
        TypeSyntax::ListOf { builtin, .. } => list_kind(*builtin),
        _ => None,
    }
}

/// The tokens of the items in the braces of a type.
#[tactic(auto, using(oer_module_syntax::proofs::Trees::trees))]
fn items_in<'s, 't>(syntax: &TypeSyntax<'s, 't>) -> &'s [Spot<'t>]
    ensures { spots_of result.now ≡ items_in (tree_of syntax.now) }
{
    match syntax {
        TypeSyntax::Plain { items, .. } => items,
        _ => &[],
    }
}

/// What a type that is no reference governs.
fn governed<'m, 's, 't>(of: TypeIn<'m, 's, 't>) -> Option<Governor<'m, 's, 't>>
    ensures value { option_map governor_of result ≡ governed of.entry.«module» (tree_of of.entry.syntax.now) }
    ensures module { IfSome result (λ g. g.«module» ≡ of.entry.«module») }
{
    match kind_in(of.syntax) {
        Some(kind) => Some(Governor {
            module: of.module,
            syntax: of.syntax,
            kind,
            items: items_in(of.syntax),
        }),
        None => None,
    }
}

/// What a type governs, or what it stands for; the place is that of the value.
#[tactic(auto, unfolding(crate::specs::Governors::governor_at))]
pub fn governing<'m, 's, 't>(
    alloc: Global,
    names: &Names<'m, 's, 't>,
    place: Place,
    of: TypeIn<'m, 's, 't>,
) -> Result<Governor<'m, 's, 't>, Error<'t>>
    requires { of.«module» < length (modules_in names.now) }
    ensures value { Gives governor_of result (governor_at (modules_in names.now) place (type_in of.entry)) }
    ensures within { IfOk result (λ g. g.«module» < length (modules_in names.now)) }
{
    let meaning = resolve(alloc, names, of)?;
    match governed(meaning.of) {
        Some(governor) => Ok(governor),
        None => Err(Error {
            place,
            why: Why::NotTaken(Part::Value),
        }),
    }
}

pub fn is_same_kind(one: Kind, other: Kind) -> bool
    ensures { result ≡ same_kind one other }
{
    one == other
}

/// What governs a value, if it is of this kind.
pub fn of_kind<'m, 's, 't>(
    place: Place,
    kind: Kind,
    governor: Governor<'m, 's, 't>,
) -> Result<Governor<'m, 's, 't>, Error<'t>>
    ensures { seen governor_of result ≡ of_kind place kind (governor_of governor.entry) }
{
    if !is_same_kind(kind, governor.kind) {
        return Err(Error {
            place,
            why: Why::NoSuchValue,
        });
    }
    Ok(governor)
}

/// Whether values of this kind hold others.
fn holds_others(kind: Kind) -> bool
    ensures { result ≡ holds_others kind }
{
    match kind {
        Kind::Sequence => true,
        Kind::SequenceOf => true,
        Kind::Choice => true,
        _ => false,
    }
}

/// Whether both are one definition.
fn is_same_type(one: Governor<'_, '_, '_>, other: Governor<'_, '_, '_>) -> bool
    ensures { result ≡ is_same_type (governor_of one.entry) (governor_of other.entry) }
{
    one.module == other.module && place_of(one.syntax) == place_of(other.syntax)
}

/// Whether a value that the second governs can be one of the first. What holds others is read by the names, tags and
/// numbers of its own type, so this has to be the same definition.
pub fn is_taken_by(one: Governor<'_, '_, '_>, other: Governor<'_, '_, '_>) -> bool
    ensures { result ≡ is_taken_by (governor_of one.entry) (governor_of other.entry) }
{
    !holds_others(other.kind) || is_same_type(one, other)
}
