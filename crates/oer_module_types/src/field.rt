//! Names behind which actual parameters or fields of a class stand.
ghost use Rattle.std.specs.Prelude.{◌≡◌, ◌<◌, length, option_map};
ghost use Rattle.oer_module_lexer.specs.Token.{spots_of, token_of};
ghost use Rattle.oer_module_limits.specs.Views.{written_of};
ghost use Rattle.oer_module_names.specs.Views.{modules_in};
ghost use Rattle.oer_module_syntax.specs.Tree.{body_of};
ghost use Rattle.oer_module_text.specs.Errors.{Gives};
ghost use Rattle.oer_module_text.specs.Room.{room_of};
ghost use Rattle.oer_module_values.specs.Views.{referent_of};
ghost use Rattle.oer_values.specs.ShapeView.{type_of};
ghost use Rattle.oer_module_types.specs.Fields.{begins_field, ends_field, field_at, field_by, field_of, has_field, has_type_field, is_field, is_open, is_open_by, is_type_field, open_at};

use crate::shape::open_shape;
use oer_module_leaves::put_open;
use oer_module_lexer::{Sign, Spot, Token};
use oer_module_limits::Written;
use oer_module_names::{Names, Place};
use oer_module_syntax::{Body, is_useful_class};
use oer_module_text::{Error, Part, Room, refused};
use oer_module_values::{Path, Referent, referred};
use oer_values::Shape;
use std::alloc::Global;

fn field_by<'t>(first: Token<'t>, second: Token<'t>) -> Option<&'t str>
    ensures { option_map (λ w. w.now) result ≡ field_by (token_of first.entry) (token_of second.entry) }
{
    match (first, second) {
        (Token::Sign(Sign::Point), Token::Field(name)) => Some(name),
        _ => None,
    }
}

/// The field that the steps behind the name of a class name: `.` and a field.
fn field_of<'t>(steps: &[Spot<'t>]) -> Option<&'t str>
    ensures { option_map (λ w. w.now) result ≡ field_of (spots_of steps.now) }
{
    match steps {
        [first, second] => field_by(first.token, second.token),
        _ => None,
    }
}

fn is_field(name: &str, token: Token<'_>) -> bool
    ensures { result ≡ is_field name.now (token_of token.entry) }
{
    match token {
        Token::Field(field) => field == name,
        _ => false,
    }
}

/// Whether a field of a class may stand behind the token.
fn begins_field(token: Token<'_>) -> bool
    ensures { result ≡ begins_field (token_of token.entry) }
{
    match token {
        Token::Sign(sign) => sign == Sign::OpenBrace || sign == Sign::Comma,
        _ => false,
    }
}

/// Whether the token may stand right behind the field of a type (X.681, 9.5).
fn ends_field(token: Token<'_>) -> bool
    ensures { result ≡ ends_field (token_of token.entry) }
{
    match token {
        Token::Sign(sign) => sign == Sign::Comma || sign == Sign::CloseBrace,
        Token::Word(word) => word == "OPTIONAL" || word == "DEFAULT",
        _ => false,
    }
}

/// Whether the second of three tokens is a field of this name that is a type's.
fn is_type_field(name: &str, first: Token<'_>, second: Token<'_>, third: Token<'_>) -> bool
    ensures { result ≡ is_type_field name.now (token_of first.entry) (token_of second.entry) (token_of third.entry) }
{
    begins_field(first) && is_field(name, second) && ends_field(third)
}

/// Whether the fields of a class have one of this name that is a type's: no type and no class governs it (X.681, 9.5).
fn has_type_field(name: &str, fields: &[Spot<'_>]) -> bool
    ensures { result ≡ has_type_field name.now (spots_of fields.now) }
{
    for index in 2..fields.len() {
        if is_type_field(
            name,
            fields[index - 2].token,
            fields[index - 1].token,
            fields[index].token,
        ) {
            return true;
        }
    }
    false
}

fn has_field(name: &str, body: &Body<'_, '_>) -> bool
    ensures { result ≡ has_field name.now (body_of body.now) }
{
    match body {
        Body::Class { fields, .. } => has_type_field(name, fields),
        _ => false,
    }
}

fn is_open_by(name: &str, class: Option<Referent<'_, '_, '_>>) -> bool
    ensures { result ≡ is_open_by name.now (option_map referent_of class.entry) }
{
    match class {
        Some(class) => has_field(name, &class.assignment.body),
        None => false,
    }
}

/// Whether a field of a class, by its name, is a type's.
fn is_open<'t>(
    names: &Names<'_, '_, 't>,
    place: Place,
    class: &'t str,
    name: &str,
) -> Result<bool, Error<'t>>
    requires { place.«module» < length (modules_in names.now) }
    ensures { Gives (λ b. b) result (is_open (modules_in names.now) place.«module» place.at class.now name.now) }
{
    if is_useful_class(class) {
        return Ok(name == "&Type");
    }
    let found = referred(names, place, class, Path::Own)?;
    Ok(is_open_by(name, found))
}

/// The same of the steps behind the name of a class.
fn names_type<'t>(
    names: &Names<'_, '_, 't>,
    place: Place,
    class: &'t str,
    steps: &[Spot<'t>],
) -> Result<bool, Error<'t>>
    requires { place.«module» < length (modules_in names.now) }
    ensures { Gives (λ b. b) result (open_at (modules_in names.now) place.«module» place.at class.now (field_of (spots_of steps.now))) }
{
    match field_of(steps) {
        Some(name) => is_open(names, place, class, name),
        None => Ok(false),
    }
}

/// A name at a place, with the steps and the actual parameters behind it, and its constraints.
#[derive(Clone, Copy)]
pub struct Field<'g, 'm, 's, 't> {
    pub place: Place,
    pub name: &'t str,
    pub steps: &'m [Spot<'t>],
    pub parameters: &'m [Spot<'t>],
    pub written: Written<'g, 's, 't>,
}

/// A name with steps and actual parameters. A field of a class that is a type's is an open type: its octets stand behind
/// their length (X.696, 30), as those of an OCTET STRING do.
///
/// # Errors
/// NotTaken at actual parameters, and at any other field; Unresolved, if the class isn't found; or Unresolved, with Memory.
#[tactic(auto, unfolding(crate::specs::Fields::field_at))]
pub fn write_field<'t>(
    alloc: Global,
    names: &Names<'_, '_, 't>,
    field: Field<'_, '_, '_, 't>,
    room: &mut Room,
) -> Result<Shape, Error<'t>>
    requires { field.place.«module» < length (modules_in names.now) }
    ensures { Gives (λ s. (type_of s, room_of room.new)) result (field_at (modules_in names.now) field.entry.place field.entry.name.now (spots_of field.entry.steps.now) (spots_of field.entry.parameters.now) (written_of field.entry.written) (room_of room.old)) }
{
    let place = field.place;
    if !field.parameters.is_empty() {
        return Err(refused(place.module, place.at, Part::Parameters));
    }
    if !names_type(names, place, field.name, field.steps)? {
        return Err(refused(place.module, place.at, Part::Field));
    }
    put_open(alloc, field.written, room)?;
    Ok(open_shape())
}
