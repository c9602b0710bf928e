//! A value after DEFAULT: which value it is, written as ASN.1 writes values.
ghost use Rattle.std.specs.Prelude.{◌≡◌, ◌<◌, [], OnOk, length, map, option_map};
ghost use Rattle.std.specs.List.{All};
ghost use Rattle.oer_module_lexer.specs.Token.{spots_of};
ghost use Rattle.oer_module_names.specs.Views.{modules_in};
ghost use Rattle.oer_module_syntax.specs.Tree.{tree_of};
ghost use Rattle.oer_module_terms.specs.Trees.{members_from, member_of, parts_from, value_of};
ghost use Rattle.oer_module_text.specs.Errors.{Gives};
ghost use Rattle.oer_module_text.specs.Room.{room_of};
ghost use Rattle.oer_module_values.specs.Views.{type_in};
ghost use Rattle.oer_values.specs.ValueView.{value_of as asn_value_of};
ghost use Rattle.oer_module_defaults.specs.Components.{item_in};
ghost use Rattle.oer_module_defaults.specs.Defaults.{choice_by, chosen_at, default_at, filled_at, governed_at, has_any, inner_at, item_by};
ghost use Rattle.oer_module_defaults.specs.Defaults.{items_at, kind_at, list_at, list_by, literal_at, only_part, put_comma, put_name};
ghost use Rattle.oer_module_defaults.specs.Defaults.{sequence_at, sequence_by, slot_by, source_at};
ghost use Rattle.oer_module_defaults.specs.Filled.{empty, filled_of};
ghost use Rattle.oer_module_defaults.specs.Governors.{governor_of};
ghost use Rattle.oer_module_defaults.specs.Values.{member_place};
ghost use Rattle.oer_module_defaults.specs.Views.{IsGivenWithin, IsSlotWithin, IsSourceWithin, IsTargetWithin, alternative_of};
ghost use Rattle.oer_module_defaults.specs.Views.{component_of, given_of, modules_of, slot_of, source_of, target_of, values_at};

use crate::alternative::{Alternative, alternative_at};
use crate::arcs::write_arcs;
use crate::atoms::{
    no_text, none_such, single, write_boolean, write_null, write_octet_string, write_text,
};
use crate::component::{elements_of, item_in, list_components};
use crate::filled::Filled;
use crate::governor::{Governor, Kind, governing, is_taken_by};
use crate::kept::{member_place, place_of_first, value_place};
use crate::leaf::{write_bit_string, write_enumerated, write_integer};
use crate::scope::Scope;
use crate::slot::{Slot, slots_in};
use crate::step::{Source, reference_in};
use crate::walk::literal_in;
use oer_module_lexer::Spot;
use oer_module_names::{Names, Place};
use oer_module_terms::{Member, Value};
use oer_module_text::{Error, Room, Why};
use oer_module_values::TypeIn;
use oer_values::Value as AsnValue;
use std::alloc::{AllocError, Global};

/// How many levels of values may nest in the value after DEFAULT, itself not counted.
const INNER_LEVELS: u8 = 31;

/// A type as it is written where it is used, and what it governs.
#[derive(Clone, Copy)]
pub struct Target<'m, 's, 't> {
    pub of: TypeIn<'m, 's, 't>,
    pub governor: Governor<'m, 's, 't>,
}

/// A value that is no reference, where it stands, and what governs it there.
#[derive(Clone, Copy)]
pub struct Given<'v, 'm, 's, 't> {
    pub place: Place,
    pub governor: Governor<'m, 's, 't>,
    pub value: &'v Value<'s, 't>,
}

fn put_comma(any: bool, room: &mut Room) -> Result<(), AllocError>
    ensures { OnOk result (room_of room.new ≡ put_comma any (room_of room.old)) }
{
    if !any {
        return Ok(());
    }
    room.put(", ")
}

#[tactic(auto, using(crate::proofs::Slices::slices))]
fn has_any(found: &[AsnValue]) -> bool
    ensures { result ≡ has_any (map asn_value_of found.now) }
{
    !found.is_empty()
}

/// The part that is the only one.
fn only_of_parts<'v, 's, 't>(parts: &'v [Value<'s, 't>]) -> Option<&'v Value<'s, 't>>
    ensures { option_map (λ v. value_of v.now) result ≡ only_part (parts_from (map value_of parts.now)) }
{
    match parts {
        [] => None,
        [part] => Some(part),
        _ => None,
    }
}

/// The value that a member of braces is, if it is one alone.
#[tactic(auto, using(crate::proofs::Members::levels))]
fn only_part<'v, 's, 't>(member: &'v Member<'s, 't>) -> Option<&'v Value<'s, 't>>
    ensures { option_map (λ v. value_of v.now) result ≡ only_part (member_of member.now) }
{
    only_of_parts(&member.parts)
}

/// Adds the name of a component, behind others.
fn put_name(any: bool, name: &str, room: &mut Room) -> Result<(), AllocError>
    ensures { OnOk result (room_of room.new ≡ put_name any name.now (room_of room.old)) }
{
    put_comma(any, room)?;
    room.put(name)?;
    room.put(" ")
}

/// Writes a value of a type, which stands in a module. So many levels of values may nest.
#[cycle(values)]
#[tactic(auto, unfolding(crate::specs::Defaults::value_at))]
fn write_value<'m, 's, 't>(
    scope: Scope<'_, 'm, 's, 't>,
    levels: u8,
    of: TypeIn<'m, 's, 't>,
    module: usize,
    value: &Value<'s, 't>,
    room: &mut Room,
) -> Result<AsnValue, Error<'t>>
    requires of { of.«module» < length (modules_of scope) }
    requires value { «module» < length (modules_of scope) }
    ensures { Gives (λ v. (asn_value_of v, room_of room.new)) result
        (values_at scope.entry levels (type_in of.entry) «module» (value_of value.now) (room_of room.old)) }
{
    let place = value_place(module, value);
    if levels == 0 {
        return Err(Error {
            place,
            why: Why::TooDeep,
        });
    }
    write_governed(scope, levels - 1, of, place, value, room)
}

/// Writes a value at a place, by what governs it.
#[cycle(values)]
fn write_governed<'m, 's, 't>(
    scope: Scope<'_, 'm, 's, 't>,
    levels: u8,
    of: TypeIn<'m, 's, 't>,
    place: Place,
    value: &Value<'s, 't>,
    room: &mut Room,
) -> Result<AsnValue, Error<'t>>
    requires of { of.«module» < length (modules_of scope) }
    requires place { place.«module» < length (modules_of scope) }
    ensures { Gives (λ v. (asn_value_of v, room_of room.new)) result
        (governed_at (values_at scope.entry levels) (modules_of scope.entry) (type_in of.entry) place (value_of value.now)
        (room_of room.old)) }
{
    let governor = governing(scope.alloc, scope.names, place, of)?;
    let target = Target { of, governor };
    match reference_in(scope.alloc, scope.names, place, governor, value)? {
        Some(source) => write_source(scope, levels, target, source, room),
        None => {
            let given = Given {
                place,
                governor,
                value,
            };
            write_given(scope, levels, target, given, room)
        }
    }
}

/// Writes the value to which tokens come.
#[cycle(values)]
fn write_source<'m, 's, 't>(
    scope: Scope<'_, 'm, 's, 't>,
    levels: u8,
    target: Target<'m, 's, 't>,
    source: Source<'m, 's, 't>,
    room: &mut Room,
) -> Result<AsnValue, Error<'t>>
    requires target { IsTargetWithin (modules_of scope) target }
    requires source { IsSourceWithin (modules_of scope) source }
    ensures { Gives (λ v. (asn_value_of v, room_of room.new)) result
        (source_at (values_at scope.entry levels) (modules_of scope.entry) (target_of target.entry) (source_of source.entry)
        (room_of room.old)) }
{
    let literal = literal_in(scope.alloc, scope.names, source)?;
    let given = Given {
        place: literal.place,
        governor: literal.governor,
        value: &literal.value,
    };
    write_given(scope, levels, target, given, room)
}

/// Writes a value that is no reference.
#[cycle(values)]
fn write_given<'m, 's, 't>(
    scope: Scope<'_, 'm, 's, 't>,
    levels: u8,
    target: Target<'m, 's, 't>,
    given: Given<'_, 'm, 's, 't>,
    room: &mut Room,
) -> Result<AsnValue, Error<'t>>
    requires target { IsTargetWithin (modules_of scope) target }
    requires given { IsGivenWithin (modules_of scope) given }
    ensures { Gives (λ v. (asn_value_of v, room_of room.new)) result
        (literal_at (values_at scope.entry levels) (modules_of scope.entry) (target_of target.entry) (given_of given.entry)
        (room_of room.old)) }
{
    if !is_taken_by(target.governor, given.governor) {
        return Err(no_text(given.place));
    }
    write_kind(scope, levels, target, given, room)
}

/// Writes a value of the kind that governs it.
#[cycle(values)]
fn write_kind<'m, 's, 't>(
    scope: Scope<'_, 'm, 's, 't>,
    levels: u8,
    target: Target<'m, 's, 't>,
    given: Given<'_, 'm, 's, 't>,
    room: &mut Room,
) -> Result<AsnValue, Error<'t>>
    requires target { IsTargetWithin (modules_of scope) target }
    requires given { IsGivenWithin (modules_of scope) given }
    ensures { Gives (λ v. (asn_value_of v, room_of room.new)) result
        (kind_at (values_at scope.entry levels) (modules_of scope.entry) given.entry.governor.kind (target_of target.entry)
        (given_of given.entry) (room_of room.old)) }
{
    let Scope { alloc, names } = scope;
    let Given {
        place,
        governor,
        value,
    } = given;
    let atom = single(value);
    match governor.kind {
        Kind::Boolean => write_boolean(place, atom, room),
        Kind::Null => write_null(place, atom, room),
        Kind::Integer => write_integer(alloc, names, target.of, place, atom, room),
        Kind::Enumerated => {
            write_enumerated(alloc, names, target.governor, governor, place, atom, room)
        }
        Kind::Octets => write_octet_string(alloc, place, atom, room),
        Kind::Bits => write_bit_string(alloc, names, target.of, place, governor, value, room),
        Kind::Text => write_text(alloc, place, atom, room),
        Kind::Arcs => write_arcs(alloc, place, value, room),
        Kind::Sequence => write_sequence(scope, levels, given, room),
        Kind::SequenceOf => write_list(scope, levels, given, room),
        Kind::Choice => write_choice(scope, levels, given, room),
    }
}

/// Writes a SEQUENCE: what stands in its braces.
#[cycle(values)]
#[tactic(auto, using(oer_module_terms::proofs::Views::views))]
fn write_sequence<'m, 's, 't>(
    scope: Scope<'_, 'm, 's, 't>,
    levels: u8,
    given: Given<'_, 'm, 's, 't>,
    room: &mut Room,
) -> Result<AsnValue, Error<'t>>
    requires { IsGivenWithin (modules_of scope) given }
    ensures { Gives (λ v. (asn_value_of v, room_of room.new)) result
        (sequence_by (values_at scope.entry levels) (modules_of scope.entry) given.entry.place
        (governor_of given.entry.governor) (value_of given.entry.value.now) (room_of room.old)) }
{
    match given.value {
        Value::Braces { members, .. } => {
            write_components(scope, levels, given.place, given.governor, members, room)
        }
        Value::Atom { .. } | Value::Numbered { .. } | Value::Choice { .. } => {
            Err(none_such(given.place))
        }
    }
}

/// Writes the components of a SEQUENCE that members of braces are.
#[cycle(values)]
fn write_components<'m, 's, 't>(
    scope: Scope<'_, 'm, 's, 't>,
    levels: u8,
    place: Place,
    governor: Governor<'m, 's, 't>,
    members: &[Member<'s, 't>],
    room: &mut Room,
) -> Result<AsnValue, Error<'t>>
    requires place { place.«module» < length (modules_of scope) }
    requires governor { governor.«module» < length (modules_of scope) }
    ensures { Gives (λ v. (asn_value_of v, room_of room.new)) result
        (sequence_at (values_at scope.entry levels) (modules_of scope.entry) place (governor_of governor.entry)
        (members_from (map member_of members.now)) (room_of room.old)) }
{
    let elements = elements_of(place, governor.syntax)?;
    let components = list_components(scope, governor.module, elements, room)?;
    let slots = slots_in(scope, place, &components, members)?;
    room.put("{")?;
    let filled = write_slots(scope, levels, place.module, &slots, room)?;
    room.put("}")?;
    Ok(filled.sequence(scope.alloc))
}

/// Writes the components that are there, joined by commas.
#[cycle(values)]
fn write_slots<'m, 's, 't>(
    scope: Scope<'_, 'm, 's, 't>,
    levels: u8,
    module: usize,
    slots: &[Slot<'_, 'm, 's, 't>],
    room: &mut Room,
) -> Result<Filled, Error<'t>>
    requires value { «module» < length (modules_of scope) }
    requires slots { All (IsSlotWithin (modules_of scope)) slots.now }
    ensures { Gives (λ f. (filled_of f, room_of room.new)) result
        (filled_at (values_at scope.entry levels) «module» (map slot_of slots.now) empty (room_of room.old)) }
{
    let mut filled = Filled::new(scope.alloc);
    for slot in slots {
        write_slot(scope, levels, module, *slot, &mut filled, room)?;
    }
    Ok(filled)
}

/// Writes a component behind others, if it is there.
#[cycle(values)]
fn write_slot<'m, 's, 't>(
    scope: Scope<'_, 'm, 's, 't>,
    levels: u8,
    module: usize,
    slot: Slot<'_, 'm, 's, 't>,
    filled: &mut Filled,
    room: &mut Room,
) -> Result<(), Error<'t>>
    requires value { «module» < length (modules_of scope) }
    requires slot { IsSlotWithin (modules_of scope) slot }
    ensures { Gives (λ _. (filled_of filled.new, room_of room.new)) result
        (slot_by (values_at scope.entry levels) «module» (component_of slot.entry.component)
        (slot_of slot.entry).value (filled_of filled.old) (room_of room.old)) }
{
    let component = slot.component;
    let Some(value) = slot.value else {
        filled.add(component.added, None)?;
        return Ok(());
    };
    let of = TypeIn {
        module: component.module,
        syntax: component.from,
    };
    put_name(filled.has_any(), component.name, room)?;
    let made = write_inner(scope, levels, of, module, value, room)?;
    filled.add(component.added, Some(made))?;
    Ok(())
}

/// Writes a value in another, which takes the room of one part.
#[cycle(values)]
fn write_inner<'m, 's, 't>(
    scope: Scope<'_, 'm, 's, 't>,
    levels: u8,
    of: TypeIn<'m, 's, 't>,
    module: usize,
    value: &Value<'s, 't>,
    room: &mut Room,
) -> Result<AsnValue, Error<'t>>
    requires of { of.«module» < length (modules_of scope) }
    requires value { «module» < length (modules_of scope) }
    ensures { Gives (λ v. (asn_value_of v, room_of room.new)) result
        (inner_at (values_at scope.entry levels) (type_in of.entry) «module» (value_of value.now) (room_of room.old)) }
{
    room.take_part(value_place(module, value))?;
    write_value(scope, levels, of, module, value, room)
}

/// Writes a SEQUENCE OF: what stands in its braces.
#[cycle(values)]
#[tactic(auto, using(oer_module_terms::proofs::Views::views))]
fn write_list<'m, 's, 't>(
    scope: Scope<'_, 'm, 's, 't>,
    levels: u8,
    given: Given<'_, 'm, 's, 't>,
    room: &mut Room,
) -> Result<AsnValue, Error<'t>>
    requires { IsGivenWithin (modules_of scope) given }
    ensures { Gives (λ v. (asn_value_of v, room_of room.new)) result
        (list_by (values_at scope.entry levels) given.entry.place given.entry.governor.«module»
        (item_in (tree_of given.entry.governor.syntax.now)) (value_of given.entry.value.now) (room_of room.old)) }
{
    let Some(item) = item_in(given.governor.syntax) else {
        return Err(none_such(given.place));
    };
    let of = TypeIn {
        module: given.governor.module,
        syntax: item,
    };
    match given.value {
        Value::Braces { members, .. } => {
            write_members(scope, levels, given.place, of, members, room)
        }
        Value::Atom { .. } | Value::Numbered { .. } | Value::Choice { .. } => {
            Err(none_such(given.place))
        }
    }
}

/// Writes items of a type, in braces.
#[cycle(values)]
#[tactic(auto, using(oer_values::proofs::Values::values))]
fn write_members<'m, 's, 't>(
    scope: Scope<'_, 'm, 's, 't>,
    levels: u8,
    place: Place,
    of: TypeIn<'m, 's, 't>,
    members: &[Member<'s, 't>],
    room: &mut Room,
) -> Result<AsnValue, Error<'t>>
    requires place { place.«module» < length (modules_of scope) }
    requires of { of.«module» < length (modules_of scope) }
    ensures { Gives (λ v. (asn_value_of v, room_of room.new)) result
        (list_at (values_at scope.entry levels) place (type_in of.entry) (members_from (map member_of members.now)) (room_of room.old)) }
{
    room.put("{")?;
    let items = write_items(scope, levels, place, of, members, room)?;
    room.put("}")?;
    Ok(AsnValue::List(items))
}

/// Writes items of a type, joined by commas.
#[cycle(values)]
fn write_items<'m, 's, 't>(
    scope: Scope<'_, 'm, 's, 't>,
    levels: u8,
    place: Place,
    of: TypeIn<'m, 's, 't>,
    members: &[Member<'s, 't>],
    room: &mut Room,
) -> Result<Vec<AsnValue>, Error<'t>>
    requires place { place.«module» < length (modules_of scope) }
    requires of { of.«module» < length (modules_of scope) }
    ensures { Gives (λ v. (map asn_value_of v.items, room_of room.new)) result
        (items_at (values_at scope.entry levels) place (type_in of.entry) (members_from (map member_of members.now)) [] (room_of room.old)) }
{
    let mut found = Vec::new(scope.alloc);
    for member in members {
        write_item(scope, levels, place, of, member, &mut found, room)?;
    }
    Ok(found)
}

/// Writes the item that a member is, behind those found.
#[cycle(values)]
fn write_item<'m, 's, 't>(
    scope: Scope<'_, 'm, 's, 't>,
    levels: u8,
    place: Place,
    of: TypeIn<'m, 's, 't>,
    member: &Member<'s, 't>,
    found: &mut Vec<AsnValue>,
    room: &mut Room,
) -> Result<(), Error<'t>>
    requires place { place.«module» < length (modules_of scope) }
    requires of { of.«module» < length (modules_of scope) }
    ensures { Gives (λ _. (map asn_value_of found.new.items, room_of room.new)) result
        (item_by (values_at scope.entry levels) place (member_place place (member_of member.now)) (type_in of.entry)
        (only_part (member_of member.now)) (map asn_value_of found.old.items) (room_of room.old)) }
{
    let Some(value) = only_part(member) else {
        return Err(none_such(member_place(place, member)));
    };
    put_comma(has_any(found), room)?;
    let made = write_inner(scope, levels, of, place.module, value, room)?;
    found.push(made)?;
    Ok(())
}

/// Writes a CHOICE: the name of an alternative and its value.
#[cycle(values)]
#[tactic(auto, using(oer_module_terms::proofs::Views::views))]
fn write_choice<'m, 's, 't>(
    scope: Scope<'_, 'm, 's, 't>,
    levels: u8,
    given: Given<'_, 'm, 's, 't>,
    room: &mut Room,
) -> Result<AsnValue, Error<'t>>
    requires { IsGivenWithin (modules_of scope) given }
    ensures { Gives (λ v. (asn_value_of v, room_of room.new)) result
        (choice_by (values_at scope.entry levels) (modules_of scope.entry) given.entry.place
        (governor_of given.entry.governor) (value_of given.entry.value.now) (room_of room.old)) }
{
    let place = given.place;
    match given.value {
        Value::Choice { name, value, .. } => {
            let alternative = alternative_at(scope, place, given.governor, name, room)?;
            write_alternative(scope, levels, place, alternative, name, value, room)
        }
        Value::Atom { .. } | Value::Numbered { .. } | Value::Braces { .. } => {
            Err(none_such(place))
        }
    }
}

/// Writes the value of an alternative behind its name.
#[cycle(values)]
#[tactic(auto, using(oer_values::proofs::Values::values))]
fn write_alternative<'m, 's, 't>(
    scope: Scope<'_, 'm, 's, 't>,
    levels: u8,
    place: Place,
    alternative: Alternative<'m, 's, 't>,
    name: &str,
    value: &Value<'s, 't>,
    room: &mut Room,
) -> Result<AsnValue, Error<'t>>
    requires place { place.«module» < length (modules_of scope) }
    requires of { alternative.of.«module» < length (modules_of scope) }
    ensures { Gives (λ v. (asn_value_of v, room_of room.new)) result
        (chosen_at (values_at scope.entry levels) place name.now (value_of value.now) (alternative_of alternative.entry) (room_of room.old)) }
{
    room.put(name)?;
    room.put(" : ")?;
    let made = write_inner(scope, levels, alternative.of, place.module, value, room)?;
    Ok(AsnValue::Chosen {
        tag: alternative.tag,
        value: Box::new(scope.alloc, made)?,
    })
}

/// The value that stands after DEFAULT in a module: a value of the type of a component. Anywhere in it a name stands for the
/// value of its assignment, if that is of the same kind. The name of an item of an ENUMERATED is one of the type of the
/// assignment, and has the same number in the type of the component. Of a SEQUENCE, SEQUENCE OF or CHOICE the assignment has
/// to be of the same definition. Writes the value too, without the word DEFAULT: as docs/NOTATION.md has it, and a value
/// that holds others as ASN.1 writes it. Each value in another takes the room of one part, and so does each component that a
/// SEQUENCE in it has, there or not, each alternative of a CHOICE, and COMPONENTS OF.
///
/// # Errors
/// First those of `resolve`, of the type. The first of these, where the value stands, or the assignment to which its name
/// comes: NotTaken of a value of a type whose values aren't taken; what can't be read; NotTaken of what stands behind
/// the value; of a name, Unresolved and NotTaken; NoSuchValue of a value of another kind. Circular comes after 255 steps.
/// NotTaken of a value that holds others, by a name, of another definition. Then NoSuchValue of what is no value of the type,
/// and NotTaken of a value that is written otherwise: of an OCTET STRING, bits, or an odd number of digits; a text or digits
/// over more than one line, or with spaces between digits; an arc without a number; a BIT STRING by the names of its bits,
/// where its sizes aren't one. TooLong, if that is more than 4,096. TooWide of an item whose number has more than 64 bits
/// with its sign, and of an arc with more than 128 bits. The errors of `number`, of an INTEGER; of `numbered_items`, of an
/// ENUMERATED; of `size_limits` and `integer`, of named bits. Of a SEQUENCE, NotTaken at its elements (SecondMarker, Group,
/// ComponentsOf), and NoSuchValue, where a member is no name and value, or isn't of the next component that has to be
/// there. Of a CHOICE, the errors of `alternative_tags`. TooManyParts, TooLong, and TooDeep beyond 32 levels, at a value in
/// another. Unresolved, if memory couldn't be had.
#[tactic(auto, unfolding(crate::specs::Defaults::default_at))]
pub fn write_default<'m, 's, 't>(
    alloc: Global,
    names: &Names<'m, 's, 't>,
    of: TypeIn<'m, 's, 't>,
    module: usize,
    spots: &'s [Spot<'t>],
    room: &mut Room,
) -> Result<AsnValue, Error<'t>>
    requires of { of.«module» < length (modules_in names.now) }
    requires value { «module» < length (modules_in names.now) }
    ensures { Gives (λ v. (asn_value_of v, room_of room.new)) result
        (default_at (modules_in names.now) (type_in of.entry) «module» (spots_of spots.now) (room_of room.old)) }
{
    let place = place_of_first(module, spots);
    let governor = governing(alloc, names, place, of)?;
    let target = Target { of, governor };
    let source = Source {
        module,
        governor,
        spots,
    };
    write_source(Scope { alloc, names }, INNER_LEVELS, target, source, room)
}
