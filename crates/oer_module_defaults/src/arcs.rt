//! Values of OBJECT IDENTIFIER.
ghost use Rattle.std.specs.Prelude.{◌≡◌, map, option_map};
ghost use Rattle.oer_module_terms.specs.Trees.{amount_of, atom_of, members_from, member_of, parts_from, value_of};
ghost use Rattle.oer_module_text.specs.Errors.{Gives};
ghost use Rattle.oer_module_text.specs.Room.{room_of};
ghost use Rattle.oer_values.specs.ValueView.{value_of as asn_value_of};
ghost use Rattle.oer_module_defaults.specs.Arcs.{arc_at, arcs, arcs_by, atom_digits, braced, digits_in, digits_of};
ghost use Rattle.oer_module_defaults.specs.Arcs.{only_member, part_arcs, some_arcs};

use crate::atoms::{no_text, none_such, too_wide};
use oer_literals::arc_of;
use oer_module_names::Place;
use oer_module_terms::{Amount, Atom, Member, Value};
use oer_module_text::{Error, Room};
use oer_values::Value as AsnValue;
use std::alloc::Global;

/// The digits of a number without a sign.
fn digits_of<'t>(amount: Amount<'_, 't>) -> Option<&'t str>
    ensures { option_map (λ w. w.now) result ≡ digits_of (amount_of amount.entry) }
{
    match amount {
        Amount::Number {
            negative: false,
            digits,
        } => Some(digits),
        _ => None,
    }
}

/// The digits of an arc that is a number.
fn atom_digits<'t>(atom: Atom<'_, 't>) -> Option<&'t str>
    ensures { option_map (λ w. w.now) result ≡ atom_digits (atom_of atom.entry) }
{
    match atom {
        Atom::Amount(amount) => digits_of(amount),
        _ => None,
    }
}

/// The digits of an arc: a number, also in parentheses behind a name (X.680, 32.3).
#[tactic(auto, using(oer_module_terms::proofs::Views::views))]
fn digits_in<'t>(part: &Value<'_, 't>) -> Option<&'t str>
    ensures { option_map (λ w. w.now) result ≡ digits_in (value_of part.now) }
{
    match part {
        Value::Atom { atom, .. } => atom_digits(*atom),
        Value::Numbered { number, .. } => digits_of(*number),
        Value::Choice { .. } | Value::Braces { .. } => None,
    }
}

/// Writes an arc behind a space.
#[tactic(auto, unfolding(crate::specs::Arcs::arc_at))]
fn write_arc<'t>(place: Place, part: &Value<'_, 't>, room: &mut Room) -> Result<u128, Error<'t>>
    ensures { Gives (λ n. (n, room_of room.new)) result (arc_at place (value_of part.now) (room_of room.old)) }
{
    let Some(digits) = digits_in(part) else {
        return Err(no_text(place));
    };
    let Some(arc) = arc_of(digits) else {
        return Err(too_wide(place));
    };
    room.put(" ")?;
    room.put(digits)?;
    Ok(arc)
}

/// Writes arcs, each behind a space.
fn write_each<'t>(
    alloc: Global,
    place: Place,
    parts: &[Value<'_, 't>],
    room: &mut Room,
) -> Result<Vec<u128>, Error<'t>>
    ensures { Gives (λ v. (v.items, room_of room.new)) result (some_arcs place (parts_from (map value_of parts.now)) (room_of room.old)) }
{
    let mut arcs = Vec::new(alloc);
    for part in parts {
        let arc = write_arc(place, part, room)?;
        arcs.push(arc)?;
    }
    Ok(arcs)
}

/// Writes arcs in braces.
fn write_braced<'t>(
    alloc: Global,
    place: Place,
    parts: &[Value<'_, 't>],
    room: &mut Room,
) -> Result<AsnValue, Error<'t>>
    ensures { Gives (λ v. (asn_value_of v, room_of room.new)) result
        (braced place (parts_from (map value_of parts.now)) (room_of room.old)) }
{
    room.put("{")?;
    let arcs = write_each(alloc, place, parts, room)?;
    room.put(" }")?;
    Ok(AsnValue::Oid(arcs))
}

/// Writes two arcs or more in braces.
fn write_parts<'t>(
    alloc: Global,
    place: Place,
    parts: &[Value<'_, 't>],
    room: &mut Room,
) -> Result<AsnValue, Error<'t>>
    ensures { Gives (λ v. (asn_value_of v, room_of room.new)) result
        (part_arcs place (parts_from (map value_of parts.now)) (room_of room.old)) }
{
    if parts.len() < 2 {
        return Err(none_such(place));
    }
    write_braced(alloc, place, parts, room)
}

/// Writes an object identifier that is a member of braces.
#[tactic(auto, using(crate::proofs::Members::levels))]
fn write_member<'t>(
    alloc: Global,
    place: Place,
    member: &Member<'_, 't>,
    room: &mut Room,
) -> Result<AsnValue, Error<'t>>
    ensures { Gives (λ v. (asn_value_of v, room_of room.new)) result (part_arcs place (member_of member.now) (room_of room.old)) }
{
    write_parts(alloc, place, &member.parts, room)
}

/// The member of braces that is the only one.
fn only_member<'v, 's, 't>(members: &'v [Member<'s, 't>]) -> Option<&'v Member<'s, 't>>
    ensures { option_map (λ m. member_of m.now) result ≡ only_member (members_from (map member_of members.now)) }
{
    match members {
        [] => None,
        [member] => Some(member),
        _ => None,
    }
}

/// Writes an object identifier that is the only member of braces.
fn write_only<'t>(
    alloc: Global,
    place: Place,
    members: &[Member<'_, 't>],
    room: &mut Room,
) -> Result<AsnValue, Error<'t>>
    ensures { Gives (λ v. (asn_value_of v, room_of room.new)) result
        (arcs_by place (only_member (members_from (map member_of members.now))) (room_of room.old)) }
{
    match only_member(members) {
        Some(member) => write_member(alloc, place, member, room),
        None => Err(none_such(place)),
    }
}

/// Writes an object identifier of which each arc has a number (X.680, 32).
#[tactic(auto, using(oer_module_terms::proofs::Views::views))]
pub fn write_arcs<'t>(
    alloc: Global,
    place: Place,
    value: &Value<'_, 't>,
    room: &mut Room,
) -> Result<AsnValue, Error<'t>>
    ensures { Gives (λ v. (asn_value_of v, room_of room.new)) result (arcs place (value_of value.now) (room_of room.old)) }
{
    match value {
        Value::Braces { members, .. } => write_only(alloc, place, members, room),
        Value::Atom { .. } | Value::Numbered { .. } | Value::Choice { .. } => {
            Err(none_such(place))
        }
    }
}
