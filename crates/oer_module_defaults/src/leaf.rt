//! Values that hold no others, and are told by the types that govern them.
ghost use Rattle.std.specs.Prelude.{◌<◌, length, option_map};
ghost use Rattle.oer_module_names.specs.Views.{modules_in};
ghost use Rattle.oer_module_terms.specs.Trees.{atom_of, value_of};
ghost use Rattle.oer_module_text.specs.Errors.{Gives};
ghost use Rattle.oer_module_text.specs.Room.{room_of};
ghost use Rattle.oer_module_values.specs.Views.{type_in};
ghost use Rattle.oer_values.specs.ValueView.{value_of as asn_value_of};
ghost use Rattle.oer_module_defaults.specs.Governors.{governor_of};
ghost use Rattle.oer_module_defaults.specs.Leaves.{bit_string_at, enumerated_at, integer_at};

use crate::atoms::{none_such, single, write_bit_token};
use crate::bits::write_named_bits;
use crate::governor::Governor;
use crate::items::number_in_both;
use oer_module_names::{Names, Place};
use oer_module_terms::{Amount, Atom, Value};
use oer_module_text::{Error, Room};
use oer_module_values::{TypeIn, number};
use oer_values::Value as AsnValue;
use std::alloc::Global;

/// Writes a number of an INTEGER.
pub fn write_integer<'m, 's, 't>(
    alloc: Global,
    names: &Names<'m, 's, 't>,
    of: TypeIn<'m, 's, 't>,
    place: Place,
    atom: Option<Atom<'s, 't>>,
    room: &mut Room,
) -> Result<AsnValue, Error<'t>>
    requires of { of.«module» < length (modules_in names.now) }
    requires place { place.«module» < length (modules_in names.now) }
    ensures { Gives (λ v. (asn_value_of v, room_of room.new)) result
        (integer_at (modules_in names.now) (type_in of.entry) place (option_map atom_of atom.entry) (room_of room.old)) }
{
    let Some(Atom::Amount(amount)) = atom else {
        return Err(none_such(place));
    };
    let number = number(alloc, names, of, place, amount)?;
    room.put_number(number)?;
    Ok(AsnValue::Int(number))
}

/// Writes the name of an item of an ENUMERATED. The second type governs it, and it is a value of the first.
pub fn write_enumerated<'m, 's, 't>(
    alloc: Global,
    names: &Names<'m, 's, 't>,
    of: Governor<'m, 's, 't>,
    governor: Governor<'m, 's, 't>,
    place: Place,
    atom: Option<Atom<'s, 't>>,
    room: &mut Room,
) -> Result<AsnValue, Error<'t>>
    requires of { of.«module» < length (modules_in names.now) }
    requires governor { governor.«module» < length (modules_in names.now) }
    ensures { Gives (λ v. (asn_value_of v, room_of room.new)) result
        (enumerated_at (modules_in names.now) (governor_of of.entry) (governor_of governor.entry) place
        (option_map atom_of atom.entry) (room_of room.old)) }
{
    let Some(Atom::Amount(Amount::Named { name, .. })) = atom else {
        return Err(none_such(place));
    };
    let number = number_in_both(alloc, names, of, governor, place, name)?;
    room.put(name)?;
    Ok(AsnValue::Enum(number))
}

/// Writes a value of a BIT STRING.
#[tactic(auto, using(oer_module_terms::proofs::Views::views))]
pub fn write_bit_string<'m, 's, 't>(
    alloc: Global,
    names: &Names<'m, 's, 't>,
    of: TypeIn<'m, 's, 't>,
    place: Place,
    governor: Governor<'m, 's, 't>,
    value: &Value<'s, 't>,
    room: &mut Room,
) -> Result<AsnValue, Error<'t>>
    requires of { of.«module» < length (modules_in names.now) }
    requires governor { governor.«module» < length (modules_in names.now) }
    ensures { Gives (λ v. (asn_value_of v, room_of room.new)) result
        (bit_string_at (modules_in names.now) (type_in of.entry) place (governor_of governor.entry) (value_of value.now)
        (room_of room.old)) }
{
    match value {
        Value::Braces { members, .. } => {
            write_named_bits(alloc, names, of, place, governor, members, room)
        }
        Value::Atom { .. } | Value::Numbered { .. } | Value::Choice { .. } => {
            write_bit_token(alloc, place, single(value), room)
        }
    }
}
