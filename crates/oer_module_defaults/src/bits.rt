//! Values of BIT STRING by the names of their bits.
ghost use Rattle.std.specs.Prelude.{◌≡◌, ◌<◌, IfOk, OnOk, length, map, option_map};
ghost use Rattle.oer_literals.specs.Bits.{is_one};
ghost use Rattle.oer_module_bounds.specs.Sets.{span_of};
ghost use Rattle.oer_module_names.specs.Views.{modules_in};
ghost use Rattle.oer_module_terms.specs.Trees.{item_of, members_from, member_of, parts_from, value_of};
ghost use Rattle.oer_module_text.specs.Errors.{Gives, seen};
ghost use Rattle.oer_module_text.specs.Room.{room_of};
ghost use Rattle.oer_module_values.specs.Views.{type_in};
ghost use Rattle.oer_values.specs.ValueView.{value_of as asn_value_of};
ghost use Rattle.oer_module_defaults.specs.Bits.{bit_named, bit_name, bit_numbers, bits_from, fixed_size, is_named, named_bits};
ghost use Rattle.oer_module_defaults.specs.Bits.{numbered_bit, own_name, quoted, short, these_bits};
ghost use Rattle.oer_module_defaults.specs.Governors.{governor_of};
ghost use Rattle.oer_module_defaults.specs.Views.{name_seen};

use crate::atoms::{no_text, none_such};
use crate::governor::Governor;
use crate::items::{bits_of, item_named};
use crate::step::{Name, name_in};
use oer_literals::{bits_of_digits, push_bits};
use oer_module_bounds::Range;
use oer_module_limits::size_limits;
use oer_module_names::{Names, Place};
use oer_module_terms::{Item, Member, Value};
use oer_module_text::{Error, Part, Room, Why};
use oer_module_values::{Path, TypeIn, integer};
use oer_values::{Bits, Value as AsnValue};
use std::alloc::{AllocError, Global};

/// How many bits a value that names its bits may have.
const MOST_BITS: u16 = 4096;

/// The number, if it has 16 bits and no sign.
fn short(number: i128) -> Option<u16>
    ensures { result ≡ short number }
{
    match u16::try_from(number) {
        Ok(number) => Some(number),
        Err(_) => None,
    }
}

/// How many bits each value has, if all have as many.
fn fixed_size<'t>(place: Place, sizes: Range) -> Result<u16, Error<'t>>
    ensures { seen (λ n. n) result ≡ fixed_size place (span_of sizes) }
{
    let (Some(low), Some(high)) = (sizes.low(), sizes.high()) else {
        return Err(Error {
            place,
            why: Why::NotTaken(Part::NamedBits),
        });
    };
    if low != high {
        return Err(Error {
            place,
            why: Why::NotTaken(Part::NamedBits),
        });
    }
    match short(high) {
        Some(size) if size <= MOST_BITS => Ok(size),
        _ => Err(Error {
            place,
            why: Why::TooLong,
        }),
    }
}

/// The name, if nothing stands behind it.
pub fn own_name<'t>(name: Option<Name<'t>>) -> Option<&'t str>
    ensures { option_map (λ w. w.now) result ≡ own_name (option_map name_seen name.entry) }
{
    match name {
        Some(
            Name {
                name,
                path: Path::Own,
            },
        ) => Some(name),
        _ => None,
    }
}

/// The name that is the only part.
fn only_name<'t>(parts: &[Value<'_, 't>]) -> Option<&'t str>
    ensures { option_map (λ w. w.now) result ≡ bit_name (parts_from (map value_of parts.now)) }
{
    match parts {
        [] => None,
        [part] => own_name(name_in(part)),
        _ => None,
    }
}

/// The name that a member of braces is, and nothing else.
#[tactic(auto, using(crate::proofs::Members::levels))]
fn bit_name<'t>(member: &Member<'_, 't>) -> Option<&'t str>
    ensures { option_map (λ w. w.now) result ≡ bit_name (member_of member.now) }
{
    only_name(&member.parts)
}

/// The number of a bit, in a value of so many.
fn numbered_bit<'m, 's, 't>(
    alloc: Global,
    names: &Names<'m, 's, 't>,
    place: Place,
    module: usize,
    size: u16,
    item: Item<'s, 't>,
) -> Result<u16, Error<'t>>
    requires { «module» < length (modules_in names.now) }
    ensures { Gives (λ n. n) result (numbered_bit (modules_in names.now) place «module» size (item_of item.entry)) }
{
    let at = Place {
        module,
        at: item.at,
    };
    let Some(amount) = item.number else {
        return Err(Error {
            place: at,
            why: Why::Unresolved(oer_module_values::Why::Unnumbered),
        });
    };
    let number = integer(alloc, names, at, amount)?;
    match short(number) {
        Some(bit) if bit < size => Ok(bit),
        _ => Err(none_such(place)),
    }
}

/// The number of the bit that a member names.
#[tactic(auto, unfolding(crate::specs::Bits::bit_named))]
fn bit_named<'m, 's, 't>(
    alloc: Global,
    names: &Names<'m, 's, 't>,
    place: Place,
    module: usize,
    size: u16,
    items: &[Item<'s, 't>],
    member: &Member<'s, 't>,
) -> Result<u16, Error<'t>>
    requires { «module» < length (modules_in names.now) }
    ensures { Gives (λ n. n) result (bit_named (modules_in names.now) place «module» size (map item_of items.now) (member_of member.now)) }
{
    let Some(name) = bit_name(member) else {
        return Err(none_such(place));
    };
    let Some(item) = item_named(items, name) else {
        return Err(none_such(place));
    };
    numbered_bit(alloc, names, place, module, size, item)
}

/// The numbers of the bits that members name.
fn bit_numbers<'m, 's, 't>(
    alloc: Global,
    names: &Names<'m, 's, 't>,
    place: Place,
    module: usize,
    size: u16,
    items: &[Item<'s, 't>],
    members: &[Member<'s, 't>],
) -> Result<Vec<u16>, Error<'t>>
    requires { «module» < length (modules_in names.now) }
    ensures { Gives (λ v. v.items) result
        (bit_numbers (modules_in names.now) place «module» size (map item_of items.now) (members_from (map member_of members.now))) }
{
    let mut numbers = Vec::new(alloc);
    for member in members {
        let number = bit_named(alloc, names, place, module, size, items, member)?;
        numbers.push(number)?;
    }
    Ok(numbers)
}

/// The digit of the bit at this number: 1 if it is among these.
fn digit_at(numbers: &[u16], bit: u16) -> u8
    ensures { is_one result ≡ is_named numbers.now bit }
{
    if numbers.contains(&bit) {
        return b'1';
    }
    b'0'
}

/// A digit for each of so many bits: 1 at these numbers, and 0 at all others.
fn digits_of(alloc: Global, numbers: &[u16], size: u16) -> Result<Vec<u8>, AllocError>
    ensures { IfOk result (λ v. map is_one v.items ≡ bits_from numbers.now 0 size) }
{
    let mut digits = Vec::new(alloc);
    for bit in 0..size {
        digits.push(digit_at(numbers, bit))?;
    }
    Ok(digits)
}

/// So many bits: 1 at these numbers, and 0 at all others.
fn bits_at(alloc: Global, numbers: &[u16], size: u16) -> Result<Bits, AllocError>
    ensures { IfOk result (λ b. b ≡ bits_from numbers.now 0 size) }
{
    let digits = digits_of(alloc, numbers, size)?;
    bits_of_digits(alloc, &digits)
}

/// Writes a digit for each bit, in quotes.
fn write_bits(bits: &Bits, room: &mut Room) -> Result<(), AllocError>
    ensures { OnOk result (room_of room.new ≡ quoted bits.now (room_of room.old)) }
{
    room.put("'")?;
    push_bits(&mut room.text, bits)?;
    room.put("'B")
}

/// Writes so many bits: 1 where members name them.
fn write_these<'m, 's, 't>(
    alloc: Global,
    names: &Names<'m, 's, 't>,
    place: Place,
    module: usize,
    size: u16,
    items: &[Item<'s, 't>],
    members: &[Member<'s, 't>],
    room: &mut Room,
) -> Result<AsnValue, Error<'t>>
    requires { «module» < length (modules_in names.now) }
    ensures { Gives (λ v. (asn_value_of v, room_of room.new)) result
        (these_bits (modules_in names.now) place «module» size (map item_of items.now)
        (members_from (map member_of members.now)) (room_of room.old)) }
{
    let numbers = bit_numbers(alloc, names, place, module, size, items, members)?;
    let bits = bits_at(alloc, &numbers, size)?;
    write_bits(&bits, room)?;
    Ok(AsnValue::Bits(bits))
}

/// Writes the value in which the bits that members name are 1, where the type has one size (X.680, 22).
#[tactic(auto, unfolding(crate::specs::Bits::named_bits))]
pub fn write_named_bits<'m, 's, 't>(
    alloc: Global,
    names: &Names<'m, 's, 't>,
    of: TypeIn<'m, 's, 't>,
    place: Place,
    governor: Governor<'_, 's, 't>,
    members: &[Member<'s, 't>],
    room: &mut Room,
) -> Result<AsnValue, Error<'t>>
    requires of { of.«module» < length (modules_in names.now) }
    requires governor { governor.«module» < length (modules_in names.now) }
    ensures { Gives (λ v. (asn_value_of v, room_of room.new)) result
        (named_bits (modules_in names.now) (type_in of.entry) place (governor_of governor.entry)
        (members_from (map member_of members.now)) (room_of room.old)) }
{
    if governor.items.is_empty() {
        return Err(no_text(place));
    }
    let items = bits_of(alloc, governor)?;
    let sizes = size_limits(alloc, names, of)?;
    let size = fixed_size(place, sizes)?;
    write_these(
        alloc,
        names,
        place,
        governor.module,
        size,
        &items,
        members,
        room,
    )
}
