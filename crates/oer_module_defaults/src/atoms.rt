//! Values that are one token: which values they are, and their words.
ghost use Rattle.std.specs.Prelude.{◌≡◌, option_map};
ghost use Rattle.oer_model.specs.AsnValue.{bit_list, octets};
ghost use Rattle.oer_module_terms.specs.Trees.{atom_of, value_of};
ghost use Rattle.oer_module_text.specs.Errors.{Gives};
ghost use Rattle.oer_module_text.specs.Room.{room_of};
ghost use Rattle.oer_module_text.specs.declared.error.Part.TheVariants as part;
ghost use Rattle.oer_module_text.specs.declared.error.Why.TheVariants.{NoSuchValue, NotTaken, TooWide};
ghost use Rattle.oer_value_notation.specs.Values.{digit_bits, inside, octets_in};
ghost use Rattle.oer_values.specs.ValueView.{value_of as asn_value_of};
ghost use Rattle.oer_module_defaults.specs.Atoms.{bit_token_at, boolean_at, digits_at, has_below, line_at, null_at, octet_string_at};
ghost use Rattle.oer_module_defaults.specs.Atoms.{single, text_at, zeros_and_ones_at};

use oer_literals::bits_of_digits;
use oer_module_names::Place;
use oer_module_terms::{Atom, Fixed, Value};
use oer_module_text::{Error, Part, Room, Why};
use oer_value_notation::{digit_bits, inside, octets_in, text_in};
use oer_values::Value as AsnValue;
use std::alloc::Global;

/// The value, if it holds no other.
#[tactic(auto, using(oer_module_terms::proofs::Views::views))]
pub fn single<'s, 't>(value: &Value<'s, 't>) -> Option<Atom<'s, 't>>
    ensures { option_map atom_of result ≡ single (value_of value.now) }
{
    match value {
        Value::Atom { atom, .. } => Some(*atom),
        Value::Numbered { .. } | Value::Choice { .. } | Value::Braces { .. } => None,
    }
}

/// Whether a text has an octet below this one.
fn has_below(least: u8, text: &str) -> bool
    ensures { result ≡ has_below least text.now }
{
    for octet in text.as_bytes() {
        if *octet < least {
            return true;
        }
    }
    false
}

pub fn none_such<'t>(place: Place) -> Error<'t>
    ensures place { result.place ≡ place }
    ensures why { result.why ≡ NoSuchValue }
{
    Error {
        place,
        why: Why::NoSuchValue,
    }
}

pub fn no_text<'t>(place: Place) -> Error<'t>
    ensures place { result.place ≡ place }
    ensures why { result.why ≡ NotTaken part.Value }
{
    Error {
        place,
        why: Why::NotTaken(Part::Value),
    }
}

pub fn too_wide<'t>(place: Place) -> Error<'t>
    ensures place { result.place ≡ place }
    ensures why { result.why ≡ TooWide }
{
    Error {
        place,
        why: Why::TooWide,
    }
}

/// A BOOLEAN (X.680, 18.3).
pub fn write_boolean<'t>(
    place: Place,
    atom: Option<Atom<'_, 't>>,
    room: &mut Room,
) -> Result<AsnValue, Error<'t>>
    ensures { Gives (λ v. (asn_value_of v, room_of room.new)) result (boolean_at place (option_map atom_of atom.entry) (room_of room.old)) }
{
    match atom {
        Some(Atom::Fixed(Fixed::True)) => {
            room.put("TRUE")?;
            Ok(AsnValue::Bool(true))
        }
        Some(Atom::Fixed(Fixed::False)) => {
            room.put("FALSE")?;
            Ok(AsnValue::Bool(false))
        }
        _ => Err(none_such(place)),
    }
}

/// NULL (X.680, 24.3).
pub fn write_null<'t>(
    place: Place,
    atom: Option<Atom<'_, 't>>,
    room: &mut Room,
) -> Result<AsnValue, Error<'t>>
    ensures { Gives (λ v. (asn_value_of v, room_of room.new)) result (null_at place (option_map atom_of atom.entry) (room_of room.old)) }
{
    match atom {
        Some(Atom::Fixed(Fixed::Null)) => {
            room.put("NULL")?;
            Ok(AsnValue::Null)
        }
        _ => Err(none_such(place)),
    }
}

/// The octets of hexadecimal digits, two for each.
fn write_octets<'t>(
    alloc: Global,
    place: Place,
    word: &str,
    room: &mut Room,
) -> Result<AsnValue, Error<'t>>
    ensures { Gives (λ v. (asn_value_of v, room_of room.new)) result
        (digits_at octets place word.now (octets_in (inside word.now)) (room_of room.old)) }
{
    let Some(octets) = octets_in(alloc, inside(word))? else {
        return Err(no_text(place));
    };
    room.put(word)?;
    Ok(AsnValue::Octets(octets))
}

/// The bits of hexadecimal digits, four for each.
fn write_digit_bits<'t>(
    alloc: Global,
    place: Place,
    word: &str,
    room: &mut Room,
) -> Result<AsnValue, Error<'t>>
    ensures { Gives (λ v. (asn_value_of v, room_of room.new)) result
        (digits_at bit_list place word.now (digit_bits (inside word.now)) (room_of room.old)) }
{
    let Some(bits) = digit_bits(alloc, inside(word))? else {
        return Err(no_text(place));
    };
    room.put(word)?;
    Ok(AsnValue::Bits(bits))
}

/// The bits of digits 0 and 1.
fn write_zeros_and_ones<'t>(
    alloc: Global,
    place: Place,
    word: &str,
    room: &mut Room,
) -> Result<AsnValue, Error<'t>>
    ensures { Gives (λ v. (asn_value_of v, room_of room.new)) result (zeros_and_ones_at place word.now (room_of room.old)) }
{
    if has_below(33, word) {
        return Err(no_text(place));
    }
    let bits = bits_of_digits(alloc, inside(word))?;
    room.put(word)?;
    Ok(AsnValue::Bits(bits))
}

/// A text on one line.
fn write_line<'t>(
    alloc: Global,
    place: Place,
    word: &str,
    room: &mut Room,
) -> Result<AsnValue, Error<'t>>
    ensures { Gives (λ v. (asn_value_of v, room_of room.new)) result (line_at place word.now (room_of room.old)) }
{
    if has_below(32, word) {
        return Err(no_text(place));
    }
    let text = text_in(alloc, word)?;
    room.put(word)?;
    Ok(AsnValue::Text(text))
}

/// An OCTET STRING: two digits for each octet, without white space (X.680, 23).
pub fn write_octet_string<'t>(
    alloc: Global,
    place: Place,
    atom: Option<Atom<'_, 't>>,
    room: &mut Room,
) -> Result<AsnValue, Error<'t>>
    ensures { Gives (λ v. (asn_value_of v, room_of room.new)) result
        (octet_string_at place (option_map atom_of atom.entry) (room_of room.old)) }
{
    match atom {
        Some(Atom::Digits(word)) => write_octets(alloc, place, word, room),
        Some(Atom::Bits(_)) => Err(no_text(place)),
        _ => Err(none_such(place)),
    }
}

/// A BIT STRING: bits, or digits for four of them, without white space (X.680, 22).
pub fn write_bit_token<'t>(
    alloc: Global,
    place: Place,
    atom: Option<Atom<'_, 't>>,
    room: &mut Room,
) -> Result<AsnValue, Error<'t>>
    ensures { Gives (λ v. (asn_value_of v, room_of room.new)) result
        (bit_token_at place (option_map atom_of atom.entry) (room_of room.old)) }
{
    match atom {
        Some(Atom::Bits(word)) => write_zeros_and_ones(alloc, place, word, room),
        Some(Atom::Digits(word)) => write_digit_bits(alloc, place, word, room),
        _ => Err(none_such(place)),
    }
}

/// A text, on one line (X.680, 12.14).
pub fn write_text<'t>(
    alloc: Global,
    place: Place,
    atom: Option<Atom<'_, 't>>,
    room: &mut Room,
) -> Result<AsnValue, Error<'t>>
    ensures { Gives (λ v. (asn_value_of v, room_of room.new)) result (text_at place (option_map atom_of atom.entry) (room_of room.old)) }
{
    match atom {
        Some(Atom::Text(word)) => write_line(alloc, place, word, room),
        _ => Err(none_such(place)),
    }
}
