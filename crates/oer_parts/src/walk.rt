//! What one step finds in an encoding.
ghost use Rattle.std.specs.Prelude.{◌≡◌, ◌≤◌, IfOk, IfSome, drop, length, option_map, true};
ghost use Rattle.oer_units.specs.Reader.{at};
ghost use Rattle.oer_units.specs.Reading.{counted_octets, open_type};
ghost use Rattle.oer_units.specs.Spelling.{IsLength};
ghost use Rattle.oer_model.specs.AsnType.{no_alternatives};
ghost use Rattle.oer_model.specs.Bits.{first_bit};
ghost use Rattle.oer_model.specs.Checking.{both, check_additions as additions_checked, check_fields as fields_checked, check_unknown as unknown_checked, check_value};
ghost use Rattle.oer_model.specs.Constraints.{AdditionsKeepLimits, FieldsKeepLimits, KeepsLimits, optional as optional_in};
ghost use Rattle.oer_model.specs.Fits.{AdditionDefaultsFit, DefaultsFit, FieldDefaultsFit};
ghost use Rattle.oer_model.specs.Parts.{addition_parts, field_parts, join_parts, knows as knows_step, octets_of, parts_in, read_parts, to_addition, to_chosen, to_component, to_item, unknown_parts};
ghost use Rattle.oer_values.specs.ShapeView.{additions_of, fields_of, type_of};
ghost use Rattle.oer_checker.specs.BitView.{IsWhole, bits_in};
ghost use Rattle.oer_parts.specs.Last.{TakesAll, none_there as no_field_there};
ghost use Rattle.oer_parts.specs.Offsets.{AreAdditions, AreFields, AreUnknown, IsBefore};
ghost use Rattle.oer_checker.specs.Places.{place_of};
ghost use Rattle.oer_parts.specs.Walk.{CanSplit, Enters, IsAfter, IsGot, LooksUp, StandsBy, Stands, read_in, step_of, type_in};

use crate::clear::are_clear;
use crate::fault::PartFault;
use crate::step::Step;
use oer_checker::readers::{
    Bits, Cursor, addition_map, check_additions, check_elements, check_fields, check_shape,
    check_unknown, group_at, octets_between, preamble, presence, sized_length_at,
    sized_quantity_at, tag_at,
};
use oer_types::{Addition, Field, Shape, optional, with_tag};

/// Octets in an encoding, and their type if that is known.
#[derive(Clone, Copy)]
pub(crate) struct Piece<'s, 'a> {
    pub shape: Option<&'s Shape>,
    pub octets: &'a [u8],
    /// How many octets the encoding has from their first on.
    pub rest: usize,
}

/// The octets that are an encoding of a value of the type. Where it is the last, these are all that
/// are left, and aren't looked at.
fn encoding_at<'a>(shape: &Shape, cursor: Cursor<'a>, is_last: bool) -> Option<&'a [u8]>
    requires limits { KeepsLimits (type_of shape.now) }
    requires defaults { DefaultsFit (type_of shape.now) }
    requires last { is_last ≡ true → TakesAll (check_value (type_of shape.now) (place_of cursor)) }
    ensures { option_map (λ s. s.now) result ≡ read_in (octets_of (check_value (type_of shape.now)) (place_of cursor.entry)) }
{
    if is_last {
        return Some(cursor.rest);
    }
    let mut end = cursor;
    let Ok(_) = check_shape(shape, &mut end) else {
        return None;
    };
    Some(octets_between(cursor, end))
}

/// The content of an open type (X.696, 30): the octets that its length counts.
fn content_at<'s, 'a>(shape: Option<&'s Shape>, cursor: Cursor<'a>) -> Option<Piece<'s, 'a>>
    ensures read { option_map (λ p. p.octets.now) result ≡ read_in (counted_octets (place_of cursor.entry)) }
    ensures kind { IfSome result (λ p. type_in p ≡ option_map (λ s. type_of s.now) shape.entry) }
    ensures stands { Stands (λ n l. IsLength n l) (place_of cursor.entry) result }
{
    let mut begin = cursor;
    let Ok(counted) = sized_length_at(&mut begin) else {
        return None;
    };
    let mut end = begin;
    let Ok(content) = group_at(&mut end, counted.count) else {
        return None;
    };
    Some(Piece {
        shape,
        octets: content,
        rest: begin.rest.len(),
    })
}

/// Whether none of the components is there, of which so many have a presence bit. None of them is
/// looked at: where each has a bit, the octets of these tell. The answer no is always right, and comes
/// where they are in more octets than `most`.
fn none_there(fields: &[Field], count: usize, bits: Bits, most: usize) -> bool
    requires { count ≡ optional_in (fields_of fields.now) }
    ensures { result ≡ true → no_field_there (fields_of fields.now) (bits_in bits.entry) ≡ true }
{
    count == fields.len() && count / 8 <= most && are_clear(bits)
}

/// The component with this number of a root whose presence bits these are, if it is there; so many of
/// the components have a bit. Where the root is all that is left, its last component that is there needs
/// no check, unless the bits of those after it are in more octets than it can have.
fn field_in<'s, 'a>(
    fields: &'s [Field],
    count: usize,
    index: usize,
    bits: Bits<'a>,
    cursor: Cursor<'a>,
    is_all: bool,
) -> Option<Piece<'s, 'a>>
    requires limits { FieldsKeepLimits (fields_of fields.now) }
    requires defaults { FieldDefaultsFit (fields_of fields.now) }
    requires count { count ≡ optional_in (fields_of fields.now) }
    requires checked { IsGot (fields_checked (fields_of fields.now) (bits_in bits) (place_of cursor)) }
    requires all { is_all ≡ true → TakesAll (fields_checked (fields_of fields.now) (bits_in bits) (place_of cursor)) }
    ensures found { LooksUp (parts_in (field_parts (fields_of fields.now) 0 (bits_in bits.entry) (place_of cursor.entry))) (to_component index) result }
    ensures stands { Stands (λ n a. AreFields (fields_of fields.now) index (bits_in bits.entry) a) (place_of cursor.entry) result }
{
    if index >= fields.len() {
        return None;
    }
    let field = &fields[index];
    let before = &fields[..index];
    let passed = optional(before);
    let (is_present, later) = presence(&field.need, bits.skip(passed as u64));
    if !is_present {
        return None;
    }
    let mut start = cursor;
    let Ok(_) = check_fields(before, bits, &mut start) else {
        return None;
    };
    let after = &fields[index + 1..];
    let left = count - passed - optional(&fields[index..index + 1]);
    let is_last = is_all && none_there(after, left, later, start.rest.len());
    let Some(octets) = encoding_at(&field.shape, start, is_last) else {
        return None;
    };
    Some(Piece {
        shape: Some(&field.shape),
        octets,
        rest: start.rest.len(),
    })
}

/// The component of a SEQUENCE's root with this number, if it is there.
fn component_of<'s, 'a>(shape: &'s Shape, index: usize, cursor: Cursor<'a>) -> Option<Piece<'s, 'a>>
    requires limits { KeepsLimits (type_of shape.now) }
    requires defaults { DefaultsFit (type_of shape.now) }
    requires checked { TakesAll (check_value (type_of shape.now) (place_of cursor)) }
    ensures found { LooksUp (parts_in (read_parts (type_of shape.now) (place_of cursor.entry))) (to_component index) result }
    ensures stands { Stands (IsBefore (type_of shape.now) (to_component index)) (place_of cursor.entry) result }
{
    let Shape::Sequence { root, additions } = shape else {
        return None;
    };
    let fields: &[Field] = root;
    match additions {
        None => {
            let mut next = cursor;
            let count = optional(fields);
            let Ok(bits) = preamble(count as u64, &mut next) else {
                return None;
            };
            field_in(fields, count, index, bits, next, true)
        }
        Some(_) => {
            let mut next = cursor;
            let count = optional(fields);
            let Ok(bits) = preamble(count as u64 + 1, &mut next) else {
                return None;
            };
            field_in(fields, count, index, bits.later(), next, !bits.first())
        }
    }
}

/// The addition with this number, known or not, where the bits are those of the bitmap.
fn addition_in<'s, 'a>(
    additions: &'s [Addition],
    index: usize,
    bits: Bits<'a>,
    cursor: Cursor<'a>,
) -> Option<Piece<'s, 'a>>
    requires limits { AdditionsKeepLimits (additions_of additions.now) }
    requires defaults { AdditionDefaultsFit (additions_of additions.now) }
    requires whole { IsWhole bits }
    requires checked { IsGot (both (additions_checked (additions_of additions.now) (bits_in bits)) (unknown_checked (drop (length additions.now) (bits_in bits))) (place_of cursor)) }
    ensures found { LooksUp (parts_in (join_parts (addition_parts (additions_of additions.now) 0 (bits_in bits.entry)) (unknown_parts (length additions.now) (drop (length additions.now) (bits_in bits.entry))) (place_of cursor.entry))) (to_addition index) result }
    ensures stands { Stands (AreAdditions (additions_of additions.now) index (bits_in bits.entry)) (place_of cursor.entry) result }
{
    if !bits.skip(index as u64).first() {
        return None;
    }
    if index >= additions.len() {
        let mut next = cursor;
        let Ok(_) = check_additions(additions, bits, &mut next) else {
            return None;
        };
        return unknown_in(bits, additions.len(), index, next);
    }
    let mut start = cursor;
    let Ok(_) = check_additions(&additions[..index], bits, &mut start) else {
        return None;
    };
    let addition = &additions[index];
    content_at(Some(&addition.shape), start)
}

/// The addition with this number, of which the type knows so many, where it is there.
fn unknown_in<'s, 'a>(
    bits: Bits<'a>,
    known: usize,
    index: usize,
    cursor: Cursor<'a>,
) -> Option<Piece<'s, 'a>>
    requires whole { IsWhole bits }
    requires checked { IsGot (unknown_checked (drop known (bits_in bits)) (place_of cursor)) }
    requires later { known ≤ index }
    requires there { first_bit (drop index (bits_in bits)) ≡ true }
    ensures found { LooksUp (parts_in (unknown_parts known (drop known (bits_in bits.entry)) (place_of cursor.entry))) (to_addition index) result }
    ensures stands { Stands (AreUnknown known index (bits_in bits.entry)) (place_of cursor.entry) result }
{
    let mut start = cursor;
    let Ok(_) = check_unknown(bits.until(index as u64), known, &mut start) else {
        return None;
    };
    content_at(None, start)
}

/// The addition of a SEQUENCE with this number, known or not, if it is there.
fn addition_of<'s, 'a>(shape: &'s Shape, index: usize, cursor: Cursor<'a>) -> Option<Piece<'s, 'a>>
    requires limits { KeepsLimits (type_of shape.now) }
    requires defaults { DefaultsFit (type_of shape.now) }
    requires checked { IsGot (check_value (type_of shape.now) (place_of cursor)) }
    ensures found { LooksUp (parts_in (read_parts (type_of shape.now) (place_of cursor.entry))) (to_addition index) result }
    ensures stands { Stands (IsBefore (type_of shape.now) (to_addition index)) (place_of cursor.entry) result }
{
    let Shape::Sequence { root, additions } = shape else {
        return None;
    };
    let Some(additions) = additions else {
        return None;
    };
    let fields: &[Field] = root;
    let additions: &[Addition] = additions;
    let mut next = cursor;
    let Ok(bits) = preamble(optional(fields) as u64 + 1, &mut next) else {
        return None;
    };
    if !bits.first() {
        return None;
    }
    let Ok(_) = check_fields(fields, bits.later(), &mut next) else {
        return None;
    };
    let Ok(map) = addition_map(additions.len(), &mut next) else {
        return None;
    };
    addition_in(additions, index, map.bits, next)
}

/// The element of a SEQUENCE OF with this number, if there are as many.
fn element_of<'s, 'a>(shape: &'s Shape, index: usize, cursor: Cursor<'a>) -> Option<Piece<'s, 'a>>
    requires limits { KeepsLimits (type_of shape.now) }
    requires defaults { DefaultsFit (type_of shape.now) }
    requires checked { TakesAll (check_value (type_of shape.now) (place_of cursor)) }
    ensures found { LooksUp (parts_in (read_parts (type_of shape.now) (place_of cursor.entry))) (to_item index) result }
    ensures stands { Stands (IsBefore (type_of shape.now) (to_item index)) (place_of cursor.entry) result }
{
    let Shape::SequenceOf { size, item } = shape else {
        return None;
    };
    let item: &Shape = item;
    let mut next = cursor;
    let Ok(counted) = sized_quantity_at(*size, &mut next) else {
        return None;
    };
    if index as u64 >= counted.count {
        return None;
    }
    let mut start = next;
    let Ok(_) = check_elements(item, index as u64, &mut start) else {
        return None;
    };
    let is_last = index as u64 + 1 == counted.count;
    let Some(octets) = encoding_at(item, start, is_last) else {
        return None;
    };
    Some(Piece {
        shape: Some(item),
        octets,
        rest: start.rest.len(),
    })
}

/// The alternative of a CHOICE.
fn alternative_of<'s, 'a>(shape: &'s Shape, cursor: Cursor<'a>) -> Option<Piece<'s, 'a>>
    requires limits { KeepsLimits (type_of shape.now) }
    requires defaults { DefaultsFit (type_of shape.now) }
    requires checked { TakesAll (check_value (type_of shape.now) (place_of cursor)) }
    ensures found { LooksUp (parts_in (read_parts (type_of shape.now) (place_of cursor.entry))) to_chosen result }
    ensures stands { Stands (IsBefore (type_of shape.now) to_chosen) (place_of cursor.entry) result }
{
    let Shape::Choice { root, additions } = shape else {
        return None;
    };
    let mut next = cursor;
    let Ok(tag) = tag_at(&mut next) else {
        return None;
    };
    if let Some(alternative) = with_tag(root, tag) {
        let octets = encoding_at(&alternative.shape, next, true)?;
        return Some(Piece {
            shape: Some(&alternative.shape),
            octets,
            rest: next.rest.len(),
        });
    }
    let Some(additions) = additions else {
        return None;
    };
    match with_tag(additions, tag) {
        Some(alternative) => content_at(Some(&alternative.shape), next),
        None => content_at(None, next),
    }
}

/// What the step leads to in the encoding of a value of the type.
fn step_into<'s, 'a>(shape: &'s Shape, octets: &'a [u8], step: Step) -> Option<Piece<'s, 'a>>
    requires limits { KeepsLimits (type_of shape.now) }
    requires defaults { DefaultsFit (type_of shape.now) }
    requires checked { TakesAll (check_value (type_of shape.now) (at octets.now (length octets.now))) }
    ensures found { LooksUp (parts_in (read_parts (type_of shape.now) (at octets.now (length octets.now)))) (step_of step) result }
    ensures stands { Stands (IsBefore (type_of shape.now) (step_of step)) (at octets.now (length octets.now)) result }
{
    let cursor = Cursor {
        rest: octets,
        left: octets.len() as u64,
    };
    match step {
        Step::Component(index) => component_of(shape, index, cursor),
        Step::Addition(index) => addition_of(shape, index, cursor),
        Step::Item(index) => element_of(shape, index, cursor),
        Step::Chosen => alternative_of(shape, cursor),
    }
}

/// Whether the step names a component of the root or an addition that the type knows.
fn knows(shape: &Shape, step: Step) -> bool
    ensures { result ≡ knows_step (type_of shape.now) (step_of step) }
{
    let Shape::Sequence { root, additions } = shape else {
        return false;
    };
    match step {
        Step::Component(index) => {
            let fields: &[Field] = root;
            index < fields.len()
        }
        Step::Addition(index) => {
            let Some(additions) = additions else {
                return false;
            };
            let additions: &[Addition] = additions;
            index < additions.len()
        }
        Step::Item(_) => false,
        Step::Chosen => false,
    }
}

impl<'s, 'a> Piece<'s, 'a> {
    /// What the step leads to in this part.
    pub(crate) fn enter(self, step: Step) -> Result<Piece<'s, 'a>, PartFault>
        requires { CanSplit (type_in self) self.octets.now }
        ensures found { Enters (type_in self.entry) self.entry.octets.now (step_of step) result }
        ensures stands { IfOk result (λ p. StandsBy (type_in self.entry) self.entry.octets.now (step_of step) p) }
    {
        let Some(shape) = self.shape else {
            return Err(PartFault::NoSuchStep);
        };
        match step_into(shape, self.octets, step) {
            Some(piece) => Ok(piece),
            None => Err(if knows(shape, step) {
                PartFault::Absent
            } else {
                PartFault::NoSuchStep
            }),
        }
    }
}
