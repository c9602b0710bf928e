//! Which components are there, and their bits.
ghost use Rattle.std.specs.Prelude.{◌≡◌, ◌↔◌, ◌≤◌, ◌<◌, ◌*◌, ◌++◌, ◌||◌, ◌∷◌, [], IsTrue, Option, Some, None, List, Bool, false, true, length, map, option_map, replicate};
ghost use Rattle.oer_model.specs.Canonical.{any_present, any_unknown, bitmap_octets, unknown_marks, unknown_octets};
ghost use Rattle.oer_model.specs.AsnValue.{AsnValue};
ghost use Rattle.oer_model.specs.Bits.{padded};
ghost use Rattle.oer_values.specs.ShapeView.{additions_of, fields_of, need_of, type_of};
ghost use Rattle.oer_values.specs.ValueView.{places_of, unknown_of, value_of};
ghost use Rattle.oer_leaves.specs.Packing.{IsReady, Packs};
ghost use Rattle.oer_leaves.specs.Parts.{field_bits, first_bits, kept_place, known_bits, place_bit};
ghost use Rattle.oer_leaves.specs.Wrote.{Measures, Wrote};

use crate::leaf::{put_bits_head, unused_bits};
use crate::packer::Packer;
use crate::slice::{added, put_counted};
use oer_types::{Addition, Field, Need, Unknown, Value, same_filled_at};
use oer_units::{Sink, SinkFault};

/// The component, where it is there and isn't equal to its default after both are filled.
pub fn kept<'a>(field: &Field, place: &'a Option<Value>) -> Option<&'a Value>
    ensures { option_map (λ v. value_of v.now) result ≡ kept_place (need_of field.now.need) (type_of field.now.shape) (option_map value_of place.now) }
{
    let Some(value) = place else {
        return None;
    };
    match &field.need {
        Need::Must | Need::May => Some(value),
        Need::Default(default) => {
            if same_filled_at(&field.shape, value, default) {
                None
            } else {
                Some(value)
            }
        }
    }
}

// Takes the presence bit of a component, where it may be absent.
fn put_place_bit<W: Sink>(
    field: &Field,
    place: &Option<Value>,
    packer: &mut Packer,
    done: u64,
    sink: &mut W,
) -> Result<u64, SinkFault>
    requires { IsReady packer.old }
    ensures { Packs (place_bit (need_of field.now.need) (kept_place (need_of field.now.need) (type_of field.now.shape) (option_map value_of place.now))) packer.old packer.new done (W.contents sink.old) (W.failed sink.old) result (W.contents sink.new) (W.failed sink.new) }
{
    match &field.need {
        Need::Must => Ok(done),
        Need::May => packer.put(kept(field, place).is_some(), done, sink),
        Need::Default(_) => packer.put(kept(field, place).is_some(), done, sink),
    }
}

// Takes the presence bits of a root (X.696, 16.2).
pub(crate) fn put_root_bits<W: Sink>(
    fields: &[Field],
    places: &[Option<Value>],
    packer: &mut Packer,
    done: u64,
    sink: &mut W,
) -> Result<u64, SinkFault>
    requires { IsReady packer.old }
    ensures { Packs (field_bits (fields_of fields.now) (places_of places.now)) packer.old packer.new done (W.contents sink.old) (W.failed sink.old) result (W.contents sink.new) (W.failed sink.new) }
{
    let mut done = done;
    let mut rest = places;
    for field in fields {
        let Some((place, more)) = rest.split_first() else {
            return Ok(done);
        };
        done = put_place_bit(field, place, packer, done, sink)?;
        rest = more;
    }
    Ok(done)
}

// Takes the bits of the additions that the type knows (X.696, 16.4).
pub(crate) fn put_known_bits<W: Sink>(
    additions: &[Addition],
    places: &[Option<Value>],
    packer: &mut Packer,
    done: u64,
    sink: &mut W,
) -> Result<u64, SinkFault>
    requires { IsReady packer.old }
    ensures { Packs (known_bits (additions_of additions.now) (places_of places.now)) packer.old packer.new done (W.contents sink.old) (W.failed sink.old) result (W.contents sink.new) (W.failed sink.new) }
{
    let mut done = done;
    let mut rest = places;
    for _ in additions {
        let Some((place, more)) = rest.split_first() else {
            return Ok(done);
        };
        done = packer.put(place.is_some(), done, sink)?;
        rest = more;
    }
    Ok(done)
}

// Takes bits that are zero, and one that is set.
fn put_mark<W: Sink>(
    count: usize,
    packer: &mut Packer,
    done: u64,
    sink: &mut W,
) -> Result<u64, SinkFault>
    requires { IsReady packer.old }
    ensures { Packs (replicate count false ++ true ∷ []) packer.old packer.new done (W.contents sink.old) (W.failed sink.old) result (W.contents sink.new) (W.failed sink.new) }
{
    let mut sum = done;
    for _ in 0..count {
        sum = packer.put(false, sum, sink)?;
    }
    packer.put(true, sum, sink)
}

// Takes the bits of the additions that the type doesn't know, from the place `next` on.
pub(crate) fn put_unknown_bits<W: Sink>(
    next: usize,
    unknown: &[Unknown],
    packer: &mut Packer,
    done: u64,
    sink: &mut W,
) -> Result<u64, SinkFault>
    requires { IsReady packer.old }
    ensures { Packs (unknown_marks next (map unknown_of unknown.now)) packer.old packer.new done (W.contents sink.old) (W.failed sink.old) result (W.contents sink.new) (W.failed sink.new) }
{
    let mut done = done;
    let mut next = next;
    for one in unknown {
        let place = one.place as usize;
        done = put_mark(place.saturating_sub(next), packer, done, sink)?;
        next = place + 1;
    }
    Ok(done)
}

// How many bits they are.
pub(crate) fn count_unknown_bits(next: usize, unknown: &[Unknown]) -> u128
    ensures value { result ≡ length (unknown_marks next (map unknown_of unknown.now)) }
    ensures most { result ≤ 65536 * length unknown.now }
{
    let mut count = 0u128;
    let mut next = next;
    for one in unknown {
        let place = one.place as usize;
        count += place.saturating_sub(next) as u128 + 1;
        next = place + 1;
    }
    count
}

// Takes the extension bit, where the type has one.
fn put_first_bit<W: Sink>(
    first: Option<bool>,
    packer: &mut Packer,
    done: u64,
    sink: &mut W,
) -> Result<u64, SinkFault>
    requires { IsReady packer.old }
    ensures { Packs (first_bits first) packer.old packer.new done (W.contents sink.old) (W.failed sink.old) result (W.contents sink.new) (W.failed sink.new) }
{
    match first {
        None => Ok(done),
        Some(bit) => packer.put(bit, done, sink),
    }
}

// How many bits there are before the others.
fn count_first_bits(first: Option<bool>) -> usize
    ensures value { result ≡ length (first_bits first) }
    ensures most { result ≤ 1 }
{
    match first {
        None => 0,
        Some(_) => 1,
    }
}

// How many presence bits a component has.
fn count_place_bits(need: &Need) -> usize
    ensures value { (place : Option AsnValue) → result ≡ length (place_bit (need_of need.now) place) }
    ensures most { result ≤ 1 }
{
    match need {
        Need::Must => 0,
        Need::May => 1,
        Need::Default(_) => 1,
    }
}

// How many presence bits a root has.
fn count_root_bits(fields: &[Field], places: &[Option<Value>]) -> usize
    ensures value { result ≡ length (field_bits (fields_of fields.now) (places_of places.now)) }
    ensures most { result ≤ length fields.now }
{
    let mut count = 0;
    let mut rest = places;
    for field in fields {
        let Some((_place, more)) = rest.split_first() else {
            return count;
        };
        count += count_place_bits(&field.need);
        rest = more;
    }
    count
}

/// Adds the octets of a preamble to those done, or answers none where they come to 2^64.
pub fn measured_preamble(
    first: Option<bool>,
    fields: &[Field],
    places: &[Option<Value>],
    done: u64,
) -> Option<u64>
    ensures { Measures done (padded (first_bits first ++ field_bits (fields_of fields.now) (places_of places.now))) result }
{
    let count = count_first_bits(first) + count_root_bits(fields, places);
    added(done, (count as u64 + 7) / 8)
}

/// Writes a preamble (X.696, 16.2).
pub fn put_preamble<W: Sink>(
    first: Option<bool>,
    fields: &[Field],
    places: &[Option<Value>],
    done: u64,
    sink: &mut W,
) -> Result<u64, SinkFault>
    ensures { Wrote done (padded (first_bits first ++ field_bits (fields_of fields.now) (places_of places.now))) (W.contents sink.old) (W.failed sink.old) result (W.contents sink.new) (W.failed sink.new) }
{
    let mut packer = Packer::new();
    let done = put_first_bit(first, &mut packer, done, sink)?;
    let done = put_root_bits(fields, places, &mut packer, done, sink)?;
    packer.finish(done, sink)
}

// Writes the bits of a bitmap.
fn put_marks<W: Sink>(
    additions: &[Addition],
    added: &[Option<Value>],
    unknown: &[Unknown],
    done: u64,
    sink: &mut W,
) -> Result<u64, SinkFault>
    ensures { Wrote done (padded (known_bits (additions_of additions.now) (places_of added.now) ++ unknown_marks (length additions.now) (map unknown_of unknown.now))) (W.contents sink.old) (W.failed sink.old) result (W.contents sink.new) (W.failed sink.new) }
{
    let mut packer = Packer::new();
    let done = put_known_bits(additions, added, &mut packer, done, sink)?;
    let done = put_unknown_bits(additions.len(), unknown, &mut packer, done, sink)?;
    packer.finish(done, sink)
}

/// Writes the bitmap of the additions (X.696, 16.4).
pub fn put_bitmap<W: Sink>(
    additions: &[Addition],
    added: &[Option<Value>],
    unknown: &[Unknown],
    done: u64,
    sink: &mut W,
) -> Result<u64, SinkFault>
    ensures { Wrote done (bitmap_octets (known_bits (additions_of additions.now) (places_of added.now) ++ unknown_marks (length additions.now) (map unknown_of unknown.now))) (W.contents sink.old) (W.failed sink.old) result (W.contents sink.new) (W.failed sink.new) }
{
    let known = additions.len().min(added.len()) as u128;
    let count = known + count_unknown_bits(additions.len(), unknown);
    let Ok(length) = u64::try_from((count + 7) / 8 + 1) else {
        return Err(SinkFault { written: done });
    };
    let done = put_bits_head(length, unused_bits(count), done, sink)?;
    put_marks(additions, added, unknown, done, sink)
}

/// Whether an addition is there.
pub fn is_extended(added: &[Option<Value>], unknown: &[Unknown]) -> bool
    ensures { result ≡ (any_present (places_of added.now) || any_unknown (map unknown_of unknown.now)) }
{
    for place in added {
        if place.is_some() {
            return true;
        }
    }
    !unknown.is_empty()
}

/// Writes the additions that the type doesn't know, each after its length (X.696, 16.5).
pub fn put_unknown<W: Sink>(unknown: &[Unknown], done: u64, sink: &mut W) -> Result<u64, SinkFault>
    ensures { Wrote done (unknown_octets (map unknown_of unknown.now)) (W.contents sink.old) (W.failed sink.old) result (W.contents sink.new) (W.failed sink.new) }
{
    let mut done = done;
    for one in unknown {
        done = put_counted(&one.octets, done, sink)?;
    }
    Ok(done)
}
