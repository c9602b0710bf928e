//! Presence bits: gathered one by one, and packed eight to an octet.
ghost use Rattle.std.specs.Prelude.{◌≡◌, ◌≤◌, ◌-◌, ◌∷◌, ◌++◌, [], Bool, Option, drop, false, is_some, length, map, replicate, take, true};
ghost use Rattle.oer_model.specs.AsnValue.{AsnValue};
ghost use Rattle.oer_model.specs.Bits.{packed, padded};
ghost use Rattle.oer_model.specs.Canonical.{bitmap_octets, unknown_marks};
ghost use Rattle.oer_leaves.specs.Parts.{place_bit};
ghost use Rattle.oer_values.specs.ShapeView.{need_of};
ghost use Rattle.oer_values.specs.ValueView.{unknown_of};
ghost use Rattle.oer_decoder.specs.MarksView.{bits_in};
ghost use Rattle.oer_decoder.specs.Octets.{gathered};
ghost use Rattle.oer_decoder.specs.Recoding.{Grows, bit_at};

use crate::gathering::{append, append_length};
use crate::octets::Octets;
use crate::preamble::Marks;
use crate::stop::Stop;
use oer_types::{Need, Unknown, octets_needed, spare_bits};
use std::alloc::Global;

/// The presence bit of a component, where it may be absent.
pub(crate) fn mark_place(
    need: &Need,
    is_kept: bool,
    alloc: Global,
    marks: &mut Marks,
) -> Result<(), Stop>
    ensures { (place : Option AsnValue) → is_kept ≡ is_some place → Grows (place_bit (need_of need.now) place) (bits_in marks.old) result (bits_in marks.new) }
{
    match need {
        Need::Must => Ok(()),
        Need::May => marks.push(alloc, is_kept),
        Need::Default(_) => marks.push(alloc, is_kept),
    }
}

// Bits that are zero, and one that is set.
fn mark_after(count: usize, alloc: Global, marks: &mut Marks) -> Result<(), Stop>
    ensures { Grows (replicate count false ++ true ∷ []) (bits_in marks.old) result (bits_in marks.new) }
{
    for i in 0..count {
        marks.push(alloc, false)?;
    }
    marks.push(alloc, true)
}

/// The bits of the additions that the type doesn't know, from the place `next` on.
pub(crate) fn mark_unknown(
    next: usize,
    unknown: &[Unknown],
    alloc: Global,
    marks: &mut Marks,
) -> Result<(), Stop>
    ensures { Grows (unknown_marks next (map unknown_of unknown.now)) (bits_in marks.old) result (bits_in marks.new) }
{
    let mut next = next;
    for one in unknown {
        let place = one.place as usize;
        mark_after(place.saturating_sub(next), alloc, marks)?;
        next = place + 1;
    }
    Ok(())
}

// What the bit at an index is worth, 0 where there is none.
fn worth(bits: &[bool], index: usize, weight: u8) -> u8
    ensures { result ≡ bit_at bits.now index weight }
{
    match bits.get(index) {
        Some(true) => weight,
        Some(false) => 0,
        None => 0,
    }
}

// The octet of up to eight bits, with zeros after them.
fn octet_of(bits: &[bool]) -> u8
    requires { length bits.now ≤ 8 }
    ensures { packed (bits.now ++ replicate (8 - length bits.now) false) ≡ result ∷ [] }
{
    let high = worth(bits, 0, 128) + worth(bits, 1, 64) + worth(bits, 2, 32) + worth(bits, 3, 16);
    high + worth(bits, 4, 8) + worth(bits, 5, 4) + worth(bits, 6, 2) + worth(bits, 7, 1)
}

// Appends the octets of the bits, the last one filled up with zeros.
fn append_bits(bits: &[bool], out: &mut Octets) -> Result<(), Stop>
    ensures { Grows (padded bits.now) (gathered out.old) result (gathered out.new) }
{
    let mut rest = bits;
    while rest.len() > 8 {
        append(&[octet_of(&rest[..8])], out)?;
        rest = &rest[8..];
    }
    if rest.is_empty() {
        return Ok(());
    }
    append(&[octet_of(rest)], out)
}

// Appends the bits as a BIT STRING without a size (X.696, 13.3), as the additions have them.
fn append_bitmap(bits: &[bool], out: &mut Octets) -> Result<(), Stop>
    ensures { Grows (bitmap_octets bits.now) (gathered out.old) result (gathered out.new) }
{
    let count = bits.len() as u64;
    append_length(octets_needed(count) + 1, out)?;
    append(&[spare_bits(count)], out)?;
    append_bits(bits, out)
}

/// Puts the bits, in whole octets, before the octets from a place on.
pub(crate) fn bits_before(bits: &[bool], at: usize, out: &mut Octets) -> Result<(), Stop>
    requires { at ≤ length (gathered out.old) }
    ensures { Grows (padded bits.now ++ drop at (gathered out.old)) (take at (gathered out.old)) result (gathered out.new) }
{
    let from = out.len();
    append_bits(bits, out)?;
    out.put_before(at, from);
    Ok(())
}

/// Puts the bitmap before the octets from a place on.
pub(crate) fn bitmap_before(bits: &[bool], at: usize, out: &mut Octets) -> Result<(), Stop>
    requires { at ≤ length (gathered out.old) }
    ensures { Grows (bitmap_octets bits.now ++ drop at (gathered out.old)) (take at (gathered out.old)) result (gathered out.new) }
{
    let from = out.len();
    append_bitmap(bits, out)?;
    out.put_before(at, from);
    Ok(())
}
