//! What comes next in a part of which some was read.
ghost use Rattle.std.specs.Prelude.{◌≡◌, drop, is_some};
ghost use Rattle.oer_model.specs.Bits.{bit_value, bits_of};
ghost use Rattle.oer_values.specs.ShapeView.{fields_of};
ghost use Rattle.oer_entries.specs.Frames.{seen, type_at};
ghost use Rattle.oer_entries.specs.Next.{addition_from, after_preamble, after_quantity, after_root, after_tag, component_from, map_bits, next_in};

use crate::bits::{Bitmap, bit, has_bit};
use crate::frame::Frame;
use oer_reader::Step;
use oer_types::{Addition, Field, Shape};

// The first component from this one on that has octets, by the preamble.
fn next_component(root: &[Field], from: usize, is_extensible: bool, preamble: &[u8]) -> Option<Step>
    ensures { result ≡ component_from 0 from (fields_of root.now) (drop (bit_value is_extensible) (bits_of preamble.now)) }
{
    let mut place: usize = if is_extensible { 1 } else { 0 };
    for (index, field) in root.iter().enumerate() {
        let is_present = !has_bit(field) || bit(preamble, place);
        if has_bit(field) {
            place = place.saturating_add(1);
        }
        if is_present && index >= from {
            return Some(Step::Component(index));
        }
    }
    None
}

// The first addition from this one on that is there.
fn next_addition(bitmap: &[u8], from: usize) -> Option<Step>
    ensures { result ≡ addition_from from (drop from (map_bits bitmap.now)) }
{
    let bits = Bitmap::of(bitmap);
    for index in from..bits.count {
        if bits.bit(index) {
            return Some(Step::Addition(index));
        }
    }
    None
}

/// What comes next in a part of which some was read.
#[derive(Clone, Copy)]
pub(crate) enum Next {
    /// Octets of the part itself.
    Here,
    /// A part of it.
    Inside(Step),
    /// Nothing: it is whole.
    After,
}

// What comes after the components of the root.
fn next_after_root(frame: &Frame<'_>, is_extended: bool) -> Next
    ensures { result ≡ after_root is_extended (seen frame.now) }
{
    if !is_extended {
        return Next::After;
    }
    let Some(bitmap) = frame.bitmap else {
        return Next::Here;
    };
    let from = match frame.last {
        Some(Step::Addition(index)) => index.saturating_add(1),
        _ => 0,
    };
    match next_addition(bitmap, from) {
        Some(step) => Next::Inside(step),
        None => Next::After,
    }
}

// What comes next in a SEQUENCE.
fn next_in_sequence(frame: &Frame<'_>, root: &[Field], additions: &Option<Vec<Addition>>) -> Next
    ensures { let f = seen frame.now in result ≡ after_preamble (is_some additions.now) (fields_of root.now) f.preamble f }
{
    let Some(preamble) = frame.preamble else {
        return Next::Here;
    };
    let is_extensible = additions.is_some();
    let from = match frame.last {
        None => Some(0),
        Some(Step::Component(index)) => Some(index.saturating_add(1)),
        _ => None,
    };
    if let Some(from) = from {
        if let Some(step) = next_component(root, from, is_extensible, preamble) {
            return Next::Inside(step);
        }
    }
    next_after_root(frame, is_extensible && bit(preamble, 0))
}

// What comes next in a SEQUENCE OF.
fn next_element(frame: &Frame<'_>) -> Next
    ensures { result ≡ after_quantity frame.now.count frame.now.last }
{
    let Some(count) = frame.count else {
        return Next::Here;
    };
    let index = match frame.last {
        Some(Step::Item(index)) => index.saturating_add(1),
        _ => 0,
    };
    if index < count {
        Next::Inside(Step::Item(index))
    } else {
        Next::After
    }
}

// What comes next in a CHOICE.
fn next_in_choice(frame: &Frame<'_>) -> Next
    ensures { result ≡ after_tag (type_at frame.now) frame.now.tag frame.now.last }
{
    if frame.last.is_some() {
        return Next::After;
    }
    match frame.tag {
        Some(tag) if frame.has_alternative(tag) => Next::Inside(Step::Chosen),
        _ => Next::Here,
    }
}

/// What comes next in the part.
pub(crate) fn next_of(frame: &Frame<'_>) -> Next
    ensures { result ≡ next_in (seen frame.now) }
{
    match frame.shape {
        Some(Shape::Sequence { root, additions }) => next_in_sequence(frame, root, additions),
        Some(Shape::SequenceOf { .. }) => next_element(frame),
        Some(Shape::Choice { .. }) => next_in_choice(frame),
        _ if frame.is_done => Next::After,
        _ => Next::Here,
    }
}
