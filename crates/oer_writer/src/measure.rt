//! How many canonical octets a value has.
ghost use Rattle.std.specs.Prelude.{◌≡◌, ◌++◌, ℕ, List, length, map, option_map};
ghost use Rattle.oer_units.specs.Least.{counted, tag_octets, unsigned_octets};
ghost use Rattle.oer_model.specs.AsnValue.{chosen, items, seq};
ghost use Rattle.oer_model.specs.Bits.{padded};
ghost use Rattle.oer_model.specs.Canonical.{bitmap_octets, canonical_octets, unknown_marks, unknown_octets};
ghost use Rattle.oer_values.specs.ShapeView.{additions_of, fields_of, later_of, need_of, type_of};
ghost use Rattle.oer_values.specs.ValueView.{places_of, unknown_of, value_of, values_of};
ghost use Rattle.oer_leaves.specs.Parts.{addition_octets, chosen_octets, counted_place, field_bits, field_octets, first_bits, kept_place, known_bits, known_octets, leaf_octets, place_octets_of, root_octets, values_octets};
ghost use Rattle.oer_leaves.specs.Wrote.{Measures};

use oer_leaves::{
    Nowhere, is_extended, kept, measured_booleans, measured_preamble, put_bitmap, put_leaf,
    put_quantity, put_tag_octets, put_unknown,
};
use oer_types::{Addition, Alt, Field, Shape, Unknown, Value, with_tag};
use oer_units::{Tag, length_len};

// Each of these adds the octets to those done, and answers none where they come to 2^64.

#[cycle(measured)]
#[tactic(auto, using(oer_leaves::proofs::Views::views))]
pub(crate) fn measured(shape: &Shape, value: &Value, done: u64) -> Option<u64>
    ensures { Measures done (canonical_octets (type_of shape.now) (value_of value.now)) result }
{
    match value {
        Value::Seq {
            root,
            added,
            unknown,
        } => measured_sequence(shape, root, added, unknown, done),
        Value::List(values) => measured_list(shape, values, done),
        Value::Chosen { tag, value } => measured_chosen(shape, *tag, value, done),
        _ => put_leaf(shape, value, done, &mut Nowhere).ok(),
    }
}

#[cycle(measured)]
#[tactic(auto, using(oer_leaves::proofs::Views::views))]
fn measured_sequence(
    shape: &Shape,
    places: &[Option<Value>],
    added: &[Option<Value>],
    unknown: &[Unknown],
    done: u64,
) -> Option<u64>
    ensures { Measures done (canonical_octets (type_of shape.now) (seq (places_of places.now) (places_of added.now) (map unknown_of unknown.now))) result }
{
    let Shape::Sequence { root, additions } = shape else {
        return Some(done);
    };
    let fields: &[Field] = root;
    let Some(additions) = additions else {
        return measured_root(None, fields, places, done);
    };
    let additions: &[Addition] = additions;
    let extended = is_extended(added, unknown);
    let done = measured_root(Some(extended), fields, places, done)?;
    if !extended {
        return Some(done);
    }
    measured_extension(additions, added, unknown, done)
}

#[cycle(measured)]
fn measured_root(
    extended: Option<bool>,
    fields: &[Field],
    places: &[Option<Value>],
    done: u64,
) -> Option<u64>
    ensures { Measures done (root_octets extended (fields_of fields.now) (places_of places.now)) result }
{
    let done = measured_preamble(extended, fields, places, done)?;
    measured_fields(fields, places, done)
}

#[cycle(measured)]
fn measured_extension(
    additions: &[Addition],
    added: &[Option<Value>],
    unknown: &[Unknown],
    done: u64,
) -> Option<u64>
    ensures { Measures done (addition_octets (additions_of additions.now) (places_of added.now) (map unknown_of unknown.now)) result }
{
    let done = put_bitmap(additions, added, unknown, done, &mut Nowhere).ok()?;
    let done = measured_additions(additions, added, done)?;
    put_unknown(unknown, done, &mut Nowhere).ok()
}

#[cycle(measured)]
#[tactic(auto, using(oer_leaves::proofs::Views::views))]
fn measured_list(shape: &Shape, values: &[Value], done: u64) -> Option<u64>
    ensures { Measures done (canonical_octets (type_of shape.now) (items (values_of values.now))) result }
{
    let Shape::SequenceOf { item, .. } = shape else {
        return Some(done);
    };
    let done = put_quantity(values.len(), done, &mut Nowhere).ok()?;
    measured_values(item, values, done)
}

#[cycle(measured)]
#[tactic(auto, using(oer_leaves::proofs::Views::views))]
fn measured_chosen(shape: &Shape, tag: Tag, value: &Value, done: u64) -> Option<u64>
    ensures { Measures done (canonical_octets (type_of shape.now) (chosen tag (value_of value.now))) result }
{
    let Shape::Choice { root, additions } = shape else {
        return Some(done);
    };
    let alternatives: &[Alt] = root;
    let done = put_tag_octets(tag, done, &mut Nowhere).ok()?;
    if let Some(alternative) = with_tag(alternatives, tag) {
        return measured(&alternative.shape, value, done);
    }
    let Some(additions) = additions else {
        return Some(done);
    };
    measured_later(additions, tag, value, done)
}

#[cycle(measured)]
fn measured_fields(fields: &[Field], places: &[Option<Value>], done: u64) -> Option<u64>
    ensures { Measures done (field_octets (fields_of fields.now) (places_of places.now)) result }
{
    let mut done = done;
    let mut rest = places;
    for field in fields {
        let Some((place, more)) = rest.split_first() else {
            return Some(done);
        };
        done = measured_field(field, place, done)?;
        rest = more;
    }
    Some(done)
}

#[cycle(measured)]
fn measured_field(field: &Field, place: &Option<Value>, done: u64) -> Option<u64>
    ensures { Measures done (place_octets_of (type_of field.now.shape) (kept_place (need_of field.now.need) (type_of field.now.shape) (option_map value_of place.now))) result }
{
    match kept(field, place) {
        None => Some(done),
        Some(value) => measured(&field.shape, value, done),
    }
}

#[cycle(measured)]
fn measured_additions(additions: &[Addition], places: &[Option<Value>], done: u64) -> Option<u64>
    ensures { Measures done (known_octets (additions_of additions.now) (places_of places.now)) result }
{
    let mut done = done;
    let mut rest = places;
    for addition in additions {
        let Some((place, more)) = rest.split_first() else {
            return Some(done);
        };
        done = measured_addition(addition, place, done)?;
        rest = more;
    }
    Some(done)
}

#[cycle(measured)]
fn measured_addition(addition: &Addition, place: &Option<Value>, done: u64) -> Option<u64>
    ensures { Measures done (counted_place (type_of addition.now.shape) (option_map value_of place.now)) result }
{
    match place {
        None => Some(done),
        Some(value) => {
            let length = measured(&addition.shape, value, 0)?;
            open_len(length, done)
        }
    }
}

// The octets of an open type: its length, and as many.
fn open_len(count: u64, done: u64) -> Option<u64>
    ensures { (octets : List ℕ) → count ≡ length octets → Measures done (counted octets) result }
{
    done.checked_add(length_len(count))?.checked_add(count)
}

#[cycle(measured)]
fn measured_values(item: &Shape, values: &[Value], done: u64) -> Option<u64>
    ensures { Measures done (values_octets (type_of item.now) (values_of values.now)) result }
{
    if let Shape::Boolean = item {
        return measured_booleans(values, done);
    }
    let mut done = done;
    for value in values {
        done = measured(item, value, done)?;
    }
    Some(done)
}

#[cycle(measured)]
fn measured_later(alternatives: &[Alt], tag: Tag, value: &Value, done: u64) -> Option<u64>
    ensures { Measures done (chosen_octets (later_of alternatives.now) tag (value_of value.now)) result }
{
    match with_tag(alternatives, tag) {
        Some(alternative) => {
            let length = measured(&alternative.shape, value, 0)?;
            open_len(length, done)
        }
        None => Some(done),
    }
}
