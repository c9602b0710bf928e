//! The canonical octets of a value, to a sink.
ghost use Rattle.std.specs.Prelude.{◌≡◌, List, map, option_map};
ghost use Rattle.oer_model.specs.AsnValue.{chosen, items, seq};
ghost use Rattle.oer_model.specs.Canonical.{canonical_octets};
ghost use Rattle.oer_values.specs.ShapeView.{additions_of, fields_of, later_of, need_of, type_of};
ghost use Rattle.oer_values.specs.ValueView.{places_of, unknown_of, value_of, values_of};
ghost use Rattle.oer_leaves.specs.Parts.{addition_octets, chosen_octets, counted_place, field_octets, kept_place, known_octets, place_octets_of, root_octets, values_octets};
ghost use Rattle.oer_leaves.specs.Wrote.{Wrote, WroteHead};

use crate::measure::measured;
use oer_leaves::{
    is_extended, kept, put_bitmap, put_booleans, put_count, put_leaf, put_preamble, put_quantity,
    put_tag_octets, put_unknown,
};
use oer_types::{Addition, Alt, Field, Shape, Unknown, Value, with_tag};
use oer_units::{Sink, SinkFault, Tag};

// Writes the length of a value in an open type.
fn put_open_head<W: Sink>(
    shape: &Shape,
    value: &Value,
    done: u64,
    sink: &mut W,
) -> Result<u64, SinkFault>
    ensures { WroteHead done (canonical_octets (type_of shape.now) (value_of value.now)) (W.contents sink.old) (W.failed sink.old) result (W.contents sink.new) (W.failed sink.new) }
{
    let Some(length) = measured(shape, value, 0) else {
        return Err(SinkFault { written: done });
    };
    put_count(length, done, sink)
}

// Writes the canonical octets of a value.
#[cycle(put)]
#[tactic(auto, using(oer_leaves::proofs::Views::views))]
pub(crate) fn put<W: Sink>(
    shape: &Shape,
    value: &Value,
    done: u64,
    sink: &mut W,
) -> Result<u64, SinkFault>
    ensures { Wrote done (canonical_octets (type_of shape.now) (value_of value.now)) (W.contents sink.old) (W.failed sink.old) result (W.contents sink.new) (W.failed sink.new) }
{
    match value {
        Value::Seq {
            root,
            added,
            unknown,
        } => put_sequence(shape, root, added, unknown, done, sink),
        Value::List(values) => put_list(shape, values, done, sink),
        Value::Chosen { tag, value } => put_chosen(shape, *tag, value, done, sink),
        _ => put_leaf(shape, value, done, sink),
    }
}

// Writes a SEQUENCE (X.696, 16).
#[cycle(put)]
#[tactic(auto, using(oer_leaves::proofs::Views::views))]
fn put_sequence<W: Sink>(
    shape: &Shape,
    places: &[Option<Value>],
    added: &[Option<Value>],
    unknown: &[Unknown],
    done: u64,
    sink: &mut W,
) -> Result<u64, SinkFault>
    ensures { Wrote done (canonical_octets (type_of shape.now) (seq (places_of places.now) (places_of added.now) (map unknown_of unknown.now))) (W.contents sink.old) (W.failed sink.old) result (W.contents sink.new) (W.failed sink.new) }
{
    let Shape::Sequence { root, additions } = shape else {
        return Ok(done);
    };
    let fields: &[Field] = root;
    let Some(additions) = additions else {
        return put_root(None, fields, places, done, sink);
    };
    let additions: &[Addition] = additions;
    let extended = is_extended(added, unknown);
    let done = put_root(Some(extended), fields, places, done, sink)?;
    if !extended {
        return Ok(done);
    }
    put_extension(additions, added, unknown, done, sink)
}

// Writes the preamble of a SEQUENCE, and the components of its root.
#[cycle(put)]
fn put_root<W: Sink>(
    extended: Option<bool>,
    fields: &[Field],
    places: &[Option<Value>],
    done: u64,
    sink: &mut W,
) -> Result<u64, SinkFault>
    ensures { Wrote done (root_octets extended (fields_of fields.now) (places_of places.now)) (W.contents sink.old) (W.failed sink.old) result (W.contents sink.new) (W.failed sink.new) }
{
    let done = put_preamble(extended, fields, places, done, sink)?;
    put_fields(fields, places, done, sink)
}

// Writes what follows the root, where an addition is there.
#[cycle(put)]
fn put_extension<W: Sink>(
    additions: &[Addition],
    added: &[Option<Value>],
    unknown: &[Unknown],
    done: u64,
    sink: &mut W,
) -> Result<u64, SinkFault>
    ensures { Wrote done (addition_octets (additions_of additions.now) (places_of added.now) (map unknown_of unknown.now)) (W.contents sink.old) (W.failed sink.old) result (W.contents sink.new) (W.failed sink.new) }
{
    let done = put_bitmap(additions, added, unknown, done, sink)?;
    let done = put_additions(additions, added, done, sink)?;
    put_unknown(unknown, done, sink)
}

// Writes a SEQUENCE OF (X.696, 17).
#[cycle(put)]
#[tactic(auto, using(oer_leaves::proofs::Views::views))]
fn put_list<W: Sink>(
    shape: &Shape,
    values: &[Value],
    done: u64,
    sink: &mut W,
) -> Result<u64, SinkFault>
    ensures { Wrote done (canonical_octets (type_of shape.now) (items (values_of values.now))) (W.contents sink.old) (W.failed sink.old) result (W.contents sink.new) (W.failed sink.new) }
{
    let Shape::SequenceOf { item, .. } = shape else {
        return Ok(done);
    };
    let done = put_quantity(values.len(), done, sink)?;
    put_values(item, values, done, sink)
}

// Writes an alternative of a CHOICE (X.696, 20).
#[cycle(put)]
#[tactic(auto, using(oer_leaves::proofs::Views::views))]
fn put_chosen<W: Sink>(
    shape: &Shape,
    tag: Tag,
    value: &Value,
    done: u64,
    sink: &mut W,
) -> Result<u64, SinkFault>
    ensures { Wrote done (canonical_octets (type_of shape.now) (chosen tag (value_of value.now))) (W.contents sink.old) (W.failed sink.old) result (W.contents sink.new) (W.failed sink.new) }
{
    let Shape::Choice { root, additions } = shape else {
        return Ok(done);
    };
    let alternatives: &[Alt] = root;
    let done = put_tag_octets(tag, done, sink)?;
    if let Some(alternative) = with_tag(alternatives, tag) {
        return put(&alternative.shape, value, done, sink);
    }
    let Some(additions) = additions else {
        return Ok(done);
    };
    put_later(additions, tag, value, done, sink)
}

// Writes the components of a root that are kept.
#[cycle(put)]
fn put_fields<W: Sink>(
    fields: &[Field],
    places: &[Option<Value>],
    done: u64,
    sink: &mut W,
) -> Result<u64, SinkFault>
    ensures { Wrote done (field_octets (fields_of fields.now) (places_of places.now)) (W.contents sink.old) (W.failed sink.old) result (W.contents sink.new) (W.failed sink.new) }
{
    let mut done = done;
    let mut rest = places;
    for field in fields {
        let Some((place, more)) = rest.split_first() else {
            return Ok(done);
        };
        done = put_field(field, place, done, sink)?;
        rest = more;
    }
    Ok(done)
}

#[cycle(put)]
fn put_field<W: Sink>(
    field: &Field,
    place: &Option<Value>,
    done: u64,
    sink: &mut W,
) -> Result<u64, SinkFault>
    ensures { Wrote done (place_octets_of (type_of field.now.shape) (kept_place (need_of field.now.need) (type_of field.now.shape) (option_map value_of place.now))) (W.contents sink.old) (W.failed sink.old) result (W.contents sink.new) (W.failed sink.new) }
{
    match kept(field, place) {
        None => Ok(done),
        Some(value) => put(&field.shape, value, done, sink),
    }
}

// Writes the additions that the type knows, as open types.
#[cycle(put)]
fn put_additions<W: Sink>(
    additions: &[Addition],
    places: &[Option<Value>],
    done: u64,
    sink: &mut W,
) -> Result<u64, SinkFault>
    ensures { Wrote done (known_octets (additions_of additions.now) (places_of places.now)) (W.contents sink.old) (W.failed sink.old) result (W.contents sink.new) (W.failed sink.new) }
{
    let mut done = done;
    let mut rest = places;
    for addition in additions {
        let Some((place, more)) = rest.split_first() else {
            return Ok(done);
        };
        done = put_addition(addition, place, done, sink)?;
        rest = more;
    }
    Ok(done)
}

#[cycle(put)]
fn put_addition<W: Sink>(
    addition: &Addition,
    place: &Option<Value>,
    done: u64,
    sink: &mut W,
) -> Result<u64, SinkFault>
    ensures { Wrote done (counted_place (type_of addition.now.shape) (option_map value_of place.now)) (W.contents sink.old) (W.failed sink.old) result (W.contents sink.new) (W.failed sink.new) }
{
    match place {
        None => Ok(done),
        Some(value) => {
            let done = put_open_head(&addition.shape, value, done, sink)?;
            put(&addition.shape, value, done, sink)
        }
    }
}

#[cycle(put)]
fn put_values<W: Sink>(
    item: &Shape,
    values: &[Value],
    done: u64,
    sink: &mut W,
) -> Result<u64, SinkFault>
    ensures { Wrote done (values_octets (type_of item.now) (values_of values.now)) (W.contents sink.old) (W.failed sink.old) result (W.contents sink.new) (W.failed sink.new) }
{
    if let Shape::Boolean = item {
        return put_booleans(values, done, sink);
    }
    let mut done = done;
    for value in values {
        done = put(item, value, done, sink)?;
    }
    Ok(done)
}

// Writes the value by the first alternative after the extension marker with the tag, as an open type
// (X.696, 20).
#[cycle(put)]
fn put_later<W: Sink>(
    alternatives: &[Alt],
    tag: Tag,
    value: &Value,
    done: u64,
    sink: &mut W,
) -> Result<u64, SinkFault>
    ensures { Wrote done (chosen_octets (later_of alternatives.now) tag (value_of value.now)) (W.contents sink.old) (W.failed sink.old) result (W.contents sink.new) (W.failed sink.new) }
{
    match with_tag(alternatives, tag) {
        Some(alternative) => {
            let done = put_open_head(&alternative.shape, value, done, sink)?;
            put(&alternative.shape, value, done, sink)
        }
        None => Ok(done),
    }
}
