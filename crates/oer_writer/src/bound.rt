//! At most how many octets a value has. Each of these adds them to those done, and answers none where they
//! come to 2^64. They look at the value alone, and take less time than to measure it.
ghost use Rattle.std.specs.Prelude.{map};
ghost use Rattle.oer_model.specs.AsnValue.{bit_list, chosen, enum, foreign, int, items, octets, oid, seq, text};
ghost use Rattle.oer_values.specs.ValueView.{places_of, unknown_of, value_of, values_of};
ghost use Rattle.oer_writer.specs.Bounds.{Bounds, BoundsAdded, BoundsAdditions, BoundsPlaces, BoundsRoot, BoundsUnknown, BoundsValues};

use crate::most::{plus, times};
use oer_leaves::quantity_len;
use oer_types::{Bits, Unknown, Value};
use oer_units::{Tag, tag_len};

// Of an INTEGER.
fn bound_integer(value: i128, done: u64) -> Option<u64>
    ensures { Bounds done (int value) result }
{
    plus(done, 17)
}

// Of an ENUMERATED.
fn bound_item(value: i64, done: u64) -> Option<u64>
    ensures { Bounds done (enum value) result }
{
    plus(done, 17)
}

// Of a BIT STRING: its length, how many bits aren't used, and an octet for each eight bits begun.
fn bound_bits(bits: &Bits, done: u64) -> Option<u64>
    ensures { Bounds done (bit_list bits.now) result }
{
    plus(done, bits.count() / 8 + 11)
}

// Of an OCTET STRING, or of a character string.
fn bound_string(value: &[u8], done: u64) -> Option<u64>
    ensures octets { Bounds done (octets value.now) result }
    ensures text { Bounds done (text value.now) result }
{
    plus(plus(done, 9)?, value.len() as u64)
}

// Of an OBJECT IDENTIFIER: each arc has at most 19 octets.
fn bound_object_id(arcs: &[u128], done: u64) -> Option<u64>
    ensures { Bounds done (oid arcs.now) result }
{
    plus(plus(done, 9)?, times(arcs.len() as u64, 19)?)
}

// Of an alternative that the type doesn't know.
fn bound_foreign(tag: Tag, octets: &[u8], done: u64) -> Option<u64>
    ensures { Bounds done (foreign tag octets.now) result }
{
    plus(plus(plus(done, tag_len(tag))?, 9)?, octets.len() as u64)
}

// Of additions that the type doesn't know, each after its length. In the bitmap each takes at most as many
// bits as there are places up to its own.
fn bound_unknown(unknown: &[Unknown], done: u64) -> Option<u64>
    ensures { BoundsUnknown done (map unknown_of unknown.now) result }
{
    let mut done = done;
    for one in unknown {
        let head = one.place as u64 / 8 + 10;
        done = plus(plus(done, head)?, one.octets.len() as u64)?;
    }
    Some(done)
}

// Of elements, if each is a BOOLEAN.
#[tactic(auto, using(oer_leaves::proofs::Views::views))]
fn bound_booleans(values: &[Value], done: u64) -> Option<u64>
    ensures { BoundsValues done (values_of values.now) result }
{
    for value in values {
        let Value::Bool(_) = value else {
            return None;
        };
    }
    plus(done, values.len() as u64)
}

// Of any value; what holds no other, without a call.
#[cycle(bound)]
#[inline(always)]
#[tactic(auto, using(oer_leaves::proofs::Views::views))]
pub(crate) fn bound(value: &Value, done: u64) -> Option<u64>
    ensures { Bounds done (value_of value.now) result }
{
    match value {
        Value::Bool(_) => plus(done, 1),
        Value::Null => Some(done),
        Value::Int(value) => bound_integer(*value, done),
        Value::Enum(value) => bound_item(*value, done),
        Value::Bits(bits) => bound_bits(bits, done),
        Value::Octets(octets) => bound_string(octets, done),
        Value::Text(text) => bound_string(text.as_bytes(), done),
        Value::Oid(arcs) => bound_object_id(arcs, done),
        Value::Seq {
            root,
            added,
            unknown,
        } => bound_additions(added, unknown, bound_root(root, done)?),
        Value::List(values) => bound_list(values, done),
        Value::Chosen { tag, value } => bound_chosen(*tag, value, done),
        Value::Foreign { tag, octets } => bound_foreign(*tag, octets, done),
    }
}

// Of the preamble and the components of a SEQUENCE.
#[cycle(bound)]
fn bound_root(root: &[Option<Value>], done: u64) -> Option<u64>
    ensures { BoundsRoot done (places_of root.now) result }
{
    let done = plus(done, root.len() as u64 / 8 + 1)?;
    bound_places(root, done)
}

#[cycle(bound)]
fn bound_places(places: &[Option<Value>], done: u64) -> Option<u64>
    ensures { BoundsPlaces done (places_of places.now) result }
{
    let mut done = done;
    for place in places {
        let Some(value) = place else {
            continue;
        };
        done = bound(value, done)?;
    }
    Some(done)
}

// Of what follows a root: the bitmap, which is a BIT STRING, and the additions.
#[cycle(bound)]
pub(crate) fn bound_additions(
    added: &[Option<Value>],
    unknown: &[Unknown],
    done: u64,
) -> Option<u64>
    ensures { BoundsAdditions done (places_of added.now) (map unknown_of unknown.now) result }
{
    let done = plus(done, added.len() as u64 / 8 + 11)?;
    let done = bound_added(added, done)?;
    bound_unknown(unknown, done)
}

// Of the additions that the type knows, each after its length.
#[cycle(bound)]
fn bound_added(places: &[Option<Value>], done: u64) -> Option<u64>
    ensures { BoundsAdded done (places_of places.now) result }
{
    let mut done = done;
    for place in places {
        let Some(value) = place else {
            continue;
        };
        done = bound(value, plus(done, 9)?)?;
    }
    Some(done)
}

// Of a SEQUENCE OF.
#[cycle(bound)]
fn bound_list(values: &[Value], done: u64) -> Option<u64>
    ensures { Bounds done (items (values_of values.now)) result }
{
    let done = plus(done, quantity_len(values.len()))?;
    match bound_booleans(values, done) {
        Some(sum) => Some(sum),
        None => bound_values(values, done),
    }
}

#[cycle(bound)]
pub(crate) fn bound_values(values: &[Value], done: u64) -> Option<u64>
    ensures { BoundsValues done (values_of values.now) result }
{
    let mut done = done;
    for value in values {
        done = bound(value, done)?;
    }
    Some(done)
}

// Of an alternative, which may be an open type.
#[cycle(bound)]
fn bound_chosen(tag: Tag, value: &Value, done: u64) -> Option<u64>
    ensures { Bounds done (chosen tag (value_of value.now)) result }
{
    let done = plus(plus(done, tag_len(tag))?, 9)?;
    bound(value, done)
}
