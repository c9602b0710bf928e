//! A value from its first octet to its last.
ghost use Rattle.std.specs.Prelude.{◌↔◌, ◌<◌, ◌^◌, IsTrue, length};
ghost use Rattle.oer_model.specs.Canonical.{canonical_octets};
ghost use Rattle.oer_model.specs.Fits.{Fits};
ghost use Rattle.oer_values.specs.ShapeView.{type_of};
ghost use Rattle.oer_values.specs.ValueView.{value_of};
ghost use Rattle.oer_writer.specs.Write.{Counts, Writes};

use crate::fault::WriteFault;
use crate::measure::measured;
use crate::put::put;
use crate::small::Small;
use crate::typed_bound::typed_bound;
use oer_leaves::put_slice;
use oer_types::{Shape, Value};
use oer_units::Sink;

// How many octets the value has, if fewer than 2^64.
pub(crate) fn count(shape: &Shape, value: &Value) -> Option<u64>
    ensures { Counts (canonical_octets (type_of shape.now) (value_of value.now)) result }
{
    measured(shape, value, 0)
}

// Writes octets that are there.
fn put_few<W: Sink>(octets: &[u8], sink: &mut W) -> Result<u64, WriteFault>
    requires { length octets.now < 2 ^ 64 }
    ensures { Writes octets.now (W.contents sink.old) (W.failed sink.old) result (W.contents sink.new) (W.failed sink.new) }
{
    match put_slice(octets, 0, sink) {
        Ok(count) => Ok(count),
        Err(fault) => Err(WriteFault::Device {
            written: fault.written,
        }),
    }
}

// Whether the value has fewer than 2^64 octets. Only where the bound doesn't tell are they counted.
fn is_short_enough(shape: &Shape, value: &Value) -> bool
    requires { Fits (type_of shape.now) (value_of value.now) }
    ensures { IsTrue result ↔ length (canonical_octets (type_of shape.now) (value_of value.now)) < 2 ^ 64 }
{
    match typed_bound(shape, value, 0) {
        Some(_) => true,
        None => measured(shape, value, 0).is_some(),
    }
}

// Writes the octets of a value with more of them than there is room for.
fn put_many<W: Sink>(shape: &Shape, value: &Value, sink: &mut W) -> Result<u64, WriteFault>
    requires { Fits (type_of shape.now) (value_of value.now) }
    ensures { Writes (canonical_octets (type_of shape.now) (value_of value.now)) (W.contents sink.old) (W.failed sink.old) result (W.contents sink.new) (W.failed sink.new) }
{
    if !is_short_enough(shape, value) {
        return Err(WriteFault::TooLong);
    }
    match put(shape, value, 0, sink) {
        Ok(count) => Ok(count),
        Err(fault) => Err(WriteFault::Device {
            written: fault.written,
        }),
    }
}

// Whether it is a list of more elements than there is room for octets.
fn is_long_list(value: &Value) -> bool {
    match value {
        Value::List(values) => values.len() > 512,
        _ => false,
    }
}

// Whether the value or a component of its root is such a list. Either answer is right: it spares the
// time to fill the small sink in vain.
fn is_long(value: &Value) -> bool {
    let Value::Seq { root, .. } = value else {
        return is_long_list(value);
    };
    for place in root {
        if let Some(value) = place {
            if is_long_list(value) {
                return true;
            }
        }
    }
    false
}

// Writes them, if they are fewer than 2^64.
pub(crate) fn put_all<W: Sink>(
    shape: &Shape,
    value: &Value,
    sink: &mut W,
) -> Result<u64, WriteFault>
    requires { Fits (type_of shape.now) (value_of value.now) }
    ensures { Writes (canonical_octets (type_of shape.now) (value_of value.now)) (W.contents sink.old) (W.failed sink.old) result (W.contents sink.new) (W.failed sink.new) }
{
    if is_long(value) {
        return put_many(shape, value, sink);
    }
    let mut small = Small::new();
    match put(shape, value, 0, &mut small) {
        Ok(_) => put_few(small.taken(), sink),
        Err(_) => put_many(shape, value, sink),
    }
}
