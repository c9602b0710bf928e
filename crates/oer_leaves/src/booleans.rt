//! Lists of BOOLEANs, of an octet each.
ghost use Rattle.oer_model.specs.AsnType.{boolean};
ghost use Rattle.oer_model.specs.Canonical.{canonical_octets};
ghost use Rattle.oer_values.specs.ValueView.{value_of, values_of};
ghost use Rattle.oer_leaves.specs.Parts.{values_octets};
ghost use Rattle.oer_leaves.specs.Wrote.{Measures, Wrote};

use crate::leaf::put_boolean;
use oer_types::Value;
use oer_units::{Sink, SinkFault};

// Writes an element, if it is a BOOLEAN.
#[tactic(auto, using(crate::proofs::Views::views))]
fn put_element<W: Sink>(value: &Value, done: u64, sink: &mut W) -> Result<u64, SinkFault>
    ensures { Wrote done (canonical_octets boolean (value_of value.now)) (W.contents sink.old) (W.failed sink.old) result (W.contents sink.new) (W.failed sink.new) }
{
    match value {
        Value::Bool(value) => put_boolean(*value, done, sink),
        _ => Ok(done),
    }
}

/// Writes the elements.
pub fn put_booleans<W: Sink>(values: &[Value], done: u64, sink: &mut W) -> Result<u64, SinkFault>
    ensures { Wrote done (values_octets boolean (values_of values.now)) (W.contents sink.old) (W.failed sink.old) result (W.contents sink.new) (W.failed sink.new) }
{
    let mut done = done;
    for value in values {
        done = put_element(value, done, sink)?;
    }
    Ok(done)
}

// Adds the octet of an element to those done, if it is a BOOLEAN.
#[tactic(auto, using(crate::proofs::Views::views))]
fn measured_element(value: &Value, done: u64) -> Option<u64>
    ensures { Measures done (canonical_octets boolean (value_of value.now)) result }
{
    match value {
        Value::Bool(_) => done.checked_add(1),
        _ => Some(done),
    }
}

/// Adds the octets of the elements to those done.
pub fn measured_booleans(values: &[Value], done: u64) -> Option<u64>
    ensures { Measures done (values_octets boolean (values_of values.now)) result }
{
    let mut done = done;
    for value in values {
        done = measured_element(value, done)?;
    }
    Some(done)
}
