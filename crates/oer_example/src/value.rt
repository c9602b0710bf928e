//! A value from octets, and octets from a value.
ghost use Rattle.std.specs.Prelude.{◌≡◌, ◌≢◌, IfErr, IfOk, option_map, pos};
ghost use Rattle.oer_model.specs.AsnValue.{AsnValue, int};
ghost use Rattle.oer_model.specs.Encoding.{Encodes};
ghost use Rattle.oer_model.specs.Fits.{Fits};
ghost use Rattle.oer_types.specs.Schema.{the_type};
ghost use Rattle.oer_model.specs.Strict.{IsCanonical};
ghost use Rattle.oer_values.specs.ValueView.{value_of};
ghost use Rattle.oer_example.specs.Renewed.{with_component as spec_with_component};

use crate::fault::Fault;
use oer_reader::read_with_length;
use oer_types::{Schema, Value};
use oer_units::{Metered, ReadFault, Why};
use oer_writer::{WriteFault, write};
use std::alloc::Global;

/// The error for one of the reader. Octets in memory give no `Device`.
fn fault_of(fault: ReadFault) -> Fault
    ensures { result ≢ Fault.Memory → (fault.why ≢ Why.Device) × (fault.why ≢ Why.Memory) }
{
    match fault.why {
        Why::Memory => Fault::Memory,
        Why::Device => Fault::Memory,
        _ => Fault::Read(fault),
    }
}

/// The value of which the octets, all of them, are an encoding. Returns `Read` if they begin with no
/// encoding, `Follows` if an octet follows it, and `Memory`.
pub fn value_in(alloc: Global, schema: &Schema, octets: &[u8]) -> Result<Value, Fault>
    ensures value { IfOk result (λ value. Encodes (the_type schema.now) (value_of value) octets.now) }
    ensures only { IfOk result (λ value. (v : AsnValue) → Encodes (the_type schema.now) v octets.now → v ≡ value_of value) }
    ensures none { IfErr result (λ fault. fault ≢ Fault.Memory → (v : AsnValue) → Encodes (the_type schema.now) v octets.now → ⊥) }
{
    let mut reader = Metered::new(octets);
    let (value, taken) = match read_with_length(alloc, schema, &mut reader, u64::MAX) {
        Ok(read) => read,
        Err(fault) => return Err(fault_of(fault)),
    };
    if taken != octets.len() as u64 {
        return Err(Fault::Follows(taken));
    }
    Ok(value)
}

/// The number as an INTEGER.
pub fn integer(number: u16) -> Value
    ensures { value_of result ≡ int (pos number) }
{
    Value::Int(i128::from(number))
}

/// The value with a new component in that place of the root of a SEQUENCE. Returns `None` if there is
/// no such place.
pub fn with_component(value: Value, place: usize, component: Value) -> Option<Value>
    ensures { option_map value_of result ≡ spec_with_component place (value_of component) (value_of value) }
{
    match value {
        Value::Seq {
            mut root,
            added,
            unknown,
        } => {
            if place >= root.len() {
                return None;
            }
            root[place] = Some(component);
            Some(Value::Seq {
                root,
                added,
                unknown,
            })
        }
        _ => None,
    }
}

/// The canonical octets of a value that fits the type. Returns `Memory` if an allocation fails, or if
/// they would be 2^64 or more.
pub fn canonical(alloc: Global, schema: &Schema, value: &Value) -> Result<Vec<u8>, Fault>
    requires { Fits (the_type schema.now) (value_of value.now) }
    ensures octets { IfOk result (λ octets. IsCanonical (the_type schema.now) (value_of value.now) octets.items) }
    ensures fails { IfErr result (λ fault. fault ≡ Fault.Memory) }
{
    let mut sink = Metered::new(Vec::new(alloc));
    match write(schema, value, &mut sink) {
        Ok(_) => Ok(sink.into_inner()),
        Err(WriteFault::Device { .. }) => Err(Fault::Memory),
        Err(WriteFault::TooLong) => Err(Fault::Memory),
    }
}
