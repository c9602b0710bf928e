//! Values of parts: their JSON, and their canonical octets.
ghost use Rattle.std.specs.Prelude.{IfOk, IfSome};
ghost use Rattle.oer_model.specs.Fits.{Fits};
ghost use Rattle.oer_types.specs.Schema.{the_type};
ghost use Rattle.oer_values.specs.ValueView.{value_of};

use crate::plain::PlainJson;
use oer_literals::name_of;
use oer_reader::{RewriteFault, check, read, rewrite};
use oer_types::{Item, Schema, Shape, Value, same_filled_at};
use oer_units::{Metered, ReadFault, Why, Window, enumerated, enumerated_len, put_enumerated};
use oer_writer::WriteFault;
use std::alloc::{AllocError, Global};

/// A value without parts.
#[derive(Drop)]
pub(crate) struct Leaf {
    /// Its JSON.
    pub json: PlainJson,
    /// Its canonical octets, if it was spelt by other ones.
    pub canonical: Option<Vec<u8>>,
}

impl Leaf {
    // Null, for octets that are no value.
    fn nothing() -> Leaf {
        Leaf {
            json: PlainJson::null(),
            canonical: None,
        }
    }
}

// Whether the error is that an allocation failed.
fn is_memory(fault: ReadFault) -> bool {
    matches!(fault.why, Why::Memory)
}

// The type, in memory of its own.
fn schema_of(alloc: Global, shape: &Shape) -> Result<Option<Schema>, AllocError> {
    match Schema::new(shape.clone_in(alloc)?) {
        Ok(schema) => Ok(Some(schema)),
        Err(_) => Ok(None),
    }
}

// The number of an ENUMERATED (X.696, 11) at the front of the octets.
fn number_in(octets: &[u8]) -> Option<i64> {
    let mut reader = Metered::new(octets);
    let mut w = Window::new(&mut reader, u64::MAX);
    match enumerated(&mut w) {
        Ok(number) => Some(number),
        Err(_) => None,
    }
}

// The value at the front of the octets, if there is one.
fn value_in(alloc: Global, schema: &Schema, octets: &[u8]) -> Result<Option<Value>, AllocError>
    ensures { IfOk result (λ found. IfSome found (λ value. Fits (the_type schema.now) (value_of value))) }
{
    match read(alloc, schema, &mut Metered::new(octets), u64::MAX) {
        Ok(value) => Ok(Some(value)),
        Err(fault) if is_memory(fault) => Err(AllocError),
        Err(_) => Ok(None),
    }
}

// The canonical octets of the value at the front of the octets, if there is one.
fn canonical_of(
    alloc: Global,
    schema: &Schema,
    octets: &[u8],
) -> Result<Option<Vec<u8>>, AllocError> {
    let mut sink = Metered::new(Vec::new(alloc));
    let mut reader = Metered::new(octets);
    match rewrite(alloc, schema, &mut reader, u64::MAX, &mut sink) {
        Ok(_) => Ok(Some(sink.into_inner())),
        Err(RewriteFault::Read(fault)) if is_memory(fault) => Err(AllocError),
        Err(RewriteFault::Write(WriteFault::Device { .. })) => Err(AllocError),
        Err(_) => Ok(None),
    }
}

// The canonical octets of the value that the octets are, if these are others.
fn other_octets(
    alloc: Global,
    schema: &Schema,
    octets: &[u8],
) -> Result<Option<Vec<u8>>, AllocError> {
    match check(schema, octets) {
        Ok(verdict) if !verdict.canonical => canonical_of(alloc, schema, octets),
        _ => Ok(None),
    }
}

// The canonical octets of an ENUMERATED, if it is spelt by other ones.
fn other_number(alloc: Global, number: i64, octets: &[u8]) -> Result<Option<Vec<u8>>, AllocError> {
    if octets.len() as u64 == enumerated_len(number) {
        return Ok(None);
    }
    let mut sink = Metered::new(Vec::new(alloc));
    match put_enumerated(number, &mut sink) {
        Ok(()) => Ok(Some(sink.into_inner())),
        Err(_) => Err(AllocError),
    }
}

// An ENUMERATED. Its type isn't copied, since it may have many items.
fn item_leaf(alloc: Global, items: &[Item], octets: &[u8]) -> Result<Leaf, AllocError> {
    let Some(number) = number_in(octets) else {
        return Ok(Leaf::nothing());
    };
    let json = match name_of(items, number) {
        Some(name) => PlainJson::text(alloc, name)?,
        None => PlainJson::number(number),
    };
    let canonical = other_number(alloc, number, octets)?;
    Ok(Leaf { json, canonical })
}

// A value of another type without parts.
fn plain_leaf(alloc: Global, shape: &Shape, octets: &[u8]) -> Result<Leaf, AllocError> {
    let Some(schema) = schema_of(alloc, shape)? else {
        return Ok(Leaf::nothing());
    };
    let Some(value) = value_in(alloc, &schema, octets)? else {
        return Ok(Leaf::nothing());
    };
    let json = PlainJson::of(alloc, &schema, &value)?;
    let canonical = other_octets(alloc, &schema, octets)?;
    Ok(Leaf { json, canonical })
}

/// The value without parts that the octets are.
pub(crate) fn leaf_of(alloc: Global, shape: &Shape, octets: &[u8]) -> Result<Leaf, AllocError> {
    match shape {
        Shape::Enumerated { items, .. } => item_leaf(alloc, items, octets),
        _ => plain_leaf(alloc, shape, octets),
    }
}

/// Whether the value at the front of the octets is the default.
pub(crate) fn is_default(
    alloc: Global,
    shape: &Shape,
    default: &Value,
    octets: &[u8],
) -> Result<bool, AllocError> {
    if let (Shape::Enumerated { .. }, Value::Enum(number)) = (shape, default) {
        return Ok(number_in(octets) == Some(*number));
    }
    let Some(schema) = schema_of(alloc, shape)? else {
        return Ok(false);
    };
    match value_in(alloc, &schema, octets)? {
        Some(value) => Ok(same_filled_at(shape, &value, default)),
        None => Ok(false),
    }
}
