//! What the tests share: types, values and octets by their texts, a type that no text spells, and what is said where an answer
//! isn't the one that was wanted.
use oer_text::{from_json, parse_type};
use oer_types::{Field, Need, Schema, Shape, Value};
use serde_json::Value as Json;
use std::alloc::{AllocError, Global};
use std::test::Fail;

/// The octets of hexadecimal digits; `-` stands for none.
pub fn octets(at: Global, digits: &str) -> Result<Vec<u8>, Fail> {
    if digits == "-" {
        return Ok(Vec::new(at));
    }
    match hex::decode(at, digits) {
        Ok(octets) => Ok(octets),
        Err(_) => Err(Fail::new(digits)),
    }
}

/// A failure that names the row, unless all is well.
pub fn is_well(row: &str, well: bool) -> Result<(), Fail> {
    if well { Ok(()) } else { Err(Fail::new(row)) }
}

/// The well-formed type of that shape.
pub fn schema_of(shape: Shape) -> Result<Schema, Fail> {
    match Schema::new(shape) {
        Ok(schema) => Ok(schema),
        Err((fault, _)) => Err(Fail::new(fault)),
    }
}

/// The type of that text, which may be that of `nested`.
pub fn type_of(at: Global, text: &str) -> Result<Schema, Fail> {
    if text == NESTED {
        return schema_of(nested(at)?);
    }
    match parse_type(at, text) {
        Ok(schema) => Ok(schema),
        Err(_) => Err(Fail::new(text)),
    }
}

/// The value of the type that the JSON stands for.
pub fn value_of(at: Global, schema: &Schema, json: &str) -> Result<Value, Fail> {
    let tree = Json::from_str(at, json)?;
    match from_json(at, schema, &tree) {
        Ok(value) => Ok(value),
        Err(_) => Err(Fail::new(json)),
    }
}

/// A SEQUENCE of one component, which has a default.
pub fn with_default(
    alloc: Global,
    name: &str,
    shape: Shape,
    value: Value,
) -> Result<Shape, AllocError> {
    let field = Field {
        name: String::from_str(alloc, name)?,
        shape,
        need: Need::Default(value),
    };
    Ok(Shape::Sequence {
        root: Vec::from_array(alloc, [field])?,
        additions: None,
    })
}

// A value of a SEQUENCE of one component, which is absent.
fn absent(alloc: Global) -> Result<Value, AllocError> {
    Ok(Value::Seq {
        root: Vec::from_array(alloc, [None])?,
        added: Vec::new(alloc),
        unknown: Vec::new(alloc),
    })
}

/// What stands for a type that no text spells.
pub const NESTED: &str = "SEQUENCE {s SEQUENCE {b BOOLEAN DEFAULT TRUE} DEFAULT {}}";

/// The shape of that type.
pub fn nested(alloc: Global) -> Result<Shape, AllocError> {
    let inner = with_default(alloc, "b", Shape::Boolean, Value::Bool(true))?;
    with_default(alloc, "s", inner, absent(alloc)?)
}
