//! Faults of types that no text spells, and types that have no notation.
use crate::shared::{is_well, nested, schema_of, with_default};
use oer_text::{PrintFault, parse_type, print_type};
use oer_types::{Field, Need, Schema, Shape, Size, Value};
use std::alloc::{AllocError, Global};
use std::test::Fail;

/// Shapes, and the least fault of each: types without items, and SEQUENCE of components with these names.
const FAULTS: &str = "ENUMERATED | NoItems
CHOICE | NoItems
names A | BadName
names a--b | BadName
names a- | BadName
names  | BadName
names 1 | BadName
names a-B2-c | none
names a, a | RepeatedName
names a, a, B | BadName";

// SEQUENCE of NULL components with these names, which commas part.
fn named(at: Global, names: &str) -> Result<Shape, AllocError> {
    let mut root = Vec::new(at);
    for name in names.split(", ") {
        root.push(Field {
            name: String::from_str(at, name)?,
            shape: Shape::Null,
            need: Need::Must,
        })?;
    }
    Ok(Shape::Sequence {
        root,
        additions: None,
    })
}

// The shape of a row.
fn shape_of(at: Global, text: &str) -> Result<Shape, AllocError> {
    match text.split_once(' ') {
        Some((_, names)) => named(at, names),
        None if text == "CHOICE" => Ok(Shape::Choice {
            root: Vec::new(at),
            additions: None,
        }),
        None => Ok(Shape::Enumerated {
            items: Vec::new(at),
            extensible: true,
        }),
    }
}

// Whether the shape of the row has just that fault.
fn is_faulty(at: Global, row: &str) -> Result<bool, Fail> {
    let (text, want) = row.split_once(" | ").ok_or("a fault")?;
    match Schema::new(shape_of(at, text)?) {
        Ok(_) => Ok(want == "none"),
        Err((fault, _)) => Ok(format!(in at; "{fault}")?.as_str() == want),
    }
}

#[test]
fn faults_of_shapes(rt: HostRuntime) -> Result<(), Fail> {
    for row in FAULTS.lines() {
        is_well(row, is_faulty(rt.alloc(), row)?)?;
    }
    Ok(())
}

// Whether the type of that shape has no notation.
fn is_silent(at: Global, shape: Shape) -> Result<bool, Fail> {
    let printed = print_type(at, &schema_of(shape)?);
    Ok(matches!(printed, Err(PrintFault::NoNotation)))
}

// Defaults without notation: of constructed type, an item that isn't listed, a control character.
#[test]
fn has_no_notation(rt: HostRuntime) -> Result<(), Fail> {
    let at = rt.alloc();
    is_well("nested", is_silent(at, nested(at)?)?)?;
    let open = parse_type(at, "ENUMERATED {b(1), ...}")?.into_shape();
    let unlisted = with_default(at, "a", open, Value::Enum(9))?;
    is_well("an item that isn't listed", is_silent(at, unlisted)?)?;
    let tab = Value::Text(String::from_str(at, "a\tb")?);
    let hidden = with_default(at, "a", Shape::Ia5(Size::any()), tab)?;
    is_well("a control character", is_silent(at, hidden)?)
}
