//! The value of a type to begin with.
ghost use Rattle.std.specs.Prelude.{◌≡◌, IfOk, map, option_map, replicate};
ghost use Rattle.oer_model.specs.AsnType.{no_alternatives};
ghost use Rattle.oer_skeleton.specs.Skeleton.{elements as spec_elements, is_legal as spec_is_legal, optional_part, part as spec_part, skeleton as spec_skeleton, skeleton_additions, skeleton_fields};
ghost use Rattle.oer_skeleton.specs.Sound.{AdditionsHaveItems, FieldsHaveItems, HasItems};
ghost use Rattle.oer_values.specs.ShapeView.{additions_of, fields_of, need_of, type_of};
ghost use Rattle.oer_values.specs.ValueView.{places_of, value_of};

use crate::leaf::{first_number, least_arcs, nearest, zero_bits, zero_characters, zero_octets};
use crate::legal::{is_legal, taken};
use crate::parts::Parts;
use oer_model::Size;
use oer_values::{Addition, Field, Need, Shape, Value, known_additions};
use std::alloc::{AllocError, Global};

/// How many elements a list has in a skeleton.
pub(crate) fn elements(parts: Parts, is_item_legal: bool, size: Size) -> u64
    ensures { result ≡ spec_elements parts is_item_legal size }
{
    match parts {
        Parts::Needed => size.low,
        Parts::All => {
            if is_item_legal && size.low == 0 && size.high != Some(0) {
                1
            } else {
                size.low
            }
        }
    }
}

/// The value of the type to begin with.
#[cycle(skeleton)]
#[tactic(auto, using(oer_values::proofs::Shapes::shapes, oer_values::proofs::Values::values))]
pub(crate) fn skeleton(shape: &Shape, alloc: Global, parts: Parts) -> Result<Value, AllocError>
    requires { HasItems (type_of shape.now) }
    ensures { IfOk result (λ v. value_of v ≡ spec_skeleton parts (type_of shape.now)) }
{
    match shape {
        Shape::Boolean => Ok(Value::Bool(false)),
        Shape::Null => Ok(Value::Null),
        Shape::Integer { low, high } => Ok(Value::Int(nearest(*low, *high))),
        Shape::Enumerated { items, .. } => Ok(Value::Enum(first_number(items))),
        Shape::BitString(size) => Ok(Value::Bits(zero_bits(alloc, size.low)?)),
        Shape::OctetString(size) => Ok(Value::Octets(zero_octets(alloc, size.low)?)),
        Shape::ObjectId => Ok(Value::Oid(least_arcs(alloc)?)),
        Shape::Ia5(size) => Ok(Value::Text(zero_characters(alloc, size.low)?)),
        Shape::Visible(size) => Ok(Value::Text(zero_characters(alloc, size.low)?)),
        Shape::Numeric(size) => Ok(Value::Text(zero_characters(alloc, size.low)?)),
        Shape::Printable(size) => Ok(Value::Text(zero_characters(alloc, size.low)?)),
        Shape::Utf8(size) => Ok(Value::Text(zero_characters(alloc, size.low)?)),
        Shape::Sequence { root, additions } => {
            let root = fields(root, alloc, parts)?;
            let added = added(known_additions(additions), alloc, parts)?;
            Ok(Value::Seq {
                root,
                added,
                unknown: Vec::new(alloc),
            })
        }
        Shape::SequenceOf { size, item } => {
            let count = elements(parts, is_legal(item), *size);
            Ok(Value::List(list(item, alloc, parts, count)?))
        }
        Shape::Choice { root, .. } => {
            let alternative = taken(root);
            let value = skeleton(&alternative.shape, alloc, parts)?;
            Ok(Value::Chosen {
                tag: alternative.tag,
                value: Box::new(alloc, value)?,
            })
        }
    }
}

#[cycle(skeleton)]
fn fields(fields: &[Field], alloc: Global, parts: Parts) -> Result<Vec<Option<Value>>, AllocError>
    requires { FieldsHaveItems (fields_of fields.now) }
    ensures { IfOk result (λ v. places_of v.items ≡ skeleton_fields parts (fields_of fields.now)) }
{
    let mut places = Vec::with_capacity(alloc, fields.len())?;
    for field in fields {
        places.push(component(field, alloc, parts)?)?;
    }
    Ok(places)
}

#[cycle(skeleton)]
fn component(field: &Field, alloc: Global, parts: Parts) -> Result<Option<Value>, AllocError>
    requires { HasItems (type_of field.now.shape) }
    ensures { IfOk result (λ p. option_map value_of p
        ≡ spec_part parts (need_of field.now.need) (spec_is_legal (type_of field.now.shape)) (spec_skeleton parts (type_of field.now.shape))) }
{
    match (&field.need, parts) {
        (Need::Must, _) => Ok(Some(skeleton(&field.shape, alloc, parts)?)),
        (Need::May, _) => optional(&field.shape, alloc, parts),
        (Need::Default(value), Parts::All) => Ok(Some(value.clone_in(alloc)?)),
        (Need::Default(_), Parts::Needed) => Ok(None),
    }
}

/// A component that may be absent.
#[cycle(skeleton)]
fn optional(shape: &Shape, alloc: Global, parts: Parts) -> Result<Option<Value>, AllocError>
    requires { HasItems (type_of shape.now) }
    ensures { IfOk result (λ p. option_map value_of p
        ≡ optional_part parts (spec_is_legal (type_of shape.now)) (spec_skeleton parts (type_of shape.now))) }
{
    match parts {
        Parts::Needed => Ok(None),
        Parts::All => {
            if !is_legal(shape) {
                return Ok(None);
            }
            Ok(Some(skeleton(shape, alloc, parts)?))
        }
    }
}

#[cycle(skeleton)]
fn added(
    additions: &[Addition],
    alloc: Global,
    parts: Parts,
) -> Result<Vec<Option<Value>>, AllocError>
    requires { AdditionsHaveItems (additions_of additions.now) }
    ensures { IfOk result (λ v. places_of v.items ≡ skeleton_additions parts (additions_of additions.now)) }
{
    let mut places = Vec::with_capacity(alloc, additions.len())?;
    for addition in additions {
        places.push(optional(&addition.shape, alloc, parts)?)?;
    }
    Ok(places)
}

/// So many elements.
#[cycle(skeleton)]
fn list(item: &Shape, alloc: Global, parts: Parts, count: u64) -> Result<Vec<Value>, AllocError>
    requires { HasItems (type_of item.now) }
    ensures { IfOk result (λ v. map value_of v.items ≡ replicate count (spec_skeleton parts (type_of item.now))) }
{
    let mut values = Vec::new(alloc);
    for _ in 0..count {
        values.push(skeleton(item, alloc, parts)?)?;
    }
    Ok(values)
}
