//! Shapes in memory of their own.
ghost use Rattle.std.specs.Prelude.{◌≡◌, IfOk, map};
ghost use Rattle.oer_values.specs.ShapeView.{type_of, seen_field, seen_addition, seen_alternative, named_number, need_of};

use crate::shape::{Addition, Alt, Field, Item, Need, Shape};
use std::alloc::{AllocError, Global};

impl Shape {
    /// The same shape, in memory of its own. Fails if an allocation fails.
    pub fn clone_in(&self, alloc: Global) -> Result<Shape, AllocError>
        ensures { IfOk result (λ s. type_of s ≡ type_of self.now) }
    {
        copy(alloc, self)
    }
}

#[cycle(copy)]
#[tactic(auto, using(crate::proofs::Shapes::shapes))]
fn copy(alloc: Global, shape: &Shape) -> Result<Shape, AllocError>
    ensures { IfOk result (λ s. type_of s ≡ type_of shape.now) }
{
    match shape {
        Shape::Boolean => Ok(Shape::Boolean),
        Shape::Null => Ok(Shape::Null),
        &Shape::Integer { low, high } => Ok(Shape::Integer { low, high }),
        Shape::Enumerated { items, extensible } => Ok(Shape::Enumerated {
            items: copy_items(alloc, items)?,
            extensible: *extensible,
        }),
        Shape::ObjectId => Ok(Shape::ObjectId),
        Shape::BitString(size) => Ok(Shape::BitString(*size)),
        Shape::OctetString(size) => Ok(Shape::OctetString(*size)),
        Shape::Ia5(size) => Ok(Shape::Ia5(*size)),
        Shape::Visible(size) => Ok(Shape::Visible(*size)),
        Shape::Numeric(size) => Ok(Shape::Numeric(*size)),
        Shape::Printable(size) => Ok(Shape::Printable(*size)),
        Shape::Utf8(size) => Ok(Shape::Utf8(*size)),
        Shape::Sequence { root, additions } => Ok(Shape::Sequence {
            root: copy_fields(alloc, root)?,
            additions: match additions {
                None => None,
                Some(additions) => Some(copy_additions(alloc, additions)?),
            },
        }),
        Shape::SequenceOf { size, item } => Ok(Shape::SequenceOf {
            size: *size,
            item: Box::new(alloc, copy(alloc, item)?)?,
        }),
        Shape::Choice { root, additions } => Ok(Shape::Choice {
            root: copy_alternatives(alloc, root)?,
            additions: match additions {
                None => None,
                Some(additions) => Some(copy_alternatives(alloc, additions)?),
            },
        }),
    }
}

fn copy_items(alloc: Global, items: &[Item]) -> Result<Vec<Item>, AllocError>
    ensures { IfOk result (λ v. map named_number v.items ≡ map named_number items.now) }
{
    let mut copies = Vec::with_capacity(alloc, items.len())?;
    for item in items {
        copies.push(Item {
            name: String::from_str(alloc, item.name.as_str())?,
            number: item.number,
        })?;
    }
    Ok(copies)
}

#[cycle(copy)]
fn copy_fields(alloc: Global, fields: &[Field]) -> Result<Vec<Field>, AllocError>
    ensures { IfOk result (λ v. map seen_field v.items ≡ map seen_field fields.now) }
{
    let mut copies = Vec::with_capacity(alloc, fields.len())?;
    for field in fields {
        copies.push(Field {
            name: String::from_str(alloc, field.name.as_str())?,
            shape: copy(alloc, &field.shape)?,
            need: copy_need(alloc, &field.need)?,
        })?;
    }
    Ok(copies)
}

fn copy_need(alloc: Global, need: &Need) -> Result<Need, AllocError>
    ensures { IfOk result (λ n. need_of n ≡ need_of need.now) }
{
    match need {
        Need::Must => Ok(Need::Must),
        Need::May => Ok(Need::May),
        Need::Default(value) => Ok(Need::Default(value.clone_in(alloc)?)),
    }
}

#[cycle(copy)]
fn copy_additions(alloc: Global, additions: &[Addition]) -> Result<Vec<Addition>, AllocError>
    ensures { IfOk result (λ v. map seen_addition v.items ≡ map seen_addition additions.now) }
{
    let mut copies = Vec::with_capacity(alloc, additions.len())?;
    for addition in additions {
        copies.push(Addition {
            name: String::from_str(alloc, addition.name.as_str())?,
            shape: copy(alloc, &addition.shape)?,
        })?;
    }
    Ok(copies)
}

#[cycle(copy)]
fn copy_alternatives(alloc: Global, alts: &[Alt]) -> Result<Vec<Alt>, AllocError>
    ensures { IfOk result (λ v. map seen_alternative v.items ≡ map seen_alternative alts.now) }
{
    let mut copies = Vec::with_capacity(alloc, alts.len())?;
    for alt in alts {
        copies.push(Alt {
            name: String::from_str(alloc, alt.name.as_str())?,
            tag: alt.tag,
            shape: copy(alloc, &alt.shape)?,
        })?;
    }
    Ok(copies)
}
