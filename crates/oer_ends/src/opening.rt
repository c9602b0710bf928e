//! A type with an extension marker in each of its ends.
ghost use Rattle.std.specs.Prelude.{◌≡◌, IfOk, map};
ghost use Rattle.oer_values.specs.ShapeView.{need_of, root_of, seen_addition, seen_alternative, seen_field, type_of};
ghost use Rattle.oer_model.specs.AsnType.{no_alternatives};
ghost use Rattle.oer_ends.specs.Ends.{are_of_end};
ghost use Rattle.oer_ends.specs.Opened.{IsMarker, opened, opened_addition, opened_alternative, opened_field};

use crate::ends::are_of_end;
use oer_values::{Addition, Alt, Field, Need, Shape};
use std::alloc::{AllocError, Global};

/// The type, in memory of its own, with an extension marker in each end. Fails if an allocation fails.
#[cycle(opening)]
#[tactic(auto, using(oer_values::proofs::Shapes::shapes))]
pub fn opened(alloc: Global, shape: &Shape) -> Result<Shape, AllocError>
    ensures { IfOk result (λ s. type_of s ≡ opened (type_of shape.now)) }
{
    match shape {
        Shape::Sequence { root, additions } => {
            let root = open_fields(alloc, root)?;
            match additions {
                None => Ok(Shape::Sequence {
                    root,
                    additions: None,
                }),
                Some(additions) => Ok(Shape::Sequence {
                    root,
                    additions: Some(open_additions(alloc, additions)?),
                }),
            }
        }
        Shape::SequenceOf { size, item } => Ok(Shape::SequenceOf {
            size: *size,
            item: Box::new(alloc, opened(alloc, item)?)?,
        }),
        Shape::Choice { root, additions } => {
            let made = open_alternatives(alloc, root)?;
            match additions {
                None => Ok(Shape::Choice {
                    root: made,
                    additions: marker_of(alloc, root),
                }),
                Some(additions) => Ok(Shape::Choice {
                    root: made,
                    additions: Some(open_alternatives(alloc, additions)?),
                }),
            }
        }
        _ => shape.clone_in(alloc),
    }
}

// The extension marker that a CHOICE without one gets if it is an end: it has no alternatives behind it.
fn marker_of(alloc: Global, root: &[Alt]) -> Option<Vec<Alt>>
    ensures { IsMarker (are_of_end (root_of root.now no_alternatives)) result }
{
    if are_of_end(root) {
        return Some(Vec::new(alloc));
    }
    None
}

fn copy_need(alloc: Global, need: &Need) -> Result<Need, AllocError>
    ensures { IfOk result (λ n. need_of n ≡ need_of need.now) }
{
    match need {
        Need::Must => Ok(Need::Must),
        Need::May => Ok(Need::May),
        Need::Default(value) => Ok(Need::Default(value.clone_in(alloc)?)),
    }
}

#[cycle(opening)]
fn open_fields(alloc: Global, fields: &[Field]) -> Result<Vec<Field>, AllocError>
    ensures { IfOk result (λ v. map seen_field v.items ≡ map opened_field (map seen_field fields.now)) }
{
    let mut made = Vec::with_capacity(alloc, fields.len())?;
    for field in fields {
        made.push(Field {
            name: String::from_str(alloc, field.name.as_str())?,
            shape: opened(alloc, &field.shape)?,
            need: copy_need(alloc, &field.need)?,
        })?;
    }
    Ok(made)
}

#[cycle(opening)]
fn open_additions(alloc: Global, additions: &[Addition]) -> Result<Vec<Addition>, AllocError>
    ensures { IfOk result (λ v. map seen_addition v.items ≡ map opened_addition (map seen_addition additions.now)) }
{
    let mut made = Vec::with_capacity(alloc, additions.len())?;
    for addition in additions {
        made.push(Addition {
            name: String::from_str(alloc, addition.name.as_str())?,
            shape: opened(alloc, &addition.shape)?,
        })?;
    }
    Ok(made)
}

#[cycle(opening)]
fn open_alternatives(alloc: Global, alts: &[Alt]) -> Result<Vec<Alt>, AllocError>
    ensures { IfOk result (λ v. map seen_alternative v.items ≡ map opened_alternative (map seen_alternative alts.now)) }
{
    let mut made = Vec::with_capacity(alloc, alts.len())?;
    for alt in alts {
        made.push(Alt {
            name: String::from_str(alloc, alt.name.as_str())?,
            tag: alt.tag,
            shape: opened(alloc, &alt.shape)?,
        })?;
    }
    Ok(made)
}
