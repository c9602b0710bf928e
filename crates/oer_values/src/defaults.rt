//! Values with their defaults filled in.
ghost use Rattle.std.specs.Prelude.{◌≡◌, IfOk, option_map};
ghost use Rattle.oer_values.specs.DefaultView.{with_default};
ghost use Rattle.oer_model.specs.Filling.{filled as spec_filled, filled_additions, filled_fields, map_values};
ghost use Rattle.oer_values.specs.ShapeView.{additions_of, fields_of, need_of, type_of};
ghost use Rattle.oer_values.specs.ValueView.{attached, places_of, value_of, values_of};

use crate::shape::{Addition, Field, Need, Shape, known_additions};
use crate::tag::find_alternative;
use crate::value::{Value, copy, copy_place, copy_unknown};
use std::alloc::{AllocError, Global};

/// The value with the default in the place of every absent component that has one, at every depth,
/// inside defaults too.
#[cycle(fill_in)]
#[tactic(auto, using(crate::proofs::FillSteps::levels))]
pub fn fill_in(shape: &Shape, alloc: Global, value: &Value) -> Result<Value, AllocError>
    ensures { IfOk result (λ v. value_of v ≡ spec_filled (type_of shape.now) (value_of value.now)) }
{
    match (shape, value) {
        (
            Shape::Sequence { root, additions },
            Value::Seq {
                root: places,
                added,
                unknown,
            },
        ) => {
            let root = fill_fields(root, alloc, places)?;
            let added = fill_additions(known_additions(additions), alloc, added)?;
            let unknown = copy_unknown(alloc, unknown)?;
            Ok(Value::Seq {
                root,
                added,
                unknown,
            })
        }
        (Shape::SequenceOf { item, .. }, Value::List(values)) => {
            Ok(Value::List(fill_values(item, alloc, values)?))
        }
        (Shape::Choice { root, additions }, Value::Chosen { tag, value }) => {
            let filled = match find_alternative(root, additions, *tag) {
                Some(alternative) => fill_in(&alternative.shape, alloc, value)?,
                None => copy(alloc, value)?,
            };
            let value = Box::new(alloc, filled)?;
            Ok(Value::Chosen { tag: *tag, value })
        }
        _ => copy(alloc, value),
    }
}

#[cycle(fill_in)]
fn fill_fields(
    fields: &[Field],
    alloc: Global,
    places: &[Option<Value>],
) -> Result<Vec<Option<Value>>, AllocError>
    ensures { IfOk result (λ v. places_of v.items ≡ filled_fields (fields_of fields.now) (places_of places.now)) }
{
    let mut copies = Vec::with_capacity(alloc, places.len())?;
    let mut rest = places;
    for field in fields {
        let Some((place, more)) = rest.split_first() else {
            return Ok(copies);
        };
        copies.push(fill_place(field, alloc, place)?)?;
        rest = more;
    }
    push_copies(alloc, rest, copies)
}

/// The component, or its default where it is absent and has one, filled.
#[cycle(fill_in)]
fn fill_place(
    field: &Field,
    alloc: Global,
    place: &Option<Value>,
) -> Result<Option<Value>, AllocError>
    ensures { IfOk result (λ p. option_map value_of p
        ≡ option_map (spec_filled (type_of field.now.shape)) (with_default (need_of field.now.need) (option_map value_of place.now))) }
{
    match place {
        Some(value) => Ok(Some(fill_in(&field.shape, alloc, value)?)),
        None => match &field.need {
            Need::Default(value) => Ok(Some(fill_in(&field.shape, alloc, value)?)),
            _ => Ok(None),
        },
    }
}

/// The places, and copies of the rest after them.
fn push_copies(
    alloc: Global,
    rest: &[Option<Value>],
    places: Vec<Option<Value>>,
) -> Result<Vec<Option<Value>>, AllocError>
    ensures { IfOk result (λ v. places_of v.items ≡ attached places.items (places_of rest.now)) }
{
    let mut places = places;
    for place in rest {
        places.push(copy_place(alloc, place)?)?;
    }
    Ok(places)
}

#[cycle(fill_in)]
fn fill_additions(
    additions: &[Addition],
    alloc: Global,
    places: &[Option<Value>],
) -> Result<Vec<Option<Value>>, AllocError>
    ensures { IfOk result (λ v. places_of v.items
        ≡ filled_additions (additions_of additions.now) (places_of places.now)) }
{
    let mut copies = Vec::with_capacity(alloc, places.len())?;
    let mut rest = places;
    for addition in additions {
        let Some((place, more)) = rest.split_first() else {
            return Ok(copies);
        };
        copies.push(fill_addition(addition, alloc, place)?)?;
        rest = more;
    }
    push_copies(alloc, rest, copies)
}

#[cycle(fill_in)]
fn fill_addition(
    addition: &Addition,
    alloc: Global,
    place: &Option<Value>,
) -> Result<Option<Value>, AllocError>
    ensures { IfOk result (λ p. option_map value_of p
        ≡ option_map (spec_filled (type_of addition.now.shape)) (option_map value_of place.now)) }
{
    match place {
        None => Ok(None),
        Some(value) => Ok(Some(fill_in(&addition.shape, alloc, value)?)),
    }
}

#[cycle(fill_in)]
fn fill_values(item: &Shape, alloc: Global, values: &[Value]) -> Result<Vec<Value>, AllocError>
    ensures { IfOk result (λ v. values_of v.items ≡ map_values (spec_filled (type_of item.now)) (values_of values.now)) }
{
    let mut copies = Vec::with_capacity(alloc, values.len())?;
    for value in values {
        copies.push(fill_in(item, alloc, value)?)?;
    }
    Ok(copies)
}
