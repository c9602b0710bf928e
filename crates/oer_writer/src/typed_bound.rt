//! At most how many octets a value of a type has. Each of these adds them to those done, and answers none
//! where they come to 2^64. Where the type of an element sets a bound, no element is looked at.
ghost use Rattle.std.specs.Prelude.{option_map};
ghost use Rattle.oer_values.specs.ShapeView.{fields_of, type_of};
ghost use Rattle.oer_values.specs.ValueView.{places_of, value_of, values_of};
ghost use Rattle.oer_writer.specs.TypeBounds.{BoundsFieldsIn, BoundsIn, BoundsListIn, BoundsPlaceIn, BoundsRootIn, BoundsValuesIn};

use crate::bound::{bound, bound_additions, bound_values};
use crate::most::{most, plus, times};
use oer_leaves::quantity_len;
use oer_types::{Field, Shape, Value};

// Of any value.
#[cycle(typed_bound)]
#[tactic(auto, using(oer_leaves::proofs::Views::views))]
pub(crate) fn typed_bound(shape: &Shape, value: &Value, done: u64) -> Option<u64>
    ensures { BoundsIn (type_of shape.now) done (value_of value.now) result }
{
    match (shape, value) {
        (
            Shape::Sequence { root: fields, .. },
            Value::Seq {
                root,
                added,
                unknown,
            },
        ) => {
            let done = bound_root(fields, root, done)?;
            bound_additions(added, unknown, done)
        }
        (Shape::SequenceOf { item, .. }, Value::List(values)) => bound_list(item, values, done),
        _ => bound(value, done),
    }
}

// Of the preamble and the components of a SEQUENCE.
#[cycle(typed_bound)]
fn bound_root(fields: &[Field], places: &[Option<Value>], done: u64) -> Option<u64>
    ensures { BoundsRootIn (fields_of fields.now) done (places_of places.now) result }
{
    let done = plus(done, places.len() as u64 / 8 + 1)?;
    bound_fields(fields, places, done)
}

#[cycle(typed_bound)]
fn bound_fields(fields: &[Field], places: &[Option<Value>], done: u64) -> Option<u64>
    ensures { BoundsFieldsIn (fields_of fields.now) done (places_of places.now) result }
{
    let mut done = done;
    let mut rest = places;
    for field in fields {
        let Some((place, more)) = rest.split_first() else {
            return Some(done);
        };
        done = bound_place(&field.shape, place, done)?;
        rest = more;
    }
    Some(done)
}

#[cycle(typed_bound)]
fn bound_place(shape: &Shape, place: &Option<Value>, done: u64) -> Option<u64>
    ensures { BoundsPlaceIn (type_of shape.now) done (option_map value_of place.now) result }
{
    match place {
        None => Some(done),
        Some(value) => typed_bound(shape, value, done),
    }
}

// Of a SEQUENCE OF.
fn bound_list(item: &Shape, values: &[Value], done: u64) -> Option<u64>
    ensures { BoundsListIn (type_of item.now) done (values_of values.now) result }
{
    let done = plus(done, quantity_len(values.len()))?;
    bound_elements(item, values, done)
}

// Of its elements. Where there is none, their type isn't looked at.
fn bound_elements(item: &Shape, values: &[Value], done: u64) -> Option<u64>
    ensures { BoundsValuesIn (type_of item.now) done (values_of values.now) result }
{
    if values.is_empty() {
        return Some(done);
    }
    match most(item) {
        Some(most) => plus(done, times(values.len() as u64, most)?),
        None => bound_values(values, done),
    }
}
