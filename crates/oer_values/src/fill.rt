//! Values after their defaults are filled in.
ghost use Rattle.std.specs.Prelude.{◌≡◌, ◌↔◌, IsTrue, IfOk, Option, option_map};
ghost use Rattle.oer_values.specs.DefaultView.{with_default};
ghost use Rattle.oer_model.specs.Filling.{filled as spec_filled, filled_additions, filled_fields, map_values};
ghost use Rattle.oer_values.specs.ShapeView.{additions_of, fields_of, need_of, type_of};
ghost use Rattle.oer_values.specs.ValueView.{places_of, value_of, values_of};

use crate::shape::{Addition, Field, Need, Shape, known_additions};
use crate::tag::find_alternative;
use crate::value::{Value, same, same_places, same_unknown};

impl Need {
    /// The component's value, which is the default where it is absent and has one.
    fn or_default<'a>(&'a self, place: &'a Option<Value>) -> Option<&'a Value>
        ensures { option_map (λ v. value_of v.now) result
            ≡ with_default (need_of self.now) (option_map value_of place.now) }
    {
        match (self, place) {
            (_, Some(value)) => Some(value),
            (Need::Default(value), None) => Some(value),
            _ => None,
        }
    }
}

/// Whether both are the same value of the type after defaults are filled in, at every depth. The
/// shape is one of a `Schema`, or stands in one, and both values fit it; of others it
/// answers the same, of whatever filling makes of them.
#[cycle(same_filled)]
pub fn same_filled_at(shape: &Shape, one: &Value, other: &Value) -> bool
    ensures { IsTrue result
        ↔ spec_filled (type_of shape.now) (value_of one.now) ≡ spec_filled (type_of shape.now) (value_of other.now) }
{
    match (shape, one, other) {
        (
            Shape::Sequence { root, additions },
            Value::Seq {
                root: root_a,
                added: added_a,
                unknown: unknown_a,
            },
            Value::Seq {
                root: root_b,
                added: added_b,
                unknown: unknown_b,
            },
        ) => {
            if !same_unknown(unknown_a, unknown_b) || !same_filled_fields(root, root_a, root_b) {
                return false;
            }
            same_filled_additions(known_additions(additions), added_a, added_b)
        }
        (Shape::SequenceOf { item, .. }, Value::List(a), Value::List(b)) => {
            same_filled_values(item, a, b)
        }
        (
            Shape::Choice { root, additions },
            Value::Chosen { tag: s, value: a },
            Value::Chosen { tag: t, value: b },
        ) => {
            if *s != *t {
                return false;
            }
            match find_alternative(root, additions, *t) {
                Some(alternative) => same_filled_at(&alternative.shape, a, b),
                None => same(a, b),
            }
        }
        _ => same(one, other),
    }
}

#[cycle(same_filled)]
fn same_filled_fields(fields: &[Field], ones: &[Option<Value>], others: &[Option<Value>]) -> bool
    ensures { IsTrue result
        ↔ filled_fields (fields_of fields.now) (places_of ones.now)
        ≡ filled_fields (fields_of fields.now) (places_of others.now) }
{
    let mut rest_a = ones;
    let mut rest_b = others;
    for field in fields {
        let Some((a, more_a)) = rest_a.split_first() else {
            return rest_b.is_empty();
        };
        let Some((b, more_b)) = rest_b.split_first() else {
            return false;
        };
        if !same_filled_place(field, a, b) {
            return false;
        }
        rest_a = more_a;
        rest_b = more_b;
    }
    same_places(rest_a, rest_b)
}

#[cycle(same_filled)]
fn same_filled_place(field: &Field, one: &Option<Value>, other: &Option<Value>) -> bool
    ensures { IsTrue result
        ↔ option_map (spec_filled (type_of field.now.shape)) (with_default (need_of field.now.need) (option_map value_of one.now))
        ≡ option_map (spec_filled (type_of field.now.shape)) (with_default (need_of field.now.need) (option_map value_of other.now)) }
{
    match (field.need.or_default(one), field.need.or_default(other)) {
        (None, None) => true,
        (Some(one), Some(other)) => same_filled_at(&field.shape, one, other),
        _ => false,
    }
}

#[cycle(same_filled)]
fn same_filled_additions(
    additions: &[Addition],
    ones: &[Option<Value>],
    others: &[Option<Value>],
) -> bool
    ensures { IsTrue result
        ↔ filled_additions (additions_of additions.now) (places_of ones.now)
        ≡ filled_additions (additions_of additions.now) (places_of others.now) }
{
    let mut rest_a = ones;
    let mut rest_b = others;
    for addition in additions {
        let Some((a, more_a)) = rest_a.split_first() else {
            return rest_b.is_empty();
        };
        let Some((b, more_b)) = rest_b.split_first() else {
            return false;
        };
        match (a, b) {
            (None, None) => {}
            (Some(a), Some(b)) if same_filled_at(&addition.shape, a, b) => {}
            _ => return false,
        }
        rest_a = more_a;
        rest_b = more_b;
    }
    same_places(rest_a, rest_b)
}

#[cycle(same_filled)]
fn same_filled_values(item: &Shape, ones: &[Value], others: &[Value]) -> bool
    ensures { IsTrue result
        ↔ map_values (spec_filled (type_of item.now)) (values_of ones.now)
        ≡ map_values (spec_filled (type_of item.now)) (values_of others.now) }
{
    let mut rest = others;
    for one in ones {
        let Some((other, more)) = rest.split_first() else {
            return false;
        };
        if !same_filled_at(item, one, other) {
            return false;
        }
        rest = more;
    }
    rest.is_empty()
}
