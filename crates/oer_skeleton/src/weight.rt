//! How many parts a skeleton has.
ghost use Rattle.std.specs.Prelude.{◌≡◌, ◌*◌};
ghost use Rattle.oer_skeleton.specs.Skeleton.{is_legal as spec_is_legal};
ghost use Rattle.oer_skeleton.specs.Sound.{AdditionsHaveItems, FieldsHaveItems, HasItems};
ghost use Rattle.oer_skeleton.specs.Weight.{Leaves, optional_weight, part_weight, weight as spec_weight, weight_additions, weight_fields};
ghost use Rattle.oer_values.specs.ShapeView.{additions_of, fields_of, need_of, type_of};

use crate::legal::{is_legal, taken};
use crate::parts::Parts;
use crate::skeleton::elements;
use oer_values::{Addition, Field, Need, Shape, known_additions};

/// How many parts a skeleton may have: each value in it, itself included, each absent component, and
/// each character, octet and bit. A default is one part.
pub const MAX_WEIGHT: u64 = 65_536;

/// What is left of `left` parts after so many; none where they are more.
pub fn after(count: u64, left: u64) -> Option<u64>
    ensures { Leaves result left count }
{
    left.checked_sub(count)
}

/// What is left after `count` times what `each` is.
fn after_all(count: u64, each: u64, left: u64) -> Option<u64>
    ensures { Leaves result left (count * each) }
{
    match count.checked_mul(each) {
        Some(all) => after(all, left),
        None => None,
    }
}

/// Of so many parts that may be left, what is left after those of the skeleton. None where there are
/// more.
#[cycle(weight)]
#[tactic(auto, using(oer_values::proofs::Shapes::shapes))]
pub(crate) fn weigh(shape: &Shape, parts: Parts, left: u64) -> Option<u64>
    requires { HasItems (type_of shape.now) }
    ensures { Leaves result left (spec_weight parts (type_of shape.now)) }
{
    if left == 0 {
        return None;
    }
    let left = left - 1;
    match shape {
        Shape::BitString(size) => after(size.low, left),
        Shape::OctetString(size) => after(size.low, left),
        Shape::Ia5(size) => after(size.low, left),
        Shape::Visible(size) => after(size.low, left),
        Shape::Numeric(size) => after(size.low, left),
        Shape::Printable(size) => after(size.low, left),
        Shape::Utf8(size) => after(size.low, left),
        Shape::Sequence { root, additions } => {
            let Some(left) = weigh_fields(root, parts, left) else {
                return None;
            };
            weigh_additions(known_additions(additions), parts, left)
        }
        Shape::SequenceOf { size, item } => {
            weigh_list(item, parts, elements(parts, is_legal(item), *size), left)
        }
        Shape::Choice { root, .. } => weigh(&taken(root).shape, parts, left),
        _ => Some(left),
    }
}

#[cycle(weight)]
fn weigh_fields(fields: &[Field], parts: Parts, left: u64) -> Option<u64>
    requires { FieldsHaveItems (fields_of fields.now) }
    ensures { Leaves result left (weight_fields parts (fields_of fields.now)) }
{
    let mut left = left;
    for field in fields {
        let Some(rest) = weigh_component(field, parts, left) else {
            return None;
        };
        left = rest;
    }
    Some(left)
}

#[cycle(weight)]
fn weigh_component(field: &Field, parts: Parts, left: u64) -> Option<u64>
    requires { HasItems (type_of field.now.shape) }
    ensures { Leaves result left
        (part_weight parts (need_of field.now.need) (spec_is_legal (type_of field.now.shape)) (spec_weight parts (type_of field.now.shape))) }
{
    match &field.need {
        Need::Must => weigh(&field.shape, parts, left),
        Need::May => weigh_optional(&field.shape, parts, left),
        Need::Default(_) => after(1, left),
    }
}

#[cycle(weight)]
fn weigh_optional(shape: &Shape, parts: Parts, left: u64) -> Option<u64>
    requires { HasItems (type_of shape.now) }
    ensures { Leaves result left (optional_weight parts (spec_is_legal (type_of shape.now)) (spec_weight parts (type_of shape.now))) }
{
    match parts {
        Parts::Needed => after(1, left),
        Parts::All => {
            if !is_legal(shape) {
                return after(1, left);
            }
            weigh(shape, parts, left)
        }
    }
}

#[cycle(weight)]
fn weigh_additions(additions: &[Addition], parts: Parts, left: u64) -> Option<u64>
    requires { AdditionsHaveItems (additions_of additions.now) }
    ensures { Leaves result left (weight_additions parts (additions_of additions.now)) }
{
    let mut left = left;
    for addition in additions {
        let Some(rest) = weigh_optional(&addition.shape, parts, left) else {
            return None;
        };
        left = rest;
    }
    Some(left)
}

#[cycle(weight)]
fn weigh_list(item: &Shape, parts: Parts, count: u64, left: u64) -> Option<u64>
    requires { HasItems (type_of item.now) }
    ensures { Leaves result left (count * spec_weight parts (type_of item.now)) }
{
    if count == 0 {
        return Some(left);
    }
    let Some(rest) = weigh(item, parts, left) else {
        return None;
    };
    after_all(count, left - rest, left)
}
