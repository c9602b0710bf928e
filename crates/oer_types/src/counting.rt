//! How many parts a type has.
ghost use Rattle.std.specs.Prelude.{◌≡◌, ◌+◌, ◌<◌, MatchOption, length};
ghost use Rattle.oer_model.specs.AsnType.{no_alternatives};
ghost use Rattle.oer_types.specs.Counting.{Leaves};
ghost use Rattle.oer_model.specs.Nodes.{additions_nodes, alternatives_nodes, fields_nodes, type_nodes};
ghost use Rattle.oer_values.specs.ShapeView.{additions_of, fields_of, root_of, type_of};
ghost use Rattle.oer_model.specs.Widths.{AdditionsHaveWidths, AlternativesHaveWidths, FieldsHaveWidths, HasWidths};

use crate::widths::{own_widths, tag_width};
use oer_values::{Addition, Alt, Field, Item, Shape};

/// Of so many parts that may be left, what is left after those of the type: each type in it, itself
/// included, and each item of an enumeration. None where there are more; it counts no further.
#[cycle(counting)]
#[tactic(auto, using(oer_values::proofs::Shapes::shapes))]
pub fn parts_left(shape: &Shape, left: u16) -> Option<u16>
    ensures { Leaves result left (type_nodes (type_of shape.now)) (HasWidths (type_of shape.now)) }
{
    own_widths(shape);
    if left == 0 {
        return None;
    }
    let left = left - 1;
    match shape {
        Shape::Enumerated { items, .. } => items_left(items, left),
        Shape::Sequence { root, additions } => {
            let Some(left) = fields_left(root, left) else {
                return None;
            };
            match additions {
                None => Some(left),
                Some(additions) => additions_left(additions, left),
            }
        }
        Shape::SequenceOf { item, .. } => parts_left(item, left),
        Shape::Choice { root, additions } => {
            let Some(left) = alternatives_left(root, left) else {
                return None;
            };
            match additions {
                None => Some(left),
                Some(additions) => alternatives_left(additions, left),
            }
        }
        Shape::Boolean
        | Shape::Null
        | Shape::Integer { .. }
        | Shape::BitString(_)
        | Shape::OctetString(_)
        | Shape::ObjectId
        | Shape::Ia5(_)
        | Shape::Visible(_)
        | Shape::Numeric(_)
        | Shape::Printable(_)
        | Shape::Utf8(_) => Some(left),
    }
}

fn items_left(items: &[Item], left: u16) -> Option<u16>
    ensures { MatchOption result (left < length items.now) (λ rest. rest + length items.now ≡ left) }
{
    if items.len() > left as usize {
        return None;
    }
    Some(left - items.len() as u16)
}

#[cycle(counting)]
fn fields_left(fields: &[Field], left: u16) -> Option<u16>
    ensures { Leaves result left (fields_nodes (fields_of fields.now)) (FieldsHaveWidths (fields_of fields.now)) }
{
    let mut left = left;
    for field in fields {
        let Some(rest) = parts_left(&field.shape, left) else {
            return None;
        };
        left = rest;
    }
    Some(left)
}

#[cycle(counting)]
fn additions_left(additions: &[Addition], left: u16) -> Option<u16>
    ensures { Leaves result left (additions_nodes (additions_of additions.now)) (AdditionsHaveWidths (additions_of additions.now)) }
{
    let mut left = left;
    for addition in additions {
        let Some(rest) = parts_left(&addition.shape, left) else {
            return None;
        };
        left = rest;
    }
    Some(left)
}

#[cycle(counting)]
fn alternatives_left(alts: &[Alt], left: u16) -> Option<u16>
    ensures { Leaves result left (alternatives_nodes (root_of alts.now no_alternatives))
        (AlternativesHaveWidths (root_of alts.now no_alternatives)) }
{
    let mut left = left;
    for alt in alts {
        tag_width(alt.tag);
        let Some(rest) = parts_left(&alt.shape, left) else {
            return None;
        };
        left = rest;
    }
    Some(left)
}
