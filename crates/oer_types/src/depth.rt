//! How deep a type is.
ghost use Rattle.std.specs.Prelude.{◌≡◌, ◌↔◌, ◌≤◌, ◌<◌, IsTrue};
ghost use Rattle.oer_model.specs.AsnType.{no_alternatives};
ghost use Rattle.oer_values.specs.ShapeView.{type_of, fields_of, additions_of, root_of};
ghost use Rattle.oer_model.specs.WellFormed.{depth, fields_depth, additions_depth, alternatives_depth};

use oer_values::{Addition, Alt, Field, Shape};

/// Whether the type has no more than so many levels. It looks no deeper.
#[cycle(depth)]
#[tactic(auto, using(oer_values::proofs::Shapes::shapes))]
pub fn is_within_depth(shape: &Shape, levels: u8) -> bool
    requires { 0 < levels }
    ensures { IsTrue result ↔ depth (type_of shape.now) ≤ levels }
{
    match shape {
        Shape::Sequence { root, additions } => {
            if !are_fields_within(root, levels - 1) {
                return false;
            }
            match additions {
                None => true,
                Some(additions) => are_additions_within(additions, levels - 1),
            }
        }
        Shape::SequenceOf { item, .. } => levels > 1 && is_within_depth(item, levels - 1),
        Shape::Choice { root, additions } => {
            if !are_alternatives_within(root, levels - 1) {
                return false;
            }
            match additions {
                None => true,
                Some(additions) => are_alternatives_within(additions, levels - 1),
            }
        }
        _ => true,
    }
}

#[cycle(depth)]
fn are_fields_within(fields: &[Field], levels: u8) -> bool
    ensures { IsTrue result ↔ fields_depth (fields_of fields.now) ≤ levels }
{
    for field in fields {
        if levels == 0 || !is_within_depth(&field.shape, levels) {
            return false;
        }
    }
    true
}

#[cycle(depth)]
fn are_additions_within(additions: &[Addition], levels: u8) -> bool
    ensures { IsTrue result ↔ additions_depth (additions_of additions.now) ≤ levels }
{
    for addition in additions {
        if levels == 0 || !is_within_depth(&addition.shape, levels) {
            return false;
        }
    }
    true
}

#[cycle(depth)]
fn are_alternatives_within(alts: &[Alt], levels: u8) -> bool
    ensures { IsTrue result ↔ alternatives_depth (root_of alts.now no_alternatives) ≤ levels }
{
    for alt in alts {
        if levels == 0 || !is_within_depth(&alt.shape, levels) {
            return false;
        }
    }
    true
}
