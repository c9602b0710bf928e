//! Which types have a notation.
ghost use Rattle.std.specs.Prelude.{◌≡◌};
ghost use Rattle.oer_model.specs.AsnType.{no_alternatives};
ghost use Rattle.oer_values.specs.ShapeView.{additions_of, fields_of, need_of, root_of, type_of};
ghost use Rattle.oer_literals.specs.Items.{items_of};
ghost use Rattle.oer_printer.specs.Printing.{additions_have_notation, alternatives_have_notation, has_notation, have_notation, need_has_notation};

use crate::literal::value_has_notation;
use oer_types::{Addition, Alt, Field, Need, Shape};

/// Whether all defaults in the type have a notation.
#[cycle(notation)]
#[tactic(auto, using(crate::proofs::Levels::levels))]
pub fn has_notation(shape: &Shape) -> bool
    ensures { result ≡ has_notation (type_of shape.now) }
{
    match shape {
        Shape::Sequence { root, additions } => {
            if !have_notation(root) {
                return false;
            }
            match additions {
                None => true,
                Some(additions) => additions_have_notation(additions),
            }
        }
        Shape::SequenceOf { item, .. } => has_notation(item),
        Shape::Choice { root, additions } => {
            if !alternatives_have_notation(root) {
                return false;
            }
            match additions {
                None => true,
                Some(additions) => alternatives_have_notation(additions),
            }
        }
        _ => true,
    }
}

fn need_has_notation(need: &Need, shape: &Shape) -> bool
    ensures { result ≡ need_has_notation (items_of (type_of shape.now)) (need_of need.now) }
{
    match need {
        Need::Must => true,
        Need::May => true,
        Need::Default(value) => value_has_notation(value, shape),
    }
}

#[cycle(notation)]
fn have_notation(fields: &[Field]) -> bool
    ensures { result ≡ have_notation (fields_of fields.now) }
{
    for field in fields {
        if !has_notation(&field.shape) || !need_has_notation(&field.need, &field.shape) {
            return false;
        }
    }
    true
}

#[cycle(notation)]
fn additions_have_notation(additions: &[Addition]) -> bool
    ensures { result ≡ additions_have_notation (additions_of additions.now) }
{
    for addition in additions {
        if !has_notation(&addition.shape) {
            return false;
        }
    }
    true
}

#[cycle(notation)]
fn alternatives_have_notation(alts: &[Alt]) -> bool
    ensures { result ≡ alternatives_have_notation (root_of alts.now no_alternatives) }
{
    for alt in alts {
        if !has_notation(&alt.shape) {
            return false;
        }
    }
    true
}
