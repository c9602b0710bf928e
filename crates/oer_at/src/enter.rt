//! What a name leads to in a type.
ghost use Rattle.std.specs.Prelude.{◌≡◌, option_map};
ghost use Rattle.oer_model.specs.AsnType.{Alternatives};
ghost use Rattle.oer_values.specs.ShapeView.{additions_of, choice_with, fields_of, later_of, root_of, sequence_with, type_of};
ghost use Rattle.oer_at.specs.Hops.{find_addition, find_alternative, find_field, named, or_else, or_wanted, result_map};
ghost use Rattle.oer_at.specs.Views.{entered};

use crate::hop::{Hop, Wanted};
use crate::number::element_of;
use oer_parts::Step;
use oer_types::{Addition, Alt, Field, Shape};

/// What a name leads to, and its type.
#[derive(Clone, Copy)]
pub struct Entered<'s> {
    pub hop: Hop,
    pub shape: &'s Shape,
}

// The component of a root with the name.
fn component<'s>(fields: &'s [Field], name: &str) -> Option<Entered<'s>>
    ensures { option_map entered result ≡ find_field 0 (fields_of fields.now) name.now }
{
    for (index, field) in fields.iter().enumerate() {
        if field.name.as_str() == name {
            return Some(Entered {
                hop: Hop::Part(Step::Component(index)),
                shape: &field.shape,
            });
        }
    }
    None
}

// The addition with the name.
fn addition<'s>(additions: &'s [Addition], name: &str) -> Option<Entered<'s>>
    ensures { option_map entered result ≡ find_addition 0 (additions_of additions.now) name.now }
{
    for (index, addition) in additions.iter().enumerate() {
        if addition.name.as_str() == name {
            return Some(Entered {
                hop: Hop::Part(Step::Addition(index)),
                shape: &addition.shape,
            });
        }
    }
    None
}

// The alternative with the name, among those of a root or after the extension marker.
fn alternative<'s>(alternatives: &'s [Alt], name: &str) -> Option<Entered<'s>>
    ensures root { (after : Alternatives) → find_alternative (root_of alternatives.now after) name.now
        ≡ or_else (option_map entered result) (find_alternative after name.now) }
    ensures later { option_map entered result ≡ find_alternative (later_of alternatives.now) name.now }
{
    for alternative in alternatives {
        if alternative.name.as_str() == name {
            return Some(Entered {
                hop: Hop::Alternative(alternative.tag),
                shape: &alternative.shape,
            });
        }
    }
    None
}

// The component or addition of a SEQUENCE with the name.
fn in_sequence<'s>(
    root: &'s [Field],
    additions: &'s Option<Vec<Addition>>,
    name: &str,
) -> Option<Entered<'s>>
    ensures { named (sequence_with root.now additions.now) name.now ≡ or_wanted Wanted.Component (option_map entered result) }
{
    if let Some(entered) = component(root, name) {
        return Some(entered);
    }
    match additions {
        Some(additions) => addition(additions, name),
        None => None,
    }
}

// The alternative of a CHOICE with the name.
fn in_choice<'s>(
    root: &'s [Alt],
    additions: &'s Option<Vec<Alt>>,
    name: &str,
) -> Option<Entered<'s>>
    ensures { named (choice_with root.now additions.now) name.now ≡ or_wanted Wanted.Alternative (option_map entered result) }
{
    if let Some(entered) = alternative(root, name) {
        return Some(entered);
    }
    match additions {
        Some(additions) => alternative(additions, name),
        None => None,
    }
}

/// What the name leads to in the type; the error says what it has to be.
pub fn enter<'s>(shape: &'s Shape, name: &str) -> Result<Entered<'s>, Wanted>
    ensures { result_map entered result ≡ named (type_of shape.now) name.now }
{
    match shape {
        Shape::Sequence { root, additions } => match in_sequence(root, additions, name) {
            Some(entered) => Ok(entered),
            None => Err(Wanted::Component),
        },
        Shape::SequenceOf { item, .. } => match element_of(name) {
            Some(number) => Ok(Entered {
                hop: Hop::Part(Step::Item(number)),
                shape: item,
            }),
            None => Err(Wanted::Element),
        },
        Shape::Choice { root, additions } => match in_choice(root, additions, name) {
            Some(entered) => Ok(entered),
            None => Err(Wanted::Alternative),
        },
        _ => Err(Wanted::Nothing),
    }
}
