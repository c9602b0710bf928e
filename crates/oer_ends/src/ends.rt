//! Whether a type has ends.
ghost use Rattle.std.specs.Prelude.{◌≡◌};
ghost use Rattle.oer_model.specs.AsnType.{no_alternatives};
ghost use Rattle.oer_values.specs.ShapeView.{additions_of, fields_of, root_of, seen_alternative, type_of};
ghost use Rattle.oer_ends.specs.Ends.{additions_have_end, alternatives_have_end, are_of_end, fields_have_end, has_end, is_end_alternative};

use oer_units::{Class, Tag};
use oer_values::{Addition, Alt, Field, Shape, is_same_tag};

/// The tag of an end.
const END: Tag = Tag {
    class: Class::Private,
    number: 4_294_967_295,
};

// Whether the alternative is that of an end: NULL, with the tag of an end.
fn is_end_alternative(alternative: &Alt) -> bool
    ensures { result ≡ is_end_alternative (seen_alternative alternative.now) }
{
    match alternative.shape {
        Shape::Null => is_same_tag(END, alternative.tag),
        _ => false,
    }
}

/// Whether a CHOICE without extension marker that has these alternatives is an end.
pub(crate) fn are_of_end(root: &[Alt]) -> bool
    ensures { result ≡ are_of_end (root_of root.now no_alternatives) }
{
    match root {
        [] => false,
        [alternative] => is_end_alternative(alternative),
        [_, _, ..] => false,
    }
}

/// Whether the type has an end somewhere.
#[cycle(ends)]
#[tactic(auto, using(oer_values::proofs::Shapes::shapes))]
pub fn has_end(shape: &Shape) -> bool
    ensures { result ≡ has_end (type_of shape.now) }
{
    match shape {
        Shape::Sequence { root, additions } => {
            if fields_have_end(root) {
                return true;
            }
            match additions {
                None => false,
                Some(additions) => additions_have_end(additions),
            }
        }
        Shape::SequenceOf { item, .. } => has_end(item),
        Shape::Choice { root, additions } => {
            if alternatives_have_end(root) {
                return true;
            }
            match additions {
                None => are_of_end(root),
                Some(additions) => alternatives_have_end(additions),
            }
        }
        _ => false,
    }
}

#[cycle(ends)]
fn fields_have_end(fields: &[Field]) -> bool
    ensures { result ≡ fields_have_end (fields_of fields.now) }
{
    for field in fields {
        if has_end(&field.shape) {
            return true;
        }
    }
    false
}

#[cycle(ends)]
fn additions_have_end(additions: &[Addition]) -> bool
    ensures { result ≡ additions_have_end (additions_of additions.now) }
{
    for addition in additions {
        if has_end(&addition.shape) {
            return true;
        }
    }
    false
}

#[cycle(ends)]
fn alternatives_have_end(alts: &[Alt]) -> bool
    ensures { result ≡ alternatives_have_end (root_of alts.now no_alternatives) }
{
    for alt in alts {
        if has_end(&alt.shape) {
            return true;
        }
    }
    false
}
