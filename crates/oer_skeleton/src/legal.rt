//! Which types have a value without the end of a nesting.
ghost use Rattle.std.specs.Prelude.{◌≡◌, ◌≢◌, [], Some};
ghost use Rattle.oer_model.specs.AsnType.{no_alternatives};
ghost use Rattle.oer_model.specs.Constraints.{same_tag};
ghost use Rattle.oer_nesting.specs.Deeper.{end_tag};
ghost use Rattle.oer_skeleton.specs.Seen.{first_taken};
ghost use Rattle.oer_skeleton.specs.Skeleton.{any_legal as spec_any_legal, are_legal as spec_are_legal, is_legal as spec_is_legal, is_taken as spec_is_taken};
ghost use Rattle.oer_values.specs.ShapeView.{fields_of, root_of, type_of};

use oer_units::{Class, Tag};
use oer_values::{Alt, Field, Need, Shape, is_same_tag};

// The tag of the end of a nesting that modules write out.
const END: Tag = Tag {
    class: Class::Private,
    number: 4_294_967_295,
};

fn is_end(tag: Tag) -> bool
    ensures { result ≡ same_tag tag end_tag }
{
    is_same_tag(tag, END)
}

/// Whether the type has a value without the end of a nesting that keeps to the alternatives before
/// extension markers.
#[cycle(legal)]
#[tactic(auto, using(oer_values::proofs::Shapes::shapes))]
pub fn is_legal(shape: &Shape) -> bool
    ensures { result ≡ spec_is_legal (type_of shape.now) }
{
    match shape {
        Shape::Sequence { root, .. } => are_legal(root),
        Shape::SequenceOf { size, item } => size.low == 0 || is_legal(item),
        Shape::Choice { root, .. } => any_legal(root),
        _ => true,
    }
}

#[cycle(legal)]
fn are_legal(fields: &[Field]) -> bool
    ensures { result ≡ spec_are_legal (fields_of fields.now) }
{
    for field in fields {
        if matches!(field.need, Need::Must) && !is_legal(&field.shape) {
            return false;
        }
    }
    true
}

/// Whether one of these alternatives before the extension marker is no end, and has such a value.
#[cycle(legal)]
pub fn any_legal(root: &[Alt]) -> bool
    ensures { result ≡ spec_any_legal (root_of root.now no_alternatives) }
{
    for alt in root {
        if !is_end(alt.tag) && is_legal(&alt.shape) {
            return true;
        }
    }
    false
}

/// Whether a value may take the alternative: one that needs no end, or each where `any`, whether one
/// before the extension marker needs none, is false.
pub fn is_taken(any: bool, alt: &Alt) -> bool
    ensures { result ≡ spec_is_taken any alt.now.tag (spec_is_legal (type_of alt.now.shape)) }
{
    !any || !is_end(alt.tag) && is_legal(&alt.shape)
}

/// The first alternative that needs no end, or the first of all where each does.
pub(crate) fn taken(root: &[Alt]) -> &Alt
    requires { root.now ≢ [] }
    ensures { Some result.now ≡ first_taken (spec_any_legal (root_of root.now no_alternatives)) root.now }
{
    let any = any_legal(root);
    for alt in root {
        if is_taken(any, alt) {
            return alt;
        }
    }
    unreachable!()
}
