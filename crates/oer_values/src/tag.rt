//! Tags of alternatives.
ghost use Rattle.std.specs.Prelude.{◌≡◌, option_map};
ghost use Rattle.oer_model.specs.AsnType.{no_alternatives};
ghost use Rattle.oer_model.specs.Constraints.{has_tag, same_tag};
ghost use Rattle.oer_values.specs.ShapeView.{root_of};
ghost use Rattle.oer_values.specs.Lookup.{IsFirst, alternative_with, first_with};

use crate::shape::{Alt, known_later};
use oer_units::Tag;

/// Whether both have the same class and the same number.
pub fn is_same_tag(one: Tag, other: Tag) -> bool
    ensures { result ≡ same_tag one other }
{
    one.class as u8 == other.class as u8 && one.number == other.number
}

/// Whether an alternative has the tag.
pub fn contains_tag(alternatives: &[Alt], tag: Tag) -> bool
    ensures { result ≡ has_tag tag (root_of alternatives.now no_alternatives) }
{
    for alternative in alternatives {
        if is_same_tag(alternative.tag, tag) {
            return true;
        }
    }
    false
}

/// The first alternative with the tag.
pub fn with_tag(alternatives: &[Alt], tag: Tag) -> Option<&Alt>
    ensures is { option_map (λ a. a.now) result ≡ first_with tag alternatives.now }
    ensures first { IsFirst alternatives.now tag (option_map (λ a. a.now) result) }
{
    for alternative in alternatives {
        if is_same_tag(alternative.tag, tag) {
            return Some(alternative);
        }
    }
    None
}

/// The first alternative with the tag, in the root or else after the extension marker.
pub fn find_alternative<'a>(
    root: &'a [Alt],
    additions: &'a Option<Vec<Alt>>,
    tag: Tag,
) -> Option<&'a Alt>
    ensures { option_map (λ a. a.now) result ≡ alternative_with tag root.now additions.now }
{
    match with_tag(root, tag) {
        Some(alternative) => Some(alternative),
        None => with_tag(known_later(additions), tag),
    }
}
