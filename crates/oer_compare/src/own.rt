//! What differs between two types themselves, and not in their parts.
ghost use Rattle.std.specs.Prelude.{◌≡◌, map};
ghost use Rattle.oer_compare.specs.Difference.{items_aspect as spec_items_aspect, items_extend as spec_items_extend, own_aspect as spec_own_aspect, same_size, unless as spec_unless};
ghost use Rattle.oer_model.specs.Canonical.{same_bool};
ghost use Rattle.oer_compare.specs.declared.difference.Aspect.TheVariants.{Marker, Size as size};
ghost use Rattle.oer_values.specs.ShapeView.{named_number, type_of};

use crate::difference::Aspect;
use crate::same::{is_same_bound, is_same_size, items_extend};
use oer_model::Size;
use oer_values::{Item, Shape};

fn unless(equal: bool, aspect: Aspect) -> Option<Aspect>
    ensures { result ≡ spec_unless equal aspect }
{
    if equal { None } else { Some(aspect) }
}

fn size_aspect(old: Size, new: Size) -> Option<Aspect>
    ensures { result ≡ spec_unless (same_size old new) size }
{
    unless(is_same_size(old, new), Aspect::Size)
}

fn marker_aspect(old: bool, new: bool) -> Option<Aspect>
    ensures { result ≡ spec_unless (same_bool old new) Marker }
{
    unless(old == new, Aspect::Marker)
}

fn items_aspect(old_marker: bool, old: &[Item], new_marker: bool, new: &[Item]) -> Option<Aspect>
    ensures { result ≡ spec_items_aspect old_marker new_marker
        (spec_items_extend old_marker (map named_number old.now) (map named_number new.now)) }
{
    if old_marker != new_marker {
        return Some(Aspect::Marker);
    }
    unless(items_extend(old_marker, old, new), Aspect::Items)
}

/// What differs between the types themselves: their kinds, extension markers, bounds, sizes or items.
#[tactic(auto, using(oer_values::proofs::Shapes::shapes))]
pub(crate) fn own_aspect(old: &Shape, new: &Shape) -> Option<Aspect>
    ensures { result ≡ spec_own_aspect (type_of old.now) (type_of new.now) }
{
    match (old, new) {
        (Shape::Boolean, Shape::Boolean) => None,
        (Shape::Null, Shape::Null) => None,
        (Shape::ObjectId, Shape::ObjectId) => None,
        (Shape::Integer { low, high }, Shape::Integer { low: l, high: h }) => unless(
            is_same_bound(*low, *l) && is_same_bound(*high, *h),
            Aspect::Bounds,
        ),
        (
            Shape::Enumerated { items, extensible },
            Shape::Enumerated {
                items: others,
                extensible: marker,
            },
        ) => items_aspect(*extensible, items, *marker, others),
        (Shape::BitString(old), Shape::BitString(new)) => size_aspect(*old, *new),
        (Shape::OctetString(old), Shape::OctetString(new)) => size_aspect(*old, *new),
        (Shape::Ia5(old), Shape::Ia5(new)) => size_aspect(*old, *new),
        (Shape::Visible(old), Shape::Visible(new)) => size_aspect(*old, *new),
        (Shape::Numeric(old), Shape::Numeric(new)) => size_aspect(*old, *new),
        (Shape::Printable(old), Shape::Printable(new)) => size_aspect(*old, *new),
        (Shape::Utf8(old), Shape::Utf8(new)) => size_aspect(*old, *new),
        (Shape::Sequence { additions: old, .. }, Shape::Sequence { additions: new, .. }) => {
            marker_aspect(old.is_some(), new.is_some())
        }
        (Shape::SequenceOf { size: old, .. }, Shape::SequenceOf { size: new, .. }) => {
            size_aspect(*old, *new)
        }
        (Shape::Choice { additions: old, .. }, Shape::Choice { additions: new, .. }) => {
            marker_aspect(old.is_some(), new.is_some())
        }
        _ => Some(Aspect::Kind),
    }
}
