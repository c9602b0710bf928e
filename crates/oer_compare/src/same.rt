//! Whether parts of types are the same.
ghost use Rattle.std.specs.Prelude.{◌≡◌, map};
ghost use Rattle.oer_compare.specs.Difference.{items_extend as spec_items_extend, same_bound, same_end, same_item, same_need, same_size};
ghost use Rattle.oer_model.specs.Canonical.{same_list};
ghost use Rattle.oer_values.specs.ShapeView.{named_number, need_of};

use oer_model::Size;
use oer_values::{Item, Need};

fn is_same_end(one: Option<u64>, other: Option<u64>) -> bool
    ensures { result ≡ same_end one other }
{
    match (one, other) {
        (None, None) => true,
        (Some(one), Some(other)) => one == other,
        _ => false,
    }
}

pub(crate) fn is_same_size(one: Size, other: Size) -> bool
    ensures { result ≡ same_size one other }
{
    one.low == other.low && is_same_end(one.high, other.high)
}

pub(crate) fn is_same_bound(one: Option<i128>, other: Option<i128>) -> bool
    ensures { result ≡ same_bound one other }
{
    match (one, other) {
        (None, None) => true,
        (Some(one), Some(other)) => one == other,
        _ => false,
    }
}

pub(crate) fn is_same_name(one: &str, other: &str) -> bool
    ensures { result ≡ same_list one.now other.now }
{
    one == other
}

pub(crate) fn is_same_need(one: &Need, other: &Need) -> bool
    ensures { result ≡ same_need (need_of one.now) (need_of other.now) }
{
    match (one, other) {
        (Need::Must, Need::Must) => true,
        (Need::May, Need::May) => true,
        (Need::Default(one), Need::Default(other)) => one.same(other),
        _ => false,
    }
}

fn is_same_item(one: &Item, other: &Item) -> bool
    ensures { result ≡ same_item (named_number one.now) (named_number other.now) }
{
    is_same_name(one.name.as_str(), other.name.as_str()) && one.number == other.number
}

/// Whether the items are the same, but for further ones where there is a marker.
pub(crate) fn items_extend(marker: bool, ones: &[Item], others: &[Item]) -> bool
    ensures { result ≡ spec_items_extend marker (map named_number ones.now) (map named_number others.now) }
{
    let mut rest = others;
    for one in ones {
        let Some((other, more)) = rest.split_first() else {
            return false;
        };
        if !is_same_item(one, other) {
            return false;
        }
        rest = more;
    }
    rest.is_empty() || marker
}
