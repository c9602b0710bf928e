//! Which alternative a value takes.
ghost use Rattle.std.specs.Prelude.{◌≡◌, ◌≢◌, ◌≤◌, ◌++◌, ◌%◌, [], Some, length, option_map};
ghost use Rattle.oer_model.specs.AsnType.{no_alternatives};
ghost use Rattle.oer_random.specs.Picked.{count_taken as spec_count, picked as spec_picked};
ghost use Rattle.oer_skeleton.specs.Skeleton.{any_legal as spec_any_legal};
ghost use Rattle.oer_values.specs.ShapeView.{root_of};

use oer_skeleton::{any_legal, is_taken};
use oer_values::Alt;

/// How many of these alternatives may be taken.
fn count_taken(alternatives: &[Alt], any: bool) -> u128
    ensures value { result ≡ spec_count any alternatives.now }
    ensures most { result ≤ length alternatives.now }
{
    let mut count = 0;
    for alternative in alternatives {
        if is_taken(any, alternative) {
            count += 1;
        }
    }
    count
}

/// Of these that may be taken the one at `place`.
fn picked(alternatives: &[Alt], any: bool, place: u128) -> Option<&Alt>
    ensures { option_map (λ a. a.now) result ≡ spec_picked any place alternatives.now }
{
    let mut left = place;
    for alternative in alternatives {
        if is_taken(any, alternative) {
            if left == 0 {
                return Some(alternative);
            }
            left -= 1;
        }
    }
    None
}

/// Of those that may be taken the one at `place`, on both sides of the extension marker.
fn found<'a>(root: &'a [Alt], later: &'a [Alt], any: bool, place: u128) -> Option<&'a Alt>
    ensures { option_map (λ a. a.now) result ≡ spec_picked any place (root.now ++ later.now) }
{
    let before = count_taken(root, any);
    if place < before {
        picked(root, any, place)
    } else {
        picked(later, any, place - before)
    }
}

/// Of the alternatives that may be taken the one that the seed gives.
pub(crate) fn taken<'a>(root: &'a [Alt], later: &'a [Alt], seed: u64) -> &'a Alt
    requires { root.now ≢ [] }
    ensures { Some result.now ≡ spec_picked (spec_any_legal (root_of root.now no_alternatives))
        (seed % spec_count (spec_any_legal (root_of root.now no_alternatives)) (root.now ++ later.now)) (root.now ++ later.now) }
{
    let any = any_legal(root);
    let count = count_taken(root, any) + count_taken(later, any);
    match found(root, later, any, u128::from(seed) % count) {
        Some(alternative) => alternative,
        None => unreachable!(),
    }
}
