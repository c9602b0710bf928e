//! The range of a set as PER reads it (X.691, 10.3).
ghost use Rattle.std.specs.Prelude.{◌≡◌, None, Some, map};
ghost use Rattle.std.specs.Option.{option_map};
ghost use Rattle.std.specs.Int.{int_max, int_min};
ghost use Rattle.std.specs.List.{fold};
ghost use Rattle.oer_module_bounds.specs.Loose.{inner_end, join as joined, loose, loose_effective, meet as met, outer_end};
ghost use Rattle.oer_module_bounds.specs.Sets.{constraint_of, everything, filled, set_of, span_of};

use crate::ends::Range;
use crate::steps::is_empty;
use crate::tree::{Constraint, Set};

/// The range of a set as PER reads it: EXCEPT and what follows it are left out, a union has what lies between its
/// members too, and the ranges of the members of an intersection are intersected (X.691, 10.3). The hull lies within it; where it
/// is another, readers may differ on the type.
#[cycle(loose)]
pub fn loose_hull_of(set: &Set) -> Option<Range>
    ensures { option_map span_of result ≡ loose (set_of set.now) }
{
    match set {
        Set::Range(range) => filled(*range),
        Set::Union(members) => joined_of(members),
        Set::Intersection(members) => met_of(members),
        Set::Except(first, _) => loose_hull_of(first),
        Set::Unknown => Some(Range::everything()),
    }
}

#[cycle(loose)]
fn joined_of(members: &[Set]) -> Option<Range>
    ensures { option_map span_of result ≡ fold joined None (map (λ s. loose (set_of s)) members.now) }
{
    let mut all = None;
    for member in members {
        all = join(all, loose_hull_of(member));
    }
    all
}

#[cycle(loose)]
fn met_of(members: &[Set]) -> Option<Range>
    ensures { option_map span_of result ≡ fold met (Some everything) (map (λ s. loose (set_of s)) members.now) }
{
    let mut all = Some(Range::everything());
    for member in members {
        all = meet(all, loose_hull_of(member));
    }
    all
}

/// The range of constraints in a row as PER reads it (`loose_hull_of`), those that are extensible left out.
pub fn loose_effective_range(constraints: &[Constraint]) -> Option<Range>
    ensures { option_map span_of result ≡ loose_effective (map constraint_of constraints.now) }
{
    let mut all = Some(Range::everything());
    for constraint in constraints {
        if !constraint.extensible {
            all = meet(all, loose_hull_of(&constraint.root));
        }
    }
    all
}

/// A range, none where it has no number.
fn filled(range: Range) -> Option<Range>
    ensures { option_map span_of result ≡ filled (span_of range) }
{
    if is_empty(range.low, range.high) {
        return None;
    }
    Some(range)
}

/// The least range that has two ranges.
fn join(one: Option<Range>, other: Option<Range>) -> Option<Range>
    ensures { option_map span_of result ≡ joined (option_map span_of one) (option_map span_of other) }
{
    match (one, other) {
        (None, range) | (range, None) => range,
        (Some(one), Some(other)) => Some(Range {
            low: lesser_low(one.low, other.low),
            high: greater_high(one.high, other.high),
        }),
    }
}

/// What two ranges share.
fn meet(one: Option<Range>, other: Option<Range>) -> Option<Range>
    ensures { option_map span_of result ≡ met (option_map span_of one) (option_map span_of other) }
{
    let (Some(one), Some(other)) = (one, other) else {
        return None;
    };
    filled(Range {
        low: greater_low(one.low, other.low),
        high: lesser_high(one.high, other.high),
    })
}

fn lesser_low(one: Option<i128>, other: Option<i128>) -> Option<i128>
    ensures { result ≡ outer_end int_min one other }
{
    match (one, other) {
        (Some(one), Some(other)) => Some(one.min(other)),
        _ => None,
    }
}

fn greater_high(one: Option<i128>, other: Option<i128>) -> Option<i128>
    ensures { result ≡ outer_end int_max one other }
{
    match (one, other) {
        (Some(one), Some(other)) => Some(one.max(other)),
        _ => None,
    }
}

fn greater_low(one: Option<i128>, other: Option<i128>) -> Option<i128>
    ensures { result ≡ inner_end int_max one other }
{
    match (one, other) {
        (Some(one), Some(other)) => Some(one.max(other)),
        (None, end) | (end, None) => end,
    }
}

fn lesser_high(one: Option<i128>, other: Option<i128>) -> Option<i128>
    ensures { result ≡ inner_end int_min one other }
{
    match (one, other) {
        (Some(one), Some(other)) => Some(one.min(other)),
        (None, end) | (end, None) => end,
    }
}
