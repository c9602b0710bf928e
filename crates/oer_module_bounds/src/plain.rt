//! Sets whose least range is the one that PER reads.
ghost use Rattle.std.specs.Prelude.{◌≡◌, map};
ghost use Rattle.oer_module_bounds.specs.Loose.{are_plain, is_one_plain, is_plain};
ghost use Rattle.oer_module_bounds.specs.Numbers.{bounding};
ghost use Rattle.oer_module_bounds.specs.Sets.{constraint_of, set_of, sets_from};

use crate::tree::{Constraint, Set};

/// Whether a set is a range, or what ranges share: nothing is taken away, and nothing lies between members that are joined.
#[cycle(plain)]
#[tactic(auto, using(crate::proofs::Plainness::sets))]
fn is_plain(set: &Set) -> bool
    ensures { result ≡ is_plain (set_of set.now) }
{
    match set {
        Set::Range(_) | Set::Unknown => true,
        Set::Union(members) => is_one_plain(members),
        Set::Intersection(members) => are_plain(members),
        Set::Except(..) => false,
    }
}

/// Whether there is one set, and it is plain.
#[cycle(plain)]
fn is_one_plain(members: &[Set]) -> bool
    ensures { result ≡ is_one_plain (sets_from (map set_of members.now)) }
{
    match members {
        [only] => is_plain(only),
        _ => false,
    }
}

/// Whether all sets are plain.
#[cycle(plain)]
fn are_plain(members: &[Set]) -> bool
    ensures { result ≡ are_plain (sets_from (map set_of members.now)) }
{
    for member in members {
        if !is_plain(member) {
            return false;
        }
    }
    true
}

/// Whether the sets of all constraints that bound are plain.
pub fn bound_plainly(constraints: &[Constraint]) -> bool
    ensures { result ≡ are_plain (bounding (map constraint_of constraints.now)) }
{
    for constraint in constraints {
        if !constraint.extensible && !is_plain(&constraint.root) {
            return false;
        }
    }
    true
}
