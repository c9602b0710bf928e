//! The least range that has all numbers of a set.
ghost use Rattle.std.specs.Prelude.{◌≡◌, ◌<◌, ◌^◌, ◌&&◌, Bool, IfOk, ℤ, map};
ghost use Rattle.std.specs.Option.{option_map};
ghost use Rattle.oer_module_bounds.specs.Hull.{effective, hull};
ghost use Rattle.oer_module_bounds.specs.Numbers.{allowed_by, allows, bounding};
ghost use Rattle.oer_module_bounds.specs.Sets.{constraint_of, set_of, span_of};
ghost use Rattle.oer_module_bounds.specs.Steps.{Gives};
ghost use Rattle.oer_module_bounds.specs.Tally.{Counts};

use crate::ends::Range;
use crate::loose::loose_effective_range;
use crate::plain::bound_plainly;
use crate::steps::Steps;
use crate::tally::Tally;
use crate::tree::{Constraint, Set};
use std::alloc::{AllocError, Global};

/// The numbers of a set. Of elements that can't be seen as numbers it has all if `unknown`, else none.
#[cycle(steps)]
fn steps_of(alloc: Global, set: &Set, unknown: bool) -> Result<Steps, AllocError>
    ensures { IfOk result (λ s. Gives s (allows unknown (set_of set.now))) }
{
    match set {
        Set::Range(range) => Steps::of_range(alloc, *range),
        Set::Union(members) => tally_of(alloc, members, unknown)?.at_least(alloc, 1),
        Set::Intersection(members) => {
            tally_of(alloc, members, unknown)?.at_least(alloc, members.len())
        }
        Set::Except(first, second) => {
            let first = steps_of(alloc, first, unknown)?;
            let second = steps_of(alloc, second, !unknown)?;
            both(alloc, &first, &second.opposite())
        }
        Set::Unknown => Ok(Steps::uniform(alloc, unknown)),
    }
}

#[cycle(steps)]
fn tally_of(alloc: Global, members: &[Set], unknown: bool) -> Result<Tally, AllocError>
    ensures few { IfOk result (λ t. t.holding < 2 ^ 63) }
    ensures counts { IfOk result (λ t. Counts t (allowed_by unknown (map set_of members.now))) }
{
    let mut tally = Tally::new(alloc);
    for member in members {
        let steps = steps_of(alloc, member, unknown)?;
        tally.add(&steps)?;
    }
    Ok(tally)
}

/// The numbers that both sets have.
fn both(alloc: Global, first: &Steps, second: &Steps) -> Result<Steps, AllocError>
    ensures { (p q : ℤ → Bool) → Gives first.now p → Gives second.now q → IfOk result (λ s. Gives s (λ n. p n && q n)) }
{
    let mut tally = Tally::new(alloc);
    tally.add(first)?;
    tally.add(second)?;
    tally.at_least(alloc, 2)
}

/// The least range that has all numbers that the set allows; none where it allows none. Elements that can't be seen as
/// numbers allow all, and after EXCEPT they take none away.
///
/// # Errors
/// An allocation failed.
pub fn hull_of(alloc: Global, set: &Set) -> Result<Option<Range>, AllocError>
    ensures { IfOk result (λ r. option_map span_of r ≡ hull (set_of set.now)) }
{
    let steps = steps_of(alloc, set, true)?;
    Ok(steps.hull())
}

/// The least range that has all numbers that each of the constraints allows, the parent's first; none where they
/// allow none. A constraint that is extensible bounds nothing (X.696, 8.2).
///
/// # Errors
/// An allocation failed.
pub fn effective_range(
    alloc: Global,
    constraints: &[Constraint],
) -> Result<Option<Range>, AllocError>
    ensures { IfOk result (λ r. option_map span_of r ≡ effective (map constraint_of constraints.now)) }
{
    if bound_plainly(constraints) {
        return Ok(loose_effective_range(constraints));
    }
    counted_range(alloc, constraints)
}

/// The same, whatever the sets are.
fn counted_range(alloc: Global, constraints: &[Constraint]) -> Result<Option<Range>, AllocError>
    ensures { IfOk result (λ r. option_map span_of r ≡ effective (map constraint_of constraints.now)) }
{
    let mut tally = Tally::new(alloc);
    let mut bounding = 0;
    for constraint in constraints {
        if !constraint.extensible {
            let steps = steps_of(alloc, &constraint.root, true)?;
            tally.add(&steps)?;
            bounding += 1;
        }
    }
    let steps = tally.at_least(alloc, bounding)?;
    Ok(steps.hull())
}
