//! Sets of whole numbers as trees.
use crate::ends::Range;

/// A set of whole numbers, as a constraint says it (X.680, 50.1 and 51). `ALL EXCEPT s` is `Except` with all numbers
/// as the first.
#[derive(Drop)]
pub enum Set {
    /// A value range, or a single value, whose ends are equal. MIN and MAX are no bound: the type that is constrained
    /// has its own (X.680, 51.2 and 51.4).
    Range(Range),
    /// The numbers of any of these (`|`).
    Union(Vec<Set>),
    /// The numbers that all of these have (`^`).
    Intersection(Vec<Set>),
    /// The numbers of the first that the second doesn't have.
    Except(Box<Set>, Box<Set>),
    /// Elements that can't be seen as numbers, as PATTERN: which they have isn't known.
    Unknown,
}

/// A constraint, what stands in one pair of parentheses (X.680, 49.6).
#[derive(Drop)]
pub struct Constraint {
    /// The set before the extension marker.
    pub root: Set,
    /// Whether there is an extension marker. If so, the constraint bounds nothing (X.696, 8.2).
    pub extensible: bool,
}
