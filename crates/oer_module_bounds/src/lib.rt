//! What constraints say of whole numbers (X.680, 50 and 51): the values of an INTEGER, and sizes. A set comes as a tree, in
//! which each reference is a number; what is asked is the least range that has all of its numbers.
#![tactic(auto)]

mod ends;
mod hull;
pub mod laws;
mod loose;
mod plain;
mod spans;
mod steps;
mod tally;
mod tree;

pub use ends::Range;
pub use hull::{effective_range, hull_of};
pub use loose::{loose_effective_range, loose_hull_of};
pub use tree::{Constraint, Set};
