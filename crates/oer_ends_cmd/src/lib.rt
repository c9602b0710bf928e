//! The command `oer` for a type of modules, which is written out to a nesting if it contains itself: octets that nest deeper are
//! rejected by an error of its own.
#![tactic(auto)]

mod given;
mod telling;

pub use given::{line_given, run_for};
pub use telling::{Origin, told, told_by};
