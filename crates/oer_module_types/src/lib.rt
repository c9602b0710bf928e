//! The type that stands in a module, with the types in it, and its text in our notation.
#![tactic(auto)]

mod element;
mod field;
mod gathered;
mod level;
mod shape;
mod types;
mod whole;

pub use types::{MOST_LEVELS, Scope, Typed, write_type};
pub use whole::typed;
