//! A made-up value of a type, for tests: each seed gives its own, and always the same.
#![tactic(auto)]

mod choice;
mod count;
mod drawn;
pub mod laws;
mod leaf;
mod letters;
mod number;
mod value;
mod weight;
mod words;

pub use value::random;
