//! `oer compare`: whether one type only adds to another, or what differs first.
#![tactic(auto)]

mod asked;
mod help;
mod line;
mod misuse;
mod run;

pub use asked::Asked;
pub use misuse::Misuse;
pub use run::{asks_compare, compare_types, run_compare};
