//! `oer example`: the JSON of a value of a type, to begin with.
#![tactic(auto)]

mod asked;
mod help;
mod line;
mod run;
mod wanted;

pub use asked::Asked;
pub use line::{example_line, random_line};
pub use run::{asks_example, run_example, run_example_for};
pub use wanted::Wanted;
