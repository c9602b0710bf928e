//! `oer types`: what the program understands of modules, or of definitions in its notation.
#![tactic(auto)]

mod help;
mod listing;
mod names;
mod stop;
mod types;

pub use types::run_types;
