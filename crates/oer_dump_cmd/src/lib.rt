//! What the program `oer-dump` does with its arguments: it prints the entries of octets, as lines or as JSON.
#![tactic(auto)]

mod given;
mod help;
mod options;
mod program;
mod width;

pub use given::run_for;
pub use program::run;
pub use width::usual_width;
