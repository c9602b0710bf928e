//! `oer --explain`: what a command prints, and behind its error where that is and what may help.
#![tactic(auto)]

mod adding;
mod asked;
mod found;
mod holding;
mod leading;
mod looking;
mod run;
mod saying;
mod told;

pub use adding::Command;
pub use asked::explain_asked;
pub use run::{run_explained, run_explained_for};
