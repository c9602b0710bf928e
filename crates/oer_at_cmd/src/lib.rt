//! `oer part --at NAMES`: the part to which names lead, in place of the steps of `--path`.
#![tactic(auto)]

mod asked;
mod line;
mod misuse;
mod name;
mod run;

pub use asked::{Asked, at_asked};
pub use run::{run_at, run_at_for};
