//! `oer check --canonical`: the canonical octets of a value, with nothing behind them, or an error.
#![tactic(auto)]

mod asked;
pub mod laws;
mod run;
mod strict;

pub use asked::canonical_asked;
pub use run::{run_canonical, run_canonical_for};
