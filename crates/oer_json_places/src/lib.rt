//! Where JSON is rejected: the innermost part that its type rejects with the fault of the whole, and what is wrong there.
#![tactic(auto)]

mod fault;
mod keys;
pub mod laws;
mod next;
mod part;
mod place;

pub use part::{JsonPlace, Step, Trouble};
pub use place::place_of;
