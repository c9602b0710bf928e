//! What a Name in a module stands for (X.680, 13.12 to 13.17): an assignment of a module.
#![tactic(auto)]

mod error;
mod identifier;
mod index;
pub mod laws;
mod names;
mod part;
mod version;
mod way;

pub use error::{Found, NameError, Place, Why};
pub use names::Names;
