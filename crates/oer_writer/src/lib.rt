//! Canonical octets of a value, straight to a sink.
#![tactic(auto)]

mod bound;
mod calls;
mod fault;
mod measure;
mod most;
pub mod parts;
mod put;
mod small;
mod typed_bound;
mod whole;

pub use calls::{length, write};
pub use fault::WriteFault;
