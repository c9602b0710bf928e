//! Whether one type only adds to another after extension markers, or what differs first.
#![tactic(auto)]

mod comparing;
mod difference;
pub mod laws;
mod own;
mod same;

pub use comparing::compare;
pub use difference::{Aspect, Difference, Part};
