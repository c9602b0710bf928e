//! The part of an encoding to which names lead: those of components, additions and alternatives, and numbers of elements.
#![tactic(auto)]

mod enter;
mod hop;
pub mod laws;
mod leading;
mod names;
mod number;
mod part;
mod range;

pub use hop::{Hop, NameFault, Wanted};
pub use leading::{HopsFault, hops};
pub use names::{is_word, names_in};
pub use part::{AtFault, part_at};
pub use range::range_at;
