//! The text of types of modules in our notation, as it grows, and why a type has none.
#![tactic(auto)]

mod error;
mod room;

pub use error::{Error, Part, Why, refused};
pub use room::{MOST_OCTETS, Room};
