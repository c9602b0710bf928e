//! The JSON form of values.
#![tactic(auto)]

mod dotted;
mod fault;
mod keys;
pub mod laws;
mod leaf;
mod make;
mod parts;
mod scan;
mod take;
mod texts;
mod unknown;

pub use fault::JsonFault;
pub use keys::{place_key, tag_key};
pub use make::to_json;
pub use take::from_json;
