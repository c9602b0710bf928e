//! The notation of types.
#![tactic(auto)]

mod known;
pub mod laws;
mod names;
mod parse;
mod types;
mod weight;
mod within;

pub use oer_value_notation::{TextFault, TextWhy};
pub use types::{Definition, Types, parse_type, parse_types};
pub use within::{WithinFault, parse_types_within};
