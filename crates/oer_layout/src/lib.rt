//! Entries of octets, laid out as lines or as JSON.
#![tactic(auto)]

mod as_json;
mod columns;
mod cut;
mod layout;
mod line;
mod outgoing;
mod tag;

pub use as_json::print_array;
pub use layout::print_lines;
