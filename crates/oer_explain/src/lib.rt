//! What `oer --explain` adds to an error: where it is, what its reason means there, and what may help.
#![tactic(auto)]

mod digits;
mod hints;
mod json;
mod json_names;
mod json_path;
mod json_typed;
mod json_words;
mod octets;
mod octets_words;
mod place;
mod reasons;
mod types;

pub use digits::digits_notes;
pub use json::json_notes;
pub use json_typed::{type_json_notes, types_json_notes};
pub use octets::{check_notes, check_why, octets_notes};
pub use types::{defines, is_type, type_notes, types_notes};
