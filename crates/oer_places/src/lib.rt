//! Places in texts, as errors tell of them: line and column, the line with a mark under the place, and what stands around it.
#![tactic(auto)]

mod input;
pub mod laws;
mod looks;
mod parts;
mod place;
mod quoting;
mod visible;

pub use input::ready;
pub use looks::{definition_behind, is_digit, is_file_name, occurs, seems_digits, word_length};
pub use parts::{count_of, push_first, push_last};
pub use place::{Place, place_of};
pub use quoting::quote;
pub use visible::{push_visible, visible_text};
