//! Numbers, bits and items, as they are spelled in text.
#![tactic(auto)]

mod bit;
mod item;
mod number;

pub use bit::{bits_of_digits, push_bits};
pub use item::{items_of, name_of, number_named};
pub use number::{arc_of, integer_of, item_number_of, place_of, size_of, tag_number_of};
