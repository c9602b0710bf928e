//! Types of modules that hold no other: which of our types they stand for, and how these are written in our notation
//! (docs/NOTATION.md, "Printing").
#![tactic(auto)]

mod comment;
mod leaf;
mod numbered;
mod shape;
mod text;

pub use comment::{Checked, put_open, put_unchecked};
pub use leaf::{is_implied, write_leaf};
pub use numbered::{Numbered, NumberedItem, enumeration_numbers, numbered_items};
pub use shape::in_64_bits;
pub use text::{Sizes, put_range, put_size};
