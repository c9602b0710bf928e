//! The canonical octets of what holds no other value, straight to a sink: leaves, preambles, bitmaps,
//! quantities and tags. They are the pieces of `oer_writer`, which puts whole values together.
//!
//! A call that writes takes how many octets were written before it (`done`), and returns how many there
//! are after it; the error of the sink has their number when it failed. A call that measures adds its
//! octets to those done, and returns `None` where they come to 2^64.
#![tactic(auto)]

mod booleans;
mod comparison;
mod form;
mod leaf;
mod packer;
mod presence;
mod short;
mod slice;

pub use booleans::{measured_booleans, put_booleans};
pub use comparison::Comparison;
pub use leaf::{put_leaf, put_quantity, put_tag_octets, quantity_len};
pub use presence::{is_extended, kept, measured_preamble, put_bitmap, put_preamble, put_unknown};
pub use slice::{Nowhere, put_count, put_slice};
