//! Encodings (X.696, Basic-OER) checked without making their values: how long they are, and whether
//! they are canonical. Nothing here allocates.
#![tactic(auto)]

mod bit_strings;
mod bits;
mod booleans;
mod cursor;
mod facts;
mod front;
mod leaf;
mod lengths;
mod numbers;
mod parts;
pub mod readers;
mod stop;
mod strings;
mod units;
mod value;
mod verdict;

pub use front::check;
pub use verdict::Verdict;
