//! Values are read from their Basic-OER encodings (X.696), and these are rewritten as canonical ones.
#![tactic(auto)]

mod bit_strings;
mod booleans;
mod fault;
mod front;
mod gathering;
pub mod laws;
mod leaf;
mod numbers;
mod octets;
mod packing;
mod parts;
mod preamble;
mod recoding;
mod rewriting;
mod stop;
mod strings;
mod value;

pub use fault::RewriteFault;
pub use front::{read, read_with_length};
pub use rewriting::rewrite;
