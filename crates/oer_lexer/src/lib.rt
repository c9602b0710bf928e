//! The tokens of the notation of types.
#![tactic(auto)]

pub mod laws;
mod leaf;
mod lengths;
mod lexing;
mod token;

pub use leaf::{LeafWord, Words, is_leaf_word, leaf_word};
pub use lexing::{Tokens, lex};
pub use token::{Kind, Sign, Spot, Token};
