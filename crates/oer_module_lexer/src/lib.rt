//! The tokens of ASN.1 modules (X.680, clause 12).
#![tactic(auto)]

mod lengths;
mod lexing;
mod token;

pub use lexing::{Tokens, lex};
pub use token::{Kind, Sign, Spot, Token};
