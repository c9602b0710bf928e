//! The octets that the programs take from standard input as digits or as base64: `--in` is taken out of the words of a command
//! line, and standard input is read where it asks for that.
#![tactic(auto)]

mod asked;
mod error;
mod given;
mod input;

pub use asked::Program;
pub use given::{Given, input_given};
