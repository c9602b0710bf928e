//! The types of the programs from published ASN.1 modules: the options of modules are taken out of the words of a command
//! line, and give the type.
#![tactic(auto)]

mod error;
mod given;
mod input;

pub use error::{Error, report};
pub use given::{TypeAndWords, type_given, type_text};
pub use input::{input_for, reads_input, with_input};
