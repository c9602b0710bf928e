//! Types and values as text. Types are read from their notation (`oer_notation`) and printed in it
//! (`oer_printer`); values become JSON and are taken from it (`oer_json`). Here all are under one name,
//! with what holds of printing and reading together.
#![tactic(auto)]

pub mod laws;
mod printing;

pub use oer_json::{JsonFault, from_json, laws as json_laws, to_json};
pub use oer_notation::{
    TextFault, TextWhy, Types, WithinFault, parse_type, parse_types, parse_types_within,
};
pub use oer_printer::PrintFault;
pub use printing::print_type;
