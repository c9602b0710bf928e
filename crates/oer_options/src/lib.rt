//! What the arguments of the program `oer` ask for, and what it says of them in help.
#![tactic(auto)]

mod help;
pub mod laws;
mod options;

pub use help::{HEX, NAME, TYPE, TYPES, VERSION};
pub use options::{DEFAULT_LIMIT, Options, Style, Task, option, parsed};
