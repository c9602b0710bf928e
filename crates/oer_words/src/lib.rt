//! The words of a command line, and an option taken out of them. Options stand before a word `--`, also where a word is the value of
//! another option. The first of the words is the program's name.
#![tactic(auto)]

mod flag;
mod rejection;
mod scan;
mod setting;
mod words;

pub use flag::flag_asked;
pub use rejection::{put, reject};
pub use setting::{Given, Setting, option_asked, without_option};
pub use words::{asks_for, asks_many, asks_octets, has_flag, has_option};
