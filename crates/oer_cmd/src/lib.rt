//! Values and their octets at the command line: what the program `oer` does with its arguments.
#![tactic(auto)]

mod ascii;
mod canon;
mod check;
mod fault;
mod gathering;
mod given;
mod make;
mod octets;
mod part;
mod program;
mod show;
mod start;
mod task;
pub mod type_text;
mod value;

pub use check::judged;
pub use fault::Fault;
pub use gathering::{GatherFault, gather};
pub use given::run_for;
pub use octets::{all_octets, spelt};
pub use program::{answer, line_of, print_line, put_all, refused, report, run};
pub use start::{NoStart, stop};
