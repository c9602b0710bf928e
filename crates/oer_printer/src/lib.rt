//! The text of a type.
#![tactic(auto)]

mod constraint;
mod fault;
mod literal;
mod printable;
mod printer;
mod printing;

pub use fault::PrintFault;
pub use printing::print_type;
