//! The parts of an encoding (X.696, Basic-OER), and where they stand in it. Only `read_path` allocates.
#![tactic(auto)]

mod clear;
mod encoding;
mod fault;
mod handing;
pub mod laws;
mod path;
mod step;
mod walk;

pub use encoding::Encoding;
pub use fault::PartFault;
pub use handing::{part, part_range};
pub use path::{PathFault, read_path};
pub use step::Step;
