//! The tags of types in ASN.1 modules (X.680, 8, 29.5 and 31): the outermost tag of a type, and those of the alternatives
//! of a CHOICE, by which X.696 tells them apart.
#![tactic(auto)]

mod alternatives;
mod header;
pub mod laws;
mod outermost;
mod written;

pub use alternatives::alternative_tags;
pub use outermost::outermost_tag;
pub use written::write_tag;
