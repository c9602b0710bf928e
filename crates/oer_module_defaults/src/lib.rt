//! Values after DEFAULT in ASN.1 modules (X.680): which values they are, and their text.
#![tactic(auto)]

mod alternative;
mod arcs;
mod atoms;
mod bits;
mod component;
mod filled;
mod governor;
mod items;
mod kept;
pub mod laws;
mod leaf;
mod scope;
mod slot;
mod step;
mod walk;
mod write;

pub use component::sequence_of;
pub use write::write_default;
