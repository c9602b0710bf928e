//! What types of ASN.1 and their values are, which encodings they have (X.696), and the laws over
//! these definitions. The code is a size and the errors of a type, which the definitions name.
#![tactic(auto)]

mod fault;
pub mod laws;
mod size;

pub use fault::SchemaFault;
pub use size::Size;
