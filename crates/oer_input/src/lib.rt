//! Octets that are written as text: in hexadecimal digits, or in base64 (RFC 4648).
#![tactic(auto)]

mod base64;
mod coding;
mod fault;
mod group;
mod hex;
pub mod laws;
mod octets;

pub use coding::Coding;
pub use fault::Fault;
pub use octets::octets_in;
