//! The notation of types is ASN.1. Laws on definitions in it and the reader of modules, which reads them, in a module, as trees
//! that say the same types.
#![tactic(auto)]

pub mod laws;
