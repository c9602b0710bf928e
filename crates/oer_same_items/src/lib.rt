//! The notation of types is ASN.1. Laws on the items of an ENUMERATED, which have the same names and numbers in a module.
#![tactic(auto)]

pub mod laws;
