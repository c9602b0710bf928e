//! The notation of types is ASN.1. The law: in a module, a type of the notation takes as many parts as it has, so that one with no
//! more levels and parts than there is room for is rejected for neither, nor for the number of a tag; nor for the length of its text,
//! where names and defaults are short.
#![tactic(auto)]

pub mod laws;
