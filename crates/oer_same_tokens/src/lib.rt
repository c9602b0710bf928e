//! The notation of types is ASN.1, read by a lexer of its own. Laws on a text in it and the lexer of modules, which reads the
//! same tokens. A number with a hyphen in front is two there.
#![tactic(auto)]

pub mod laws;
