//! What stands in a module for a type of the notation. Laws on its Names and tags.
#![tactic(auto)]

pub mod laws;
