//! Values after DEFAULT in the notation of types, read as those of a module. The law that they are the same.
#![tactic(auto)]

pub mod laws;
