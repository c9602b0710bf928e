//! What types of modules that hold no other mean, in the terms of X.680, and the laws that this is what is found for them.
#![tactic(auto)]

pub mod laws;
