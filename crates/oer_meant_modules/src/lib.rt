//! What Names in texts of modules mean, in the terms of X.680, and the law that this is what is found for them.
#![tactic(auto)]

pub mod laws;
