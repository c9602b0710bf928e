//! Where types stand in the text of a module. A law: each stands behind what it stands in, and before the next definition.
#![tactic(auto)]

pub mod laws;
