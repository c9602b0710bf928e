//! Laws on the bounds of an INTEGER and the sizes of strings and lists: modules and the notation of types read them alike.
#![tactic(auto)]

pub mod laws;
