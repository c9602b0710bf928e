//! A type of modules that contains itself is written out so many times, one in the other; where it would stand once more
//! is an end, a CHOICE whose tag no legal message has. Laws on such a type and the same with some of its ends replaced,
//! as where it is written out more often: a value that meets no end has the same encodings by both.
#![tactic(auto)]

pub mod laws;
