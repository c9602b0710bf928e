//! A type of modules that contains itself is written out so many times, one in the other; where it would stand once more
//! is an end. Laws on such a type at a nesting and the same at a greater one: it is the first with some of its ends
//! replaced, so a value that meets no end of the first has the same encodings by both.
#![tactic(auto)]

pub mod laws;
