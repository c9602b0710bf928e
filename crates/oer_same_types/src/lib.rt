//! The notation of types is ASN.1. The laws: in a module, the tree of a definition that says a type of the notation is given that type,
//! without the sizes of lists, or is rejected for a limit; and a well-formed type has no fault without these sizes.
#![tactic(auto)]

pub mod laws;
