//! The notation of types is ASN.1. The law: in a module whose body is definitions of the notation, a Name has the type that the
//! parser of the notation gives it, without the sizes of lists, or is rejected for a limit.
#![tactic(auto)]

pub mod laws;
