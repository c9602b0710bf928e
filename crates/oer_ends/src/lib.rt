//! A type of modules that contains itself is written out so many times, one in the other, and where it would stand once more
//! is an end (oer_nesting). Here: whether octets are rejected because they nest deeper than that.
#![tactic(auto)]

mod ends;
pub mod laws;
mod nests;
mod opening;

pub use ends::has_end;
pub use nests::nests_at;
pub use opening::opened;
