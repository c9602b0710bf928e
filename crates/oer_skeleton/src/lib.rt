//! A value of a type to begin with: the smallest, or one that has every optional part.
#![tactic(auto)]

mod fault;
pub mod laws;
mod leaf;
mod legal;
mod parts;
mod skeleton;
mod value;
mod weight;

pub use fault::SkeletonFault;
pub use leaf::{lowered, nearest};
pub use legal::{any_legal, is_legal, is_taken};
pub use parts::Parts;
pub use value::{full, smallest, with_parts};
pub use weight::{MAX_WEIGHT, after};
