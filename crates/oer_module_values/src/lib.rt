//! What references in ASN.1 modules stand for (X.680): types, and whole numbers.
#![tactic(auto)]

mod digits;
mod error;
mod governor;
mod kept;
pub mod laws;
mod look;
mod numbers;
mod types;

pub use error::{Error, Why, unread};
pub use kept::over_kept;
pub use look::{Path, path_of, place_of};
pub use numbers::{given_numbers, integer, number};
pub use types::{Given, MOST_STEPS, Meaning, Referent, TypeIn, follow, referred, resolve};
