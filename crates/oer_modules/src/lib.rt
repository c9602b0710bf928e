//! From the texts of ASN.1 modules to a type, and to its text in our notation.
#![tactic(auto)]

mod asked;
mod cause;
mod defined;
pub mod laws;
mod listing;
mod marks;
mod modules;
mod nesting;
mod place;
mod refusal;
mod rejection;
mod schema;
mod texts;
mod unlisted;
mod words;

pub use defined::types_of_modules;
pub use modules::{definitions_of_modules, type_of_modules};
pub use place::Point;
pub use refusal::Refusal;
pub use rejection::Rejection;
pub use schema::{NoType, schema_of_modules};
