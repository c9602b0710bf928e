//! The vectors that all tests share: values with their octets, octets that are rejected, parts, JSON
//! and texts of types. Expected values come from the standard, by hand. A new case is a row here, and
//! every test that has an answer for such a row runs it.
//!
//! A table has one row a line, and ` | ` separates the columns of a row. `-` stands for no octets.
//! Between two `~` stand a piece and how often it comes: `8203e8~00*999~05` are the digits `8203e8`,
//! 999 times `00`, and `05`. Rows are plain text, so that tests in other languages can read them here.
#![tactic(auto)]

mod json;
mod octets;
mod parts;
mod rows;
mod types;

pub use crate::json::{REFUSED_JSON, TAKEN_JSON};
pub use crate::octets::{
    KINDS, LAST_PLACE, NESTED_VALUES, PAST_LAST_PLACE, PLACES, REFUSED, VALUES,
};
pub use crate::parts::{PARTS, RANGES};
pub use crate::rows::{Row, expanded, row_of};
pub use crate::types::{REFUSED_DEFINITIONS, REFUSED_TYPES, RESERVED, WITHIN};
