//! What the constraints of ASN.1 types allow (X.680, 49 to 51): the range of an INTEGER, and that of the sizes of strings and
//! lists, as X.696 sees them.
#![tactic(auto)]

mod ends;
mod error;
mod kept;
mod kinds;
mod limits;
mod marks;
mod measure;
mod sets;
mod written;

pub use error::{Error, Why};
pub use kinds::{Kind, narrows};
pub use limits::{integer_range, size_limits, size_range};
pub use written::{Written, are_none, are_plain, constraints_in, has_set};
