//! Parts of types in ASN.1 modules (X.680) that a list or a few tokens settle: the numbers of an ENUMERATED, automatic
//! tags, the tags of types that are built in, and tags as they are written.
#![tactic(auto)]

mod automatic;
mod kept;
pub mod laws;
mod numbering;
mod tag;
mod universal;

pub use automatic::{
    Mark, Place, are_tagged_automatically, automatic_numbers, marks_of, places_of,
};
pub use kept::over_kept;
pub use numbering::{NumberFault, number_items};
pub use tag::{WrittenTag, read_tag};
pub use universal::universal_number;
