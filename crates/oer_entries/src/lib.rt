//! What each octet of an encoding is: the rows of octets, with names and values.
#![tactic(auto)]

mod bits;
mod entries;
mod entry;
mod extents;
mod frame;
pub mod laws;
mod leaf;
mod meaning;
mod next;
mod plain;
mod taker;
mod text;
mod trail;
mod units;
mod way;

pub use bits::NamedBit;
pub use entries::each_entry;
pub use entry::{Entry, Place, What};
pub use extents::{Extents, extents_of};
pub use frame::Name;
pub use oer_rows::Stopped;
pub use plain::PlainJson;
pub use taker::TakeEntry;
pub use text::name_text;
