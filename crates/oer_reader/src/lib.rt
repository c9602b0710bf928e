//! Encodings (X.696, Basic-OER) and what is done with them. Values are read and rewritten as canonical
//! octets (`oer_decoder`); octets that are there are checked without making a value (`oer_checker`),
//! their parts are returned (`oer_parts`) and listed row by row (`oer_rows`). Each call stands in one of
//! these four crates, with its contract; here all are under one name.
#![tactic(auto)]

pub use oer_checker::{Verdict, check};
pub use oer_decoder::{RewriteFault, laws, read, read_with_length, rewrite};
pub use oer_parts::{Encoding, PartFault, PathFault, Step, part, part_range, read_path};
pub use oer_rows::{Listing, Role, Row, rows};
