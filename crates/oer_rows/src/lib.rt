//! What each octet of an encoding (X.696, Basic-OER) is, row by row: its role, and the part that it
//! belongs to. The octets are read as `oer_checker` checks them.
#![tactic(auto)]

mod keep;
pub mod laws;
mod listing;
mod row;
mod spot;
mod taker;
mod trace;

pub use listing::{each_row, rows};
pub use row::{Listing, Role, Row, RowRef, Stopped};
pub use taker::TakeRow;
