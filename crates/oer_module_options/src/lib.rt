//! The options of modules among the words of a command line: `--modules`, `--name` and `--nesting`, and those of the
//! subcommand `types`.
#![tactic(auto)]

mod error;
mod nesting;
mod request;
mod scan;
mod words;

pub use error::Error;
pub use request::{Listing, TypeAsked, asked, is_input, listing_asked};
pub use scan::{Flag, Item, Next, Scan, scanned};
pub use words::{Command, Taken};
