//! Many messages in one run of the program `oer`: each line of the input is a message in hexadecimal digits; or each message is raw, and
//! stands behind its length, or right behind the one before it.
#![tactic(auto)]

mod ahead;
mod answer;
mod asked;
mod failure;
mod frame;
mod framed;
mod frames;
mod front;
pub mod laws;
mod line;
mod loop_over;
mod misuse;
mod piece;
mod pieces;
mod reading;
mod rejection;
mod run;
mod task;
mod way;

pub use asked::{lines_asked, stream_asked};
pub use framed::{Framed, framed_asked};
pub use run::{run_many, run_many_for};
pub use way::Way;
