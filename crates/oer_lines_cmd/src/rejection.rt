//! Why a message is rejected.
ghost use Rattle.std.specs.Prelude.{◌≡◌, Some};
ghost use Rattle.oer_lines_cmd.specs.Answering.{refusal_by};

use oer_cmd::Fault;
use std::fmt;

/// Why a message is rejected. It displays as what stands behind `! ` in its line.
#[derive(Clone, Copy, Debug, PartialEq, Eq)]
pub enum Rejection<'a> {
    /// What a run with this message tells.
    Told(Fault<'a>),
    /// The input ends after so many octets of its length and of it.
    Cut(u128),
}

impl Rejection<'_> {
    /// The status that it stands for.
    pub fn status(self) -> u8
        ensures { result ≡ (refusal_by self.entry).status }
    {
        match self {
            Rejection::Told(fault) => fault.status(),
            Rejection::Cut(_) => 1,
        }
    }
}

impl fmt::Display for Rejection<'_> {
    ghost output = { λ rejection. Some ((refusal_by rejection).text) };

    fn fmt<W: fmt::Write>(&self, f: &mut fmt::Formatter<W>) -> fmt::Result {
        match self {
            Rejection::Told(fault) => write!(f, "{fault}"),
            Rejection::Cut(there) => write!(f, "Cut at {there}"),
        }
    }
}
