//! Why there are no new octets.

use oer_units::ReadFault;
use std::fmt;

/// Why there are no new octets to sign.
#[derive(Clone, Copy, Debug, PartialEq, Eq)]
pub enum Fault {
    /// The octets begin with no encoding of the type.
    Read(ReadFault),
    /// Octets follow the encoding, which has so many.
    Follows(u64),
    /// The encoding has no such part.
    NoPart,
    /// The changed value doesn't fit its type.
    Misfit,
    /// The text is no even number of hexadecimal digits.
    Hex,
    /// An allocation failed, or the canonical octets would be 2^64 or more.
    Memory,
}

impl fmt::Display for Fault {
    fn fmt<W: fmt::Write>(&self, f: &mut fmt::Formatter<W>) -> fmt::Result {
        match self {
            Fault::Read(fault) => write!(f, "{fault}"),
            Fault::Follows(count) => write!(f, "octets follow the first {count}"),
            Fault::NoPart => write!(f, "no such part"),
            Fault::Misfit => write!(f, "the value doesn't fit"),
            Fault::Hex => write!(f, "no hexadecimal digits"),
            Fault::Memory => write!(f, "out of memory"),
        }
    }
}
