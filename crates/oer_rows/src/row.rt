//! Rows of an encoding: what its octets are.

use oer_checker::Verdict;
use oer_parts::Step;
use oer_units::ReadFault;
use std::alloc::AllocError;

/// What the octets of a row are.
#[derive(Clone, Copy, Debug, PartialEq, Eq)]
pub enum Role {
    /// The preamble of a SEQUENCE (X.696, 16.2): its extension bit and its presence bits. It has no
    /// octets where there are no such bits.
    Preamble,
    /// The bitmap of the additions of a SEQUENCE (X.696, 16.4), with its length.
    Bitmap,
    /// The quantity of a SEQUENCE OF (X.696, 17), with its length.
    Quantity,
    /// The tag of a CHOICE (X.696, 20).
    Tag,
    /// The length of the open type (X.696, 30) that holds the part.
    Length,
    /// The encoding of a value of a type without parts.
    Contents,
    /// The content of an open type (X.696, 30) of which the type isn't known.
    Unknown,
}

/// Octets of an encoding, and what they are.
#[derive(Drop)]
pub struct Row<'a> {
    /// How many octets are before them.
    pub offset: usize,
    /// The octets, which may be none.
    pub octets: &'a [u8],
    /// The path to the part of which they are a piece.
    pub path: Vec<Step>,
    /// What they are.
    pub role: Role,
}

/// A row that is being handed over, with octets and a path that are lent for that time.
#[derive(Clone, Copy)]
pub struct RowRef<'r> {
    /// How many octets are before them.
    pub offset: usize,
    /// The octets, which may be none.
    pub octets: &'r [u8],
    /// The path to the part of which they are a piece.
    pub path: &'r [Step],
    /// What they are.
    pub role: Role,
}

/// Why no more rows are taken.
#[derive(Clone, Copy, Debug, PartialEq, Eq)]
pub enum Stopped {
    /// An allocation failed.
    Memory,
    /// What takes them hands them on, and there they are not taken, as where output fails.
    Output,
}

impl From<AllocError> for Stopped {
    fn from(_: AllocError) -> Stopped {
        Stopped::Memory
    }
}

/// What octets are, row by row.
#[derive(Drop)]
pub struct Listing<'a> {
    /// What [`check`](oer_checker::check) returns for the octets.
    pub verdict: Result<Verdict, ReadFault>,
    /// The rows, in the order of the octets.
    pub rows: Vec<Row<'a>>,
}

/// Why a walk through octets ends early.
#[derive(Clone, Copy)]
pub(crate) enum Halt {
    /// They are rejected.
    Refused,
    /// No more rows are taken.
    Stopped(Stopped),
}
