//! Rows that are kept.
ghost use Rattle.std.specs.Prelude.{◌≡◌, ◌∷◌, [], ◌++◌, OnOk, drop, take};
ghost use Rattle.oer_rows.specs.Rows.{again, line_in, lines_of};

use crate::row::{Row, RowRef, Stopped};
use crate::taker::TakeRow;
use std::alloc::{AllocError, Global};

/// The rows of some octets, each with a copy of its path.
#[derive(Drop)]
pub(crate) struct Kept<'a> {
    pub alloc: Global,
    pub octets: &'a [u8],
    pub rows: Vec<Row<'a>>,
}

// So many octets from this offset on, or fewer where they end.
fn octets_at(octets: &[u8], offset: usize, count: usize) -> &[u8]
    ensures { result.now ≡ take count (drop offset octets.now) }
{
    let from = &octets[offset.min(octets.len())..];
    &from[..count.min(from.len())]
}

impl<'a> Kept<'a> {
    // Adds a row with a copy of its path. Its octets are those at its offset.
    fn keep(&mut self, row: RowRef<'_>) -> Result<(), AllocError>
        ensures octets { OnOk result (self.new.octets.now ≡ self.old.octets.now) }
        ensures rows { OnOk result (lines_of self.new.rows.items
            ≡ lines_of self.old.rows.items ++ (again self.old.octets.now (line_in row.entry) ∷ [])) }
    {
        let mut path = Vec::new(self.alloc);
        path.extend_from_slice(row.path)?;
        self.rows.push(Row {
            offset: row.offset,
            octets: octets_at(self.octets, row.offset, row.octets.len()),
            path,
            role: row.role,
        })?;
        Ok(())
    }
}

impl TakeRow for Kept<'_> {
    ghost takes = { λ s l t. (t.octets.now ≡ s.octets.now)
        × (lines_of t.rows.items ≡ lines_of s.rows.items ++ (again s.octets.now l ∷ [])) };

    fn take(&mut self, row: RowRef<'_>) -> Result<(), Stopped> {
        match self.keep(row) {
            Ok(()) => Ok(()),
            Err(_) => Err(Stopped::Memory),
        }
    }
}
