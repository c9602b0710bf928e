//! How far entries reach.
ghost use Rattle.std.specs.Prelude.{◌≡◌, IfOk, OnOk, drop};
ghost use Rattle.oer_types.specs.Schema.{the_type};
ghost use Rattle.oer_rows.specs.Rows.{line_in};
ghost use Rattle.oer_entries.specs.Extents.{AreExtentsOf, WithOneMore, no_extents, of_entry, wider, with_rest};
ghost use Rattle.oer_entries.specs.Makes.{Measures, Reaches};

use crate::trail::{Part, octets_from};
use crate::way::Way;
use oer_rows::{RowRef, Stopped, TakeRow, each_row};
use oer_types::Schema;
use oer_units::ReadFault;
use std::alloc::{AllocError, Global};

/// The greatest of the numbers of entries, and how long the longest of their texts are, in octets.
#[derive(Clone, Copy)]
pub struct Extents {
    pub offset: usize,
    pub count: usize,
    pub path: usize,
    pub names: usize,
    pub kind: usize,
}

impl Extents {
    // Those of no entries.
    fn none() -> Extents
        ensures { result ≡ no_extents }
    {
        Extents {
            offset: 0,
            count: 0,
            path: 0,
            names: 0,
            kind: 0,
        }
    }

    // Those of these entries and of one more.
    fn with(self, offset: usize, count: usize, part: Part<'_>) -> Extents
        ensures { result ≡ wider self (of_entry offset count part.entry.path.now part.entry.names.now part.entry.kind.now) }
    {
        Extents {
            offset: self.offset.max(offset),
            count: self.count.max(count),
            path: self.path.max(part.path.len()),
            names: self.names.max(part.names.len()),
            kind: self.kind.max(part.kind.len()),
        }
    }
}

/// Measures the entry of each row that it takes, and makes none.
#[derive(Drop)]
struct Measuring<'a> {
    alloc: Global,
    way: Way<'a>,
    extents: Extents,
}

impl Measuring<'_> {
    // Goes to the part of the row, and measures the entry of its octets.
    fn enter(&mut self, row: RowRef<'_>) -> Result<(), AllocError>
        ensures { OnOk result (Reaches self.old.way self.old.extents (line_in row.entry) self.new.way self.new.extents) }
    {
        self.way.go_to(self.alloc, row.path)?;
        self.extents = self
            .extents
            .with(row.offset, row.octets.len(), self.way.part());
        Ok(())
    }

    // With the entry of octets that show a rejection, if there are any.
    fn rejected(&mut self, fault: ReadFault) -> Result<Extents, AllocError>
        ensures { IfOk result (WithOneMore self.old.extents) }
    {
        let begin = self.way.end;
        let shown = self.way.reject(self.alloc, fault.taken)?;
        if shown.is_empty() {
            return Ok(self.extents);
        }
        Ok(self.extents.with(begin, shown.len(), self.way.part()))
    }

    // With the entry of the octets after the value, if there are any.
    fn followed(&self, end: usize) -> Extents
        ensures { result ≡ with_rest end (drop end self.now.way.octets.now) self.now.extents }
    {
        let rest = octets_from(self.way.octets, end);
        if rest.is_empty() {
            return self.extents;
        }
        self.extents.with(end, rest.len(), Part::AFTER)
    }
}

impl TakeRow for Measuring<'_> {
    ghost takes = { λ s l t. Measures s.way s.extents l t.way t.extents };

    fn take(&mut self, row: RowRef<'_>) -> Result<(), Stopped> {
        self.enter(row)?;
        self.way.note(row);
        Ok(())
    }
}

/// The extents of the entries that [`each_entry`](crate::each_entry) hands over: of each number the greatest,
/// and of each text how long the longest is, in octets. No value is read for them. It fails if an allocation
/// fails.
pub fn extents_of(alloc: Global, schema: &Schema, octets: &[u8]) -> Result<Extents, Stopped>
    ensures { IfOk result (AreExtentsOf (the_type schema.now) octets.now) }
{
    let mut measuring = Measuring {
        alloc,
        way: Way::whole(alloc, schema.shape(), octets)?,
        extents: Extents::none(),
    };
    match each_row(alloc, schema, octets, &mut measuring)? {
        Ok(verdict) => Ok(measuring.followed(verdict.octets)),
        Err(fault) => Ok(measuring.rejected(fault)?),
    }
}
