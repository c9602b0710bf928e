//! How wide the columns are.
ghost use Rattle.std.specs.Prelude.{◌≡◌};
ghost use Rattle.oer_layout.specs.Cells.{cells_in};
ghost use Rattle.oer_layout.specs.Layout.{digits_of, room, unbounded, with_cells, within};

use crate::line::Line;
use oer_entries::Extents;
use oer_places::count_of;

/// How many characters names and a value have at least, however narrow the line is.
pub(crate) const LEAST: usize = 12;

/// How many characters stand between the columns.
const GAPS: usize = 10;

/// How wide the columns are, in characters.
#[derive(Clone, Copy)]
pub(crate) struct Widths {
    pub offset: usize,
    pub count: usize,
    pub path: usize,
    pub names: usize,
    pub kind: usize,
    /// Of the longest note.
    pub note: usize,
    pub value: usize,
}

/// How many digits a number has.
pub(crate) fn digits_of(number: usize) -> usize
    ensures { result ≡ digits_of number }
{
    let mut left = number;
    let mut count: usize = 1;
    while left >= 10 {
        left /= 10;
        count = count.saturating_add(1);
    }
    count
}

impl Widths {
    /// Wide enough for the entries that have these extents, of which no value is cut. For an empty text
    /// there is a dash.
    pub(crate) fn of(extents: Extents) -> Widths
        ensures { result ≡ unbounded extents }
    {
        Widths {
            offset: digits_of(extents.offset),
            count: digits_of(extents.count),
            path: extents.path.max(1),
            names: extents.names.max(1),
            kind: extents.kind,
            note: 0,
            value: usize::MAX,
        }
    }

    /// Wide enough for these and for the line, with its note.
    pub(crate) fn with(self, line: &Line<'_>) -> Widths
        ensures { result ≡ with_cells self (cells_in line.now) }
    {
        let value = count_of(line.value.as_str()).saturating_add(line.note.len());
        Widths {
            offset: self.offset.max(line.offset),
            count: self.count.max(line.count),
            path: self.path.max(line.path.len()),
            names: self.names.max(line.names.len()),
            kind: self.kind.max(line.kind.len()),
            note: self.note.max(line.note.len()),
            value: self.value.max(value),
        }
    }

    // How many characters are left of a line of so many for its names and its value: those of the other
    // columns, which are never cut, and of the gaps are taken.
    fn left(self, width: usize) -> usize
        ensures { result ≡ room self width }
    {
        width
            .saturating_sub(GAPS)
            .saturating_sub(self.offset)
            .saturating_sub(self.count)
            .saturating_sub(self.path)
            .saturating_sub(self.kind)
    }

    /// Such that a line has so many characters. Names and values share what is left, and each has half
    /// of it if it needs that; but names leave room for the longest note, and for a value before it.
    pub(crate) fn within(self, width: usize) -> Widths
        ensures { result ≡ within width self }
    {
        let left = self.left(width);
        let beside = left.saturating_sub(self.note).saturating_sub(LEAST);
        let share = (left / 2).max(left.saturating_sub(self.value));
        let room = share.min(beside).max(LEAST);
        let names = self.names.min(room);
        let mut widths = self;
        widths.names = names;
        widths.value = left.saturating_sub(names).max(LEAST);
        widths
    }
}
