//! What takes the rows of octets, one after another.
ghost use Rattle.std.specs.Prelude.{OnOk};
ghost use Rattle.oer_rows.specs.Rows.{Line, line_in};

use crate::row::{RowRef, Stopped};

/// What takes rows, one after another.
pub trait TakeRow {
    /// What it was before it took a row, the row, and what it is then.
    ghost takes: { Self → Line → Self → Type 0 };

    /// Takes a row. After an error it is given no more.
    fn take(&mut self, row: RowRef<'_>) -> Result<(), Stopped>
        ensures { OnOk result (takes self.old (line_in row.entry) self.new) };
}
