//! What takes the entries of octets, one after another.
ghost use Rattle.std.specs.Prelude.{OnOk};
ghost use Rattle.oer_entries.specs.declared.entry.Entry.{Entry};

use crate::entry::Entry;
use oer_rows::Stopped;

/// What takes entries, one after another.
pub trait TakeEntry {
    /// What it was before it took an entry, the entry, and what it is then.
    ghost takes: { Self → Entry → Self → Type 0 };

    /// Takes an entry. After an error it is given no more.
    fn take(&mut self, entry: &Entry<'_>) -> Result<(), Stopped>
        ensures { OnOk result (takes self.old entry.now self.new) };
}
