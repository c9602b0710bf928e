//! Entries of octets: their rows, with names and values.
ghost use Rattle.std.specs.Prelude.{◌≡◌, IfOk, IfSome, OnOk, is_some};
ghost use Rattle.std.specs.Result.{is_err};
ghost use Rattle.oer_model.specs.AsnType.{AsnType};
ghost use Rattle.oer_types.specs.Schema.{the_type};
ghost use Rattle.oer_rows.specs.Listing.{rows_of};
ghost use Rattle.oer_rows.specs.Rows.{line_in};
ghost use Rattle.oer_entries.specs.Entries.{ArePlacedFor, AreTakenFor, TakesAtMostOne, spot_of};
ghost use Rattle.oer_entries.specs.Makes.{Makes, Places};
ghost use Rattle.oer_entries.specs.Places.{IsPlace, is_rejected};
ghost use Rattle.oer_entries.specs.Trails.{IsWay};

use crate::entry::{Entry, Place, What};
use crate::meaning::{Meaning, meaning_of};
use crate::taker::TakeEntry;
use crate::trail::{Part, octets_from};
use crate::way::Way;
use oer_reader::Verdict;
use oer_rows::{RowRef, Stopped, TakeRow, each_row};
use oer_types::Schema;
use oer_units::ReadFault;
use std::alloc::Global;

// The entry of octets of the part.
fn entry<'e>(part: Part<'e>, offset: usize, octets: &'e [u8], meaning: Meaning<'e>) -> Entry<'e>
    ensures spot { spot_of result ≡ (offset, octets.entry.now) }
    ensures path { result.path.now ≡ part.entry.path.now }
    ensures names { result.names.now ≡ part.entry.names.now }
    ensures kind { result.kind.now ≡ part.entry.kind.now }
{
    Entry {
        offset,
        octets,
        path: part.path,
        names: part.names,
        kind: part.kind,
        what: meaning.what,
        canonical: meaning.canonical,
        is_default: meaning.is_default,
    }
}

// Has an entry of octets of the part taken, if there are any.
fn take_some<E: TakeEntry>(
    taker: &mut E,
    part: Part<'_>,
    offset: usize,
    octets: &[u8],
    what: What<'_>,
) -> Result<(), Stopped>
    ensures { OnOk result (TakesAtMostOne E.takes taker.old taker.new) }
{
    if octets.is_empty() {
        return Ok(());
    }
    taker.take(&entry(part, offset, octets, Meaning::plain(what)))
}

/// Makes an entry of each row that it takes.
#[derive(Drop)]
struct Making<'a, E: TakeEntry + Drop> {
    alloc: Global,
    way: Way<'a>,
    taker: E,
}

impl<'a, E: TakeEntry + Drop> Making<'a, E> {
    // Goes to the part of the row, and has the entry of its octets taken.
    fn enter(&mut self, row: RowRef<'_>) -> Result<(), Stopped>
        ensures { OnOk result (Places E.takes self.old.taker self.old.way (line_in row.entry) self.new.taker self.new.way) }
    {
        self.way.go_to(self.alloc, row.path)?;
        let meaning = meaning_of(self.alloc, &self.way, row)?;
        let entry = entry(self.way.part(), row.offset, row.octets, meaning);
        self.taker.take(&entry)
    }

    // Has an entry taken of octets that show a rejection, and says of which part they are.
    fn reject(&mut self, fault: ReadFault) -> Result<Place<'a>, Stopped>
        ensures taken { IfOk result (λ _. TakesAtMostOne E.takes self.old.taker self.new.taker) }
        ensures place { IfOk result (λ place. (T : AsnType) → IsWay T self.old.way → IsPlace T place) }
    {
        let begin = self.way.end;
        let shown = self.way.reject(self.alloc, fault.taken)?;
        let part = self.way.part();
        take_some(&mut self.taker, part, begin, shown, What::Rejected)?;
        Ok(self.way.place(self.alloc)?)
    }

    // Has an entry taken of the octets after the value, if there are any.
    fn follow(&mut self, end: usize) -> Result<(), Stopped>
        ensures { OnOk result (TakesAtMostOne E.takes self.old.taker self.new.taker) }
    {
        let rest = octets_from(self.way.octets, end);
        take_some(&mut self.taker, Part::AFTER, end, rest, What::Follows)
    }

    // Has an entry taken of the octets behind the rows. Returns the part that was being read when the octets
    // were rejected, if they were.
    fn finish(&mut self, verdict: Result<Verdict, ReadFault>) -> Result<Option<Place<'a>>, Stopped>
        ensures taken { IfOk result (λ _. TakesAtMostOne E.takes self.old.taker self.new.taker) }
        ensures place { IfOk result (λ found. (T : AsnType) → IsWay T self.old.way → IfSome found (IsPlace T)) }
        ensures rejected { IfOk result (λ found. is_some found ≡ is_err verdict) }
    {
        match verdict {
            Ok(verdict) => {
                self.follow(verdict.octets)?;
                Ok(None)
            }
            Err(fault) => Ok(Some(self.reject(fault)?)),
        }
    }
}

impl<E: TakeEntry + Drop> TakeRow for Making<'_, E> {
    ghost takes = { λ s l t. Makes E.takes s.taker s.way l t.taker t.way };

    fn take(&mut self, row: RowRef<'_>) -> Result<(), Stopped> {
        self.enter(row)?;
        self.way.note(row);
        Ok(())
    }
}

/// Hands over what each of the octets is: an entry for each row, in the order of the octets, and behind
/// these one of octets that follow the value or that show a rejection, if there are any. Nothing is kept of
/// them. It returns what took them, and the part that was being read when the octets were rejected, if they
/// were. It fails if an allocation fails, or if an entry isn't taken; some entries may be taken then.
pub fn each_entry<'s, E: TakeEntry + Drop>(
    alloc: Global,
    schema: &'s Schema,
    octets: &'s [u8],
    taker: E,
) -> Result<(E, Option<Place<'s>>), Stopped>
    ensures taken { IfOk result (λ done. AreTakenFor E.takes (rows_of (the_type schema.now) octets.now) taker done.0) }
    // Each entry of a row has the path of its row, the names on it, and the kind of the type of its part.
    ensures placed { let T = the_type schema.now in
        IfOk result (λ done. ArePlacedFor E.takes T (rows_of T octets.now) taker done.0) }
    // There is a place just where the octets are rejected, and it is that of a part of the type.
    ensures place { IfOk result (λ done. IfSome done.1 (IsPlace (the_type schema.now))) }
    ensures rejected { IfOk result (λ done. is_some done.1 ≡ is_rejected (the_type schema.now) octets.now) }
{
    let mut making = Making {
        alloc,
        way: Way::whole(alloc, schema.shape(), octets)?,
        taker,
    };
    let verdict = each_row(alloc, schema, octets, &mut making)?;
    let place = making.finish(verdict)?;
    Ok((making.taker, place))
}
