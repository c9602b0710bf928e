//! Finding parts of octets, by paths and by names.
ghost use Rattle.std.specs.Prelude.{◌≡◌, ◌≤◌, Err, IfOk, List, Ok, Some, length, map};
ghost use Rattle.oer_types.specs.Schema.{the_type};
ghost use Rattle.oer_parts.specs.Encoding.{octets_in, type_of_encoding};
ghost use Rattle.oer_parts.specs.Ranges.{Lies, octets_in_range};
ghost use Rattle.oer_at.specs.Finding.{Finds as FindsAt, octets_at_front};
ghost use Rattle.oer_at.specs.Hops.{hops_of};
ghost use Rattle.oer_at.specs.Meaning.{step_behind};
ghost use Rattle.oer_at.specs.Names.{text_behind};
ghost use Rattle.oer_at.specs.declared.hop.Hop.{Hop};
ghost use Rattle.oer_c.specs.Buffers.{only_written};
ghost use Rattle.oer_c.specs.Found.{Finds, IsFound, IsFront};
ghost use Rattle.oer_c.specs.Naming.{ByName};
ghost use Rattle.oer_c.specs.Parts.{IsNoPart, IsNoPartByNames, IsPartAt, IsPartByNamesAt, find_by};
ghost use Rattle.oer_c.specs.Sharing.{types_of};

use crate::buffer::{Written, missed, only_status, reject};
use crate::handle::Handle;
use crate::names::names_of;
use crate::naming::find_type;
use crate::path::steps_of;
use crate::status::{ABSENT, MEMORY, NO_STEP, NO_TYPES, UNNAMED};
use oer_at::{AtFault, HopsFault, hops, range_at};
use oer_notation::Types;
use oer_parts::{Encoding, PartFault};
use oer_types::Schema;
use std::alloc::Global;
use std::ops::Range;

/// The text of the way to a part.
#[derive(Clone, Copy)]
pub(crate) enum Way<'w> {
    Path(&'w [u8]),
    Names(&'w [u8]),
}

/// A part that was found.
#[derive(Clone, Copy)]
pub(crate) struct Found<'a> {
    /// Its octets.
    pub(crate) part: &'a [u8],
    /// How many octets are before it.
    pub(crate) at: usize,
    /// How many octets the encoding has that it is in.
    pub(crate) taken: u64,
}

// The encoding at the front of the octets, or what is answered where there is none.
fn front<'s, 'a>(schema: &'s Schema, octets: &'a [u8]) -> Result<Encoding<'s, 'a>, Written>
    ensures { IsFront (the_type schema.now) octets.now result }
{
    match Encoding::at_front(schema, octets) {
        Ok(encoding) => Ok(encoding),
        Err(fault) => Err(reject(fault)),
    }
}

// The part that is this range of the octets.
fn part_in(octets: &[u8], range: Range<usize>, taken: u64) -> Found<'_>
    requires start { range.start ≤ range.end }
    requires end { range.end ≤ length octets.now }
    ensures part { result.part.now ≡ octets_in_range octets.now range }
    ensures at { result.at ≡ range.start }
    ensures taken { result.taken ≡ taken }
{
    Found {
        part: &octets[range.start..range.end],
        at: range.start,
        taken,
    }
}

// The part to which the path leads, or what is answered where it leads nowhere.
#[tactic(auto, using(crate::proofs::Locating::unread))]
fn by_path<'a>(
    alloc: Global,
    schema: &Schema,
    octets: &'a [u8],
    path: &[u8],
) -> Result<Found<'a>, Written>
    ensures { Finds (the_type schema.now) octets.now (IsPartAt (the_type schema.now) path.now) (IsNoPart (the_type schema.now) octets.now path.now) result }
{
    let steps = match steps_of(alloc, path) {
        Ok(steps) => steps,
        Err(status) => return Err(only_status(status)),
    };
    let encoding = front(schema, octets)?;
    let taken = encoding.verdict.octets as u64;
    match encoding.part_range(steps.as_slice()) {
        Ok(range) => Ok(part_in(octets, range, taken)),
        Err(PartFault::Read(fault)) => Err(reject(fault)),
        Err(PartFault::NoSuchStep) => Err(missed(NO_STEP, taken)),
        Err(PartFault::Absent) => Err(missed(ABSENT, taken)),
    }
}

// Where the part stands to which the names lead. A name that leads nowhere in the type is no step.
fn range_of(
    alloc: Global,
    schema: &Schema,
    encoding: &Encoding<'_, '_>,
    names: &[&str],
) -> Result<Range<usize>, AtFault>
    requires { type_of_encoding encoding.now ≡ the_type schema.now }
    ensures found { FindsAt (octets_in_range (octets_in encoding.now))
        (find_by (hops_of (the_type schema.now) (map text_behind names.now)) (the_type schema.now) (octets_at_front encoding.now)) result }
    ensures lies { IfOk result (λ range. (hops : List Hop) × (hops_of (the_type schema.now) (map text_behind names.now) ≡ Ok hops)
        × Lies (the_type schema.now) (octets_in encoding.now) (map step_behind hops) range) }
{
    let hops = match hops(alloc, schema, names) {
        Ok(hops) => hops,
        Err(HopsFault::Memory) => return Err(AtFault::Memory),
        Err(HopsFault::Name(_)) => return Err(AtFault::NoSuchStep),
    };
    range_at(alloc, encoding, &hops)
}

// The part to which the names lead, or what is answered where they lead nowhere.
#[tactic(auto, using(crate::proofs::Locating::no_names))]
fn by_names<'a>(
    alloc: Global,
    schema: &Schema,
    octets: &'a [u8],
    names: &[u8],
) -> Result<Found<'a>, Written>
    ensures { Finds (the_type schema.now) octets.now (IsPartByNamesAt (the_type schema.now) names.now) (IsNoPartByNames (the_type schema.now) octets.now names.now) result }
{
    let names = match names_of(alloc, names) {
        Ok(names) => names,
        Err(status) => return Err(only_status(status)),
    };
    let encoding = front(schema, octets)?;
    let taken = encoding.verdict.octets as u64;
    match range_of(alloc, schema, &encoding, &names) {
        Ok(range) => Ok(part_in(octets, range, taken)),
        Err(AtFault::Memory) => Err(only_status(MEMORY)),
        Err(AtFault::NoSuchStep) => Err(missed(NO_STEP, taken)),
        Err(AtFault::Absent) => Err(missed(ABSENT, taken)),
    }
}

// The same on either way.
fn on<'a>(
    alloc: Global,
    schema: &Schema,
    octets: &'a [u8],
    way: Way<'_>,
) -> Result<Found<'a>, Written>
    ensures { IsFound way.entry (the_type schema.now) octets.now result }
{
    match way {
        Way::Path(path) => by_path(alloc, schema, octets, path),
        Way::Names(names) => by_names(alloc, schema, octets, names),
    }
}

// The same by the type that the Name has.
fn named<'a>(
    alloc: Global,
    types: &Types,
    name: &[u8],
    octets: &'a [u8],
    way: Way<'_>,
) -> Result<Found<'a>, Written>
    ensures { ByName (Some types.now) name.now (λ T. IsFound way.entry T octets.now result) (λ status. result ≡ Err (only_written status)) }
{
    match find_type(types, name) {
        Some(schema) => on(alloc, schema, octets, way),
        None => Err(only_status(UNNAMED)),
    }
}

/// The part to which the way leads in the encoding at the front of the octets, by the type that the Name has among those of the handle; or
/// what a call answers that puts it into a buffer, where there is none.
pub(crate) fn find<'a>(
    alloc: Global,
    types: &mut Handle,
    name: &[u8],
    octets: &'a [u8],
    way: Way<'_>,
) -> Result<Found<'a>, Written>
    ensures found { ByName (types_of types.old.held.shared) name.now (λ T. IsFound way.entry T octets.now result) (λ status. result ≡ Err (only_written status)) }
    ensures kept { types_of types.new.held.shared ≡ types_of types.old.held.shared }
{
    let Some(held) = types.take(alloc) else {
        return Err(only_status(NO_TYPES));
    };
    let answer = named(alloc, held.get(), name, octets, way);
    *types = Handle::of(held);
    answer
}
