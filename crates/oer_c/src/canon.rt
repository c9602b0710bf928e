//! Rewriting octets as canonical octets.
ghost use Rattle.std.specs.Prelude.{◌≡◌, Some};
ghost use Rattle.oer_types.specs.Schema.{the_type};
ghost use Rattle.oer_c.specs.Buffers.{IsUndone};
ghost use Rattle.oer_c.specs.Naming.{ByName};
ghost use Rattle.oer_c.specs.Rewriting.{IsRejection, Rewrites, Tries};
ghost use Rattle.oer_c.specs.Sharing.{types_of};

use crate::buffer::{Written, only_status, put, reject};
use crate::handle::Handle;
use crate::naming::find_type;
use crate::status::{MEMORY, NO_TYPES, UNNAMED};
use oer_decoder::{RewriteFault, rewrite};
use oer_notation::Types;
use oer_types::Schema;
use oer_units::{Metered, ReadFault, Why};
use std::alloc::Global;

/// What an error of the reader comes to.
pub(crate) fn of_read(fault: ReadFault) -> Written
    ensures { IsRejection fault result }
{
    match fault.why {
        Why::Memory | Why::Device => only_status(MEMORY),
        _ => reject(fault),
    }
}

// How many octets were taken, and the canonical octets of their value.
fn canonical(
    alloc: Global,
    schema: &Schema,
    octets: &[u8],
    limit: u64,
) -> Result<(u64, Vec<u8>), Written>
    ensures { Tries (λ p. (p.0, p.1.items)) (the_type schema.now) limit octets.now result }
{
    let mut reader = Metered::new(octets);
    let mut sink = Metered::new(Vec::new(alloc));
    match rewrite(alloc, schema, &mut reader, limit, &mut sink) {
        Ok((taken, _)) => Ok((taken, sink.into_inner())),
        Err(RewriteFault::Read(fault)) => Err(of_read(fault)),
        Err(RewriteFault::Write(_)) => Err(only_status(MEMORY)),
    }
}

fn rewritten(alloc: Global, schema: &Schema, octets: &[u8], limit: u64, out: &mut [u8]) -> Written
    ensures { Rewrites (the_type schema.now) limit octets.now out.old out.new result }
{
    match canonical(alloc, schema, octets, limit) {
        Ok((taken, made)) => put(out, made.as_slice(), taken),
        Err(rejected) => rejected,
    }
}

// The octets are rewritten by the type that the Name has.
fn named(
    alloc: Global,
    types: &Types,
    name: &[u8],
    octets: &[u8],
    limit: u64,
    out: &mut [u8],
) -> Written
    ensures { ByName (Some types.now) name.now (λ T. Rewrites T limit octets.now out.old out.new result) (IsUndone out.old out.new result) }
{
    match find_type(types, name) {
        Some(schema) => rewritten(alloc, schema, octets, limit, out),
        None => only_status(UNNAMED),
    }
}

/// Writes the Canonical-OER encoding (X.696) of the value whose Basic-OER encoding, of at most
/// `limit` octets, is at the front of the octets, into the buffer. The type is the one that the Name
/// has. What follows the encoding is not looked at. The status is
///
/// - `OK`: `written` octets are in the buffer, made of the first `octets` of those that came;
/// - `ROOM`: the same, but the buffer has room for fewer than `written` octets;
/// - `REJECTED`: no encoding within the limit is at the front, for the reason `why`, which was
///   decided after `octets` of them;
/// - `NO_TYPES`: the handle has no types;
/// - `UNNAMED`: no definition has the Name, or it is not UTF-8;
/// - `MEMORY`: an allocation failed.
///
/// Unless it is `OK` the buffer is as before.
#[unsafe(no_mangle)]
pub extern "C" fn oer_canon(
    alloc: Global,
    types: &mut Handle,
    name: &[u8],
    octets: &[u8],
    limit: u64,
    out: &mut [u8],
) -> Written
    // The canonical octets are in the buffer, or it is as before.
    ensures canons { ByName (types_of types.old.held.shared) name.now (λ T. Rewrites T limit octets.now out.old out.new result) (IsUndone out.old out.new result) }
    // The types are those from before.
    ensures kept { types_of types.new.held.shared ≡ types_of types.old.held.shared }
{
    let Some(found) = types.take(alloc) else {
        return only_status(NO_TYPES);
    };
    let answer = named(alloc, found.get(), name, octets, limit, out);
    *types = Handle::of(found);
    answer
}
