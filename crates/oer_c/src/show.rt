//! The JSON of the value that octets encode.
ghost use Rattle.std.specs.Prelude.{◌≡◌, Some, IfErr, IfOk, string_bytes};
ghost use Rattle.oer_types.specs.Schema.{the_type};
ghost use Rattle.oer_c.specs.Buffers.{IsUndone};
ghost use Rattle.oer_c.specs.Naming.{ByName};
ghost use Rattle.oer_c.specs.Rewriting.{IsRejected};
ghost use Rattle.oer_c.specs.Sharing.{types_of};
ghost use Rattle.oer_c.specs.Showing.{IsTextOf, Shows};

use crate::buffer::{Written, only_status, put};
use crate::canon::of_read;
use crate::handle::Handle;
use crate::naming::find_type;
use crate::status::{MEMORY, NO_TYPES, UNNAMED};
use oer_decoder::read_with_length;
use oer_json::to_json;
use oer_notation::Types;
use oer_types::Schema;
use oer_units::Metered;
use std::alloc::Global;

// How many octets the value has that is at the front, and the text of its JSON.
fn shown(
    alloc: Global,
    schema: &Schema,
    octets: &[u8],
    limit: u64,
) -> Result<(u64, String), Written>
    ensures text { IfOk result (λ p. IsTextOf (the_type schema.now) limit octets.now p.0 (string_bytes p.1)) }
    ensures rejected { IfErr result (λ a. IsRejected (the_type schema.now) limit octets.now a) }
{
    let mut reader = Metered::new(octets);
    let (value, taken) = match read_with_length(alloc, schema, &mut reader, limit) {
        Ok(read) => read,
        Err(fault) => return Err(of_read(fault)),
    };
    let Ok(json) = to_json(alloc, schema, &value) else {
        return Err(only_status(MEMORY));
    };
    match json.to_string(alloc) {
        Ok(text) => Ok((taken, text)),
        Err(_) => Err(only_status(MEMORY)),
    }
}

fn show(alloc: Global, schema: &Schema, octets: &[u8], limit: u64, out: &mut [u8]) -> Written
    ensures { Shows (the_type schema.now) limit octets.now out.old out.new result }
{
    match shown(alloc, schema, octets, limit) {
        Ok((taken, text)) => put(out, text.as_bytes(), taken),
        Err(rejected) => rejected,
    }
}

// The JSON of a value of the type that the Name has.
fn named(
    alloc: Global,
    types: &Types,
    name: &[u8],
    octets: &[u8],
    limit: u64,
    out: &mut [u8],
) -> Written
    ensures { ByName (Some types.now) name.now (λ T. Shows T limit octets.now out.old out.new result) (IsUndone out.old out.new result) }
{
    match find_type(types, name) {
        Some(schema) => show(alloc, schema, octets, limit, out),
        None => only_status(UNNAMED),
    }
}

/// Writes the JSON of the value whose Basic-OER encoding (X.696), of at most `limit` octets, is at
/// the front of the octets, into the buffer, in UTF-8 and without white space. The type is the one
/// that the Name has. What follows the encoding is not looked at. The status is
///
/// - `OK`: `written` octets of text are in the buffer, made of the first `octets` of those that came;
/// - `ROOM`: the same, but the buffer has room for fewer than `written` octets;
/// - `REJECTED`: no encoding within the limit is at the front, for the reason `why`, which was
///   decided after `octets` of them;
/// - `NO_TYPES`: the handle has no types;
/// - `UNNAMED`: no definition has the Name, or it is not UTF-8;
/// - `MEMORY`: an allocation failed.
///
/// Unless it is `OK` the buffer is as before.
#[unsafe(no_mangle)]
pub extern "C" fn oer_to_json(
    alloc: Global,
    types: &mut Handle,
    name: &[u8],
    octets: &[u8],
    limit: u64,
    out: &mut [u8],
) -> Written
    // The text is in the buffer, or it is as before.
    ensures shows { ByName (types_of types.old.held.shared) name.now (λ T. Shows T limit octets.now out.old out.new result) (IsUndone out.old out.new result) }
    // The types are those from before.
    ensures kept { types_of types.new.held.shared ≡ types_of types.old.held.shared }
{
    let Some(found) = types.take(alloc) else {
        return only_status(NO_TYPES);
    };
    let answer = named(alloc, found.get(), name, octets, limit, out);
    *types = Handle::of(found);
    answer
}
