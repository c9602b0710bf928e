//! What is said of an error: where it is, what is wrong there, and what may help.
ghost use Rattle.std.specs.Prelude.{◌≡◌, Some, MatchResult, string_bytes};
ghost use Rattle.oer_explain.specs.Types.{types_notes};
ghost use Rattle.oer_types.specs.Schema.{the_type};
ghost use Rattle.oer_c.specs.Buffers.{IsPut, IsUndone};
ghost use Rattle.oer_c.specs.Explaining.{ExplainsJson, ExplainsOctets, IsExplained};
ghost use Rattle.oer_c.specs.Naming.{ByName};
ghost use Rattle.oer_c.specs.Sharing.{types_of};

use crate::buffer::{Written, only_status, put};
use crate::handle::Handle;
use crate::naming::find_type;
use crate::status::{MEMORY, NO_TYPES, UNNAMED};
use oer_explain::{check_notes, json_notes, types_notes};
use oer_notation::Types;
use oer_types::Schema;
use std::alloc::{AllocError, Global};

// Puts notes into the buffer, if there was memory for them.
fn put_notes(notes: Result<String, AllocError>, out: &mut [u8]) -> Written
    ensures { MatchResult notes (λ text. IsPut (string_bytes text) 0 out.old out.new result) (λ _. IsUndone out.old out.new result 4) }
{
    match notes {
        Ok(text) => put(out, text.as_bytes(), 0),
        Err(_) => only_status(MEMORY),
    }
}

// Why the type rejects the octets.
fn explain_octets(alloc: Global, schema: &Schema, octets: &[u8], out: &mut [u8]) -> Written
    ensures { ExplainsOctets (the_type schema.now) octets.now out.old out.new result }
{
    match check_notes(alloc, schema, octets) {
        Ok(notes) => put(out, notes.as_slice(), 0),
        Err(AllocError) => only_status(MEMORY),
    }
}

// Why the type that the Name has rejects the octets.
fn octets_named(alloc: Global, types: &Types, name: &[u8], octets: &[u8], out: &mut [u8]) -> Written
    ensures { ByName (Some types.now) name.now (λ T. ExplainsOctets T octets.now out.old out.new result) (IsUndone out.old out.new result) }
{
    let Some(schema) = find_type(types, name) else {
        return only_status(UNNAMED);
    };
    explain_octets(alloc, schema, octets, out)
}

// Why the type rejects the JSON.
fn explain(alloc: Global, schema: &Schema, text: &[u8], out: &mut [u8]) -> Written
    ensures { ExplainsJson (the_type schema.now) text.now out.old out.new result }
{
    put_notes(json_notes(alloc, schema, text), out)
}

// Why the type that the Name has rejects the JSON.
fn named(alloc: Global, types: &Types, name: &[u8], text: &[u8], out: &mut [u8]) -> Written
    ensures { ByName (Some types.now) name.now (λ T. ExplainsJson T text.now out.old out.new result) (IsUndone out.old out.new result) }
{
    match find_type(types, name) {
        Some(schema) => explain(alloc, schema, text, out),
        None => only_status(UNNAMED),
    }
}

/// Writes into the buffer why the text of definitions (NOTATION.md) is rejected, as lines of text in UTF-8, each with a
/// line feed: the place of the first error, the line of it with a mark under it, what is wrong there, and perhaps what may
/// help; nothing where it is accepted. What may help speaks of options of the program `oer`. The status is
///
/// - `OK`: `written` octets of text are in the buffer, 0 where the definitions are accepted;
/// - `ROOM`: the buffer has room for fewer than these `written` octets;
/// - `MEMORY`: an allocation failed.
///
/// Unless it is `OK` the buffer is as before.
#[unsafe(no_mangle)]
pub extern "C" fn oer_explain_types(alloc: Global, text: &[u8], out: &mut [u8]) -> Written
    // The notes are in the buffer, or it is as before.
    ensures explains { IsExplained (types_notes text.now) out.old out.new result }
{
    put_notes(types_notes(alloc, text), out)
}

/// Writes into the buffer why the JSON (JSON.md) stands for no value of the type that the Name has, as lines of text in
/// UTF-8, each with a line feed: the innermost part that is rejected, what is wrong with it and what is wanted there; nothing
/// where it stands for one. Of a text that is not JSON, or not UTF-8, it says so, with the place, and its line with a mark
/// under it. The status is
///
/// - `OK`: `written` octets of text are in the buffer, 0 where the JSON is accepted;
/// - `ROOM`: the buffer has room for fewer than these `written` octets;
/// - `NO_TYPES`: the handle has no types;
/// - `UNNAMED`: no definition has the Name, or it is not UTF-8;
/// - `MEMORY`: an allocation failed.
///
/// Unless it is `OK` the buffer is as before.
#[unsafe(no_mangle)]
pub extern "C" fn oer_explain_json(
    alloc: Global,
    types: &mut Handle,
    name: &[u8],
    text: &[u8],
    out: &mut [u8],
) -> Written
    // The notes are in the buffer, or it is as before.
    ensures explains { ByName (types_of types.old.held.shared) name.now (λ T. ExplainsJson T text.now out.old out.new result) (IsUndone out.old out.new result) }
    // The types are those from before.
    ensures kept { types_of types.new.held.shared ≡ types_of types.old.held.shared }
{
    let Some(found) = types.take(alloc) else {
        return only_status(NO_TYPES);
    };
    let answer = named(alloc, found.get(), name, text, out);
    *types = Handle::of(found);
    answer
}

/// Writes into the buffer why the octets don't begin with an encoding (X.696) of a value of the type that the Name has, as lines
/// of text in UTF-8, each with a line feed: a row for each part that was read, the part that was being read, what is wrong
/// with it and what is wanted there; nothing where they begin with one. The status is
///
/// - `OK`: `written` octets of text are in the buffer, 0 where `oer_check` accepts the octets;
/// - `ROOM`: the buffer has room for fewer than these `written` octets;
/// - `NO_TYPES`: the handle has no types;
/// - `UNNAMED`: no definition has the Name, or it is not UTF-8;
/// - `MEMORY`: an allocation failed.
///
/// Unless it is `OK` the buffer is as before.
#[unsafe(no_mangle)]
pub extern "C" fn oer_explain_octets(
    alloc: Global,
    types: &mut Handle,
    name: &[u8],
    octets: &[u8],
    out: &mut [u8],
) -> Written
    // The notes are in the buffer, or it is as before.
    ensures explains { ByName (types_of types.old.held.shared) name.now (λ T. ExplainsOctets T octets.now out.old out.new result) (IsUndone out.old out.new result) }
    // The types are those from before.
    ensures kept { types_of types.new.held.shared ≡ types_of types.old.held.shared }
{
    let Some(found) = types.take(alloc) else {
        return only_status(NO_TYPES);
    };
    let answer = octets_named(alloc, found.get(), name, octets, out);
    *types = Handle::of(found);
    answer
}
