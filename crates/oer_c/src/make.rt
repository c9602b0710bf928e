//! The octets of the value for which JSON stands.
ghost use Rattle.std.specs.Prelude.{◌≡◌, ◌≤◌, length, Some, IfErr, IfOk};
ghost use Rattle.std.specs.Str.{IsUtf8};
ghost use Rattle.serde_json.specs.Errors.{category};
ghost use Rattle.serde_json.specs.Read.{read};
ghost use Rattle.serde_json.specs.View.{view};
ghost use Rattle.serde_json.specs.declared.error.Category.TheVariants.{Eof};
ghost use Rattle.oer_model.specs.Fits.{Fits};
ghost use Rattle.oer_types.specs.Schema.{the_type};
ghost use Rattle.oer_model.specs.Strict.{IsCanonical};
ghost use Rattle.oer_values.specs.ValueView.{value_of};
ghost use Rattle.oer_json.specs.Denotes.{IsJsonOf};
ghost use Rattle.oer_c.specs.Buffers.{IsUndone, only_written};
ghost use Rattle.oer_c.specs.Making.{IsNotUtf8, IsOctetsOf, IsUnmade, IsUnread, IsUntaken, Makes, json_rejection, no_json};
ghost use Rattle.oer_c.specs.Naming.{ByName};
ghost use Rattle.oer_c.specs.Sharing.{types_of};

use crate::buffer::{Written, only_status, put};
use crate::handle::Handle;
use crate::naming::find_type;
use crate::reason;
use crate::status::{MEMORY, NO_JSON, NO_TYPES, REJECTED, UNNAMED};
use oer_json::{JsonFault, from_json};
use oer_notation::Types;
use oer_types::{Schema, Value};
use oer_units::Metered;
use oer_writer::write;
use serde_json::{Error as JsonError, Value as Json};
use std::alloc::Global;

// An error of JSON.
fn reject(fault: JsonFault) -> Written
    ensures { result ≡ json_rejection fault }
{
    Written {
        status: REJECTED,
        why: reason::of_json(fault),
        octets: 0,
        written: 0,
    }
}

// The value of the type for which the JSON stands.
fn value_in(alloc: Global, schema: &Schema, json: &Json) -> Result<Value, Written>
    ensures takes { IfOk result (λ value. IsJsonOf (the_type schema.now) (value_of value) (view json.now)) }
    ensures fits { IfOk result (λ value. Fits (the_type schema.now) (value_of value)) }
    ensures rejected { IfErr result (IsUntaken (the_type schema.now) (view json.now)) }
{
    match from_json(alloc, schema, json) {
        Ok(value) => Ok(value),
        Err(JsonFault::Memory) => Err(only_status(MEMORY)),
        Err(fault) => Err(reject(fault)),
    }
}

// The canonical octets of a value.
fn octets_of(alloc: Global, schema: &Schema, value: &Value) -> Result<Vec<u8>, Written>
    requires { Fits (the_type schema.now) (value_of value.now) }
    ensures octets { IfOk result (λ octets. IsCanonical (the_type schema.now) (value_of value.now) octets.items) }
    ensures fails { IfErr result (λ a. a ≡ only_written 4) }
{
    let mut sink = Metered::new(Vec::new(alloc));
    match write(schema, value, &mut sink) {
        Ok(_) => Ok(sink.into_inner()),
        Err(_) => Err(only_status(MEMORY)),
    }
}

// A text that is not JSON, where reading stopped at the place.
fn no_json(place: usize) -> Written
    ensures { result ≡ no_json place }
{
    Written {
        status: NO_JSON,
        why: 0,
        octets: place as u64,
        written: 0,
    }
}

// Where a line of the text begins. Lines are counted from 1, and end with a line feed.
fn line_start(text: &[u8], line: usize) -> usize
    ensures { result ≤ length text.now }
{
    let mut before = line.saturating_sub(1);
    for at in 0..text.len() {
        if before == 0 {
            return at;
        }
        if text[at] == b'\n' {
            before -= 1;
        }
    }
    text.len()
}

// The octet of the text at which reading stopped: that of the error's line and column, which count from
// 1; and the text's length where it ends too soon.
fn stop(text: &[u8], error: &JsonError) -> usize
    ensures within { result ≤ length text.now }
    ensures end { category error.now ≡ Eof → result ≡ length text.now }
{
    if error.is_eof() {
        return text.len();
    }
    line_start(text, error.line())
        .saturating_add(error.column())
        .saturating_sub(1)
        .min(text.len())
}

// The text, if it is UTF-8.
fn utf8(text: &[u8]) -> Result<&str, Written>
    ensures same { IfOk result (λ s. s.now ≡ text.now) }
    ensures is { IfOk result (λ s. IsUtf8 text.now) }
    ensures rejected { IfErr result (IsNotUtf8 text.now) }
{
    match std::str::from_utf8(text) {
        Ok(text) => Ok(text),
        Err(fault) => Err(no_json(fault.valid_up_to())),
    }
}

// The JSON that the text is.
fn json_of(alloc: Global, text: &[u8]) -> Result<Json, Written>
    ensures json { IfOk result (λ json. read text.now ≡ Some (view json)) }
    ensures rejected { IfErr result (IsUnread text.now) }
{
    match Json::from_str(alloc, utf8(text)?) {
        Ok(json) => Ok(json),
        Err(error) => {
            if error.is_memory() {
                Err(only_status(MEMORY))
            } else {
                Err(no_json(stop(text, &error)))
            }
        }
    }
}

// The canonical octets of the value for which the text stands.
fn made(alloc: Global, schema: &Schema, text: &[u8]) -> Result<Vec<u8>, Written>
    ensures octets { IfOk result (λ octets. IsOctetsOf (the_type schema.now) text.now octets.items) }
    ensures rejected { IfErr result (IsUnmade (the_type schema.now) text.now) }
{
    let json = json_of(alloc, text)?;
    let value = value_in(alloc, schema, &json)?;
    octets_of(alloc, schema, &value)
}

fn make(alloc: Global, schema: &Schema, text: &[u8], out: &mut [u8]) -> Written
    ensures { Makes (the_type schema.now) text.now out.old out.new result }
{
    match made(alloc, schema, text) {
        Ok(octets) => put(out, octets.as_slice(), 0),
        Err(rejected) => rejected,
    }
}

// The octets of a value of the type that the Name has.
fn named(alloc: Global, types: &Types, name: &[u8], text: &[u8], out: &mut [u8]) -> Written
    ensures { ByName (Some types.now) name.now (λ T. Makes T text.now out.old out.new result) (IsUndone out.old out.new result) }
{
    match find_type(types, name) {
        Some(schema) => make(alloc, schema, text, out),
        None => only_status(UNNAMED),
    }
}

/// Writes the Canonical-OER encoding (X.696) of the value for which the JSON stands into the buffer.
/// The type is the one that the Name has. The status is
///
/// - `OK`: `written` octets are in the buffer;
/// - `ROOM`: the buffer has room for fewer than these `written` octets;
/// - `REJECTED`: the JSON stands for no value of the type, for the reason `why`, a `JsonFault`;
/// - `NO_JSON`: the text is not JSON, and reading it stopped at the octet `octets`, or it is not UTF-8, and
///   `octets` octets are its longest front that is;
/// - `NO_TYPES`: the handle has no types;
/// - `UNNAMED`: no definition has the Name, or it is not UTF-8;
/// - `MEMORY`: an allocation failed.
///
/// Unless it is `OK` the buffer is as before.
#[unsafe(no_mangle)]
pub extern "C" fn oer_from_json(
    alloc: Global,
    types: &mut Handle,
    name: &[u8],
    text: &[u8],
    out: &mut [u8],
) -> Written
    // The octets are in the buffer, or it is as before.
    ensures makes { ByName (types_of types.old.held.shared) name.now (λ T. Makes T text.now out.old out.new result) (IsUndone out.old out.new result) }
    // The types are those from before.
    ensures kept { types_of types.new.held.shared ≡ types_of types.old.held.shared }
{
    let Some(found) = types.take(alloc) else {
        return only_status(NO_TYPES);
    };
    let answer = named(alloc, found.get(), name, text, out);
    *types = Handle::of(found);
    answer
}
