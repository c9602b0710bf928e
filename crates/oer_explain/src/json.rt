//! What is added to the error of JSON.
ghost use Rattle.std.specs.Prelude.{◌≡◌, ◌≤◌, ℕ, IfOk, length, option_map, string_bytes};
ghost use Rattle.serde_json.specs.View.{view};
ghost use Rattle.oer_types.specs.Schema.{the_type};
ghost use Rattle.oer_values.specs.ShapeView.{type_of};
ghost use Rattle.oer_json_places.specs.Views.{spot_of, wrong_of};
ghost use Rattle.oer_model.specs.WellFormed.{names};
ghost use Rattle.oer_explain.specs.Json.{json_notes, spot_notes, text_hint, text_notes, tree_notes, wrong_lines};
ghost use Rattle.oer_explain.specs.JsonNames.{near_hint};

use crate::json_names::{names_of, near_hint};
use crate::json_path::json_place_line;
use crate::json_words::{fault_line, unknown_line};
use crate::place::notes_at;
use oer_json::JsonFault;
use oer_json_places::{JsonPlace, Trouble, place_of};
use oer_types::{Schema, Shape};
use serde_json::{Error as JsonError, Value as Json};
use std::alloc::{AllocError, Global};

// What a name that the type doesn't have may mean.
fn hint_of(alloc: Global, key: &str, shape: &Shape) -> Result<String, AllocError>
    ensures { IfOk result (λ hint. string_bytes hint ≡ near_hint key.now (names (type_of shape.now))) }
{
    let names = names_of(alloc, shape)?;
    near_hint(alloc, key, names.as_slice())
}

// What a text that is no name may mean.
fn text_hint(
    alloc: Global,
    fault: JsonFault,
    shape: &Shape,
    json: &Json,
) -> Result<String, AllocError>
    ensures { IfOk result (λ hint. string_bytes hint ≡ text_hint fault (type_of shape.now) (view json.now)) }
{
    match (fault, json) {
        (JsonFault::Name, Json::String(text)) => hint_of(alloc, text.as_str(), shape),
        _ => Ok(String::new(alloc)),
    }
}

// What is wrong, what is wanted, and what may be meant.
fn trouble_lines(alloc: Global, place: &JsonPlace<'_>) -> Result<String, AllocError>
    ensures { IfOk result (λ lines. string_bytes lines
        ≡ wrong_lines (wrong_of place.now.trouble) place.now.fault (type_of place.now.shape.now) (view place.now.json.now)) }
{
    match place.trouble {
        Trouble::UnknownKey(key) => {
            let line = unknown_line(alloc, place.shape)?;
            let hint = hint_of(alloc, key, place.shape)?;
            format!(in alloc; "{line}{hint}")
        }
        Trouble::MissingKey(name) => {
            format!(in alloc; "  the component {name} must be present\n")
        }
        Trouble::Itself => {
            let line = fault_line(alloc, place.fault, place.shape)?;
            let hint = text_hint(alloc, place.fault, place.shape, place.json)?;
            format!(in alloc; "{line}{hint}")
        }
    }
}

fn place_notes(alloc: Global, place: &JsonPlace<'_>) -> Result<String, AllocError>
    ensures { IfOk result (λ notes. string_bytes notes ≡ spot_notes (spot_of place.now)) }
{
    let line = json_place_line(alloc, place)?;
    let lines = trouble_lines(alloc, place)?;
    format!(in alloc; "{line}{lines}")
}

// What is added where the type rejects the JSON.
fn tree_notes(alloc: Global, schema: &Schema, json: &Json) -> Result<String, AllocError>
    ensures { IfOk result (λ notes. string_bytes notes ≡ tree_notes (the_type schema.now) (view json.now)) }
{
    match place_of(alloc, schema, json)? {
        Some(place) => place_notes(alloc, &place),
        None => Ok(String::new(alloc)),
    }
}

// Where a line of the text begins. Lines are counted from 1, and end with a line feed.
fn line_start(text: &[u8], line: usize) -> usize
    ensures { result ≤ length text.now }
{
    let mut before = line.saturating_sub(1);
    for at in 0..text.len() {
        if before == 0 {
            return at;
        }
        if text[at] == b'\n' {
            before -= 1;
        }
    }
    text.len()
}

// The octet of the text at which reading stopped: that of the error's line and column, which count from 1; and the text's length where it ends
// too soon.
fn stop(text: &[u8], error: &JsonError) -> usize
    ensures { result ≤ length text.now }
{
    if error.is_eof() {
        return text.len();
    }
    line_start(text, error.line())
        .saturating_add(error.column())
        .saturating_sub(1)
        .min(text.len())
}

// What is added where a text of JSON is rejected.
fn text_notes(alloc: Global, schema: &Schema, text: &str) -> Result<String, AllocError>
    ensures { IfOk result (λ notes. (at : ℕ) × (string_bytes notes ≡ text_notes at (the_type schema.now) text.now)) }
{
    match Json::from_str(alloc, text) {
        Ok(json) => tree_notes(alloc, schema, &json),
        Err(error) if error.is_memory() => Err(AllocError),
        Err(error) => {
            let octets = text.as_bytes();
            notes_at(
                alloc,
                octets,
                stop(octets, &error),
                "the JSON reader stopped here",
                "",
            )
        }
    }
}

/// What is added where the octets of a text of JSON are rejected: the innermost part that the type rejects, what is wrong there and what is
/// wanted; nothing where they aren't. Of a text that is no JSON it is the place where the JSON reader stopped, which is tested and not proved; of
/// octets that are no UTF-8 the place where they cease to be. It fails where an allocation does.
pub fn json_notes(alloc: Global, schema: &Schema, octets: &[u8]) -> Result<String, AllocError>
    ensures { IfOk result (λ notes. (at : ℕ) × (string_bytes notes ≡ json_notes at (the_type schema.now) octets.now)) }
{
    match str::from_utf8(octets) {
        Ok(text) => text_notes(alloc, schema, text),
        Err(error) => notes_at(
            alloc,
            octets,
            error.valid_up_to().min(octets.len()),
            "the text is no UTF-8 from here on",
            "",
        ),
    }
}
