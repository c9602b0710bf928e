//! The canonical octets of the value that JSON stands for.
ghost use Rattle.std.specs.Prelude.{◌≡◌, ℕ, List, None, Some, IfOk, string_bytes};
ghost use Rattle.serde_json.specs.View.{view};
ghost use Rattle.oer_model.specs.Canonical.{canonical_octets};
ghost use Rattle.oer_model.specs.Fits.{Fits};
ghost use Rattle.oer_types.specs.Schema.{the_type};
ghost use Rattle.oer_values.specs.ValueView.{value_of};
ghost use Rattle.oer_json.specs.Take.{taken};
ghost use Rattle.oer_units.specs.Octets.{IsOctets};
ghost use Rattle.oer_cmd.specs.Answer.{json_in, json_taken, limited, make_answer, make_text};
ghost use Rattle.oer_cmd.specs.Expected.{Says, SaysOf, value as expected};
ghost use Rattle.oer_cmd.specs.Octets.{octets_of};
ghost use Rattle.oer_cmd.specs.Taking.{GivesAll, status_after};

use crate::fault::Fault;
use crate::octets::{gathered, in_digits};
use oer_text::{JsonFault, from_json};
use oer_types::{Schema, Value};
use oer_units::Metered;
use oer_writer::{WriteFault, write};
use serde_json::Value as Json;
use std::alloc::Global;
use std::io::Read;

#[tactic(auto, using(crate::proofs::Exact::utf8_read))]
// The JSON of a text; fails with `NotJson`, or with `Memory`.
fn json_of<'a>(alloc: Global, text: &str) -> Result<Json, Fault<'a>>
    ensures { Says view (json_in text.now) result }
{
    match Json::from_str(alloc, text) {
        Ok(json) => Ok(json),
        Err(error) => {
            if error.is_memory() {
                Err(Fault::Memory)
            } else {
                Err(Fault::NotJson)
            }
        }
    }
}

// The value that the JSON stands for; fails with `Json`, or with `Memory`.
fn value_in<'a>(alloc: Global, schema: &Schema, json: &Json) -> Result<Value, Fault<'a>>
    ensures fits { IfOk result (λ value. Fits (the_type schema.now) (value_of value)) }
    ensures exact { Says value_of (json_taken (taken (the_type schema.now) (view json.now))) result }
{
    match from_json(alloc, schema, json) {
        Ok(value) => Ok(value),
        Err(JsonFault::Memory) => Err(Fault::Memory),
        Err(fault) => Err(Fault::Json(fault)),
    }
}

// The canonical octets of a value; fails with `Memory`, or with `Output` where they are too many.
fn written<'a>(alloc: Global, schema: &Schema, value: &Value) -> Result<Vec<u8>, Fault<'a>>
    requires { Fits (the_type schema.now) (value_of value.now) }
    ensures { Says octets_of (expected (canonical_octets (the_type schema.now) (value_of value.now))) result }
{
    let mut sink = Metered::new(Vec::new(alloc));
    match write(schema, value, &mut sink) {
        Ok(_) => Ok(sink.into_inner()),
        Err(WriteFault::Device { .. }) => Err(Fault::Memory),
        Err(WriteFault::TooLong) => Err(Fault::Output),
    }
}

// The line for a text of JSON.
fn text_line<'a>(alloc: Global, schema: &Schema, text: &str) -> Result<String, Fault<'a>>
    ensures exact { Says string_bytes (make_text (the_type schema.now) text.now) result }
    ensures octets { IfOk result (λ line. IsOctets text.now) }
{
    let json = json_of(alloc, text)?;
    let value = value_in(alloc, schema, &json)?;
    let octets = written(alloc, schema, &value)?;
    in_digits(alloc, octets.as_slice())
}

/// The line of `make` for a text of JSON. Refused as `Longer` where it has more octets than the limit.
pub fn made_of_text<'a>(
    alloc: Global,
    schema: &Schema,
    text: &str,
    limit: u64,
) -> Result<String, Fault<'a>>
    ensures { Says string_bytes (make_answer (the_type schema.now) limit (Some text.now) None) result }
{
    if text.len() as u64 > limit {
        return Err(Fault::Longer(limit));
    }
    text_line(alloc, schema, text)
}

#[tactic(auto, using(crate::proofs::Meeting::limited_said, crate::proofs::Taking::later, crate::proofs::Exact::text_broken))]
/// The line of `make` for the text that the input has left.
pub fn made_of_input<'a, R: Read>(
    alloc: Global,
    schema: &Schema,
    limit: u64,
    input: &mut R,
) -> Result<String, Fault<'a>>
    ensures exact { (b : List ℕ) → R.remaining input.old ≡ Some b
        → SaysOf string_bytes b (limited limit (make_text (the_type schema.now)) b) result }
    ensures takes { GivesAll limit (status_after result) (R.remaining input.old) (R.remaining input.new) }
{
    let octets = gathered(alloc, input, limit)?;
    match str::from_utf8(octets.as_slice()) {
        Ok(text) => text_line(alloc, schema, text),
        Err(_) => Err(Fault::NotJson),
    }
}
