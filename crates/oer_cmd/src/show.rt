//! The JSON of a value.
ghost use Rattle.std.specs.Prelude.{◌≡◌, ℕ, List, Some, false, IfOk, string_bytes};
ghost use Rattle.serde_json.specs.View.{view};
ghost use Rattle.serde_json.specs.Written.{has_float};
ghost use Rattle.oer_model.specs.Fits.{Fits};
ghost use Rattle.oer_types.specs.Schema.{the_type};
ghost use Rattle.oer_values.specs.ValueView.{value_of};
ghost use Rattle.oer_json.specs.Made.{made};
ghost use Rattle.oer_cmd.specs.Answer.{value_read};
ghost use Rattle.oer_cmd.specs.Expected.{Says, SaysOf, value as expected};
ghost use Rattle.oer_cmd.specs.Run.{json_text};
ghost use Rattle.serde_json.specs.Written.{compact_text};
ghost use Rattle.oer_cmd.specs.Taking.{GivesValue, status_after};

use crate::ascii::in_ascii;
use crate::canon::check_end;
use crate::fault::Fault;
use oer_decoder::read_with_length;
use oer_options::Style;
use oer_text::to_json;
use oer_types::{Schema, Value};
use oer_units::Source;
use serde_json::Value as Json;
use std::alloc::Global;

/// The one value of the type that the reader has left, which takes no more octets than the limit. Refused
/// as `Read`, `Input` or `Memory` by the reader, and as `Follows` where an octet follows the value, beyond
/// the limit too.
pub fn read_whole<'a, R: Source>(
    alloc: Global,
    schema: &Schema,
    reader: &mut R,
    limit: u64,
) -> Result<Value, Fault<'a>>
    ensures exact { (b : List ℕ) → R.remaining reader.old ≡ Some b → SaysOf value_of b (value_read (the_type schema.now) limit b) result }
    ensures fits { IfOk result (λ read. Fits (the_type schema.now) (value_of read)) }
    ensures takes { GivesValue (the_type schema.now) limit (status_after result) (R.remaining reader.old) (R.remaining reader.new) }
    ensures loan { R.loan reader.new ≡ R.loan reader.old }
{
    let (value, taken) = match read_with_length(alloc, schema, reader, limit) {
        Ok(read) => read,
        Err(fault) => return Err(Fault::of_read(fault)),
    };
    check_end(reader, taken)?;
    Ok(value)
}

#[tactic(auto, using(oer_json::proofs::Floats::made_none))]
// The JSON of a value; fails with `Memory`.
fn json_of<'a>(alloc: Global, schema: &Schema, value: Value) -> Result<Json, Fault<'a>>
    requires { Fits (the_type schema.now) (value_of value) }
    ensures exact { Says view (expected (made (the_type schema.now) (value_of value))) result }
    ensures whole_numbers { IfOk result (λ json. has_float (view json) ≡ false) }
{
    match to_json(alloc, schema, &value) {
        Ok(json) => Ok(json),
        Err(_) => Err(Fault::Memory),
    }
}

// The text of the JSON of a value, without a space; fails with `Memory`.
fn json_text<'a>(alloc: Global, schema: &Schema, value: Value) -> Result<String, Fault<'a>>
    requires { Fits (the_type schema.now) (value_of value) }
    ensures { Says string_bytes (expected (compact_text (made (the_type schema.now) (value_of value)))) result }
{
    let json = json_of(alloc, schema, value)?;
    match json.to_string(alloc) {
        Ok(line) => Ok(line),
        Err(_) => Err(Fault::Memory),
    }
}

/// That text in a style; fails with `Memory`.
pub fn json_line<'a>(
    alloc: Global,
    schema: &Schema,
    value: Value,
    style: Style,
) -> Result<String, Fault<'a>>
    requires { Fits (the_type schema.now) (value_of value) }
    ensures { Says string_bytes (expected (json_text style (made (the_type schema.now) (value_of value)))) result }
{
    let text = json_text(alloc, schema, value)?;
    if !style.ascii {
        return Ok(text);
    }
    match in_ascii(alloc, text.as_str()) {
        Ok(line) => Ok(line),
        Err(_) => Err(Fault::Memory),
    }
}
