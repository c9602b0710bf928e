//! The line of the value that octets encode.
ghost use Rattle.std.specs.Prelude.{◌≡◌, ℕ, List, None, Some, string_bytes};
ghost use Rattle.oer_types.specs.Schema.{the_type};
ghost use Rattle.oer_cmd.specs.Answer.{value_answer, value_text};
ghost use Rattle.oer_cmd.specs.Expected.{Says, SaysOf};
ghost use Rattle.oer_cmd.specs.Taking.{GivesValue, status_after};

use crate::canon::canonical;
use crate::fault::Fault;
use crate::octets::{decoded, in_digits};
use crate::show::{json_line, read_whole};
use oer_options::Style;
use oer_types::Schema;
use oer_units::{Lent, Metered, Source};
use std::alloc::Global;
use std::io::Read;

/// How a value is printed.
#[derive(Clone, Copy)]
pub enum Form {
    /// As its canonical octets, in lower hexadecimal digits.
    Octets,
    /// As its JSON, in this style.
    Json(Style),
}

#[tactic(auto, using(crate::proofs::Exact::digits_text))]
// The line for the octets that the reader has left.
fn read_line<'a, R: Source>(
    alloc: Global,
    schema: &Schema,
    form: Form,
    reader: &mut R,
    limit: u64,
) -> Result<String, Fault<'a>>
    ensures exact { (b : List ℕ) → R.remaining reader.old ≡ Some b → SaysOf string_bytes b (value_text form (the_type schema.now) limit b) result }
    ensures takes { GivesValue (the_type schema.now) limit (status_after result) (R.remaining reader.old) (R.remaining reader.new) }
    ensures loan { R.loan reader.new ≡ R.loan reader.old }
{
    match form {
        Form::Octets => {
            let octets = canonical(alloc, schema, reader, limit)?;
            in_digits(alloc, octets.as_slice())
        }
        Form::Json(style) => {
            let value = read_whole(alloc, schema, reader, limit)?;
            json_line(alloc, schema, value, style)
        }
    }
}

/// The line for the octets that the digits spell.
pub fn value_of_digits<'a>(
    alloc: Global,
    schema: &Schema,
    form: Form,
    digits: &str,
    limit: u64,
) -> Result<String, Fault<'a>>
    ensures { Says string_bytes (value_answer form (the_type schema.now) limit (Some digits.now) None) result }
{
    let octets = decoded(alloc, digits)?;
    let mut reader = Metered::new(octets.as_slice());
    read_line(alloc, schema, form, &mut reader, limit)
}

/// The line for the octets that the input has left.
pub fn value_of_input<'a, R: Read>(
    alloc: Global,
    schema: &Schema,
    form: Form,
    input: &mut R,
    limit: u64,
) -> Result<String, Fault<'a>>
    ensures exact { (b : List ℕ) → R.remaining input.old ≡ Some b → SaysOf string_bytes b (value_text form (the_type schema.now) limit b) result }
    ensures takes { GivesValue (the_type schema.now) limit (status_after result) (R.remaining input.old) (R.remaining input.new) }
{
    read_line(alloc, schema, form, &mut Lent::new(input), limit)
}
