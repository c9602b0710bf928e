//! The line that `oer example` prints.
ghost use Rattle.std.specs.Prelude.{◌≡◌, ◌≤◌, IfErr, IfOk, string_bytes};
ghost use Rattle.oer_example_cmd.specs.Line.{IsTakenAs, line_of, random_line as spec_random_line, skeleton_line, wanted_line as spec_wanted_line, wanted_weight};
ghost use Rattle.oer_model.specs.Fits.{Fits};
ghost use Rattle.oer_random.specs.Drawn.{random_value};
ghost use Rattle.oer_random.specs.Weight.{random_weight};
ghost use Rattle.oer_skeleton.specs.Skeleton.{skeleton};
ghost use Rattle.oer_skeleton.specs.Weight.{Refuses, max_weight, weight};
ghost use Rattle.oer_skeleton.specs.declared.fault.SkeletonFault.TheVariants.{Memory};
ghost use Rattle.oer_types.specs.Schema.{the_type};
ghost use Rattle.oer_values.specs.ValueView.{value_of};

use crate::wanted::Wanted;
use oer_json::to_json;
use oer_random::random;
use oer_skeleton::{Parts, SkeletonFault, with_parts};
use oer_types::Schema;
use oer_values::Value;
use std::alloc::Global;

/// The JSON of the value, as a text without a space.
fn text_of(alloc: Global, schema: &Schema, value: &Value) -> Result<String, SkeletonFault>
    requires { Fits (the_type schema.now) (value_of value.now) }
    ensures line { IfOk result (λ line. string_bytes line ≡ line_of (the_type schema.now) (value_of value.now)) }
    ensures taken { IfOk result (λ line. IsTakenAs (the_type schema.now) (value_of value.now) (string_bytes line)) }
    ensures memory { IfErr result (λ fault. fault ≡ Memory) }
{
    let json = match to_json(alloc, schema, value) {
        Ok(json) => json,
        Err(_) => return Err(SkeletonFault::Memory),
    };
    match json.to_string(alloc) {
        Ok(line) => Ok(line),
        Err(_) => Err(SkeletonFault::Memory),
    }
}

/// The JSON of the value of the type that has these parts, as a text without a space. `make` takes it as
/// that value.
///
/// # Errors
/// TooLong exactly where the value would have more than 65,536 parts, and Memory if an allocation fails.
pub fn example_line(alloc: Global, schema: &Schema, parts: Parts) -> Result<String, SkeletonFault>
    ensures line { IfOk result (λ line. string_bytes line ≡ skeleton_line parts (the_type schema.now)) }
    ensures taken { IfOk result (λ line. IsTakenAs (the_type schema.now) (skeleton parts (the_type schema.now)) (string_bytes line)) }
    ensures most { IfOk result (λ line. weight parts (the_type schema.now) ≤ max_weight) }
    ensures refused { IfErr result (λ fault. Refuses fault (weight parts (the_type schema.now))) }
{
    let value = with_parts(alloc, schema, parts)?;
    text_of(alloc, schema, &value)
}

/// The JSON of the value of the type that the seed gives, as a text without a space. `make` takes it as
/// that value.
///
/// # Errors
/// TooLong exactly where the value would have more than 65,536 parts, and Memory if an allocation fails.
pub fn random_line(alloc: Global, schema: &Schema, seed: u64) -> Result<String, SkeletonFault>
    ensures line { IfOk result (λ line. string_bytes line ≡ spec_random_line seed (the_type schema.now)) }
    ensures taken { IfOk result (λ line. IsTakenAs (the_type schema.now) (random_value seed (the_type schema.now)) (string_bytes line)) }
    ensures most { IfOk result (λ line. random_weight seed (the_type schema.now) ≤ max_weight) }
    ensures refused { IfErr result (λ fault. Refuses fault (random_weight seed (the_type schema.now))) }
{
    let value = random(alloc, schema, seed)?;
    text_of(alloc, schema, &value)
}

/// The JSON of the value that is wanted.
pub(crate) fn wanted_line(
    alloc: Global,
    schema: &Schema,
    wanted: Wanted,
) -> Result<String, SkeletonFault>
    ensures line { IfOk result (λ line. string_bytes line ≡ spec_wanted_line wanted (the_type schema.now)) }
    ensures most { IfOk result (λ line. wanted_weight wanted (the_type schema.now) ≤ max_weight) }
    ensures refused { IfErr result (λ fault. Refuses fault (wanted_weight wanted (the_type schema.now))) }
{
    match wanted {
        Wanted::Skeleton(parts) => example_line(alloc, schema, parts),
        Wanted::Random(seed) => random_line(alloc, schema, seed),
    }
}
