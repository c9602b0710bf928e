//! Whole values, read and written.
ghost use Rattle.std.specs.Prelude.{IfSome};
ghost use Rattle.oer_model.specs.Fits.{Fits};
ghost use Rattle.oer_types.specs.Schema.{the_type};
ghost use Rattle.oer_values.specs.ValueView.{value_of};

use crate::pieces::Pieces;
use crate::twice::{Twice, of_turn};
use oer_reader::{check, read, rewrite};
use oer_text::{parse_type, parse_types};
use oer_types::{Schema, Value, fits};
use oer_units::{Metered, Source};
use oer_writer::{length, write};
use std::alloc::Global;

/// Whether the value is read from this reader: 1 where it is.
fn reads<R: Source>(alloc: Global, schema: &Schema, reader: &mut R) -> u64 {
    match read(alloc, schema, reader, u64::MAX) {
        Ok(_) => 1,
        Err(_) => 0,
    }
}

/// Whether the value is read from this reader and fits its type: 1 where both hold.
fn reads_fitting<R: Source>(alloc: Global, schema: &Schema, reader: &mut R) -> u64 {
    match read(alloc, schema, reader, u64::MAX) {
        Ok(value) if fits(schema, &value) => 1,
        _ => 0,
    }
}

/// How many octets the value is rewritten as, into an empty vector; 0 where it is not.
fn rewrites(alloc: Global, schema: &Schema, octets: &[u8]) -> u64 {
    let mut reader = Metered::new(octets);
    let mut sink = Metered::new(Vec::new(alloc));
    match rewrite(alloc, schema, &mut reader, u64::MAX, &mut sink) {
        Ok((_, count)) => count,
        Err(_) => 0,
    }
}

/// What is found of the encoding at the front, which is checked without making its value: twice the number
/// of its octets, and 1 more where it is canonical; 0 where there is none.
fn checks(schema: &Schema, octets: &[u8]) -> u64 {
    match check(schema, octets) {
        Ok(verdict) => (verdict.octets as u64)
            .wrapping_mul(2)
            .wrapping_add(u64::from(verdict.canonical)),
        Err(_) => 0,
    }
}

/// A turn that reads; none where the task is another.
fn turn_read(alloc: Global, task: &str, schema: &Schema, octets: &[u8]) -> Option<u64> {
    let piece = |most| Metered::new(Pieces { octets, most });
    match task {
        "read" => Some(reads(alloc, schema, &mut Metered::new(octets))),
        "read-octets" => Some(reads(alloc, schema, &mut piece(1))),
        "read-blocks" => Some(reads(alloc, schema, &mut piece(4096))),
        "rewrite" => Some(rewrites(alloc, schema, octets)),
        "check" => Some(checks(schema, octets)),
        "fit" => Some(reads_fitting(alloc, schema, &mut Metered::new(octets))),
        _ => None,
    }
}

/// How many turns read the value; none where the task is another.
fn turns_read(
    alloc: Global,
    task: &str,
    schema: &Schema,
    octets: &Twice,
    turns: u32,
) -> Option<u64> {
    let mut sum = 0u64;
    for turn in 0..turns {
        sum = sum.wrapping_add(turn_read(alloc, task, schema, octets.of_turn(turn))?);
    }
    Some(sum)
}

/// How many octets the value has; 0 where it is too long.
fn length_of(schema: &Schema, value: &Value) -> u64
    requires { Fits (the_type schema.now) (value_of value.now) }
{
    length(schema, value).unwrap_or(0)
}

/// The lengths of all turns.
fn turns_length(schema: &Schema, one: &Value, other: &Value, turns: u32) -> u64
    requires one { Fits (the_type schema.now) (value_of one.now) }
    requires other { Fits (the_type schema.now) (value_of other.now) }
{
    let mut sum = 0u64;
    for turn in 0..turns {
        let count = if turn.is_multiple_of(2) {
            length_of(schema, one)
        } else {
            length_of(schema, other)
        };
        sum = sum.wrapping_add(count);
    }
    sum
}

/// How many octets are written of the value, into an empty vector; 0 where it is not.
fn writes(alloc: Global, schema: &Schema, value: &Value) -> u64
    requires { Fits (the_type schema.now) (value_of value.now) }
{
    let mut sink = Metered::new(Vec::new(alloc));
    write(schema, value, &mut sink).unwrap_or(0)
}

/// How many octets all turns write.
fn turns_write(alloc: Global, schema: &Schema, one: &Value, other: &Value, turns: u32) -> u64
    requires one { Fits (the_type schema.now) (value_of one.now) }
    requires other { Fits (the_type schema.now) (value_of other.now) }
{
    let mut sum = 0u64;
    for turn in 0..turns {
        let count = if turn.is_multiple_of(2) {
            writes(alloc, schema, one)
        } else {
            writes(alloc, schema, other)
        };
        sum = sum.wrapping_add(count);
    }
    sum
}

/// The value that the octets encode, if it fits its type; none where they encode none.
fn fitting(alloc: Global, schema: &Schema, octets: &[u8]) -> Option<Value>
    ensures { IfSome result (λ value. Fits (the_type schema.now) (value_of value)) }
{
    let mut reader = Metered::new(octets);
    let value = read(alloc, schema, &mut reader, u64::MAX).ok()?;
    if !fits(schema, &value) {
        return None;
    }
    Some(value)
}

/// The turns of a task that writes the value that the octets encode; none where they encode none.
fn turns_on_value(
    alloc: Global,
    task: &str,
    schema: &Schema,
    octets: &Twice,
    turns: u32,
) -> Option<u64> {
    let one = fitting(alloc, schema, octets.one.as_slice())?;
    let other = fitting(alloc, schema, octets.other.as_slice())?;
    if task == "measure" {
        return Some(turns_length(schema, &one, &other, turns));
    }
    Some(turns_write(alloc, schema, &one, &other, turns))
}

/// The turns of a task on the type and the octets.
pub(crate) fn turns_on(
    alloc: Global,
    task: &str,
    schema: &Schema,
    octets: &Twice,
    turns: u32,
) -> Option<u64> {
    match task {
        "measure" | "write" => turns_on_value(alloc, task, schema, octets, turns),
        _ => turns_read(alloc, task, schema, octets, turns),
    }
}

/// How many turns parse the definitions of the text, of which there are two copies.
pub(crate) fn turns_parse(alloc: Global, one: &str, other: &str, turns: u32) -> u64 {
    let mut sum = 0u64;
    for turn in 0..turns {
        if parse_types(alloc, of_turn(turn, one, other)).is_ok() {
            sum = sum.wrapping_add(1);
        }
    }
    sum
}

/// How many turns find that the type of the text is well-formed; none where it is no type.
pub(crate) fn turns_new(alloc: Global, text: &str, turns: u32) -> Option<u64> {
    let mut shape = parse_type(alloc, text).ok()?.into_shape();
    let mut sum = 0u64;
    for _ in 0..turns {
        match Schema::new(shape) {
            Ok(schema) => {
                shape = schema.into_shape();
                sum = sum.wrapping_add(1);
            }
            Err((_, refused)) => shape = refused,
        }
    }
    Some(sum)
}
