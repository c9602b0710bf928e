//! Values without parts, from JSON.
ghost use Rattle.std.specs.Prelude.{map, string_bytes};
ghost use Rattle.serde_json.specs.View.{number_view, view};
ghost use Rattle.oer_values.specs.ShapeView.{named_number, type_of};
ghost use Rattle.oer_values.specs.ValueView.{value_of};
ghost use Rattle.oer_json.specs.Answer.{IsSameOrMemory};
ghost use Rattle.oer_json.specs.Take.{arcs_in, bits_in, bits_of_text, bool_in, decimal_in, dotted_in, fitting, held, held_small, in_64_bits, integer_in, item_in, item_named, leaf_in, null_in, octets_in, take_leaf, text_in};

use crate::dotted::dotted_in;
use crate::fault::JsonFault;
use crate::texts::{are_bits, is_whole};
use hex::FromHexError;
use oer_literals::{bits_of_digits, integer_of, number_named};
use oer_types::{Bits, Item, Shape, Value, fits_shape};
use serde_json::{Number, Value as Json};
use std::alloc::Global;

/// The value, if it fits.
pub(crate) fn fitting(shape: &Shape, value: Value) -> Result<Value, JsonFault>
    ensures { IsSameOrMemory value_of result (fitting (type_of shape.now) (value_of value)) }
{
    if !fits_shape(shape, &value) {
        return Err(JsonFault::Misfit);
    }
    Ok(value)
}

fn bool_in(json: &Json) -> Result<bool, JsonFault>
    ensures { IsSameOrMemory (λ b. b) result (bool_in (view json.now)) }
{
    match json.as_bool() {
        Some(truth) => Ok(truth),
        None => Err(JsonFault::Kind),
    }
}

#[tactic(auto, using(crate::proofs::Views::trees))]
fn null_in(json: &Json) -> Result<(), JsonFault>
    ensures { IsSameOrMemory (λ u. u) result (null_in (view json.now)) }
{
    match json {
        Json::Null => Ok(()),
        _ => Err(JsonFault::Kind),
    }
}

/// A number that JSON holds as a whole one.
#[tactic(auto, using(crate::proofs::Numbers::held_signed, crate::proofs::Numbers::held_unsigned, crate::proofs::Numbers::not_held))]
fn held(number: &Number) -> Result<i128, JsonFault>
    ensures { IsSameOrMemory (λ z. z) result (held (number_view number.now)) }
{
    if let Some(whole) = number.as_i64() {
        return Ok(i128::from(whole));
    }
    match number.as_u64() {
        Some(whole) => Ok(i128::from(whole)),
        None => Err(JsonFault::Kind),
    }
}

/// A whole number in decimal.
#[tactic(auto, unfolding(crate::specs::Take::decimal_in))]
fn decimal_in(text: &str) -> Result<i128, JsonFault>
    ensures { IsSameOrMemory (λ z. z) result (decimal_in text.now) }
{
    if !is_whole(text.as_bytes()) {
        return Err(JsonFault::Kind);
    }
    match integer_of(text) {
        Some(number) => Ok(number),
        None => Err(JsonFault::Range),
    }
}

#[tactic(auto, using(crate::proofs::Views::trees))]
fn integer_in(json: &Json) -> Result<i128, JsonFault>
    ensures { IsSameOrMemory (λ z. z) result (integer_in (view json.now)) }
{
    match json {
        Json::Number(number) => held(number),
        Json::String(text) => decimal_in(text.as_str()),
        Json::Null => Err(JsonFault::Kind),
        Json::Bool(_) => Err(JsonFault::Kind),
        Json::Array(_) => Err(JsonFault::Kind),
        Json::Object(_) => Err(JsonFault::Kind),
    }
}

fn in_64_bits(number: i128) -> Result<i64, JsonFault>
    ensures { IsSameOrMemory (λ z. z) result (in_64_bits number) }
{
    match i64::try_from(number) {
        Ok(small) => Ok(small),
        Err(_) => Err(JsonFault::Range),
    }
}

#[tactic(auto, unfolding(crate::specs::Take::held_small))]
fn held_small(number: &Number) -> Result<i64, JsonFault>
    ensures { IsSameOrMemory (λ z. z) result (held_small (number_view number.now)) }
{
    let number = held(number)?;
    in_64_bits(number)
}

fn item_named(items: &[Item], name: &str) -> Result<i64, JsonFault>
    ensures { IsSameOrMemory (λ z. z) result (item_named (map named_number items.now) name.now) }
{
    match number_named(items, name) {
        Some(number) => Ok(number),
        None => Err(JsonFault::Name),
    }
}

#[tactic(auto, using(crate::proofs::Views::trees))]
fn item_in(items: &[Item], json: &Json) -> Result<i64, JsonFault>
    ensures { IsSameOrMemory (λ z. z) result (item_in (map named_number items.now) (view json.now)) }
{
    match json {
        Json::Number(number) => held_small(number),
        Json::String(text) => item_named(items, text.as_str()),
        Json::Null => Err(JsonFault::Kind),
        Json::Bool(_) => Err(JsonFault::Kind),
        Json::Array(_) => Err(JsonFault::Kind),
        Json::Object(_) => Err(JsonFault::Kind),
    }
}

fn text_in(json: &Json) -> Result<&str, JsonFault>
    ensures { IsSameOrMemory (λ s. s.now) result (text_in (view json.now)) }
{
    match json.as_str() {
        Some(text) => Ok(text),
        None => Err(JsonFault::Kind),
    }
}

fn string_in(alloc: Global, json: &Json) -> Result<String, JsonFault>
    ensures { IsSameOrMemory (λ s. string_bytes s) result (text_in (view json.now)) }
{
    let text = text_in(json)?;
    let text = String::from_str(alloc, text)?;
    Ok(text)
}

/// Octets, two hexadecimal digits each.
#[tactic(auto, unfolding(crate::specs::Take::octets_in))]
pub(crate) fn octets_in(alloc: Global, json: &Json) -> Result<Vec<u8>, JsonFault>
    ensures { IsSameOrMemory (λ v. v.items) result (octets_in (view json.now)) }
{
    let text = text_in(json)?;
    match hex::decode(alloc, text) {
        Ok(octets) => Ok(octets),
        Err(fault) => match fault {
            FromHexError::OutOfMemory => Err(JsonFault::Memory),
            _ => Err(JsonFault::Kind),
        },
    }
}

/// The bits of digits 0 and 1.
fn bits_of_text(alloc: Global, digits: &[u8]) -> Result<Bits, JsonFault>
    ensures { IsSameOrMemory (λ b. b) result (bits_of_text digits.now) }
{
    if !are_bits(digits) {
        return Err(JsonFault::Kind);
    }
    let bits = bits_of_digits(alloc, digits)?;
    Ok(bits)
}

#[tactic(auto, unfolding(crate::specs::Take::bits_in))]
fn bits_in(alloc: Global, json: &Json) -> Result<Bits, JsonFault>
    ensures { IsSameOrMemory (λ b. b) result (bits_in (view json.now)) }
{
    let text = text_in(json)?;
    bits_of_text(alloc, text.as_bytes())
}

#[tactic(auto, unfolding(crate::specs::Take::arcs_in))]
fn arcs_in(alloc: Global, json: &Json) -> Result<Vec<u128>, JsonFault>
    ensures { IsSameOrMemory (λ v. v.items) result (arcs_in (view json.now)) }
{
    let text = text_in(json)?;
    dotted_in(alloc, text)
}

/// The value of a type that holds no other, whether it fits or not.
#[tactic(auto, using(crate::proofs::Levels::levels))]
fn leaf_in(shape: &Shape, alloc: Global, json: &Json) -> Result<Value, JsonFault>
    ensures { IsSameOrMemory value_of result (leaf_in (type_of shape.now) (view json.now)) }
{
    match shape {
        Shape::Boolean => Ok(Value::Bool(bool_in(json)?)),
        Shape::Null => {
            null_in(json)?;
            Ok(Value::Null)
        }
        Shape::Integer { .. } => Ok(Value::Int(integer_in(json)?)),
        Shape::Enumerated { items, .. } => Ok(Value::Enum(item_in(items, json)?)),
        Shape::BitString(_) => Ok(Value::Bits(bits_in(alloc, json)?)),
        Shape::OctetString(_) => Ok(Value::Octets(octets_in(alloc, json)?)),
        Shape::ObjectId => Ok(Value::Oid(arcs_in(alloc, json)?)),
        Shape::Ia5(_)
        | Shape::Visible(_)
        | Shape::Numeric(_)
        | Shape::Printable(_)
        | Shape::Utf8(_) => Ok(Value::Text(string_in(alloc, json)?)),
        _ => Err(JsonFault::Kind),
    }
}

/// The value of a type that holds no other, if it fits.
pub(crate) fn take_leaf(shape: &Shape, alloc: Global, json: &Json) -> Result<Value, JsonFault>
    ensures { IsSameOrMemory value_of result (take_leaf (type_of shape.now) (view json.now)) }
{
    let value = leaf_in(shape, alloc, json)?;
    fitting(shape, value)
}
