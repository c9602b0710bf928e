//! The JSON of values without parts.
ghost use Rattle.std.specs.Prelude.{◌≡◌, ◌++◌, ◌<◌, IfOk, OnOk, map, string_bytes};
ghost use Rattle.std.specs.Fmt.{decimal};
ghost use Rattle.serde_json.specs.Data.{string};
ghost use Rattle.serde_json.specs.View.{view};
ghost use Rattle.oer_values.specs.ShapeView.{named_number};
ghost use Rattle.oer_json.specs.Made.{made_integer, made_item, made_octets};
ghost use Rattle.oer_literals.specs.Bits.{bit_digit};
ghost use Rattle.oer_literals.specs.Items.{name_of};
ghost use Rattle.oer_json.specs.Texts.{after_points, dotted};

use oer_literals::{name_of, push_bits};
use oer_types::{Bits, Item};
use serde_json::Value as Json;
use std::alloc::{AllocError, Global};

/// A number of 64 bits and a sign, else decimal text.
pub(crate) fn integer_json(alloc: Global, number: i128) -> Result<Json, AllocError>
    ensures { IfOk result (λ j. view j ≡ made_integer number) }
{
    match i64::try_from(number) {
        Ok(small) => Ok(Json::from(small)),
        Err(_) => Ok(Json::from(format!(in alloc; "{number}")?)),
    }
}

/// The name of the item, or its number where no item has it.
pub(crate) fn item_json(alloc: Global, items: &[Item], number: i64) -> Result<Json, AllocError>
    ensures { IfOk result (λ j. view j ≡ made_item (name_of (map named_number items.now) number) number) }
{
    match name_of(items, number) {
        Some(name) => text_json(alloc, name),
        None => Ok(Json::from(number)),
    }
}

/// Two lower-case hexadecimal digits for each octet.
pub(crate) fn octets_json(alloc: Global, octets: &[u8]) -> Result<Json, AllocError>
    ensures { IfOk result (λ j. view j ≡ made_octets octets.now) }
{
    Ok(Json::from(hex::encode(alloc, octets)?))
}

pub(crate) fn text_json(alloc: Global, text: &str) -> Result<Json, AllocError>
    ensures { IfOk result (λ j. view j ≡ string text.now) }
{
    Json::try_from_str(alloc, text)
}

/// A digit for each bit.
pub(crate) fn bits_json(alloc: Global, bits: &Bits) -> Result<Json, AllocError>
    ensures { IfOk result (λ j. view j ≡ string (map bit_digit bits.now)) }
{
    let mut text = String::new(alloc);
    push_bits(&mut text, bits)?;
    Ok(Json::from(text))
}

fn push_number(alloc: Global, text: &mut String, number: u128) -> Result<(), AllocError>
    ensures { OnOk result (string_bytes text.new ≡ string_bytes text.old ++ decimal number) }
{
    let digits = format!(in alloc; "{number}")?;
    text.push_str(digits.as_str())
}

/// Each number after a point.
fn push_after_points(alloc: Global, text: &mut String, numbers: &[u128]) -> Result<(), AllocError>
    ensures { OnOk result (string_bytes text.new ≡ string_bytes text.old ++ after_points numbers.now) }
{
    for number in numbers {
        text.push_str(".")?;
        push_number(alloc, text, *number)?;
    }
    Ok(())
}

/// The numbers with points between them.
pub(crate) fn arcs_json(alloc: Global, arcs: &[u128]) -> Result<Json, AllocError>
    ensures { IfOk result (λ j. view j ≡ string (dotted arcs.now)) }
{
    let mut text = String::new(alloc);
    if let Some((first, rest)) = arcs.split_first() {
        push_number(alloc, &mut text, *first)?;
        push_after_points(alloc, &mut text, rest)?;
    }
    Ok(Json::from(text))
}
