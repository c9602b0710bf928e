//! What is wrong with a part of JSON, and what is wanted there, by its type.
ghost use Rattle.std.specs.Prelude.{◌≡◌, IfOk, string_bytes};
ghost use Rattle.oer_model.specs.WellFormed.{names};
ghost use Rattle.oer_values.specs.ShapeView.{type_of};
ghost use Rattle.oer_explain.specs.JsonNames.{names_shown};
ghost use Rattle.oer_explain.specs.JsonWords.{bounds_text, kind_wanted, misfit_sentence, range_sentence, sentence_line, sentence_of, size_text, unknown_sentence, values_wanted, wanted_of};

use crate::json_names::{names_of, names_shown};
use oer_json::JsonFault;
use oer_types::{Shape, Size};
use std::alloc::{AllocError, Global};

// Of which kind or form JSON has to be.
fn kind_wanted(shape: &Shape) -> &'static str
    ensures { result.now ≡ kind_wanted (type_of shape.now) }
{
    match shape {
        Shape::Boolean => "true or false",
        Shape::Null => "null",
        Shape::Integer { .. } => "a whole number, or its digits as text",
        Shape::Enumerated { .. } => "the name of an item as text, or a whole number",
        Shape::BitString(_) => "text of the digits 0 and 1",
        Shape::OctetString(_) => "text of two hexadecimal digits for each octet",
        Shape::ObjectId => "text of two or more numbers with points between them",
        Shape::Ia5(_)
        | Shape::Visible(_)
        | Shape::Numeric(_)
        | Shape::Printable(_)
        | Shape::Utf8(_) => "text",
        Shape::Sequence { additions, .. } => match additions {
            None => "an object",
            Some(_) => "an object, with hexadecimal digits as text at each key that begins with #",
        },
        Shape::SequenceOf { .. } => "an array",
        Shape::Choice { additions, .. } => match additions {
            None => "an object with one key",
            Some(_) => {
                "an object with one key, and hexadecimal digits as text at a key that begins with #"
            }
        },
    }
}

// Which number is too large.
fn range_sentence(shape: &Shape) -> &'static str
    ensures { result.now ≡ range_sentence (type_of shape.now) }
{
    match shape {
        Shape::Integer { .. } => "the number is outside of -2^127 to 2^127 - 1",
        Shape::Enumerated { .. } => "the number is outside of -2^63 to 2^63 - 1",
        Shape::ObjectId => "a number is above 2^128 - 1",
        Shape::Sequence { additions, .. } => match additions {
            None => "a number is too large",
            Some(_) => "the place in a key that begins with # is above 65,535",
        },
        Shape::Choice { .. } => "the tag in the key is above 4,294,967,295",
        _ => "a number is too large",
    }
}

// What doesn't fit.
fn misfit_sentence(shape: &Shape) -> &'static str
    ensures { result.now ≡ misfit_sentence (type_of shape.now) }
{
    match shape {
        Shape::Integer { .. } => "the number is outside of the bounds",
        Shape::Enumerated { .. } => "no item has this number",
        Shape::ObjectId => "the first two numbers begin no object identifier",
        Shape::BitString(_) | Shape::OctetString(_) | Shape::Utf8(_) => {
            "the text is too short or too long"
        }
        Shape::Ia5(_) | Shape::Visible(_) | Shape::Numeric(_) | Shape::Printable(_) => {
            "the text is too short or too long, or has a character that the type does not have"
        }
        Shape::Sequence { additions, .. } => match additions {
            None => "the value does not fit the type",
            Some(_) => "the type knows the addition of a key that begins with #, by its name",
        },
        Shape::SequenceOf { .. } => "the array has too few elements, or too many",
        Shape::Choice { .. } => "the type knows the alternative of this key, by its name",
        _ => "the value does not fit the type",
    }
}

// So many of this.
fn size_text(alloc: Global, size: Size, unit: &str) -> Result<String, AllocError>
    ensures { IfOk result (λ text. string_bytes text ≡ size_text size unit.now) }
{
    let low = size.low;
    match size.high {
        None => format!(in alloc; "{low} or more {unit}"),
        Some(high) if low == high => format!(in alloc; "{low} {unit}"),
        Some(high) => format!(in alloc; "{low} to {high} {unit}"),
    }
}

/// An INTEGER within these bounds.
pub(crate) fn bounds_text(
    alloc: Global,
    low: Option<i128>,
    high: Option<i128>,
) -> Result<String, AllocError>
    ensures { IfOk result (λ text. string_bytes text ≡ bounds_text low high) }
{
    match (low, high) {
        (None, None) => String::from_str(alloc, "an INTEGER"),
        (Some(low), None) => format!(in alloc; "an INTEGER from {low} on"),
        (None, Some(high)) => format!(in alloc; "an INTEGER up to {high}"),
        (Some(low), Some(high)) => format!(in alloc; "an INTEGER from {low} to {high}"),
    }
}

/// The names of a type.
pub(crate) fn shown_of(alloc: Global, shape: &Shape) -> Result<String, AllocError>
    ensures { IfOk result (λ text. string_bytes text ≡ names_shown (names (type_of shape.now))) }
{
    let names = names_of(alloc, shape)?;
    names_shown(alloc, names.as_slice())
}

/// Which values fit.
pub(crate) fn values_wanted(alloc: Global, shape: &Shape) -> Result<String, AllocError>
    ensures { IfOk result (λ text. string_bytes text ≡ values_wanted (type_of shape.now)) }
{
    match shape {
        Shape::Integer { low, high } => bounds_text(alloc, *low, *high),
        Shape::Enumerated { .. } => shown_of(alloc, shape),
        Shape::BitString(size) => size_text(alloc, *size, "bits"),
        Shape::OctetString(size) => size_text(alloc, *size, "octets"),
        Shape::ObjectId => {
            String::from_str(alloc, "a number up to 2, and behind 0 or 1 one up to 39")
        }
        Shape::Ia5(size) => size_text(alloc, *size, "characters of IA5String"),
        Shape::Visible(size) => size_text(alloc, *size, "characters of VisibleString"),
        Shape::Numeric(size) => size_text(alloc, *size, "characters of NumericString"),
        Shape::Printable(size) => size_text(alloc, *size, "characters of PrintableString"),
        Shape::Utf8(size) => size_text(alloc, *size, "characters"),
        Shape::SequenceOf { size, .. } => size_text(alloc, *size, "elements"),
        _ => Ok(String::new(alloc)),
    }
}

// What is wrong with a part that is rejected as it stands.
fn sentence_of(fault: JsonFault, shape: &Shape) -> &'static str
    ensures { result.now ≡ sentence_of fault (type_of shape.now) }
{
    match fault {
        JsonFault::Memory => "an allocation failed",
        JsonFault::Kind => "this is JSON of another kind or form",
        JsonFault::Name => "no item has this name",
        JsonFault::Missing => "a key is missing",
        JsonFault::Range => range_sentence(shape),
        JsonFault::Misfit => misfit_sentence(shape),
    }
}

// What is wanted there.
fn wanted_of(alloc: Global, fault: JsonFault, shape: &Shape) -> Result<String, AllocError>
    ensures { IfOk result (λ text. string_bytes text ≡ wanted_of fault (type_of shape.now)) }
{
    match fault {
        JsonFault::Kind => String::from_str(alloc, kind_wanted(shape)),
        JsonFault::Name => shown_of(alloc, shape),
        JsonFault::Misfit => values_wanted(alloc, shape),
        JsonFault::Memory | JsonFault::Missing | JsonFault::Range => Ok(String::new(alloc)),
    }
}

// What is wrong with a key that the type doesn't have.
fn unknown_sentence(shape: &Shape) -> &'static str
    ensures { result.now ≡ unknown_sentence (type_of shape.now) }
{
    match shape {
        Shape::Choice { .. } => "no alternative has this name",
        _ => "no component has this name",
    }
}

/// A sentence, with what is wanted, in a line.
pub(crate) fn sentence_line(
    alloc: Global,
    sentence: &str,
    wanted: &str,
) -> Result<String, AllocError>
    ensures { IfOk result (λ line. string_bytes line ≡ sentence_line sentence.now wanted.now) }
{
    if wanted.is_empty() {
        return format!(in alloc; "  {sentence}\n");
    }
    format!(in alloc; "  {sentence}; wanted: {wanted}\n")
}

/// The line for a key that the type doesn't have, with the names that it has. It fails where an allocation does.
pub(crate) fn unknown_line(alloc: Global, shape: &Shape) -> Result<String, AllocError>
    ensures { IfOk result (λ line. string_bytes line
        ≡ sentence_line (unknown_sentence (type_of shape.now)) (names_shown (names (type_of shape.now)))) }
{
    let wanted = shown_of(alloc, shape)?;
    sentence_line(alloc, unknown_sentence(shape), wanted.as_str())
}

/// The line for a part that is rejected as it stands. It fails where an allocation does.
pub(crate) fn fault_line(
    alloc: Global,
    fault: JsonFault,
    shape: &Shape,
) -> Result<String, AllocError>
    ensures { IfOk result (λ line. string_bytes line
        ≡ sentence_line (sentence_of fault (type_of shape.now)) (wanted_of fault (type_of shape.now))) }
{
    let wanted = wanted_of(alloc, fault, shape)?;
    sentence_line(alloc, sentence_of(fault, shape), wanted.as_str())
}
