//! What is wrong with octets that a type rejects, and what is wanted there.
ghost use Rattle.std.specs.Prelude.{◌≡◌, IfOk, option_map, string_bytes};
ghost use Rattle.oer_values.specs.ShapeView.{type_of};
ghost use Rattle.oer_explain.specs.OctetsWords.{bounded, bounds_wanted, number_sentence, octets_line, octets_sentence, octets_wanted, outside_of, size_sentence, typed_line, why_sentence};

use crate::json_words::{bounds_text, sentence_line, shown_of, values_wanted};
use oer_types::Shape;
use oer_units::Why;
use std::alloc::{AllocError, Global};

// What the reason says of the place.
fn why_sentence(why: Why) -> &'static str
    ensures { result.now ≡ why_sentence why }
{
    match why {
        Why::Memory => "an allocation failed",
        Why::Device => "a read failed",
        Why::End => "the octets end within the value",
        Why::Limit => "the value would pass the limit",
        Why::Window => { "an addition or an alternative has more octets than its value, or fewer" }
        Why::LengthForm => "a length begins with the octet 80",
        Why::EmptyNumber => "a number has no octets",
        Why::IntegerRange => "a number is out of its range",
        Why::EnumForm => "the number of an item has no octets, or more than 64 bits",
        Why::UnknownEnum => "no item has this number",
        Why::Size => "the value is too short or too long",
        Why::Character => "the type does not have this character, or it is no UTF-8",
        Why::BitUnused => "the number of unused bits is missing or wrong",
        Why::ObjectId => "this is no object identifier",
        Why::PreamblePadding => "a bit behind those of the preamble is set",
        Why::TagForm => "this is no tag, or its number is above 4,294,967,295",
        Why::UnknownAlternative => "no alternative has this tag",
        Why::UnknownAddition => "an addition stands at a place above 65,535",
    }
}

// Of which bounds a number of an INTEGER is outside.
fn outside_of(low: Option<i128>, high: Option<i128>) -> &'static str
    ensures { result.now ≡ outside_of low high }
{
    match (low, high) {
        (None, None) => "the number is outside of -2^127 to 2^127 - 1",
        _ => "the number is outside of the bounds",
    }
}

// Which number is out of its range.
fn number_sentence(shape: &Shape) -> &'static str
    ensures { result.now ≡ number_sentence (type_of shape.now) }
{
    match shape {
        Shape::Integer { low, high } => outside_of(*low, *high),
        _ => "a number is out of its range",
    }
}

// What is too short or too long.
fn size_sentence(shape: &Shape) -> &'static str
    ensures { result.now ≡ size_sentence (type_of shape.now) }
{
    match shape {
        Shape::SequenceOf { .. } => "there are too few elements, or too many",
        _ => "the value is too short or too long",
    }
}

// What is wrong with a part of this type.
fn octets_sentence(why: Why, shape: &Shape) -> &'static str
    ensures { result.now ≡ octets_sentence why (type_of shape.now) }
{
    match why {
        Why::IntegerRange => number_sentence(shape),
        Why::Size => size_sentence(shape),
        _ => why_sentence(why),
    }
}

// An INTEGER within these bounds, if there is one.
fn bounded(alloc: Global, low: Option<i128>, high: Option<i128>) -> Result<String, AllocError>
    ensures { IfOk result (λ text. string_bytes text ≡ bounded low high) }
{
    match (low, high) {
        (None, None) => Ok(String::new(alloc)),
        _ => bounds_text(alloc, low, high),
    }
}

fn bounds_wanted(alloc: Global, shape: &Shape) -> Result<String, AllocError>
    ensures { IfOk result (λ text. string_bytes text ≡ bounds_wanted (type_of shape.now)) }
{
    match shape {
        Shape::Integer { low, high } => bounded(alloc, *low, *high),
        _ => Ok(String::new(alloc)),
    }
}

// What is wanted there.
fn octets_wanted(alloc: Global, why: Why, shape: &Shape) -> Result<String, AllocError>
    ensures { IfOk result (λ text. string_bytes text ≡ octets_wanted why (type_of shape.now)) }
{
    match why {
        Why::IntegerRange => bounds_wanted(alloc, shape),
        Why::Size | Why::Character => values_wanted(alloc, shape),
        Why::UnknownEnum | Why::UnknownAlternative => shown_of(alloc, shape),
        _ => Ok(String::new(alloc)),
    }
}

// The line for a part of this type.
fn typed_line(alloc: Global, why: Why, shape: &Shape) -> Result<String, AllocError>
    ensures { IfOk result (λ line. string_bytes line ≡ typed_line why (type_of shape.now)) }
{
    let wanted = octets_wanted(alloc, why, shape)?;
    sentence_line(alloc, octets_sentence(why, shape), wanted.as_str())
}

/// The line for a part that is rejected for this reason, by its type, if that is known: what is wrong there, and what is wanted. It fails where
/// an allocation does.
pub(crate) fn octets_line(
    alloc: Global,
    why: Why,
    shape: Option<&Shape>,
) -> Result<String, AllocError>
    ensures { IfOk result (λ line. string_bytes line ≡ octets_line why (option_map (λ s. type_of s.now) shape.entry)) }
{
    match shape {
        Some(shape) => typed_line(alloc, why, shape),
        None => sentence_line(alloc, why_sentence(why), ""),
    }
}
