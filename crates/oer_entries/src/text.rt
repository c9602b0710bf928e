//! The text of names, paths and kinds.
ghost use Rattle.std.specs.Prelude.{◌≡◌, ◌++◌, IfOk, OnOk, option_map, string_bytes, take};
ghost use Rattle.std.specs.String.Boundary.{IsSplitPoint};
ghost use Rattle.oer_values.specs.ShapeView.{type_of};
ghost use Rattle.oer_entries.specs.Kinds.{kind_text};
ghost use Rattle.oer_entries.specs.Names.{text_of};
ghost use Rattle.oer_entries.specs.Ways.{pointed, step_text};

use crate::frame::Name;
use oer_json::{place_key, tag_key};
use oer_reader::Step;
use oer_types::Shape;
use std::alloc::{AllocError, Global};
use std::fmt::Write;

/// What a type is called in the notation.
#[tactic(auto, using(crate::proofs::Called::kinds))]
pub(crate) fn kind_of(shape: Option<&Shape>) -> &'static str
    ensures { result.now ≡ kind_text (option_map (λ s. type_of s.now) shape.entry) }
{
    let Some(shape) = shape else {
        return "unknown";
    };
    match shape {
        Shape::Boolean => "BOOLEAN",
        Shape::Null => "NULL",
        Shape::Integer { .. } => "INTEGER",
        Shape::Enumerated { .. } => "ENUMERATED",
        Shape::BitString(_) => "BIT STRING",
        Shape::OctetString(_) => "OCTET STRING",
        Shape::ObjectId => "OBJECT IDENTIFIER",
        Shape::Ia5(_) => "IA5String",
        Shape::Visible(_) => "VisibleString",
        Shape::Numeric(_) => "NumericString",
        Shape::Printable(_) => "PrintableString",
        Shape::Utf8(_) => "UTF8String",
        Shape::Sequence { .. } => "SEQUENCE",
        Shape::SequenceOf { .. } => "SEQUENCE OF",
        Shape::Choice { .. } => "CHOICE",
    }
}

/// The text of a name; what the type doesn't know has the key that it has in JSON (docs/JSON.md).
pub fn name_text(alloc: Global, name: Name<'_>) -> Result<String, AllocError>
    ensures { IfOk result (λ text. string_bytes text ≡ text_of name.entry) }
{
    match name {
        Name::Whole => Ok(String::new(alloc)),
        Name::Text(text) => String::from_str(alloc, text),
        Name::Item(index) => format!(in alloc; "{index}"),
        Name::Addition(index) => place_key(alloc, index),
        Name::Alternative(tag) => tag_key(alloc, tag),
    }
}

// Appends a point, where the text isn't empty.
fn push_point(text: &mut String) -> Result<(), AllocError>
    ensures { OnOk result (string_bytes text.new ≡ pointed (string_bytes text.old)) }
{
    if text.is_empty() {
        return Ok(());
    }
    text.push_str(".")
}

/// Appends the text of a step, as in the spelling of a path, after a point where it isn't the first.
pub(crate) fn push_step(text: &mut String, step: Step) -> Result<(), AllocError>
    ensures { OnOk result (string_bytes text.new ≡ pointed (string_bytes text.old) ++ step_text step) }
{
    push_point(text)?;
    match step {
        Step::Component(index) => write!(text, "c{index}"),
        Step::Addition(index) => write!(text, "a{index}"),
        Step::Item(index) => write!(text, "i{index}"),
        Step::Chosen => text.push_str("v"),
    }
}

/// Appends a name, after a point where it isn't the first.
pub(crate) fn push_name(alloc: Global, text: &mut String, name: Name<'_>) -> Result<(), AllocError>
    ensures { OnOk result (string_bytes text.new ≡ pointed (string_bytes text.old) ++ text_of name.entry) }
{
    push_point(text)?;
    match name {
        Name::Text(name) => text.push_str(name),
        Name::Item(index) => write!(text, "{index}"),
        _ => text.push_str(name_text(alloc, name)?.as_str()),
    }
}

/// Cuts the text back to so many octets. Where they end within a character it stays.
pub(crate) fn cut(text: &mut String, count: usize)
    ensures { IsSplitPoint (string_bytes text.old) count → string_bytes text.new ≡ take count (string_bytes text.old) }
{
    if text.is_char_boundary(count) {
        text.truncate(count);
    }
}
