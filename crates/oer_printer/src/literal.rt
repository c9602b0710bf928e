//! The text of values after DEFAULT.
ghost use Rattle.std.specs.Prelude.{◌≡◌, [], ◌∷◌, ◌++◌, OnOk, codes, map, option_map, string_bytes};
ghost use Rattle.std.specs.Str.{chars};
ghost use Rattle.hex.specs.Hex.{encode_upper};
ghost use Rattle.oer_lexer.specs.Characters.{quote};
ghost use Rattle.oer_model.specs.AsnValue.{oid};
ghost use Rattle.oer_values.specs.ShapeView.{type_of};
ghost use Rattle.oer_values.specs.ValueView.{value_of};
ghost use Rattle.oer_printer.specs.Printer.{Puts};
ghost use Rattle.oer_literals.specs.Bits.{bit_digit};
ghost use Rattle.oer_literals.specs.Items.{items_of};
ghost use Rattle.oer_printer.specs.Printing.{doubled, inside_quotes, is_visible, name_tokens, natural_token, quoted_text, truth_word, value_has_notation, value_tokens};
ghost use Rattle.oer_lexer.specs.Token.{bits as of_bits, digits, text as of_text, word};

use crate::printer::Printer;
use oer_lexer::{Sign, Token};
use oer_literals::{items_of, name_of, push_bits};
use oer_types::{Bits, Shape, Value};
use std::alloc::{AllocError, Global};

fn is_visible(text: &str) -> bool
    ensures { result ≡ is_visible (chars text.now) }
{
    for c in text.chars() {
        if (c as u32) < 32 {
            return false;
        }
    }
    true
}

/// Whether there is a notation for the value, as one of the type.
pub fn value_has_notation(value: &Value, shape: &Shape) -> bool
    ensures { result ≡ value_has_notation (items_of (type_of shape.now)) (value_of value.now) }
{
    match value {
        Value::Enum(number) => name_of(items_of(shape), *number).is_some(),
        Value::Text(text) => is_visible(text.as_str()),
        Value::Seq { .. } => false,
        Value::List(_) => false,
        Value::Chosen { .. } => false,
        Value::Foreign { .. } => false,
        _ => true,
    }
}

/// A value that is a default of the type; nothing where it has no notation.
pub fn put_value(
    alloc: Global,
    printer: &mut Printer,
    value: &Value,
    shape: &Shape,
) -> Result<(), AllocError>
    ensures { Puts (value_tokens (items_of (type_of shape.now)) (value_of value.now)) printer.old result printer.new }
{
    match value {
        Value::Bool(truth) => put_truth(printer, *truth),
        Value::Null => printer.word("NULL"),
        Value::Int(number) => printer.integer(alloc, *number),
        Value::Enum(number) => put_name(printer, name_of(items_of(shape), *number)),
        Value::Bits(bits) => put_bits(alloc, printer, bits),
        Value::Octets(octets) => put_octets(alloc, printer, octets),
        Value::Text(text) => put_text(alloc, printer, text.as_str()),
        Value::Oid(arcs) => put_object_id(alloc, printer, arcs),
        Value::Seq { .. } => Ok(()),
        Value::List(_) => Ok(()),
        Value::Chosen { .. } => Ok(()),
        Value::Foreign { .. } => Ok(()),
    }
}

fn put_truth(printer: &mut Printer, truth: bool) -> Result<(), AllocError>
    ensures { Puts (word (truth_word truth) ∷ []) printer.old result printer.new }
{
    if truth {
        return printer.word("TRUE");
    }
    printer.word("FALSE")
}

fn put_name(printer: &mut Printer, name: Option<&str>) -> Result<(), AllocError>
    ensures { Puts (name_tokens (option_map (λ s. s.now) name.entry)) printer.old result printer.new }
{
    match name {
        Some(name) => printer.word(name),
        None => Ok(()),
    }
}

fn put_bits(alloc: Global, printer: &mut Printer, bits: &Bits) -> Result<(), AllocError>
    ensures { Puts (of_bits (quote ∷ (map bit_digit bits.now ++ codes "'B")) ∷ []) printer.old result printer.new }
{
    let mut text = String::new(alloc);
    text.push('\'')?;
    push_bits(&mut text, bits)?;
    text.push_str("'B")?;
    printer.put(Token::Bits(text.as_str()))
}

fn put_octets(alloc: Global, printer: &mut Printer, octets: &[u8]) -> Result<(), AllocError>
    ensures { Puts (digits (quote ∷ (encode_upper octets.now ++ codes "'H")) ∷ []) printer.old result printer.new }
{
    let mut text = String::new(alloc);
    text.push('\'')?;
    text.push_str(hex::encode_upper(alloc, octets)?.as_str())?;
    text.push_str("'H")?;
    printer.put(Token::Digits(text.as_str()))
}

/// A character inside a text: a quote is doubled.
fn push_inside(text: &mut String, c: char) -> Result<(), AllocError>
    ensures { OnOk result (string_bytes text.new ≡ string_bytes text.old ++ inside_quotes c) }
{
    if c == '"' {
        return text.push_str("\"\"");
    }
    text.push(c)
}

fn push_doubled(out: &mut String, text: &str) -> Result<(), AllocError>
    ensures { OnOk result (string_bytes out.new ≡ string_bytes out.old ++ doubled (chars text.now)) }
{
    'characters: for c in text.chars() {
        push_inside(out, c)?;
    }
    Ok(())
}

fn put_text(alloc: Global, printer: &mut Printer, text: &str) -> Result<(), AllocError>
    ensures { Puts (of_text (quoted_text text.now) ∷ []) printer.old result printer.new }
{
    let mut out = String::new(alloc);
    out.push('"')?;
    push_doubled(&mut out, text)?;
    out.push('"')?;
    printer.put(Token::Text(out.as_str()))
}

fn put_arcs(alloc: Global, printer: &mut Printer, arcs: &[u128]) -> Result<(), AllocError>
    ensures { Puts (map natural_token arcs.now) printer.old result printer.new }
{
    for arc in arcs {
        printer.natural(alloc, *arc)?;
    }
    Ok(())
}

#[tactic(auto, using(crate::proofs::Printed::run_append))]
fn put_object_id(alloc: Global, printer: &mut Printer, arcs: &[u128]) -> Result<(), AllocError>
    ensures { Puts (value_tokens [] (oid arcs.now)) printer.old result printer.new }
{
    printer.sign(Sign::OpenBrace)?;
    put_arcs(alloc, printer, arcs)?;
    printer.sign(Sign::CloseBrace)
}
