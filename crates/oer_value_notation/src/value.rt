//! Values after DEFAULT.
ghost use Rattle.std.specs.Prelude.{◌≡◌, [], suc, length, map, option_map, IfOk, string_bytes};
ghost use Rattle.oer_model.specs.AsnValue.{bit_list};
ghost use Rattle.oer_values.specs.ShapeView.{named_number, need_of, type_of};
ghost use Rattle.oer_values.specs.ValueView.{value_of};
ghost use Rattle.oer_value_notation.specs.State.{first, IsReading, state_of};
ghost use Rattle.oer_value_notation.specs.Values.{arcs_at, arcs_more, begins_value, bits_by, bits_from, digit_bits, inside, integer_at, is_number, item_by, need_at, no_value, null_at, octets_by, octets_in, oid_at, some_value, text_by, text_in, text_step, truth_at, value_at};

use crate::cursor::{Cursor, is_same as is_same_sign};
use crate::fault::{TextFault, TextWhy};
use crate::number::{read_arc, read_bound};
use crate::word::is_id;
use hex::FromHexError;
use oer_lexer::{Sign, Token};
use oer_literals::{bits_of_digits, number_named};
use oer_types::{Bits, Item, Need, Shape, Value};
use std::alloc::{AllocError, Global};

/// What makes a component of the type optional.
#[tactic(auto, unfolding(crate::specs::Values::need_at))]
pub fn read_need(
    alloc: Global,
    cursor: &mut Cursor<'_, '_>,
    shape: &Shape,
) -> Result<Need, TextFault>
    ensures { IsReading (λ n. (need_of n, state_of cursor.new)) result (need_at (type_of shape.now) (state_of cursor.old)) }
{
    if cursor.take_word("OPTIONAL") {
        return Ok(Need::May);
    }
    if !cursor.take_word("DEFAULT") {
        return Ok(Need::Must);
    }
    Ok(Need::Default(read_value(alloc, cursor, shape)?))
}

/// A value of the type.
#[tactic(auto, unfolding(crate::specs::Values::value_at))]
fn read_value(alloc: Global, cursor: &mut Cursor<'_, '_>, shape: &Shape) -> Result<Value, TextFault>
    ensures { IsReading (λ v. (value_of v, state_of cursor.new)) result (value_at (type_of shape.now) (state_of cursor.old)) }
{
    match shape {
        Shape::Boolean => read_truth(cursor),
        Shape::Null => read_null(cursor),
        Shape::Integer { .. } => read_integer(cursor),
        Shape::Enumerated { items, .. } => read_item(cursor, items),
        Shape::BitString(_) => read_bits(alloc, cursor),
        Shape::OctetString(_) => read_octets(alloc, cursor),
        Shape::ObjectId => read_object_id(alloc, cursor),
        Shape::Ia5(_) => read_text(alloc, cursor),
        Shape::Visible(_) => read_text(alloc, cursor),
        Shape::Numeric(_) => read_text(alloc, cursor),
        Shape::Printable(_) => read_text(alloc, cursor),
        Shape::Utf8(_) => read_text(alloc, cursor),
        Shape::Sequence { .. } => Err(no_value(cursor)),
        Shape::SequenceOf { .. } => Err(no_value(cursor)),
        Shape::Choice { .. } => Err(no_value(cursor)),
    }
}

/// Whether a value of some type begins with the next token.
fn begins_value(cursor: &Cursor<'_, '_>) -> bool
    ensures { result ≡ begins_value (first (state_of cursor.now)) }
{
    match cursor.peek() {
        Some(Token::Word(word)) => {
            is_id(word) || word == "TRUE" || word == "FALSE" || word == "NULL"
        }
        Some(Token::Sign(sign)) => is_same_sign(sign, Sign::OpenBrace),
        Some(_) => true,
        None => false,
    }
}

/// The fault of a token with which no value of the type begins: Default where one of another type does.
fn no_value(cursor: &Cursor<'_, '_>) -> TextFault
    ensures { result ≡ no_value (state_of cursor.now) }
{
    if begins_value(cursor) {
        return cursor.fault(TextWhy::Default);
    }
    cursor.fault(TextWhy::Syntax)
}

#[tactic(auto, unfolding(crate::specs::Values::truth_at))]
fn read_truth(cursor: &mut Cursor<'_, '_>) -> Result<Value, TextFault>
    ensures { IsReading (λ v. (value_of v, state_of cursor.new)) result (truth_at (state_of cursor.old)) }
{
    if cursor.take_word("TRUE") {
        return Ok(Value::Bool(true));
    }
    if cursor.take_word("FALSE") {
        return Ok(Value::Bool(false));
    }
    Err(no_value(cursor))
}

#[tactic(auto, unfolding(crate::specs::Values::null_at))]
fn read_null(cursor: &mut Cursor<'_, '_>) -> Result<Value, TextFault>
    ensures { IsReading (λ v. (value_of v, state_of cursor.new)) result (null_at (state_of cursor.old)) }
{
    if cursor.take_word("NULL") {
        return Ok(Value::Null);
    }
    Err(no_value(cursor))
}

#[tactic(auto, unfolding(crate::specs::Values::integer_at))]
fn read_integer(cursor: &mut Cursor<'_, '_>) -> Result<Value, TextFault>
    ensures { IsReading (λ v. (value_of v, state_of cursor.new)) result (integer_at (state_of cursor.old)) }
{
    if !is_at_number(cursor) {
        return Err(no_value(cursor));
    }
    Ok(Value::Int(read_bound(cursor)?))
}

/// The number of an item, by its name.
fn read_item(cursor: &mut Cursor<'_, '_>, items: &[Item]) -> Result<Value, TextFault>
    ensures { IsReading (λ v. (value_of v, state_of cursor.new)) result
        (item_by (map named_number items.now) (first (state_of cursor.old)) (state_of cursor.old)) }
{
    let Some(Token::Word(word)) = cursor.peek() else {
        return Err(no_value(cursor));
    };
    if !is_id(word) {
        return Err(no_value(cursor));
    }
    let Some(number) = number_named(items, word) else {
        return Err(cursor.fault(TextWhy::Default));
    };
    cursor.bump();
    Ok(Value::Enum(number))
}

/// What stands between the quotes of digits or bits.
pub fn inside(word: &str) -> &[u8]
    ensures { result.now ≡ inside word.now }
{
    let bytes = word.as_bytes();
    if bytes.len() < 3 {
        return &[];
    }
    &bytes[1..bytes.len() - 2]
}

/// The octets of pairs of hexadecimal digits, if all have a pair.
#[tactic(auto, using(crate::proofs::Turns::octets_given, crate::proofs::Turns::octets_none))]
pub fn octets_in(alloc: Global, digits: &[u8]) -> Result<Option<Vec<u8>>, AllocError>
    ensures { IfOk result (λ o. option_map (λ v. v.items) o ≡ octets_in digits.now) }
{
    match hex::decode(alloc, digits) {
        Ok(octets) => Ok(Some(octets)),
        Err(fault) => match fault {
            FromHexError::OutOfMemory => Err(AllocError),
            _ => Ok(None),
        },
    }
}

/// The first bits of the octets, if these are just as many as the bits need.
fn bits_from(octets: Option<Vec<u8>>, count: u64) -> Option<Bits>
    ensures { result ≡ bits_from (option_map (λ v. v.items) octets) count }
{
    match Bits::from_octets(octets?, count) {
        Ok(bits) => Some(bits),
        Err(_) => None,
    }
}

/// The bits of hexadecimal digits, four each; none where they are too many to be counted.
#[tactic(auto, unfolding(crate::specs::Values::digit_bits))]
pub fn digit_bits(alloc: Global, digits: &[u8]) -> Result<Option<Bits>, AllocError>
    ensures { IfOk result (λ o. o ≡ digit_bits digits.now) }
{
    if digits.len() >= 4611686018427387904 {
        return Ok(None);
    }
    let mut paired = Vec::from_slice(alloc, digits)?;
    if digits.len() % 2 == 1 {
        paired.push(b'0')?;
    }
    let octets = octets_in(alloc, &paired)?;
    Ok(bits_from(octets, 4 * digits.len() as u64))
}

fn read_octets(alloc: Global, cursor: &mut Cursor<'_, '_>) -> Result<Value, TextFault>
    ensures { IsReading (λ v. (value_of v, state_of cursor.new)) result (octets_by (first (state_of cursor.old)) (state_of cursor.old)) }
{
    let Some(Token::Digits(word)) = cursor.peek() else {
        return Err(no_value(cursor));
    };
    let Some(octets) = octets_in(alloc, inside(word))? else {
        return Err(cursor.fault(TextWhy::Default));
    };
    cursor.bump();
    Ok(Value::Octets(octets))
}

fn read_bits(alloc: Global, cursor: &mut Cursor<'_, '_>) -> Result<Value, TextFault>
    ensures { IsReading (λ v. (value_of v, state_of cursor.new)) result (bits_by (first (state_of cursor.old)) (state_of cursor.old)) }
{
    match cursor.peek() {
        Some(Token::Bits(word)) => {
            let bits = bits_of_digits(alloc, inside(word))?;
            cursor.bump();
            Ok(Value::Bits(bits))
        }
        Some(Token::Digits(word)) => read_digit_bits(alloc, cursor, word),
        _ => Err(no_value(cursor)),
    }
}

/// Bits by hexadecimal digits.
fn read_digit_bits(
    alloc: Global,
    cursor: &mut Cursor<'_, '_>,
    word: &str,
) -> Result<Value, TextFault>
    ensures { IsReading (λ v. (value_of v, state_of cursor.new)) result
        (some_value bit_list (digit_bits (inside word.now)) (state_of cursor.old)) }
{
    let Some(bits) = digit_bits(alloc, inside(word))? else {
        return Err(cursor.fault(TextWhy::Default));
    };
    cursor.bump();
    Ok(Value::Bits(bits))
}

/// What the character before says of a quote: it opens the text, is inside, or is the first of two.
#[derive(Clone, Copy)]
pub enum Quoting {
    /// At the opening quote.
    First,
    Plain,
    /// Behind a quote that was left out.
    Quoted,
}

/// The same after this character, which is put out unless it is a quote that is left out.
fn put_character(out: &mut String, quoting: Quoting, c: char) -> Result<Quoting, AllocError>
    ensures { IfOk result (λ p. (p, string_bytes out.new) ≡ text_step (quoting, string_bytes out.old) c) }
{
    match quoting {
        Quoting::First => return Ok(Quoting::Plain),
        Quoting::Plain => {
            if c == '"' {
                return Ok(Quoting::Quoted);
            }
        }
        Quoting::Quoted => (),
    }
    out.push(c)?;
    Ok(Quoting::Plain)
}

/// What stands between the quotes of a text, each quote inside once.
pub fn text_in(alloc: Global, word: &str) -> Result<String, AllocError>
    ensures { IfOk result (λ s. string_bytes s ≡ text_in word.now) }
{
    let mut out = String::new(alloc);
    let mut quoting = Quoting::First;
    'characters: for c in word.chars() {
        quoting = put_character(&mut out, quoting, c)?;
    }
    Ok(out)
}

fn read_text(alloc: Global, cursor: &mut Cursor<'_, '_>) -> Result<Value, TextFault>
    ensures { IsReading (λ v. (value_of v, state_of cursor.new)) result (text_by (first (state_of cursor.old)) (state_of cursor.old)) }
{
    let Some(Token::Text(word)) = cursor.peek() else {
        return Err(no_value(cursor));
    };
    let text = text_in(alloc, word)?;
    cursor.bump();
    Ok(Value::Text(text))
}

fn is_at_number(cursor: &Cursor<'_, '_>) -> bool
    ensures { result ≡ is_number (first (state_of cursor.now)) }
{
    match cursor.peek() {
        Some(Token::Number(_)) => true,
        _ => false,
    }
}

/// Arcs, up to what isn't a number.
fn read_arcs(alloc: Global, cursor: &mut Cursor<'_, '_>) -> Result<Vec<u128>, TextFault>
    ensures { IsReading (λ v. (v.items, state_of cursor.new)) result (arcs_more (suc (length (state_of cursor.old).left)) [] (state_of cursor.old)) }
{
    let mut arcs = Vec::new(alloc);
    'arcs: for turn in 0..cursor.spots.len() + 1 {
        if !is_at_number(cursor) {
            return Ok(arcs);
        }
        let arc = read_arc(cursor)?;
        arcs.push(arc)?;
    }
    Err(cursor.stop)
}

/// Two arcs or more, and the closing brace.
#[tactic(auto, unfolding(crate::specs::Values::arcs_at))]
fn read_arcs_and_brace(alloc: Global, cursor: &mut Cursor<'_, '_>) -> Result<Value, TextFault>
    ensures { IsReading (λ v. (value_of v, state_of cursor.new)) result (arcs_at (state_of cursor.old)) }
{
    let arcs = read_arcs(alloc, cursor)?;
    if arcs.len() < 2 {
        return Err(cursor.fault(TextWhy::Syntax));
    }
    cursor.expect(Sign::CloseBrace)?;
    Ok(Value::Oid(arcs))
}

/// Arcs in braces.
#[tactic(auto, unfolding(crate::specs::Values::oid_at))]
fn read_object_id(alloc: Global, cursor: &mut Cursor<'_, '_>) -> Result<Value, TextFault>
    ensures { IsReading (λ v. (value_of v, state_of cursor.new)) result (oid_at (state_of cursor.old)) }
{
    if !cursor.take(Sign::OpenBrace) {
        return Err(no_value(cursor));
    }
    read_arcs_and_brace(alloc, cursor)
}
