//! The value of a type that a seed gives.
ghost use Rattle.std.specs.Prelude.{◌≡◌, IfOk, map, option_map};
ghost use Rattle.oer_random.specs.Drawn.{default_part, drawn as spec_drawn, drawn_additions, drawn_fields, optional_part, part as spec_part};
ghost use Rattle.oer_model.specs.AsnValue.{text as as_text};
ghost use Rattle.oer_random.specs.Leaves.{count_in, more_letters, text_of};
ghost use Rattle.oer_random.specs.Words.{word as spec_word, words as spec_words};
ghost use Rattle.oer_skeleton.specs.Skeleton.{is_legal as spec_is_legal};
ghost use Rattle.oer_skeleton.specs.Sound.{AdditionsHaveItems, FieldsHaveItems, HasItems};
ghost use Rattle.oer_values.specs.ShapeView.{additions_of, fields_of, need_of, type_of};
ghost use Rattle.oer_values.specs.ValueView.{places_of, value_of};

use crate::choice::taken;
use crate::count::{elements, string_size};
use crate::leaf::{arcs, bits, octets};
use crate::letters::{Letters, text};
use crate::number::{item_number, number};
use crate::words::{next, word, words};
use oer_model::Size;
use oer_skeleton::is_legal;
use oer_values::{Addition, Field, Need, Shape, Value, known_additions, known_later};
use rand_core::SeedableRng;
use rand_xoshiro::SplitMix64;
use std::alloc::{AllocError, Global};

/// A string of characters.
#[tactic(auto, using(oer_values::proofs::Values::values))]
fn text_value(alloc: Global, letters: Letters, size: Size, seed: u64) -> Result<Value, AllocError>
    ensures { IfOk result (λ v. value_of v ≡ as_text (text_of letters (count_in size more_letters seed) seed)) }
{
    Ok(Value::Text(text(alloc, letters, string_size(size, seed), seed)?))
}

/// The value of the type that the seed gives; a list has up to `room` elements above the least.
#[cycle(drawn)]
#[tactic(auto, using(oer_values::proofs::Shapes::shapes, oer_values::proofs::Values::values))]
pub(crate) fn drawn(shape: &Shape, alloc: Global, room: u8, seed: u64) -> Result<Value, AllocError>
    requires { HasItems (type_of shape.now) }
    ensures { IfOk result (λ v. value_of v ≡ spec_drawn room seed (type_of shape.now)) }
{
    match shape {
        Shape::Boolean => Ok(Value::Bool(seed % 2 == 1)),
        Shape::Null => Ok(Value::Null),
        Shape::Integer { low, high } => Ok(Value::Int(number(*low, *high, seed))),
        Shape::Enumerated { items, .. } => Ok(Value::Enum(item_number(items, seed))),
        Shape::BitString(size) => Ok(Value::Bits(bits(alloc, string_size(*size, seed), seed)?)),
        Shape::OctetString(size) => {
            let count = string_size(*size, seed);
            Ok(Value::Octets(octets(alloc, count, seed)?))
        }
        Shape::ObjectId => Ok(Value::Oid(arcs(alloc, seed)?)),
        Shape::Ia5(size) => text_value(alloc, Letters::Ia5, *size, seed),
        Shape::Visible(size) => text_value(alloc, Letters::Visible, *size, seed),
        Shape::Numeric(size) => text_value(alloc, Letters::Numeric, *size, seed),
        Shape::Printable(size) => text_value(alloc, Letters::Printable, *size, seed),
        Shape::Utf8(size) => text_value(alloc, Letters::Utf8, *size, seed),
        Shape::Sequence { root, additions } => {
            let root = fields(root, alloc, room, seed)?;
            let added = added(known_additions(additions), alloc, room, u64::MAX - seed)?;
            Ok(Value::Seq {
                root,
                added,
                unknown: Vec::new(alloc),
            })
        }
        Shape::SequenceOf { size, item } => {
            let count = elements(room, is_legal(item), *size, seed);
            Ok(Value::List(list(item, alloc, room.saturating_sub(1), count, seed)?))
        }
        Shape::Choice { root, additions } => {
            let alternative = taken(root, known_later(additions), seed);
            let value = drawn(&alternative.shape, alloc, room, word(seed))?;
            Ok(Value::Chosen {
                tag: alternative.tag,
                value: Box::new(alloc, value)?,
            })
        }
    }
}

#[cycle(drawn)]
fn fields(
    fields: &[Field],
    alloc: Global,
    room: u8,
    seed: u64,
) -> Result<Vec<Option<Value>>, AllocError>
    requires { FieldsHaveItems (fields_of fields.now) }
    ensures { IfOk result (λ v. places_of v.items ≡ drawn_fields room seed (fields_of fields.now)) }
{
    let mut rng = SplitMix64::seed_from_u64(seed);
    let mut places = Vec::with_capacity(alloc, fields.len())?;
    for field in fields {
        places.push(component(field, alloc, room, next(&mut rng))?)?;
    }
    Ok(places)
}

#[cycle(drawn)]
fn component(field: &Field, alloc: Global, room: u8, seed: u64) -> Result<Option<Value>, AllocError>
    requires { HasItems (type_of field.now.shape) }
    ensures { IfOk result (λ p. option_map value_of p ≡ spec_part (need_of field.now.need)
        (spec_is_legal (type_of field.now.shape)) seed (spec_drawn room (spec_word seed) (type_of field.now.shape))) }
{
    match &field.need {
        Need::Must => Ok(Some(drawn(&field.shape, alloc, room, word(seed))?)),
        Need::May => optional(&field.shape, alloc, room, seed),
        Need::Default(value) => with_default(&field.shape, value, alloc, room, seed),
    }
}

/// A component that may be absent.
#[cycle(drawn)]
fn optional(shape: &Shape, alloc: Global, room: u8, seed: u64) -> Result<Option<Value>, AllocError>
    requires { HasItems (type_of shape.now) }
    ensures { IfOk result (λ p. option_map value_of p ≡ optional_part
        (spec_is_legal (type_of shape.now)) seed (spec_drawn room (spec_word seed) (type_of shape.now))) }
{
    if is_legal(shape) && seed % 2 == 0 {
        return Ok(Some(drawn(shape, alloc, room, word(seed))?));
    }
    Ok(None)
}

/// A component that has a default.
#[cycle(drawn)]
fn with_default(
    shape: &Shape,
    default: &Value,
    alloc: Global,
    room: u8,
    seed: u64,
) -> Result<Option<Value>, AllocError>
    requires { HasItems (type_of shape.now) }
    ensures { IfOk result (λ p. option_map value_of p ≡ default_part (value_of default.now)
        (spec_is_legal (type_of shape.now)) seed (spec_drawn room (spec_word seed) (type_of shape.now))) }
{
    match seed % 3 {
        0 => Ok(None),
        1 => Ok(Some(default.clone_in(alloc)?)),
        _ => {
            if !is_legal(shape) {
                return Ok(None);
            }
            Ok(Some(drawn(shape, alloc, room, word(seed))?))
        }
    }
}

#[cycle(drawn)]
fn added(
    additions: &[Addition],
    alloc: Global,
    room: u8,
    seed: u64,
) -> Result<Vec<Option<Value>>, AllocError>
    requires { AdditionsHaveItems (additions_of additions.now) }
    ensures { IfOk result (λ v. places_of v.items ≡ drawn_additions room seed (additions_of additions.now)) }
{
    let mut rng = SplitMix64::seed_from_u64(seed);
    let mut places = Vec::with_capacity(alloc, additions.len())?;
    for addition in additions {
        places.push(optional(&addition.shape, alloc, room, next(&mut rng))?)?;
    }
    Ok(places)
}

/// So many elements, each by one of the seed's numbers.
#[cycle(drawn)]
fn list(
    item: &Shape,
    alloc: Global,
    room: u8,
    count: u64,
    seed: u64,
) -> Result<Vec<Value>, AllocError>
    requires { HasItems (type_of item.now) }
    ensures { IfOk result (λ v. map value_of v.items ≡ map (λ x. spec_drawn room x (type_of item.now)) (spec_words count seed)) }
{
    let words = words(alloc, seed, count)?;
    let mut values = Vec::with_capacity(alloc, words.len())?;
    for word in &words {
        values.push(drawn(item, alloc, room, *word)?)?;
    }
    Ok(values)
}
