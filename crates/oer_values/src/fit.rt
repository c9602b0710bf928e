//! Which values fit a type.
ghost use Rattle.std.specs.Prelude.{◌≡◌, ◌↔◌, ◌&&◌, ◌||◌, ◌<◌, ◌^◌, IsTrue, length, ltb, map, string_bytes};
ghost use Rattle.std.specs.Str.{is_utf8, chars};
ghost use Rattle.oer_units.specs.Reading.{is_int64};
ghost use Rattle.oer_model.specs.AsnValue.{foreign};
ghost use Rattle.oer_model.specs.Constraints.{all_characters, has_number, above, below, in_range, size_fits};
ghost use Rattle.oer_model.specs.FitTest.{all_below, all_fit as spec_all_fit, additions_fit as spec_additions_fit, arcs_fit as spec_arcs_fit, fields_fit as spec_fields_fit, first_arcs, is_fit, is_without, leaf_fits as spec_leaf_fits, may_be_absent, unknown_fit as spec_unknown_fit};
ghost use Rattle.oer_values.specs.ShapeView.{type_of, fields_of, additions_of, choice_with, named_number, need_of};
ghost use Rattle.oer_values.specs.ValueView.{value_of, values_of, places_of, unknown_of};
ghost use Rattle.oer_values.specs.AlphabetView.{alphabet_of};

use crate::alphabet::{Alphabet, are_characters};
use crate::shape::{Addition, Alt, Field, Item, Need, Shape};
use crate::tag::{contains_tag, find_alternative};
use crate::value::{Unknown, Value};
use oer_model::Size;
use oer_units::Tag;

fn is_above(low: Option<i128>, number: i128) -> bool
    ensures { result ≡ above low number }
{
    match low {
        Some(low) => low <= number,
        None => true,
    }
}

fn is_below(high: Option<i128>, number: i128) -> bool
    ensures { result ≡ below high number }
{
    match high {
        Some(high) => number <= high,
        None => true,
    }
}

/// Whether the number is within the bounds.
pub fn is_in_range(low: Option<i128>, high: Option<i128>, number: i128) -> bool
    ensures { result ≡ in_range low high number }
{
    is_above(low, number) && is_below(high, number)
}

/// Whether an item has the number.
pub fn contains_number(items: &[Item], number: i64) -> bool
    ensures { result ≡ has_number (map named_number items.now) number }
{
    for item in items {
        if item.number == number {
            return true;
        }
    }
    false
}

fn number_fits(items: &[Item], extensible: bool, number: i64) -> bool
    ensures { result ≡ (is_int64 number && (extensible || has_number (map named_number items.now) number)) }
{
    extensible || contains_number(items, number)
}

/// Whether each is below 256, as each `u8` is.
fn are_octets(octets: &[u8]) -> bool
    ensures { result ≡ all_below 256 octets.now }
{
    let _ = octets;
    true
}

fn octets_fit(size: Size, octets: &[u8]) -> bool
    ensures { result ≡ (all_below 256 octets.now && size_fits size (length octets.now)) }
{
    are_octets(octets) && size.allows(octets.len() as u128)
}

fn characters_fit(alphabet: Alphabet, size: Size, text: &[u8]) -> bool
    ensures { result ≡ (all_below 256 text.now
        && (all_characters (alphabet_of alphabet) text.now && size_fits size (length text.now))) }
{
    are_octets(text) && are_characters(alphabet, text) && size.allows(text.len() as u128)
}

fn count_characters(text: &str) -> u64
    ensures { result ≡ length (chars text.now) }
{
    text.chars().count() as u64
}

/// The size counts characters.
fn text_fits(size: Size, text: &str) -> bool
    ensures { result ≡ (all_below 256 text.now
        && (is_utf8 text.now && size_fits size (length (chars text.now)))) }
{
    are_octets(text.as_bytes()) && size.allows(u128::from(count_characters(text)))
}

fn arcs_fit(arcs: &[u128]) -> bool
    ensures { result ≡ spec_arcs_fit arcs.now }
{
    match arcs {
        [first, second, ..] => first_arcs_fit(*first, *second),
        _ => false,
    }
}

fn string_fits(alphabet: Alphabet, size: Size, text: &String) -> bool
    ensures { result ≡ (all_below 256 (string_bytes text.now)
        && (all_characters (alphabet_of alphabet) (string_bytes text.now)
        && size_fits size (length (string_bytes text.now)))) }
{
    characters_fit(alphabet, size, text.as_str().as_bytes())
}

/// Whether the first subidentifier, 40 times the first arc plus the second, has 128 bits.
fn first_arcs_fit(first: u128, second: u128) -> bool
    ensures { result ≡ first_arcs first second }
{
    if first > 2 || first < 2 && second >= 40 {
        return false;
    }
    second <= u128::MAX - 40 * first
}

impl Need {
    fn allows_absence(&self) -> bool
        ensures { result ≡ may_be_absent (need_of self.now) }
    {
        !matches!(self, Need::Must)
    }
}

/// Whether the places rise from the lowest on.
fn unknown_fit(lowest: u64, unknown: &[Unknown]) -> bool
    requires { lowest < 2 ^ 63 }
    ensures { result ≡ spec_unknown_fit lowest (map unknown_of unknown.now) }
{
    let mut lowest = lowest;
    for one in unknown {
        let place = one.place as u64;
        if place < lowest || !are_octets(&one.octets) {
            return false;
        }
        lowest = place + 1;
    }
    true
}

fn is_without_additions(added: &[Option<Value>], unknown: &[Unknown]) -> bool
    ensures { result ≡ is_without (places_of added.now) (map unknown_of unknown.now) }
{
    added.is_empty() && unknown.is_empty()
}

/// An alternative that the type doesn't know fits where there is an extension marker and no
/// alternative has its tag.
fn foreign_fits(root: &[Alt], additions: &Option<Vec<Alt>>, tag: Tag, octets: &[u8]) -> bool
    ensures { result ≡ is_fit (choice_with root.now additions.now) (foreign tag octets.now) }
{
    match additions {
        None => false,
        Some(additions) => {
            if contains_tag(root, tag) || contains_tag(additions, tag) {
                return false;
            }
            is_tag_number(tag.number) && are_octets(octets)
        }
    }
}

/// Whether the number has 32 bits, as each `u32` has.
fn is_tag_number(number: u32) -> bool
    ensures { result ≡ ltb number (2 ^ 32) }
{
    number <= u32::MAX
}

/// Whether the value fits the type, and holds no other.
#[tactic(auto, using(crate::proofs::Shapes::shapes))]
fn leaf_fits(shape: &Shape, value: &Value) -> bool
    ensures { result ≡ spec_leaf_fits (type_of shape.now) (value_of value.now) }
{
    match (shape, value) {
        (Shape::Boolean, Value::Bool(_)) => true,
        (Shape::Null, Value::Null) => true,
        (Shape::Integer { low, high }, Value::Int(n)) => is_in_range(*low, *high, *n),
        (Shape::Enumerated { items, extensible }, Value::Enum(n)) => {
            number_fits(items, *extensible, *n)
        }
        (Shape::BitString(size), Value::Bits(bits)) => size.allows(u128::from(bits.count())),
        (Shape::OctetString(size), Value::Octets(octets)) => octets_fit(*size, octets),
        (Shape::ObjectId, Value::Oid(arcs)) => arcs_fit(arcs),
        (Shape::Ia5(size), Value::Text(text)) => string_fits(Alphabet::Ia5, *size, text),
        (Shape::Visible(size), Value::Text(text)) => string_fits(Alphabet::Visible, *size, text),
        (Shape::Numeric(size), Value::Text(text)) => string_fits(Alphabet::Numeric, *size, text),
        (Shape::Printable(size), Value::Text(text)) => {
            string_fits(Alphabet::Printable, *size, text)
        }
        (Shape::Utf8(size), Value::Text(text)) => text_fits(*size, text.as_str()),
        (Shape::Choice { root, additions }, Value::Foreign { tag, octets }) => {
            foreign_fits(root, additions, *tag, octets)
        }
        _ => false,
    }
}

/// Whether the value fits the type. The shape need not be well-formed.
#[cycle(fits)]
#[tactic(auto, using(crate::proofs::Shapes::shapes))]
pub fn fits_shape(shape: &Shape, value: &Value) -> bool
    ensures { result ≡ is_fit (type_of shape.now) (value_of value.now) }
{
    match (shape, value) {
        (
            Shape::Sequence { root, additions },
            Value::Seq {
                root: places,
                added,
                unknown,
            },
        ) => match additions {
            None => is_without_additions(added, unknown) && fields_fit(root, places),
            Some(additions) => {
                if !fields_fit(root, places) || !additions_fit(additions, added) {
                    return false;
                }
                unknown_fit(additions.len() as u64, unknown)
            }
        },
        (Shape::SequenceOf { size, item }, Value::List(values)) => {
            size.allows(values.len() as u128) && all_fit(item, values)
        }
        (Shape::Choice { root, additions }, Value::Chosen { tag, value }) => {
            match find_alternative(root, additions, *tag) {
                Some(alternative) => fits_shape(&alternative.shape, value),
                None => false,
            }
        }
        _ => leaf_fits(shape, value),
    }
}

#[cycle(fits)]
fn fields_fit(fields: &[Field], places: &[Option<Value>]) -> bool
    ensures { result ≡ spec_fields_fit (fields_of fields.now) (places_of places.now) }
{
    let mut rest = places;
    for field in fields {
        let Some((place, more)) = rest.split_first() else {
            return false;
        };
        let here = match place {
            Some(value) => fits_shape(&field.shape, value),
            None => field.need.allows_absence(),
        };
        if !here {
            return false;
        }
        rest = more;
    }
    rest.is_empty()
}

#[cycle(fits)]
fn additions_fit(additions: &[Addition], places: &[Option<Value>]) -> bool
    ensures { result ≡ spec_additions_fit (additions_of additions.now) (places_of places.now) }
{
    let mut rest = places;
    for addition in additions {
        let Some((place, more)) = rest.split_first() else {
            return false;
        };
        if let Some(value) = place {
            if !fits_shape(&addition.shape, value) {
                return false;
            }
        }
        rest = more;
    }
    rest.is_empty()
}

#[cycle(fits)]
fn all_fit(item: &Shape, values: &[Value]) -> bool
    ensures { result ≡ spec_all_fit (is_fit (type_of item.now)) (values_of values.now) }
{
    for value in values {
        if !fits_shape(item, value) {
            return false;
        }
    }
    true
}
