//! How the encoding of a value is checked.
ghost use Rattle.std.specs.Prelude.{◌≡◌, length};
ghost use Rattle.oer_model.specs.AsnType.{sequence, sequence_of};
ghost use Rattle.oer_model.specs.Checking.{check_additions as additions_checked, check_extension as extension_checked, check_fields as fields_checked, check_open as open_checked, check_times, check_value};
ghost use Rattle.oer_model.specs.Constraints.{AdditionsKeepLimits, AlternativesKeepLimits, FieldsKeepLimits, KeepsLimits};
ghost use Rattle.oer_model.specs.Fits.{AdditionDefaultsFit, AlternativeDefaultsFit, DefaultFits, DefaultsFit, FieldDefaultsFit, Fits};
ghost use Rattle.oer_values.specs.ShapeView.{additions_of, fields_of, later_of, need_of, type_of};
ghost use Rattle.oer_checker.specs.BitView.{bits_in};
ghost use Rattle.oer_checker.specs.Facts.{IsChoice, IsExtensible};
ghost use Rattle.oer_checker.specs.Places.{outcome, place_of, same};
ghost use Rattle.oer_checker.specs.Steps.{check_if, check_later as later_checked, check_there};

use crate::bit_strings::{addition_map, preamble};
use crate::bits::Bits;
use crate::booleans::check_booleans;
use crate::cursor::Cursor;
use crate::facts::{addition_fits, field_fits, later_fits};
use crate::leaf::check_leaf;
use crate::lengths::{check_octets, leave, octets_between, sized_length_at};
use crate::numbers::sized_quantity_at;
use crate::parts::{check_unknown, is_default, presence};
use crate::stop::Stop;
use crate::units::tag_at;
use oer_types::{Addition, Alt, Field, Shape, Size, optional, with_tag};
use oer_units::{Tag, Why};

/// The encoding of a value of the type, and whether it is canonical.
#[cycle(check)]
#[tactic(auto, using(crate::proofs::Shapes::shapes))]
pub fn check_shape(shape: &Shape, at: &mut Cursor) -> Result<bool, Stop>
    requires limits { KeepsLimits (type_of shape.now) }
    requires defaults { DefaultsFit (type_of shape.now) }
    ensures { outcome same result at.new ≡ check_value (type_of shape.now) (place_of at.old) }
{
    match shape {
        Shape::SequenceOf { size, item } => check_items(size, item, at),
        Shape::Sequence { root, additions } => match additions {
            None => check_sequence(root, at),
            Some(additions) => check_extensible(shape, root, additions, at),
        },
        Shape::Choice { root, additions } => check_choice(shape, root, additions, at),
        _ => check_leaf(shape, at),
    }
}

/// A SEQUENCE OF.
#[cycle(check)]
fn check_items(size: &Size, item: &Shape, at: &mut Cursor) -> Result<bool, Stop>
    requires limits { KeepsLimits (type_of item.now) }
    requires defaults { DefaultsFit (type_of item.now) }
    ensures { outcome same result at.new ≡ check_value (sequence_of size.now (type_of item.now)) (place_of at.old) }
{
    let counted = sized_quantity_at(*size, at)?;
    let is_canonical = check_elements(item, counted.count, at)?;
    Ok(counted.is_least && is_canonical)
}

/// A SEQUENCE without an extension marker.
#[cycle(check)]
fn check_sequence(fields: &[Field], at: &mut Cursor) -> Result<bool, Stop>
    requires limits { FieldsKeepLimits (fields_of fields.now) }
    requires defaults { FieldDefaultsFit (fields_of fields.now) }
    ensures { outcome same result at.new ≡ check_value (sequence (fields_of fields.now)) (place_of at.old) }
{
    let bits = preamble(optional(fields) as u64, at)?;
    check_fields(fields, bits, at)
}

/// A SEQUENCE with an extension marker.
#[cycle(check)]
fn check_extensible(
    shape: &Shape,
    fields: &[Field],
    additions: &[Addition],
    at: &mut Cursor,
) -> Result<bool, Stop>
    requires is { IsExtensible shape.now fields.now additions.now }
    requires limits { KeepsLimits (type_of shape.now) }
    requires defaults { DefaultsFit (type_of shape.now) }
    ensures { outcome same result at.new ≡ check_value (type_of shape.now) (place_of at.old) }
{
    let bits = preamble(optional(fields) as u64 + 1, at)?;
    let is_canonical = check_fields(fields, bits.later(), at)?;
    let is_extension = check_extension(additions, bits.first(), at)?;
    Ok(is_canonical && is_extension)
}

/// A CHOICE.
#[cycle(check)]
fn check_choice(
    shape: &Shape,
    alternatives: &[Alt],
    additions: &Option<Vec<Alt>>,
    at: &mut Cursor,
) -> Result<bool, Stop>
    requires is { IsChoice shape.now alternatives.now additions.now }
    requires limits { KeepsLimits (type_of shape.now) }
    requires defaults { DefaultsFit (type_of shape.now) }
    ensures { outcome same result at.new ≡ check_value (type_of shape.now) (place_of at.old) }
{
    let tag = tag_at(at)?;
    if let Some(alternative) = with_tag(alternatives, tag) {
        return check_shape(&alternative.shape, at);
    }
    match additions {
        None => Err(Stop {
            why: Why::UnknownAlternative,
        }),
        Some(additions) => check_later(additions, tag, at),
    }
}

/// So many elements.
#[cycle(check)]
pub fn check_elements(item: &Shape, count: u64, at: &mut Cursor) -> Result<bool, Stop>
    requires limits { KeepsLimits (type_of item.now) }
    requires defaults { DefaultsFit (type_of item.now) }
    ensures { outcome same result at.new ≡ check_times count (check_value (type_of item.now)) (place_of at.old) }
{
    if let Shape::Boolean = item {
        return check_booleans(count, at);
    }
    let mut is_canonical = true;
    for turn in 0..count {
        let is_element = check_shape(item, at)?;
        is_canonical = is_canonical && is_element;
    }
    Ok(is_canonical)
}

/// An open type (X.696, 30) that holds a value of the type.
#[cycle(check)]
#[inline(always)]
fn check_open(shape: &Shape, at: &mut Cursor) -> Result<bool, Stop>
    requires limits { KeepsLimits (type_of shape.now) }
    requires defaults { DefaultsFit (type_of shape.now) }
    ensures { outcome same result at.new ≡ open_checked (check_value (type_of shape.now)) (place_of at.old) }
{
    let counted = sized_length_at(at)?;
    let start = *at;
    at.left = counted.count;
    let answer = check_shape(shape, at);
    leave(start, counted, answer, at)
}

/// A component that is there: canonical octets are not those of its default.
#[cycle(check)]
fn check_field(field: &Field, at: &mut Cursor) -> Result<bool, Stop>
    requires limits { KeepsLimits (type_of field.now.shape) }
    requires defaults { DefaultsFit (type_of field.now.shape) }
    requires fits { DefaultFits (need_of field.now.need) (Fits (type_of field.now.shape)) }
    ensures { outcome same result at.new ≡ check_there (need_of field.now.need) (type_of field.now.shape) (place_of at.old) }
{
    let start = *at;
    let is_canonical = check_shape(&field.shape, at)?;
    let is_its_default = is_default(field, octets_between(start, *at));
    Ok(is_canonical && !is_its_default)
}

/// A component of a root, if it is there.
#[cycle(check)]
fn check_place(field: &Field, is_present: bool, at: &mut Cursor) -> Result<bool, Stop>
    requires limits { KeepsLimits (type_of field.now.shape) }
    requires defaults { DefaultsFit (type_of field.now.shape) }
    requires fits { DefaultFits (need_of field.now.need) (Fits (type_of field.now.shape)) }
    ensures { outcome same result at.new ≡ check_if is_present (check_there (need_of field.now.need) (type_of field.now.shape)) (place_of at.old) }
{
    if is_present {
        check_field(field, at)
    } else {
        Ok(true)
    }
}

/// The components of a root, by their presence bits.
#[cycle(check)]
#[inline(always)]
pub fn check_fields<'a>(fields: &[Field], bits: Bits<'a>, at: &mut Cursor) -> Result<bool, Stop>
    requires limits { FieldsKeepLimits (fields_of fields.now) }
    requires defaults { FieldDefaultsFit (fields_of fields.now) }
    ensures { outcome same result at.new ≡ fields_checked (fields_of fields.now) (bits_in bits.entry) (place_of at.old) }
{
    let mut is_canonical = true;
    let mut left = bits;
    for field in fields {
        field_fits(fields, field);
        let (is_present, rest) = presence(&field.need, left);
        left = rest;
        let is_field = check_place(field, is_present, at)?;
        is_canonical = is_canonical && is_field;
    }
    Ok(is_canonical)
}

/// The additions, of which there are none where the extension bit isn't set.
#[cycle(check)]
#[inline(always)]
fn check_extension(additions: &[Addition], is_extended: bool, at: &mut Cursor) -> Result<bool, Stop>
    requires limits { AdditionsKeepLimits (additions_of additions.now) }
    requires defaults { AdditionDefaultsFit (additions_of additions.now) }
    ensures { outcome same result at.new ≡ extension_checked is_extended (additions_of additions.now) (additions_checked (additions_of additions.now)) (place_of at.old) }
{
    if !is_extended {
        return Ok(true);
    }
    let map = addition_map(additions.len(), at)?;
    let is_known = check_additions(additions, map.bits, at)?;
    let is_unknown = check_unknown(map.bits, additions.len(), at)?;
    let are_canonical = is_known && is_unknown;
    Ok(map.is_canonical && are_canonical)
}

/// An addition, if it is there.
#[cycle(check)]
fn check_addition(addition: &Addition, is_present: bool, at: &mut Cursor) -> Result<bool, Stop>
    requires limits { KeepsLimits (type_of addition.now.shape) }
    requires defaults { DefaultsFit (type_of addition.now.shape) }
    ensures { outcome same result at.new ≡ check_if is_present (open_checked (check_value (type_of addition.now.shape))) (place_of at.old) }
{
    if is_present {
        check_open(&addition.shape, at)
    } else {
        Ok(true)
    }
}

/// The additions that the type knows, by their presence bits.
#[cycle(check)]
pub fn check_additions<'a>(
    additions: &[Addition],
    bits: Bits<'a>,
    at: &mut Cursor,
) -> Result<bool, Stop>
    requires limits { AdditionsKeepLimits (additions_of additions.now) }
    requires defaults { AdditionDefaultsFit (additions_of additions.now) }
    ensures { outcome same result at.new ≡ additions_checked (additions_of additions.now) (bits_in bits.entry) (place_of at.old) }
{
    let mut is_canonical = true;
    let mut left = bits;
    for addition in additions {
        addition_fits(additions, addition);
        let is_present = left.first();
        left = left.later();
        let is_addition = check_addition(addition, is_present, at)?;
        is_canonical = is_canonical && is_addition;
    }
    Ok(is_canonical)
}

/// What follows a tag that no alternative of the root has (X.696, 20).
#[cycle(check)]
#[inline(always)]
fn check_later(alternatives: &[Alt], tag: Tag, at: &mut Cursor) -> Result<bool, Stop>
    requires limits { AlternativesKeepLimits (later_of alternatives.now) }
    requires defaults { AlternativeDefaultsFit (later_of alternatives.now) }
    ensures { outcome same result at.new ≡ later_checked (later_of alternatives.now) tag (place_of at.old) }
{
    let Some(alternative) = with_tag(alternatives, tag) else {
        return check_octets(at);
    };
    later_fits(alternatives, alternative);
    check_open(&alternative.shape, at)
}
