//! How an encoding is recoded: its canonical octets are gathered as its parts are read, and no value is made but of a part
//! that holds no other. So memory grows with the octets alone, and not with the parts that a type has and that aren't there.
ghost use Rattle.std.specs.Prelude.{◌≡◌, ◌++◌, ◌||◌, ◌∷◌, Some, false, is_some, length};
ghost use Rattle.oer_units.specs.Least.{counted};
ghost use Rattle.oer_units.specs.Reader.{times};
ghost use Rattle.oer_units.specs.Reading.{open_type};
ghost use Rattle.oer_units.specs.Reads.{state};
ghost use Rattle.oer_model.specs.AsnType.{sequence, sequence_of};
ghost use Rattle.oer_model.specs.Canonical.{any_present, any_unknown, canonical_octets, extension_octets};
ghost use Rattle.oer_model.specs.Constraints.{AdditionsKeepLimits, AlternativesKeepLimits, FieldsKeepLimits, KeepsLimits};
ghost use Rattle.oer_model.specs.Fits.{AdditionDefaultsFit, AlternativeDefaultsFit, DefaultFits, DefaultsFit, FieldDefaultsFit, Fits, listed};
ghost use Rattle.oer_model.specs.Reading.{read_additions as additions_read, read_extension as extension_read, read_fields as fields_read, read_value};
ghost use Rattle.oer_values.specs.ShapeView.{additions_of, fields_of, later_of, need_of, type_of};
ghost use Rattle.oer_leaves.specs.Parts.{addition_octets, counted_place, field_bits, field_octets, is_kept, kept_place, known_bits, known_octets, place_octets_of, values_octets};
ghost use Rattle.oer_decoder.specs.Choices.{later_at};
ghost use Rattle.oer_decoder.specs.MarksView.{bits_in};
ghost use Rattle.oer_decoder.specs.Octets.{gathered};
ghost use Rattle.oer_decoder.specs.Parts.{HasNoParts, IsChoice, IsExtensible};
ghost use Rattle.oer_decoder.specs.Places.{place_by, root_at};
ghost use Rattle.oer_decoder.specs.Recoding.{IsTagged, ReadsOne, Recodes, RecodesValue, after_tag};

use crate::bit_strings::addition_map;
use crate::booleans::recode_booleans;
use crate::gathering::{
    append_counted, append_leaf, append_quantity, append_tag, append_unknown, count_from,
};
use crate::leaf::read_leaf;
use crate::octets::Octets;
use crate::packing::{bitmap_before, bits_before, mark_place, mark_unknown};
use crate::parts::{after, count, first, presence, read_unknown};
use crate::preamble::{Marks, preamble};
use crate::stop::Stop;
use crate::strings::counted_octets;
use oer_types::{Addition, Alt, Field, Need, Shape, Size, Value, optional, with_tag};
use oer_units::{Source, Tag, Why, Window, length, tag};
use oer_writer::parts::equals;
use std::alloc::Global;

/// Recodes a value of the type.
#[cycle(recode)]
pub(crate) fn recode_shape<R: Source>(
    shape: &Shape,
    alloc: Global,
    out: &mut Octets,
    w: &mut Window<R>,
) -> Result<(), Stop>
    requires limits { KeepsLimits (type_of shape.now) }
    requires defaults { DefaultsFit (type_of shape.now) }
    ensures { RecodesValue (type_of shape.now) (state R.loan R.remaining R.failed w.old) (gathered out.old) result (gathered out.new)
        (state R.loan R.remaining R.failed w.new) }
{
    match shape {
        Shape::SequenceOf { size, item } => recode_items(item, alloc, *size, out, w),
        Shape::Sequence { root, additions } => match additions {
            None => recode_sequence(root, alloc, out, w),
            Some(additions) => recode_extensible(shape, root, additions, alloc, out, w),
        },
        Shape::Choice { root, additions } => recode_choice(shape, root, additions, alloc, out, w),
        _ => recode_leaf(shape, alloc, out, w),
    }
}

// A value that holds no other.
fn recode_leaf<R: Source>(
    shape: &Shape,
    alloc: Global,
    out: &mut Octets,
    w: &mut Window<R>,
) -> Result<(), Stop>
    requires { HasNoParts (type_of shape.now) }
    ensures { RecodesValue (type_of shape.now) (state R.loan R.remaining R.failed w.old) (gathered out.old) result (gathered out.new)
        (state R.loan R.remaining R.failed w.new) }
{
    let mut value = Value::Null;
    read_leaf(shape, alloc, &mut value, w)?;
    append_leaf(shape, &value, out)
}

/// A SEQUENCE OF (X.696, 17).
#[cycle(recode)]
fn recode_items<R: Source>(
    item: &Shape,
    alloc: Global,
    size: Size,
    out: &mut Octets,
    w: &mut Window<R>,
) -> Result<(), Stop>
    requires limits { KeepsLimits (type_of item.now) }
    requires defaults { DefaultsFit (type_of item.now) }
    ensures { RecodesValue (sequence_of size (type_of item.now)) (state R.loan R.remaining R.failed w.old) (gathered out.old) result
        (gathered out.new) (state R.loan R.remaining R.failed w.new) }
{
    let count = count(size, w)?;
    append_quantity(count, out)?;
    recode_elements(item, alloc, count, out, w)
}

/// So many elements.
#[cycle(recode)]
fn recode_elements<R: Source>(
    item: &Shape,
    alloc: Global,
    count: u64,
    out: &mut Octets,
    w: &mut Window<R>,
) -> Result<(), Stop>
    requires limits { KeepsLimits (type_of item.now) }
    requires defaults { DefaultsFit (type_of item.now) }
    ensures { ReadsOne (times count (read_value (type_of item.now))) (state R.loan R.remaining R.failed w.old) result
        (state R.loan R.remaining R.failed w.new) (λ _ vs. (length vs ≡ count) × (gathered out.new ≡ gathered out.old ++ values_octets (type_of item.now) (listed vs))) }
{
    if let Shape::Boolean = item {
        return recode_booleans(count, out, w);
    }
    for i in 0..count {
        recode_shape(item, alloc, out, w)?;
    }
    Ok(())
}

/// What an open type holds (X.696, 30), after its length.
#[cycle(recode)]
fn recode_open<R: Source>(
    shape: &Shape,
    alloc: Global,
    out: &mut Octets,
    w: &mut Window<R>,
) -> Result<(), Stop>
    requires limits { KeepsLimits (type_of shape.now) }
    requires defaults { DefaultsFit (type_of shape.now) }
    ensures { Recodes (open_type (read_value (type_of shape.now))) (λ v. counted (canonical_octets (type_of shape.now) v))
        (state R.loan R.remaining R.failed w.old) (gathered out.old) result (gathered out.new) (state R.loan R.remaining R.failed w.new) }
{
    let size = length(w)?;
    let outer = w.enter(size);
    let at = out.len();
    recode_shape(shape, alloc, out, w)?;
    w.leave(outer)?;
    count_from(at, out)
}

/// A component that is there, unless it equals its default. Whether it doesn't.
#[cycle(recode)]
fn recode_present<R: Source>(
    field: &Field,
    alloc: Global,
    out: &mut Octets,
    w: &mut Window<R>,
) -> Result<bool, Stop>
    requires limits { KeepsLimits (type_of field.now.shape) }
    requires defaults { DefaultsFit (type_of field.now.shape) }
    requires fits { DefaultFits (need_of field.now.need) (Fits (type_of field.now.shape)) }
    ensures { ReadsOne (read_value (type_of field.now.shape)) (state R.loan R.remaining R.failed w.old) result (state R.loan R.remaining R.failed w.new)
        (λ kept v. (kept ≡ is_kept (need_of field.now.need) (type_of field.now.shape) v)
        × (gathered out.new ≡ gathered out.old ++ place_octets_of (type_of field.now.shape) (kept_place (need_of field.now.need) (type_of field.now.shape) (Some v)))) }
{
    let Need::Default(default) = &field.need else {
        recode_shape(&field.shape, alloc, out, w)?;
        return Ok(true);
    };
    let at = out.len();
    recode_shape(&field.shape, alloc, out, w)?;
    if equals(&field.shape, default, out.from(at)) {
        out.truncate(at);
        return Ok(false);
    }
    Ok(true)
}

/// A component, if it is there. Whether it is, and isn't equal to its default.
#[cycle(recode)]
fn recode_place<R: Source>(
    field: &Field,
    is_present: bool,
    alloc: Global,
    out: &mut Octets,
    w: &mut Window<R>,
) -> Result<bool, Stop>
    requires limits { KeepsLimits (type_of field.now.shape) }
    requires defaults { DefaultsFit (type_of field.now.shape) }
    requires fits { DefaultFits (need_of field.now.need) (Fits (type_of field.now.shape)) }
    ensures { ReadsOne (place_by is_present (read_value (type_of field.now.shape))) (state R.loan R.remaining R.failed w.old) result
        (state R.loan R.remaining R.failed w.new) (λ kept o. (kept ≡ is_some (kept_place (need_of field.now.need) (type_of field.now.shape) o))
        × (gathered out.new ≡ gathered out.old ++ place_octets_of (type_of field.now.shape) (kept_place (need_of field.now.need) (type_of field.now.shape) o))) }
{
    if is_present {
        recode_present(field, alloc, out, w)
    } else {
        Ok(false)
    }
}

/// The components of a root, by their presence bits. Those to be written are added to the marks.
#[cycle(recode)]
fn recode_fields<R: Source>(
    fields: &[Field],
    alloc: Global,
    bits: &[bool],
    marks: &mut Marks,
    out: &mut Octets,
    w: &mut Window<R>,
) -> Result<(), Stop>
    requires limits { FieldsKeepLimits (fields_of fields.now) }
    requires defaults { FieldDefaultsFit (fields_of fields.now) }
    ensures { ReadsOne (fields_read (fields_of fields.now) bits.now) (state R.loan R.remaining R.failed w.old) result
        (state R.loan R.remaining R.failed w.new) (λ _ ps. (bits_in marks.new ≡ bits_in marks.old ++ field_bits (fields_of fields.now) ps)
        × (gathered out.new ≡ gathered out.old ++ field_octets (fields_of fields.now) ps)) }
{
    let mut left = bits;
    for field in fields {
        let (is_present, rest) = presence(&field.need, left);
        left = rest;
        let is_kept = recode_place(field, is_present, alloc, out, w)?;
        mark_place(&field.need, is_kept, alloc, marks)?;
    }
    Ok(())
}

/// A SEQUENCE without an extension marker (X.696, 16).
#[cycle(recode)]
fn recode_sequence<R: Source>(
    root: &[Field],
    alloc: Global,
    out: &mut Octets,
    w: &mut Window<R>,
) -> Result<(), Stop>
    requires limits { FieldsKeepLimits (fields_of root.now) }
    requires defaults { FieldDefaultsFit (fields_of root.now) }
    ensures { RecodesValue (sequence (fields_of root.now)) (state R.loan R.remaining R.failed w.old) (gathered out.old) result (gathered out.new)
        (state R.loan R.remaining R.failed w.new) }
{
    let bits = preamble(alloc, optional(root) as u64, w)?;
    let at = out.len();
    let mut marks = Marks::none();
    recode_fields(root, alloc, bits.as_slice(), &mut marks, out, w)?;
    bits_before(marks.as_slice(), at, out)
}

/// The root of a SEQUENCE with an extension marker, after its preamble. Whether the extension bit is set. A bit for it, and those of the
/// components to be written, are added to the marks.
#[cycle(recode)]
fn recode_root<R: Source>(
    root: &[Field],
    alloc: Global,
    marks: &mut Marks,
    out: &mut Octets,
    w: &mut Window<R>,
) -> Result<bool, Stop>
    requires limits { FieldsKeepLimits (fields_of root.now) }
    requires defaults { FieldDefaultsFit (fields_of root.now) }
    ensures { ReadsOne (root_at (fields_of root.now)) (state R.loan R.remaining R.failed w.old) result (state R.loan R.remaining R.failed w.new)
        (λ x start. (x ≡ start.extended) × (bits_in marks.new ≡ bits_in marks.old ++ false ∷ field_bits (fields_of root.now) start.root)
        × (gathered out.new ≡ gathered out.old ++ field_octets (fields_of root.now) start.root)) }
{
    let bits = preamble(alloc, optional(root) as u64 + 1, w)?;
    let read = bits.as_slice();
    marks.push(alloc, false)?;
    recode_fields(root, alloc, after(read), marks, out, w)?;
    Ok(first(read))
}

/// A SEQUENCE with an extension marker (X.696, 16).
#[cycle(recode)]
fn recode_extensible<R: Source>(
    shape: &Shape,
    root: &[Field],
    additions: &[Addition],
    alloc: Global,
    out: &mut Octets,
    w: &mut Window<R>,
) -> Result<(), Stop>
    requires is { IsExtensible shape.now root.now additions.now }
    requires limits { KeepsLimits (type_of shape.now) }
    requires defaults { DefaultsFit (type_of shape.now) }
    ensures { RecodesValue (type_of shape.now) (state R.loan R.remaining R.failed w.old) (gathered out.old) result (gathered out.new)
        (state R.loan R.remaining R.failed w.new) }
{
    let at = out.len();
    let mut marks = Marks::none();
    let is_extended = recode_root(root, alloc, &mut marks, out, w)?;
    let has_additions = recode_extension(additions, alloc, is_extended, out, w)?;
    marks.set_first(has_additions);
    bits_before(marks.as_slice(), at, out)
}

/// The additions, of which there are none where the extension bit isn't set. Whether there is one.
#[cycle(recode)]
fn recode_extension<R: Source>(
    additions: &[Addition],
    alloc: Global,
    is_extended: bool,
    out: &mut Octets,
    w: &mut Window<R>,
) -> Result<bool, Stop>
    requires limits { AdditionsKeepLimits (additions_of additions.now) }
    requires defaults { AdditionDefaultsFit (additions_of additions.now) }
    ensures { ReadsOne (extension_read is_extended (additions_of additions.now) (additions_read (additions_of additions.now)))
        (state R.loan R.remaining R.failed w.old) result (state R.loan R.remaining R.failed w.new) (λ x added. (x ≡ (any_present added.0 || any_unknown added.1))
        × (gathered out.new ≡ gathered out.old ++ extension_octets x (addition_octets (additions_of additions.now) added.0 added.1))) }
{
    if !is_extended {
        return Ok(false);
    }
    let bits = addition_map(alloc, w)?;
    let at = out.len();
    let mut marks = Marks::none();
    let is_known = recode_additions(additions, alloc, &bits, &mut marks, out, w)?;
    let unknown = read_unknown(alloc, &bits, additions.len(), w)?;
    if !is_known && unknown.is_empty() {
        return Ok(false);
    }
    mark_unknown(additions.len(), &unknown, alloc, &mut marks)?;
    append_unknown(&unknown, out)?;
    bitmap_before(marks.as_slice(), at, out)?;
    Ok(true)
}

/// An addition, if it is there.
#[cycle(recode)]
fn recode_addition<R: Source>(
    addition: &Addition,
    is_present: bool,
    alloc: Global,
    out: &mut Octets,
    w: &mut Window<R>,
) -> Result<(), Stop>
    requires limits { KeepsLimits (type_of addition.now.shape) }
    requires defaults { DefaultsFit (type_of addition.now.shape) }
    ensures { ReadsOne (place_by is_present (open_type (read_value (type_of addition.now.shape)))) (state R.loan R.remaining R.failed w.old) result
        (state R.loan R.remaining R.failed w.new) (λ _ o. (is_present ≡ is_some o) × (gathered out.new ≡ gathered out.old ++ counted_place (type_of addition.now.shape) o)) }
{
    if is_present {
        recode_open(&addition.shape, alloc, out, w)
    } else {
        Ok(())
    }
}

/// The additions that the type knows, by their presence bits, which are added to the marks. Whether one is there.
#[cycle(recode)]
fn recode_additions<R: Source>(
    additions: &[Addition],
    alloc: Global,
    bits: &[bool],
    marks: &mut Marks,
    out: &mut Octets,
    w: &mut Window<R>,
) -> Result<bool, Stop>
    requires limits { AdditionsKeepLimits (additions_of additions.now) }
    requires defaults { AdditionDefaultsFit (additions_of additions.now) }
    ensures { ReadsOne (additions_read (additions_of additions.now) bits.now) (state R.loan R.remaining R.failed w.old) result
        (state R.loan R.remaining R.failed w.new) (λ any ps. (any ≡ any_present ps) × (bits_in marks.new ≡ bits_in marks.old ++ known_bits (additions_of additions.now) ps)
        × (gathered out.new ≡ gathered out.old ++ known_octets (additions_of additions.now) ps)) }
{
    let mut is_any = false;
    let mut left = bits;
    for addition in additions {
        let is_present = first(left);
        let rest = after(left);
        left = rest;
        recode_addition(addition, is_present, alloc, out, w)?;
        marks.push(alloc, is_present)?;
        is_any = is_any | is_present;
    }
    Ok(is_any)
}

/// A CHOICE (X.696, 20).
#[cycle(recode)]
fn recode_choice<R: Source>(
    shape: &Shape,
    root: &[Alt],
    additions: &Option<Vec<Alt>>,
    alloc: Global,
    out: &mut Octets,
    w: &mut Window<R>,
) -> Result<(), Stop>
    requires is { IsChoice shape.now root.now additions.now }
    requires limits { KeepsLimits (type_of shape.now) }
    requires defaults { DefaultsFit (type_of shape.now) }
    ensures { RecodesValue (type_of shape.now) (state R.loan R.remaining R.failed w.old) (gathered out.old) result (gathered out.new)
        (state R.loan R.remaining R.failed w.new) }
{
    let tag = tag(w)?;
    append_tag(tag, out)?;
    if let Some(alternative) = with_tag(root, tag) {
        return recode_shape(&alternative.shape, alloc, out, w);
    }
    match additions {
        Some(additions) => recode_later(additions, alloc, tag, out, w),
        None => Err(Stop {
            why: Why::UnknownAlternative,
        }),
    }
}

/// What follows a tag that no alternative of the root has, where there is an extension marker (X.696, 20).
#[cycle(recode)]
fn recode_later<R: Source>(
    alternatives: &[Alt],
    alloc: Global,
    tag: Tag,
    out: &mut Octets,
    w: &mut Window<R>,
) -> Result<(), Stop>
    requires limits { AlternativesKeepLimits (later_of alternatives.now) }
    requires defaults { AlternativeDefaultsFit (later_of alternatives.now) }
    ensures { ReadsOne (later_at (later_of alternatives.now) tag) (state R.loan R.remaining R.failed w.old) result (state R.loan R.remaining R.failed w.new)
        (λ _ v. IsTagged tag v × (gathered out.new ≡ gathered out.old ++ after_tag (later_of alternatives.now) v)) }
{
    let Some(alternative) = with_tag(alternatives, tag) else {
        let octets = counted_octets(alloc, w)?;
        return append_counted(&octets, out);
    };
    recode_open(&alternative.shape, alloc, out, w)
}
