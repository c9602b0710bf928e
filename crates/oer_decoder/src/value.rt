//! How a value is read.
ghost use Rattle.std.specs.Prelude.{◌≡◌, map, length};
ghost use Rattle.oer_units.specs.Reader.{times};
ghost use Rattle.oer_units.specs.Reading.{open_type};
ghost use Rattle.oer_units.specs.Reads.{state};
ghost use Rattle.oer_model.specs.AsnType.{sequence, sequence_of};
ghost use Rattle.oer_model.specs.Reading.{read_additions as additions_read, read_extension as extension_read, read_fields as fields_read, read_value};
ghost use Rattle.oer_values.specs.ShapeView.{additions_of, fields_of, later_of, type_of};
ghost use Rattle.oer_values.specs.ValueView.{places_of, value_of};
ghost use Rattle.oer_decoder.specs.Choices.{later_at};
ghost use Rattle.oer_decoder.specs.Memory.{NeedsNoMemory};
ghost use Rattle.oer_decoder.specs.Parts.{IsChoice, IsExtensible};
ghost use Rattle.oer_decoder.specs.Places.{rest_at, root_at};
ghost use Rattle.oer_decoder.specs.Starts.{added_of, start_of};
ghost use Rattle.oer_decoder.specs.Stops.{ReadsAs, StopsNotForMemory};

use crate::bit_strings::addition_map;
use crate::booleans::read_booleans;
use crate::leaf::read_leaf;
use crate::parts::{
    absent_places, after, count, first, own_place, presence, read_unknown, set, set_foreign,
};
use crate::preamble::preamble;
use crate::stop::Stop;
use oer_types::{Addition, Alt, Field, Shape, Size, Unknown, Value, optional, with_tag};
use oer_units::{Source, Tag, Why, Window, length, tag};
use std::alloc::Global;

/// The root of a SEQUENCE with an extension marker, and the extension bit before it.
#[derive(Drop)]
pub(crate) struct Start {
    pub is_extended: bool,
    pub places: Vec<Option<Value>>,
}

/// The additions of a SEQUENCE: those that the type knows, and the others.
#[derive(Drop)]
pub(crate) struct Added {
    pub known: Vec<Option<Value>>,
    pub unknown: Vec<Unknown>,
}

/// Reads a value of the type into `value`.
#[cycle(read)]
pub(crate) fn read_shape<R: Source>(
    shape: &Shape,
    alloc: Global,
    value: &mut Value,
    w: &mut Window<R>,
) -> Result<(), Stop>
    requires { value.old ≡ Value.Null }
    ensures memory { NeedsNoMemory (type_of shape.now) → StopsNotForMemory result }
    ensures reads { ReadsAs (read_value (type_of shape.now)) (state R.loan R.remaining R.failed w.old) (λ _. value_of value.new) result
        (state R.loan R.remaining R.failed w.new) }
{
    match shape {
        Shape::SequenceOf { size, item } => read_items(item, alloc, *size, value, w),
        Shape::Sequence { root, additions } => match additions {
            None => read_sequence(root, alloc, value, w),
            Some(additions) => read_extensible(shape, root, additions, alloc, value, w),
        },
        Shape::Choice { root, additions } => read_choice(shape, root, additions, alloc, value, w),
        _ => read_leaf(shape, alloc, value, w),
    }
}

/// A SEQUENCE with an extension marker (X.696, 16).
#[cycle(read)]
fn read_extensible<R: Source>(
    shape: &Shape,
    root: &[Field],
    additions: &[Addition],
    alloc: Global,
    value: &mut Value,
    w: &mut Window<R>,
) -> Result<(), Stop>
    requires is { IsExtensible shape.now root.now additions.now }
    requires empty { value.old ≡ Value.Null }
    ensures { ReadsAs (read_value (type_of shape.now)) (state R.loan R.remaining R.failed w.old) (λ _. value_of value.new) result
        (state R.loan R.remaining R.failed w.new) }
{
    let start = read_root(root, alloc, w)?;
    read_rest(additions, alloc, start, value, w)
}

/// A CHOICE (X.696, 20).
#[cycle(read)]
fn read_choice<R: Source>(
    shape: &Shape,
    root: &[Alt],
    additions: &Option<Vec<Alt>>,
    alloc: Global,
    value: &mut Value,
    w: &mut Window<R>,
) -> Result<(), Stop>
    requires is { IsChoice shape.now root.now additions.now }
    requires empty { value.old ≡ Value.Null }
    ensures { ReadsAs (read_value (type_of shape.now)) (state R.loan R.remaining R.failed w.old) (λ _. value_of value.new) result
        (state R.loan R.remaining R.failed w.new) }
{
    let tag = tag(w)?;
    if let Some(alternative) = with_tag(root, tag) {
        let mut inner = own_place(alloc)?;
        read_shape(&alternative.shape, alloc, &mut inner, w)?;
        set(value, Value::Chosen { tag, value: inner });
        return Ok(());
    }
    match additions {
        Some(additions) => read_later_alternative(additions, alloc, tag, value, w),
        None => Err(Stop {
            why: Why::UnknownAlternative,
        }),
    }
}

/// A SEQUENCE OF (X.696, 17).
#[cycle(read)]
fn read_items<R: Source>(
    item: &Shape,
    alloc: Global,
    size: Size,
    value: &mut Value,
    w: &mut Window<R>,
) -> Result<(), Stop>
    requires { value.old ≡ Value.Null }
    ensures { ReadsAs (read_value (sequence_of size (type_of item.now))) (state R.loan R.remaining R.failed w.old)
        (λ _. value_of value.new) result (state R.loan R.remaining R.failed w.new) }
{
    let count = count(size, w)?;
    let values = read_elements(item, alloc, count, w)?;
    set(value, Value::List(values));
    Ok(())
}

/// So many elements. Memory grows with those that came.
#[cycle(read)]
fn read_elements<R: Source>(
    item: &Shape,
    alloc: Global,
    count: u64,
    w: &mut Window<R>,
) -> Result<Vec<Value>, Stop>
    ensures { ReadsAs (times count (read_value (type_of item.now))) (state R.loan R.remaining R.failed w.old)
        (λ v. map value_of v.items) result (state R.loan R.remaining R.failed w.new) }
{
    if let Shape::Boolean = item {
        return read_booleans(alloc, count, w);
    }
    let mut values = Vec::new(alloc);
    for i in 0..count {
        if values.push(Value::Null).is_err() {
            return Err(Stop { why: Why::Memory });
        }
        let Some(value) = values.last_mut() else {
            unreachable!();
        };
        read_shape(item, alloc, value, w)?;
    }
    Ok(values)
}

/// Reads what an open type holds (X.696, 30), as a value of the type.
#[cycle(read)]
fn read_open<R: Source>(
    shape: &Shape,
    alloc: Global,
    value: &mut Value,
    w: &mut Window<R>,
) -> Result<(), Stop>
    requires { value.old ≡ Value.Null }
    ensures { ReadsAs (open_type (read_value (type_of shape.now))) (state R.loan R.remaining R.failed w.old)
        (λ _. value_of value.new) result (state R.loan R.remaining R.failed w.new) }
{
    let size = length(w)?;
    let outer = w.enter(size);
    read_shape(shape, alloc, value, w)?;
    w.leave(outer)?;
    Ok(())
}

/// The components of a root, by their presence bits.
#[cycle(read)]
#[inline(always)]
fn read_fields<R: Source>(
    fields: &[Field],
    alloc: Global,
    bits: &[bool],
    w: &mut Window<R>,
) -> Result<Vec<Option<Value>>, Stop>
    ensures { ReadsAs (fields_read (fields_of fields.now) bits.now) (state R.loan R.remaining R.failed w.old)
        (λ v. places_of v.items) result (state R.loan R.remaining R.failed w.new) }
{
    let Ok(mut places) = Vec::with_capacity(alloc, fields.len()) else {
        return Err(Stop { why: Why::Memory });
    };
    let mut left = bits;
    for field in fields {
        let (is_present, rest) = presence(&field.need, left);
        left = rest;
        places.push_reserved(None);
        if !is_present {
            continue;
        }
        let Some(place) = places.last_mut() else {
            unreachable!();
        };
        read_shape(&field.shape, alloc, place.insert(Value::Null), w)?;
    }
    Ok(places)
}

/// The additions that the type knows, by their presence bits.
#[cycle(read)]
fn read_additions<R: Source>(
    additions: &[Addition],
    alloc: Global,
    bits: &[bool],
    w: &mut Window<R>,
) -> Result<Vec<Option<Value>>, Stop>
    ensures { ReadsAs (additions_read (additions_of additions.now) bits.now) (state R.loan R.remaining R.failed w.old)
        (λ v. places_of v.items) result (state R.loan R.remaining R.failed w.new) }
{
    let Ok(mut places) = Vec::with_capacity(alloc, additions.len()) else {
        return Err(Stop { why: Why::Memory });
    };
    let mut left = bits;
    for addition in additions {
        let is_present = first(left);
        let rest = after(left);
        left = rest;
        places.push_reserved(None);
        if !is_present {
            continue;
        }
        let Some(place) = places.last_mut() else {
            unreachable!();
        };
        read_open(&addition.shape, alloc, place.insert(Value::Null), w)?;
    }
    Ok(places)
}

/// A SEQUENCE without an extension marker (X.696, 16).
#[cycle(read)]
fn read_sequence<R: Source>(
    root: &[Field],
    alloc: Global,
    value: &mut Value,
    w: &mut Window<R>,
) -> Result<(), Stop>
    requires { value.old ≡ Value.Null }
    ensures { ReadsAs (read_value (sequence (fields_of root.now))) (state R.loan R.remaining R.failed w.old)
        (λ _. value_of value.new) result (state R.loan R.remaining R.failed w.new) }
{
    let bits = preamble(alloc, optional(root) as u64, w)?;
    let root = read_fields(root, alloc, bits.as_slice(), w)?;
    set(
        value,
        Value::Seq {
            root,
            added: Vec::new(alloc),
            unknown: Vec::new(alloc),
        },
    );
    Ok(())
}

/// The root of a SEQUENCE with an extension marker, after its preamble.
#[cycle(read)]
fn read_root<R: Source>(root: &[Field], alloc: Global, w: &mut Window<R>) -> Result<Start, Stop>
    ensures { ReadsAs (root_at (fields_of root.now)) (state R.loan R.remaining R.failed w.old) start_of result
        (state R.loan R.remaining R.failed w.new) }
{
    let bits = preamble(alloc, optional(root) as u64 + 1, w)?;
    let marks = bits.as_slice();
    let is_extended = first(marks);
    let places = read_fields(root, alloc, after(marks), w)?;
    Ok(Start {
        is_extended,
        places,
    })
}

/// What follows the root of a SEQUENCE with an extension marker.
#[cycle(read)]
#[inline(always)]
fn read_rest<R: Source>(
    additions: &[Addition],
    alloc: Global,
    start: Start,
    value: &mut Value,
    w: &mut Window<R>,
) -> Result<(), Stop>
    requires { value.old ≡ Value.Null }
    ensures { ReadsAs (rest_at (additions_of additions.now) (start_of start)) (state R.loan R.remaining R.failed w.old)
        (λ _. value_of value.new) result (state R.loan R.remaining R.failed w.new) }
{
    let added = read_extension(additions, alloc, start.is_extended, w)?;
    set(
        value,
        Value::Seq {
            root: start.places,
            added: added.known,
            unknown: added.unknown,
        },
    );
    Ok(())
}

/// The additions, of which there are none where the extension bit isn't set.
#[cycle(read)]
#[inline(always)]
fn read_extension<R: Source>(
    additions: &[Addition],
    alloc: Global,
    is_extended: bool,
    w: &mut Window<R>,
) -> Result<Added, Stop>
    ensures { ReadsAs (extension_read is_extended (additions_of additions.now) (additions_read (additions_of additions.now)))
        (state R.loan R.remaining R.failed w.old) added_of result (state R.loan R.remaining R.failed w.new) }
{
    if !is_extended {
        let Ok(known) = absent_places(alloc, additions) else {
            return Err(Stop { why: Why::Memory });
        };
        return Ok(Added {
            known,
            unknown: Vec::new(alloc),
        });
    }
    let bits = addition_map(alloc, w)?;
    let known = read_additions(additions, alloc, &bits, w)?;
    let unknown = read_unknown(alloc, &bits, additions.len(), w)?;
    Ok(Added { known, unknown })
}

/// Reads what follows a tag that no alternative of the root has, where there is an extension marker.
#[cycle(read)]
fn read_later_alternative<R: Source>(
    alternatives: &[Alt],
    alloc: Global,
    tag: Tag,
    value: &mut Value,
    w: &mut Window<R>,
) -> Result<(), Stop>
    requires { value.old ≡ Value.Null }
    ensures { ReadsAs (later_at (later_of alternatives.now) tag) (state R.loan R.remaining R.failed w.old)
        (λ _. value_of value.new) result (state R.loan R.remaining R.failed w.new) }
{
    let Some(alternative) = with_tag(alternatives, tag) else {
        return set_foreign(alloc, tag, value, w);
    };
    let mut inner = own_place(alloc)?;
    read_open(&alternative.shape, alloc, &mut inner, w)?;
    set(value, Value::Chosen { tag, value: inner });
    Ok(())
}
