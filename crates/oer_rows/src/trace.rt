//! How the rows of an encoding are come to, one after another.
ghost use Rattle.oer_model.specs.AsnType.{sequence, sequence_of};
ghost use Rattle.oer_values.specs.ShapeView.{additions_of, fields_of, later_of, type_of};
ghost use Rattle.oer_checker.specs.BitView.{IsWhole, bits_in};
ghost use Rattle.oer_checker.specs.Facts.{IsChoice, IsExtensible, IsLeaf};
ghost use Rattle.oer_checker.specs.Places.{place_of};
ghost use Rattle.oer_rows.specs.Rows.{Walks, path_in, walk_additions, walk_extension, walk_fields, walk_if, walk_later, walk_open, walk_rest, walk_times, walk_unknown, walk_value};
ghost use Rattle.oer_model.specs.Parts.{to_addition, to_component, to_item};
ghost use Rattle.std.specs.Prelude.{◌++◌, ◌∷◌, [], drop};

use crate::row::{Halt, Role};
use crate::spot::Spot;
use crate::taker::TakeRow;
use oer_checker::readers::{
    Bits, Cursor, addition_map, check_leaf, group_at, preamble, presence, sized_length_at,
    sized_quantity_at, tag_at,
};
use oer_parts::Step;
use oer_types::{Addition, Alt, Field, Shape, Size, optional, with_tag};
use oer_units::Tag;

/// A value of a type without parts.
fn list_leaf<'a, T: TakeRow>(
    spot: &Spot,
    shape: &Shape,
    cursor: Cursor<'a>,
    taker: &mut T,
) -> Result<Cursor<'a>, Halt>
    requires { IsLeaf (type_of shape.now) }
    ensures { Walks result T.takes taker.old taker.new (walk_value (type_of shape.now) spot.now.total (path_in spot.now)) (place_of cursor.entry) }
{
    let mut end = cursor;
    let answer = check_leaf(shape, &mut end);
    spot.taken(Role::Contents, taker, cursor, end, answer)?;
    Ok(end)
}

/// An open type (X.696, 30) of which the type isn't known.
fn list_unknown<'a, T: TakeRow>(
    spot: &Spot,
    cursor: Cursor<'a>,
    taker: &mut T,
) -> Result<Cursor<'a>, Halt>
    ensures { Walks result T.takes taker.old taker.new (walk_unknown spot.now.total (path_in spot.now)) (place_of cursor.entry) }
{
    let mut next = cursor;
    let answer = sized_length_at(&mut next);
    let counted = spot.taken(Role::Length, taker, cursor, next, answer)?;
    let mut end = next;
    let answer = group_at(&mut end, counted.count);
    spot.taken(Role::Unknown, taker, next, end, answer)?;
    Ok(end)
}

/// The additions that the type doesn't know, of which there are `known`.
fn list_rest<'a, T: TakeRow>(
    spot: &Spot,
    bits: Bits<'a>,
    known: usize,
    cursor: Cursor<'a>,
    taker: &mut T,
) -> Result<Cursor<'a>, Halt>
    requires { IsWhole bits }
    ensures { Walks result T.takes taker.old taker.new (walk_rest spot.now.total (path_in spot.now) known (drop known (bits_in bits.entry))) (place_of cursor.entry) }
{
    let mut at = cursor;
    for index in known as u64..bits.to {
        if !bits.bit(index) {
            continue;
        }
        let inner = spot.inner(Step::Addition(index as usize))?;
        at = list_unknown(&inner, at, taker)?;
    }
    Ok(at)
}

/// The encoding of a value of the type.
#[cycle(list)]
#[tactic(auto, using(oer_values::proofs::Shapes::shapes))]
pub(crate) fn list_shape<'a, T: TakeRow>(
    spot: &Spot,
    shape: &Shape,
    cursor: Cursor<'a>,
    taker: &mut T,
) -> Result<Cursor<'a>, Halt>
    ensures { Walks result T.takes taker.old taker.new (walk_value (type_of shape.now) spot.now.total (path_in spot.now)) (place_of cursor.entry) }
{
    match shape {
        Shape::SequenceOf { size, item } => list_items(spot, *size, item, cursor, taker),
        Shape::Sequence { root, additions } => match additions {
            None => list_sequence(spot, root, cursor, taker),
            Some(additions) => list_extensible(spot, shape, root, additions, cursor, taker),
        },
        Shape::Choice { root, additions } => {
            list_choice(spot, shape, root, additions, cursor, taker)
        }
        _ => list_leaf(spot, shape, cursor, taker),
    }
}

/// A SEQUENCE OF.
#[cycle(list)]
fn list_items<'a, T: TakeRow>(
    spot: &Spot,
    size: Size,
    item: &Shape,
    cursor: Cursor<'a>,
    taker: &mut T,
) -> Result<Cursor<'a>, Halt>
    ensures { Walks result T.takes taker.old taker.new (walk_value (sequence_of size (type_of item.now)) spot.now.total (path_in spot.now)) (place_of cursor.entry) }
{
    let mut next = cursor;
    let answer = sized_quantity_at(size, &mut next);
    let counted = spot.taken(Role::Quantity, taker, cursor, next, answer)?;
    list_elements(spot, item, counted.count, next, taker)
}

/// A SEQUENCE without an extension marker.
#[cycle(list)]
fn list_sequence<'a, T: TakeRow>(
    spot: &Spot,
    fields: &[Field],
    cursor: Cursor<'a>,
    taker: &mut T,
) -> Result<Cursor<'a>, Halt>
    ensures { Walks result T.takes taker.old taker.new (walk_value (sequence (fields_of fields.now)) spot.now.total (path_in spot.now)) (place_of cursor.entry) }
{
    let mut next = cursor;
    let answer = preamble(optional(fields) as u64, &mut next);
    let bits = spot.taken(Role::Preamble, taker, cursor, next, answer)?;
    list_fields(spot, fields, bits, next, taker)
}

/// A SEQUENCE with an extension marker.
#[cycle(list)]
fn list_extensible<'a, T: TakeRow>(
    spot: &Spot,
    shape: &Shape,
    fields: &[Field],
    additions: &[Addition],
    cursor: Cursor<'a>,
    taker: &mut T,
) -> Result<Cursor<'a>, Halt>
    requires is { IsExtensible shape.now fields.now additions.now }
    ensures { Walks result T.takes taker.old taker.new (walk_value (type_of shape.now) spot.now.total (path_in spot.now)) (place_of cursor.entry) }
{
    let mut next = cursor;
    let answer = preamble(optional(fields) as u64 + 1, &mut next);
    let bits = spot.taken(Role::Preamble, taker, cursor, next, answer)?;
    let end = list_fields(spot, fields, bits.later(), next, taker)?;
    list_extension(spot, additions, bits.first(), end, taker)
}

/// A CHOICE.
#[cycle(list)]
fn list_choice<'a, T: TakeRow>(
    spot: &Spot,
    shape: &Shape,
    alternatives: &[Alt],
    additions: &Option<Vec<Alt>>,
    cursor: Cursor<'a>,
    taker: &mut T,
) -> Result<Cursor<'a>, Halt>
    requires is { IsChoice shape.now alternatives.now additions.now }
    ensures { Walks result T.takes taker.old taker.new (walk_value (type_of shape.now) spot.now.total (path_in spot.now)) (place_of cursor.entry) }
{
    let mut next = cursor;
    let answer = tag_at(&mut next);
    let tag = spot.taken(Role::Tag, taker, cursor, next, answer)?;
    let inner = spot.inner(Step::Chosen)?;
    if let Some(alternative) = with_tag(alternatives, tag) {
        return list_shape(&inner, &alternative.shape, next, taker);
    }
    match additions {
        None => Err(Halt::Refused),
        Some(additions) => list_later(&inner, additions, tag, next, taker),
    }
}

/// So many elements.
#[cycle(list)]
fn list_elements<'a, T: TakeRow>(
    spot: &Spot,
    item: &Shape,
    count: u64,
    cursor: Cursor<'a>,
    taker: &mut T,
) -> Result<Cursor<'a>, Halt>
    ensures { Walks result T.takes taker.old taker.new (walk_times (λ i. walk_value (type_of item.now) spot.now.total (path_in spot.now ++ (to_item i ∷ []))) 0 count) (place_of cursor.entry) }
{
    let mut at = cursor;
    for turn in 0..count {
        let inner = spot.inner(Step::Item(turn as usize))?;
        at = list_shape(&inner, item, at, taker)?;
    }
    Ok(at)
}

/// An open type (X.696, 30) that holds a value of the type.
#[cycle(list)]
fn list_open<'a, T: TakeRow>(
    spot: &Spot,
    shape: &Shape,
    cursor: Cursor<'a>,
    taker: &mut T,
) -> Result<Cursor<'a>, Halt>
    ensures { Walks result T.takes taker.old taker.new (walk_open spot.now.total (path_in spot.now) (walk_value (type_of shape.now) spot.now.total (path_in spot.now))) (place_of cursor.entry) }
{
    let mut next = cursor;
    let answer = sized_length_at(&mut next);
    let counted = spot.taken(Role::Length, taker, cursor, next, answer)?;
    let content = Cursor {
        rest: next.rest,
        left: counted.count,
    };
    let end = list_shape(spot, shape, content, taker)?;
    if end.left > 0 {
        return Err(Halt::Refused);
    }
    Ok(Cursor {
        rest: end.rest,
        left: next.left.saturating_sub(counted.count),
    })
}

/// A component of a root, if it is there.
#[cycle(list)]
fn list_field<'a, T: TakeRow>(
    spot: &Spot,
    field: &Field,
    index: usize,
    is_present: bool,
    cursor: Cursor<'a>,
    taker: &mut T,
) -> Result<Cursor<'a>, Halt>
    ensures { Walks result T.takes taker.old taker.new (walk_if is_present (walk_value (type_of field.now.shape) spot.now.total (path_in spot.now ++ (to_component index ∷ [])))) (place_of cursor.entry) }
{
    if !is_present {
        return Ok(cursor);
    }
    let inner = spot.inner(Step::Component(index))?;
    list_shape(&inner, &field.shape, cursor, taker)
}

/// The components of a root, by their presence bits.
#[cycle(list)]
fn list_fields<'a, T: TakeRow>(
    spot: &Spot,
    fields: &[Field],
    bits: Bits<'a>,
    cursor: Cursor<'a>,
    taker: &mut T,
) -> Result<Cursor<'a>, Halt>
    ensures { Walks result T.takes taker.old taker.new (walk_fields (fields_of fields.now) spot.now.total (path_in spot.now) 0 (bits_in bits.entry)) (place_of cursor.entry) }
{
    let mut left = bits;
    let mut at = cursor;
    let mut index: usize = 0;
    for field in fields {
        let (is_present, rest) = presence(&field.need, left);
        left = rest;
        at = list_field(spot, field, index, is_present, at, taker)?;
        index += 1;
    }
    Ok(at)
}

/// The additions, of which there are none where the extension bit isn't set.
#[cycle(list)]
fn list_extension<'a, T: TakeRow>(
    spot: &Spot,
    additions: &[Addition],
    is_extended: bool,
    cursor: Cursor<'a>,
    taker: &mut T,
) -> Result<Cursor<'a>, Halt>
    ensures { Walks result T.takes taker.old taker.new (walk_extension is_extended (additions_of additions.now) spot.now.total (path_in spot.now) (walk_additions (additions_of additions.now) spot.now.total (path_in spot.now) 0)) (place_of cursor.entry) }
{
    if !is_extended {
        return Ok(cursor);
    }
    let mut next = cursor;
    let answer = addition_map(additions.len(), &mut next);
    let map = spot.taken(Role::Bitmap, taker, cursor, next, answer)?;
    let end = list_additions(spot, additions, map.bits, next, taker)?;
    list_rest(spot, map.bits, additions.len(), end, taker)
}

/// An addition, if it is there.
#[cycle(list)]
fn list_addition<'a, T: TakeRow>(
    spot: &Spot,
    addition: &Addition,
    index: usize,
    is_present: bool,
    cursor: Cursor<'a>,
    taker: &mut T,
) -> Result<Cursor<'a>, Halt>
    ensures { Walks result T.takes taker.old taker.new (walk_if is_present (walk_open spot.now.total (path_in spot.now ++ (to_addition index ∷ [])) (walk_value (type_of addition.now.shape) spot.now.total (path_in spot.now ++ (to_addition index ∷ []))))) (place_of cursor.entry) }
{
    if !is_present {
        return Ok(cursor);
    }
    let inner = spot.inner(Step::Addition(index))?;
    list_open(&inner, &addition.shape, cursor, taker)
}

/// The additions that the type knows, by their presence bits.
#[cycle(list)]
fn list_additions<'a, T: TakeRow>(
    spot: &Spot,
    additions: &[Addition],
    bits: Bits<'a>,
    cursor: Cursor<'a>,
    taker: &mut T,
) -> Result<Cursor<'a>, Halt>
    ensures { Walks result T.takes taker.old taker.new (walk_additions (additions_of additions.now) spot.now.total (path_in spot.now) 0 (bits_in bits.entry)) (place_of cursor.entry) }
{
    let mut left = bits;
    let mut at = cursor;
    let mut index: usize = 0;
    for addition in additions {
        let is_present = left.first();
        left = left.later();
        at = list_addition(spot, addition, index, is_present, at, taker)?;
        index += 1;
    }
    Ok(at)
}

/// What follows a tag that no alternative of the root has (X.696, 20).
#[cycle(list)]
fn list_later<'a, T: TakeRow>(
    spot: &Spot,
    alternatives: &[Alt],
    tag: Tag,
    cursor: Cursor<'a>,
    taker: &mut T,
) -> Result<Cursor<'a>, Halt>
    ensures { Walks result T.takes taker.old taker.new (walk_later (later_of alternatives.now) spot.now.total (path_in spot.now) tag) (place_of cursor.entry) }
{
    match with_tag(alternatives, tag) {
        Some(alternative) => list_open(spot, &alternative.shape, cursor, taker),
        None => list_unknown(spot, cursor, taker),
    }
}
