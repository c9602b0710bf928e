//! Only laws, for the proof: a number has the width of the field that holds it. The calls do nothing.
ghost use Rattle.std.specs.Prelude.{◌^◌, ◌<◌, FitsSigned, map};
ghost use Rattle.std.specs.Int.{w64};
ghost use Rattle.oer_model.specs.Widths.{HasBoundWidth, HasEndWidth, HasSizeWidths, HaveItemWidths};
ghost use Rattle.oer_types.specs.Widths.{OwnWidths};
ghost use Rattle.oer_units.specs.Laws.{HasTagNumber};
ghost use Rattle.oer_values.specs.ShapeView.{named_number, type_of};

use oer_model::Size;
use oer_units::Tag;
use oer_values::{Item, Shape};

/// The numbers of the type itself, without those of the types in it.
#[tactic(auto, using(oer_values::proofs::Shapes::shapes))]
pub(crate) fn own_widths(shape: &Shape)
    ensures { OwnWidths (type_of shape.now) }
{
    match shape {
        Shape::Integer { low, high } => {
            bound_width(*low);
            bound_width(*high);
        }
        Shape::Enumerated { items, .. } => item_widths(items),
        Shape::BitString(size)
        | Shape::OctetString(size)
        | Shape::Ia5(size)
        | Shape::Visible(size)
        | Shape::Numeric(size)
        | Shape::Printable(size)
        | Shape::Utf8(size)
        | Shape::SequenceOf { size, .. } => size_widths(*size),
        Shape::Boolean
        | Shape::Null
        | Shape::ObjectId
        | Shape::Sequence { .. }
        | Shape::Choice { .. } => {}
    }
}

/// The number of a tag.
pub(crate) fn tag_width(tag: Tag)
    ensures { HasTagNumber tag }
{
    let _number = tag.number;
}

fn item_widths(items: &[Item])
    ensures { HaveItemWidths (map named_number items.now) }
{
    for item in items {
        number_width(item.number);
    }
}

fn number_width(number: i64)
    ensures { FitsSigned w64 number }
{}

fn bound_width(bound: Option<i128>)
    ensures { HasBoundWidth bound }
{
    if let Some(_number) = bound {}
}

fn size_widths(size: Size)
    ensures { HasSizeWidths size }
{
    low_width(size.low);
    high_width(size.high);
}

fn low_width(low: u64)
    ensures { low < 2 ^ 64 }
{}

fn high_width(high: Option<u64>)
    ensures { HasEndWidth high }
{
    if let Some(_number) = high {}
}
