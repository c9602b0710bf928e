//! The text of ranges, sizes and items.
ghost use Rattle.std.specs.Prelude.{◌≡◌, ◌++◌, OnOk, map, string_bytes};
ghost use Rattle.oer_module_bounds.specs.Sets.{span_of};
ghost use Rattle.oer_module_text.specs.Errors.{Gives};
ghost use Rattle.oer_module_text.specs.Room.{put, room_of};
ghost use Rattle.oer_module_leaves.specs.Numbered.{item_of, numbered_of};
ghost use Rattle.oer_module_leaves.specs.Texts.{before, closing, fixed, is_at, item_text, items_at, items_from, long, low_end, put_range, put_size, range_text, size_of, size_text, sizes_of, sizes_within};

use crate::numbered::{Numbered, NumberedItem};
use oer_model::Size;
use oer_module_bounds::Range;
use oer_module_names::Place;
use oer_module_text::{Error, Room};
use std::alloc::AllocError;

/// The sizes that a type allows, in octets, bits or characters: from `low`, which isn't below 0, to `high`, both included. An absent
/// upper end is no bound.
#[derive(Clone, Copy, Debug, PartialEq, Eq)]
pub struct Sizes {
    pub low: i128,
    pub high: Option<i128>,
}

/// A lower end of sizes; no size is below 0.
fn low_end(low: Option<i128>) -> i128
    ensures { result ≡ low_end low }
{
    match low {
        Some(low) if low > 0 => low,
        _ => 0,
    }
}

/// The number, if it has 64 bits and no sign.
fn long(number: i128) -> Option<u64>
    ensures { result ≡ long number }
{
    match u64::try_from(number) {
        Ok(number) => Some(number),
        Err(_) => None,
    }
}

impl Sizes {
    /// Those of a range of whole numbers. No size is below 0, whatever the range says.
    pub fn within(range: Range) -> Sizes
        ensures { sizes_of result ≡ sizes_within (span_of range) }
    {
        Sizes {
            low: low_end(range.low()),
            high: range.high(),
        }
    }

    /// The one size that is allowed, if there is one alone (X.696, 13 and 14).
    pub fn fixed(&self) -> Option<i128>
        ensures { result ≡ fixed (sizes_of self.now) }
    {
        match self.high {
            Some(high) if self.low == high => Some(high),
            _ => None,
        }
    }

    /// The same as our types have them, if 64 bits hold both ends.
    pub fn size(self) -> Option<Size>
        ensures { result ≡ size_of (sizes_of self) }
    {
        let low = long(self.low)?;
        match self.high {
            None => Some(Size { low, high: None }),
            Some(high) => {
                let high = long(high)?;
                Some(Size {
                    low,
                    high: Some(high),
                })
            }
        }
    }
}

/// Appends a range in parentheses, or nothing where it has no end.
fn push_range(text: &mut String, low: Option<i128>, high: Option<i128>) -> Result<(), AllocError>
    ensures { OnOk result (string_bytes text.new ≡ string_bytes text.old ++ range_text low high) }
{
    match (low, high) {
        (None, None) => Ok(()),
        (None, Some(high)) => write!(text, " (MIN..{high})"),
        (Some(low), None) => write!(text, " ({low}..MAX)"),
        (Some(low), Some(high)) => {
            if low == high {
                return write!(text, " ({low})");
            }
            write!(text, " ({low}..{high})")
        }
    }
}

/// Adds the range of an INTEGER in parentheses, or nothing where it has no end.
pub fn put_range(range: Range, room: &mut Room) -> Result<(), AllocError>
    ensures { OnOk result (room_of room.new ≡ put_range (span_of range) (room_of room.old)) }
{
    push_range(&mut room.text, range.low(), range.high())
}

/// Appends sizes in parentheses, or nothing where every size is allowed.
fn push_size(text: &mut String, low: i128, high: Option<i128>) -> Result<(), AllocError>
    ensures { OnOk result (string_bytes text.new ≡ string_bytes text.old ++ size_text low high) }
{
    match high {
        None => {
            if low == 0 {
                return Ok(());
            }
            write!(text, " (SIZE({low}..MAX))")
        }
        Some(high) => {
            if low == high {
                return write!(text, " (SIZE({low}))");
            }
            write!(text, " (SIZE({low}..{high}))")
        }
    }
}

/// Adds sizes in parentheses, or nothing where every size is allowed.
pub fn put_size(sizes: Sizes, room: &mut Room) -> Result<(), AllocError>
    ensures { OnOk result (room_of room.new ≡ put_size (sizes_of sizes) (room_of room.old)) }
{
    push_size(&mut room.text, sizes.low, sizes.high)
}

/// Whether the marker stands before the item of this index.
fn is_at(marker: Option<usize>, index: usize) -> bool
    ensures { result ≡ is_at marker index }
{
    match marker {
        Some(at) => at == index,
        None => false,
    }
}

/// What stands before the item of this index.
fn before(marker: Option<usize>, index: usize) -> &'static str
    ensures { result.now ≡ before marker index }
{
    if index == 0 {
        return "";
    }
    if is_at(marker, index) {
        return ", ..., ";
    }
    ", "
}

/// What stands behind so many items.
fn closing(marker: Option<usize>, count: usize) -> &'static str
    ensures { result.now ≡ closing marker count }
{
    if is_at(marker, count) {
        return ", ...}";
    }
    "}"
}

/// Adds an item with its number.
fn put_item(item: &NumberedItem<'_>, room: &mut Room) -> Result<(), AllocError>
    ensures { OnOk result (room_of room.new ≡ put (item_text (item_of item.now)) (room_of room.old)) }
{
    let name = item.name;
    let number = item.number;
    write!(room.text, "{name}({number})")
}

/// Adds items; each takes the room of one part, at its place in the module.
fn put_items<'t>(
    module: usize,
    marker: Option<usize>,
    items: &[NumberedItem<'t>],
    room: &mut Room,
) -> Result<(), Error<'t>>
    ensures { Gives (λ _. room_of room.new) result (items_from «module» marker 0 (map item_of items.now) (room_of room.old)) }
{
    for (index, item) in items.iter().enumerate() {
        room.take_part(Place {
            module,
            at: item.at,
        })?;
        room.put(before(marker, index))?;
        put_item(item, room)?;
    }
    Ok(())
}

/// Adds all items and the marker, and the closing brace.
#[tactic(auto, unfolding(crate::specs::Texts::items_at))]
pub fn put_numbered<'t>(
    module: usize,
    numbered: &Numbered<'t>,
    room: &mut Room,
) -> Result<(), Error<'t>>
    ensures { Gives (λ _. room_of room.new) result (items_at «module» (numbered_of numbered.now) (room_of room.old)) }
{
    put_items(module, numbered.marker, &numbered.items, room)?;
    room.put(closing(numbered.marker, numbered.items.len()))?;
    Ok(())
}
