//! Which of our types a type of a module stands for.
ghost use Rattle.std.specs.Prelude.{◌≡◌, map};
ghost use Rattle.oer_module_text.specs.Errors.{Gives, seen};
ghost use Rattle.oer_values.specs.ShapeView.{named_number, type_of};
ghost use Rattle.oer_module_leaves.specs.Numbered.{item_of, numbered_of};
ghost use Rattle.oer_module_leaves.specs.Shapes.{counted_type, enumerated_type, named_at, named_items, in_64_bits, size_at, words};
ghost use Rattle.oer_module_leaves.specs.Texts.{sizes_of};

use crate::numbered::{Numbered, NumberedItem};
use crate::text::Sizes;
use oer_model::Size;
use oer_module_names::Place;
use oer_module_text::{Error, Why};
use oer_values::{Item, Shape};
use std::alloc::Global;

/// A type whose values SIZE counts, in bits, octets or characters.
#[derive(Clone, Copy)]
pub enum Counted {
    Bits,
    Octets,
    Ia5,
    Visible,
    Numeric,
    Printable,
    Utf8,
}

impl Counted {
    /// The words of the type.
    pub fn words(self) -> &'static str
        ensures { result.now ≡ words self }
    {
        match self {
            Counted::Bits => "BIT STRING",
            Counted::Octets => "OCTET STRING",
            Counted::Ia5 => "IA5String",
            Counted::Visible => "VisibleString",
            Counted::Numeric => "NumericString",
            Counted::Printable => "PrintableString",
            Counted::Utf8 => "UTF8String",
        }
    }

    /// The type, of values of this size.
    pub fn shape(self, size: Size) -> Shape
        ensures { type_of result ≡ counted_type self size }
    {
        match self {
            Counted::Bits => Shape::BitString(size),
            Counted::Octets => Shape::OctetString(size),
            Counted::Ia5 => Shape::Ia5(size),
            Counted::Visible => Shape::Visible(size),
            Counted::Numeric => Shape::Numeric(size),
            Counted::Printable => Shape::Printable(size),
            Counted::Utf8 => Shape::Utf8(size),
        }
    }
}

/// The sizes of a type at a place, as our types have them.
///
/// # Errors
/// TooWide, if 64 bits don't hold an end.
pub fn size_at<'t>(place: Place, sizes: Sizes) -> Result<Size, Error<'t>>
    ensures { seen (λ s. s) result ≡ size_at place (sizes_of sizes) }
{
    match sizes.size() {
        Some(size) => Ok(size),
        None => Err(Error {
            place,
            why: Why::TooWide,
        }),
    }
}

/// The number of an item at a place, as our types and values have it.
///
/// # Errors
/// TooWide, if 64 bits with a sign don't hold it.
pub fn in_64_bits<'t>(place: Place, number: i128) -> Result<i64, Error<'t>>
    ensures { seen (λ n. n) result ≡ in_64_bits place number }
{
    match i64::try_from(number) {
        Ok(number) => Ok(number),
        Err(_) => Err(Error {
            place,
            why: Why::TooWide,
        }),
    }
}

/// An item in a module, as our types have it.
fn named_at<'t>(alloc: Global, module: usize, item: &NumberedItem<'t>) -> Result<Item, Error<'t>>
    ensures { Gives named_number result (named_at «module» (item_of item.now)) }
{
    let place = Place {
        module,
        at: item.at,
    };
    let number = in_64_bits(place, item.number)?;
    let name = String::from_str(alloc, item.name)?;
    Ok(Item { name, number })
}

/// Items in a module, as our types have them.
fn named_items<'t>(
    alloc: Global,
    module: usize,
    items: &[NumberedItem<'t>],
) -> Result<Vec<Item>, Error<'t>>
    ensures { Gives (λ v. map named_number v.items) result (named_items «module» (map item_of items.now)) }
{
    let mut named = Vec::new(alloc);
    for item in items {
        let made = named_at(alloc, module, item)?;
        named.push(made)?;
    }
    Ok(named)
}

/// An ENUMERATED with these items, which stand in a module (X.680, 20).
///
/// # Errors
/// TooWide, at the first item whose number 64 bits with a sign don't hold.
pub fn enumerated_shape<'t>(
    alloc: Global,
    module: usize,
    numbered: &Numbered<'t>,
) -> Result<Shape, Error<'t>>
    ensures { Gives type_of result (enumerated_type «module» (numbered_of numbered.now)) }
{
    let items = named_items(alloc, module, &numbered.items)?;
    Ok(Shape::Enumerated {
        items,
        extensible: numbered.marker.is_some(),
    })
}
