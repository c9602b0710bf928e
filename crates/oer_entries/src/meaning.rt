//! What rows say, beside where they stand.

use crate::bits::{Bitmap, preamble_bits};
use crate::entry::What;
use crate::frame::Frame;
use crate::leaf::{is_default, leaf_of};
use crate::plain::PlainJson;
use crate::trail::octets_from;
use crate::units::{length_in, other_length, other_quantity, quantity_in, tag_in};
use crate::way::Way;
use oer_rows::{Role, RowRef};
use oer_types::Shape;
use std::alloc::{AllocError, Global};

// What a row says, beside where it stands.
#[derive(Drop)]
pub(crate) struct Meaning<'a> {
    pub what: What<'a>,
    /// The canonical spelling, if the octets are another one.
    pub canonical: Option<Vec<u8>>,
    /// Whether the part has the value of its DEFAULT.
    pub is_default: bool,
}

impl<'a> Meaning<'a> {
    /// Octets that are spelt canonically, or have no other spelling.
    pub(crate) fn plain(what: What<'a>) -> Meaning<'a> {
        Meaning::spelt(what, None)
    }

    // Octets that have this canonical spelling, if they are another one.
    fn spelt(what: What<'a>, canonical: Option<Vec<u8>>) -> Meaning<'a> {
        Meaning {
            what,
            canonical,
            is_default: false,
        }
    }
}

// The preamble of a SEQUENCE.
fn preamble<'a>(
    alloc: Global,
    frame: &Frame<'a>,
    octets: &[u8],
) -> Result<Meaning<'a>, AllocError> {
    let bits = match frame.shape {
        Some(Shape::Sequence { root, additions }) => {
            preamble_bits(alloc, root, additions.is_some(), octets)?
        }
        _ => Vec::new(alloc),
    };
    Ok(Meaning::plain(What::Preamble(bits)))
}

// The bitmap of the additions of a SEQUENCE.
fn bitmap<'a>(alloc: Global, frame: &Frame<'a>, octets: &[u8]) -> Result<Meaning<'a>, AllocError> {
    let Some(
        Shape::Sequence {
            additions: Some(additions),
            ..
        },
    ) = frame.shape
    else {
        return Ok(Meaning::plain(What::Bitmap(Vec::new(alloc))));
    };
    let bits = Bitmap::of(octets);
    let canonical = bits.canonical(alloc, additions.len())?;
    let what = What::Bitmap(bits.named(alloc, additions)?);
    if canonical.as_slice() == octets {
        return Ok(Meaning::plain(what));
    }
    Ok(Meaning::spelt(what, Some(canonical)))
}

// The tag of a CHOICE.
fn choice_tag<'a>(frame: &Frame<'a>, octets: &[u8]) -> Meaning<'a> {
    match tag_in(octets) {
        Some(tag) if frame.has_alternative(tag) => {
            Meaning::plain(What::Tag(tag, frame.alternative(tag)))
        }
        Some(tag) => Meaning::plain(What::UnknownTag(tag, frame.alternative(tag))),
        None => Meaning::plain(What::Unknown),
    }
}

// The quantity of a SEQUENCE OF.
fn quantity<'a>(alloc: Global, octets: &[u8]) -> Result<Meaning<'a>, AllocError> {
    let Some(count) = quantity_in(octets) else {
        return Ok(Meaning::plain(What::Unknown));
    };
    let canonical = other_quantity(alloc, count, octets)?;
    Ok(Meaning::spelt(What::Quantity(count), canonical))
}

// The length of an open type.
fn open_length<'a>(alloc: Global, octets: &[u8]) -> Result<Meaning<'a>, AllocError> {
    let Some(count) = length_in(octets) else {
        return Ok(Meaning::plain(What::Unknown));
    };
    let canonical = other_length(alloc, count, octets)?;
    Ok(Meaning::spelt(What::Length(count), canonical))
}

// A value without parts.
fn contents<'a>(
    alloc: Global,
    frame: &Frame<'a>,
    octets: &[u8],
) -> Result<Meaning<'a>, AllocError> {
    let Some(shape) = frame.shape else {
        return Ok(Meaning::plain(What::Value(PlainJson::null())));
    };
    let leaf = leaf_of(alloc, shape, octets)?;
    Ok(Meaning::spelt(What::Value(leaf.json), leaf.canonical))
}

// What the row of a part says, but for its DEFAULT.
fn said<'a>(alloc: Global, frame: &Frame<'a>, row: RowRef<'_>) -> Result<Meaning<'a>, AllocError> {
    let octets = row.octets;
    match row.role {
        Role::Preamble => preamble(alloc, frame, octets),
        Role::Bitmap => bitmap(alloc, frame, octets),
        Role::Quantity => quantity(alloc, octets),
        Role::Tag => Ok(choice_tag(frame, octets)),
        Role::Length => open_length(alloc, octets),
        Role::Contents => contents(alloc, frame, octets),
        Role::Unknown => Ok(Meaning::plain(What::Unknown)),
    }
}

// Whether the part begins here, and has the value of its DEFAULT.
fn begins_default(alloc: Global, frame: &Frame<'_>, octets: &[u8]) -> Result<bool, AllocError> {
    let (Some(shape), Some(default)) = (frame.shape, frame.default) else {
        return Ok(false);
    };
    if frame.is_begun {
        return Ok(false);
    }
    is_default(alloc, shape, default, octets)
}

/// What the row of the part at the end of the way says.
pub(crate) fn meaning_of<'a>(
    alloc: Global,
    way: &Way<'a>,
    row: RowRef<'_>,
) -> Result<Meaning<'a>, AllocError> {
    let frame = way.last();
    let mut meaning = said(alloc, frame, row)?;
    meaning.is_default = begins_default(alloc, frame, octets_from(way.octets, row.offset))?;
    Ok(meaning)
}
