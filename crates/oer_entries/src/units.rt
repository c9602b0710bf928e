//! Units that stand between parts: what they say, and how they are spelt in the shortest form.
ghost use Rattle.std.specs.Prelude.{◌≡◌};
ghost use Rattle.oer_units.specs.Reader.{at};
ghost use Rattle.oer_checker.specs.Check.{most};
ghost use Rattle.oer_checker.specs.Places.{place_of};
ghost use Rattle.oer_entries.specs.Frames.{length_of, quantity_of, tag_of};

use oer_checker::readers::{Cursor, sized_length_at, sized_quantity_at, tag_at};
use oer_model::Size;
use oer_units::{Metered, Tag, length_len, put_length, put_unsigned_counted, unsigned_counted_len};
use std::alloc::{AllocError, Global};

// A cursor at the front of the octets, without a bound.
fn front(octets: &[u8]) -> Cursor<'_>
    ensures { place_of result ≡ at octets.now most }
{
    Cursor {
        rest: octets,
        left: u64::MAX,
    }
}

/// The length (X.696, 8.6) that the octets are, whatever follows it.
pub(crate) fn length_in(octets: &[u8]) -> Option<u64>
    ensures { result ≡ length_of octets.now }
{
    match sized_length_at(&mut front(octets)) {
        Ok(counted) => Some(counted.count),
        Err(_) => None,
    }
}

/// The quantity (X.696, 17) that the octets are.
pub(crate) fn quantity_in(octets: &[u8]) -> Option<u64>
    ensures { result ≡ quantity_of octets.now }
{
    match sized_quantity_at(Size::any(), &mut front(octets)) {
        Ok(counted) => Some(counted.count),
        Err(_) => None,
    }
}

/// The tag (X.696, 8.7.2) that the octets are.
pub(crate) fn tag_in(octets: &[u8]) -> Option<Tag>
    ensures { result ≡ tag_of octets.now }
{
    match tag_at(&mut front(octets)) {
        Ok(tag) => Some(tag),
        Err(_) => None,
    }
}

/// The shortest spelling of a length, if the octets are another one.
pub(crate) fn other_length(
    alloc: Global,
    count: u64,
    octets: &[u8],
) -> Result<Option<Vec<u8>>, AllocError> {
    if octets.len() as u64 == length_len(count) {
        return Ok(None);
    }
    let mut sink = Metered::new(Vec::new(alloc));
    match put_length(count, &mut sink) {
        Ok(()) => Ok(Some(sink.into_inner())),
        Err(_) => Err(AllocError),
    }
}

/// The shortest spelling of a quantity, if the octets are another one.
pub(crate) fn other_quantity(
    alloc: Global,
    count: u64,
    octets: &[u8],
) -> Result<Option<Vec<u8>>, AllocError> {
    let count = i128::from(count);
    if octets.len() as u64 == unsigned_counted_len(count) {
        return Ok(None);
    }
    let mut sink = Metered::new(Vec::new(alloc));
    match put_unsigned_counted(count, &mut sink) {
        Ok(()) => Ok(Some(sink.into_inner())),
        Err(_) => Err(AllocError),
    }
}
