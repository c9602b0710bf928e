//! Bits of a preamble, and of a bitmap of additions.
ghost use Rattle.std.specs.Prelude.{◌≡◌, drop};
ghost use Rattle.oer_model.specs.Bits.{bits_of, first_bit};
ghost use Rattle.oer_values.specs.ShapeView.{need_of};
ghost use Rattle.oer_entries.specs.Next.{after_length, bits_in, has_bit, map_bits};

use crate::frame::Name;
use oer_types::{Addition, Field, Need};
use oer_units::{Metered, put_length};
use std::alloc::{AllocError, Global};

/// The bit of the extension marker, or of a component.
#[derive(Clone, Copy)]
pub struct NamedBit<'a> {
    pub name: Name<'a>,
    pub is_set: bool,
}

/// The bit with this number, the most significant of the first octet being number 0. It is false
/// past the octets.
pub(crate) fn bit(octets: &[u8], index: usize) -> bool
    ensures { result ≡ first_bit (drop index (bits_of octets.now)) }
{
    match octets.get(index / 8) {
        Some(octet) => (*octet >> (7 - index % 8)) % 2 == 1,
        None => false,
    }
}

/// Whether the component has a bit in the preamble (X.696, 16.2).
pub(crate) fn has_bit(field: &Field) -> bool
    ensures { result ≡ has_bit (need_of field.now.need) }
{
    !matches!(field.need, Need::Must)
}

/// The bits of the preamble of a SEQUENCE.
pub(crate) fn preamble_bits<'a>(
    alloc: Global,
    root: &'a [Field],
    is_extensible: bool,
    octets: &[u8],
) -> Result<Vec<NamedBit<'a>>, AllocError> {
    let mut bits = Vec::new(alloc);
    if is_extensible {
        bits.push(NamedBit {
            name: Name::Text("..."),
            is_set: bit(octets, 0),
        })?;
    }
    for field in root {
        if has_bit(field) {
            bits.push(NamedBit {
                name: Name::Text(field.name.as_str()),
                is_set: bit(octets, bits.len()),
            })?;
        }
    }
    Ok(bits)
}

/// Bits, the first of which are those of some octets.
#[derive(Clone, Copy)]
pub(crate) struct Bitmap<'a> {
    octets: &'a [u8],
    /// How many there are.
    pub count: usize,
}

// What follows a length.
fn after_length(octets: &[u8]) -> &[u8]
    ensures { result.now ≡ after_length octets.now }
{
    let Some((first, rest)) = octets.split_first() else {
        return octets;
    };
    if *first < 128 {
        return rest;
    }
    let count = (*first - 128) as usize;
    if count > rest.len() {
        return &[];
    }
    &rest[count..]
}

impl<'a> Bitmap<'a> {
    /// The bits of a bitmap (X.696, 16.4): a length, an octet that says how many bits of the last
    /// octet aren't used, and the bits.
    pub(crate) fn of(octets: &'a [u8]) -> Bitmap<'a>
        ensures { bits_in result ≡ map_bits octets.now }
    {
        let Some((unused, bits)) = after_length(octets).split_first() else {
            return Bitmap { octets, count: 0 };
        };
        Bitmap {
            octets: bits,
            count: bits
                .len()
                .saturating_mul(8)
                .saturating_sub(*unused as usize),
        }
    }

    /// The bit with this number; false past the bits.
    pub(crate) fn bit(self, index: usize) -> bool
        ensures { result ≡ first_bit (drop index (bits_in self.entry)) }
    {
        index < self.count && bit(self.octets, index)
    }

    // How many bits there are up to the last that is set.
    fn used(self) -> usize {
        let mut used = 0;
        for index in 0..self.count {
            if self.bit(index) {
                used = index.saturating_add(1);
            }
        }
        used
    }

    /// The bits of the additions that the type knows, and those that are set of others.
    pub(crate) fn named<'t>(
        self,
        alloc: Global,
        additions: &'t [Addition],
    ) -> Result<Vec<NamedBit<'t>>, AllocError> {
        let mut bits = Vec::new(alloc);
        for index in 0..self.count {
            let is_set = self.bit(index);
            match additions.get(index) {
                Some(addition) => bits.push(NamedBit {
                    name: Name::Text(addition.name.as_str()),
                    is_set,
                })?,
                None if is_set => bits.push(NamedBit {
                    name: Name::Addition(index),
                    is_set,
                })?,
                None => {}
            }
        }
        Ok(bits)
    }

    // The octet with this number of so many bits.
    fn octet(self, index: usize, count: usize) -> u8 {
        let mut octet: u8 = 0;
        for place in 0..8 {
            let at = index.saturating_mul(8).saturating_add(place);
            if at < count && self.bit(at) {
                octet |= 1 << (7 - place);
            }
        }
        octet
    }

    /// The canonical spelling of the bitmap: a bit for each addition that the type knows, and more
    /// only up to the last that is set. It has no octets where no bit is set.
    pub(crate) fn canonical(self, alloc: Global, known: usize) -> Result<Vec<u8>, AllocError> {
        let used = self.used();
        let mut octets = Vec::new(alloc);
        if used == 0 {
            return Ok(octets);
        }
        let count = used.max(known);
        let whole = count.div_ceil(8);
        let mut sink = Metered::new(octets);
        if put_length((whole as u64).saturating_add(1), &mut sink).is_err() {
            return Err(AllocError);
        }
        octets = sink.into_inner();
        octets.push(((8 - count % 8) % 8) as u8)?;
        for index in 0..whole {
            octets.push(self.octet(index, count))?;
        }
        Ok(octets)
    }
}
