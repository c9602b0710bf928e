//! Lists of bits.
ghost use Rattle.std.specs.Prelude.{◌≡◌, ◌↔◌, ◌++◌, ◌<◌, ◌≤◌, ◌≢◌, ◌*◌, ◌-◌, ◌%◌, ◌^◌, IsTrue, IfOk, MatchResult, length, take, drop, true, Some};
ghost use Rattle.std.specs.List.{slice_get};
ghost use Rattle.oer_units.specs.Octets.{IsOctets};
ghost use Rattle.oer_model.specs.Bits.{bits_of, all_false, octets_for, padded};

use crate::octet_bits::{bit_of, octets_needed};
use std::alloc::{AllocError, Global};
use std::marker::Model;

/// A list of bits, packed: the first bit is the most significant one of the first octet, and the
/// bits of the last octet that are not used are zero.
#[derive(Drop)]
pub struct Bits {
    octets: Vec<u8>,
    count: u64,
}

impl Model for Bits {
    ghost use Rattle.std.specs.Prelude.{◌≡◌, List, Bool, true, take, drop, length};
    ghost use Rattle.oer_model.specs.Bits.{bits_of, all_false, octets_for};

    ghost Value = { List Bool };

    ghost view = { λ b. take b.count (bits_of b.octets.items) };

    ghost invariant = { λ b. (length b.octets.items ≡ octets_for b.count)
        × (all_false (drop b.count (bits_of b.octets.items)) ≡ true) };
}

impl Bits {
    /// The first `count` bits of the octets; the bits after them are set to zero. Returns the
    /// octets exactly if their number isn't `count / 8`, rounded up.
    pub fn from_octets(octets: Vec<u8>, count: u64) -> Result<Bits, Vec<u8>>
        ensures { MatchResult result
            (λ b. (length octets.items ≡ octets_for count) × (b ≡ take count (bits_of octets.items)))
            (λ back. (length octets.items ≢ octets_for count) × (back ≡ octets)) }
    {
        if octets.len() as u64 != octets_needed(count) {
            return Err(octets);
        }
        let mut octets = octets;
        clear_unused(&mut octets, count);
        Ok(Bits { octets, count })
    }

    /// How many bits there are.
    pub fn count(&self) -> u64
        ensures { result ≡ length self.now }
    {
        self.count
    }

    /// The bit at the index; none from `count` on.
    pub fn get(&self, index: u64) -> Option<bool>
        ensures { result ≡ slice_get self.now index }
    {
        if index >= self.count {
            return None;
        }
        Some(bit_at(&self.octets, index))
    }

    /// The bits from the most significant one of the first octet on, and zeros to the end of the
    /// last octet.
    pub fn octets(&self) -> &[u8]
        ensures { result.now ≡ padded self.now }
    {
        as_octets(&self.octets)
    }

    pub(crate) fn same(&self, other: &Bits) -> bool
        ensures { IsTrue result ↔ self.now ≡ other.now }
    {
        if self.count != other.count {
            return false;
        }
        same_octets(as_octets(&self.octets), as_octets(&other.octets))
    }

    pub(crate) fn clone_in(&self, alloc: Global) -> Result<Bits, AllocError>
        ensures { IfOk result (λ b. b ≡ self.now) }
    {
        Ok(Bits {
            octets: Vec::from_slice(alloc, &self.octets)?,
            count: self.count,
        })
    }
}

/// The octets, each of which is below 256.
fn as_octets(octets: &[u8]) -> &[u8]
    ensures same { result.now ≡ octets.now }
    ensures below { IsOctets octets.now }
{
    octets
}

fn same_octets(one: &[u8], other: &[u8]) -> bool
    ensures { IsTrue result ↔ one.now ≡ other.now }
{
    one == other
}

/// Sets the bits from `count` on to zero.
fn clear_unused(octets: &mut [u8], count: u64)
    requires { length octets.old ≡ octets_for count }
    ensures length { length octets.new ≡ length octets.old }
    ensures kept { take count (bits_of octets.new) ≡ take count (bits_of octets.old) }
    ensures zeros { all_false (drop count (bits_of octets.new)) ≡ true }
{
    if count % 8 == 0 {
        return;
    }
    let last = octets.len() - 1;
    octets[last] = without_last_bits(octets[last], 8 - (count % 8) as u8);
}

/// The octet with its last `unused` bits set to zero.
fn without_last_bits(octet: u8, unused: u8) -> u8
    requires { unused < 8 }
    ensures { result ≡ octet - octet % 2 ^ unused }
{
    octet - octet % (1 << unused)
}

/// The bit at the index of the bits of the octets.
fn bit_at(octets: &[u8], index: u64) -> bool
    requires { index < 8 * length octets.now }
    ensures { Some result ≡ slice_get (bits_of octets.now) index }
{
    bit_of(octets[(index / 8) as usize], (7 - index % 8) as u8)
}
