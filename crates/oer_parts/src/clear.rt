//! Bits of which none is set. Each answer no is right: it only leaves the question open.
ghost use Rattle.std.specs.Prelude.{◌≡◌, true};
ghost use Rattle.oer_model.specs.Bits.{all_false, bits_of as the_bits};
ghost use Rattle.oer_checker.specs.BitView.{bits_in};

use oer_checker::readers::Bits;
use oer_types::{are_last_zero, octets_needed, spare_bits};

/// Whether all of the octets are zero.
fn are_zero(octets: &[u8]) -> bool
    ensures { result ≡ true → all_false (the_bits octets.now) ≡ true }
{
    for octet in octets {
        if *octet != 0 {
            return false;
        }
    }
    true
}

/// Whether none of the bits is set, nor any that follows them in their octets. They are looked at an
/// octet at a time.
pub(crate) fn are_clear(bits: Bits) -> bool
    ensures { result ≡ true → all_false (bits_in bits.entry) ≡ true }
{
    let count = octets_needed(bits.from) as usize;
    if count > bits.octets.len() {
        return false;
    }
    let begun = &bits.octets[..count];
    if begun.is_empty() {
        return are_zero(bits.octets);
    }
    if !are_last_zero(begun[begun.len() - 1], spare_bits(bits.from)) {
        return false;
    }
    are_zero(&bits.octets[count..])
}
