//! BIT STRING, and the presence bits of a SEQUENCE.
ghost use Rattle.std.specs.Prelude.{◌≡◌, ◌≤◌, ◌<◌, ◌-◌, ◌*◌, ◌%◌, List, Bool, None, IfOk, drop, leb, length, not, take, ◌&&◌};
ghost use Rattle.oer_units.specs.Reader.{bind, give, group, guard};
ghost use Rattle.oer_units.specs.declared.fault.Why.TheVariants as reason;
ghost use Rattle.oer_model.specs.AsnType.{bit_string};
ghost use Rattle.oer_model.specs.Bits.{all_false, bits_of as the_bits, first_bit, later_bits, spare_bits};
ghost use Rattle.oer_model.specs.Canonical.{bitmap_octets};
ghost use Rattle.oer_model.specs.Checking.{are_least_bits as are_least, check_value, ends_set};
ghost use Rattle.oer_model.specs.Constraints.{size_fits};
ghost use Rattle.oer_model.specs.Reading.{preamble as preamble_read, read_bits};
ghost use Rattle.oer_checker.specs.BitView.{IsWhole, bits_in};
ghost use Rattle.oer_checker.specs.Places.{outcome, place_of, same};
ghost use Rattle.oer_checker.specs.Steps.{addition_map as addition_map_read, last_are_zero};

use crate::bits::Bits;
use crate::cursor::Cursor;
use crate::lengths::{counted_len, octets_between};
use crate::stop::Stop;
use crate::units::{group_at, length_at, octet_at};
use oer_types::{
    ADDITION_PLACES, Size, are_last_zero, bit_of, may_be_unused, octets_needed, spare_bits,
};
use oer_units::Why;

impl<'a> Bits<'a> {
    /// The bit with this number, which is false past the octets.
    #[tactic(auto, using(crate::proofs::BitLists::bit_at, crate::proofs::BitLists::bit_past))]
    pub fn bit(self, index: u64) -> bool
        ensures { result ≡ first_bit (drop index (the_bits self.entry.octets.now)) }
    {
        let at = (index / 8) as usize;
        at < self.octets.len() && bit_of(self.octets[at], (7 - index % 8) as u8)
    }

    /// The first bit, false where there is none.
    pub fn first(self) -> bool
        ensures { result ≡ first_bit (bits_in self.entry) }
    {
        self.from < self.to && self.bit(self.from)
    }

    /// The bits after the first.
    pub fn later(self) -> Bits<'a>
        ensures { bits_in result ≡ later_bits (bits_in self.entry) }
    {
        if self.from >= self.to {
            return self;
        }
        Bits {
            octets: self.octets,
            from: self.from + 1,
            to: self.to,
        }
    }

    /// The bits from this many on.
    pub fn skip(self, count: u64) -> Bits<'a>
        ensures { bits_in result ≡ drop count (bits_in self.entry) }
    {
        Bits {
            octets: self.octets,
            from: self.from.saturating_add(count),
            to: self.to,
        }
    }

    /// So many of the bits, or all where there are fewer.
    pub fn until(self, count: u64) -> Bits<'a>
        requires { IsWhole self }
        ensures whole { IsWhole result }
        ensures bits { bits_in result ≡ take count (bits_in self.entry) }
    {
        Bits {
            octets: self.octets,
            from: self.from,
            to: self.to.min(count),
        }
    }

    // Whether no bit from this one on is set.
    fn are_clear_from(self, from: u64) -> bool
        requires { self.from ≡ 0 }
        ensures { result ≡ all_false (drop from (bits_in self.entry)) }
    {
        for index in from..self.to {
            if self.bit(index) {
                return false;
            }
        }
        true
    }

    // Whether the last bit from this one on is set, if there is one.
    fn ends_set_from(self, from: u64) -> bool
        requires { IsWhole self }
        ensures { result ≡ ends_set (drop from (bits_in self.entry)) }
    {
        self.to <= from || self.bit(self.to - 1)
    }
}

// Whether the last so many bits are zero.
fn ends_in_zeros(octets: &[u8], unused: u8) -> bool
    requires { unused ≤ 7 }
    ensures { result ≡ last_are_zero unused octets.now }
{
    if octets.is_empty() {
        return true;
    }
    are_last_zero(octets[octets.len() - 1], unused)
}

// Whether octets are as short as a bit string of so many bits can be, and its unused bits are 0.
fn are_least_bits(count: u64, octets: &[u8]) -> bool
    ensures { (s : List Bool) → length s ≡ count → result ≡ are_least bitmap_octets s octets.now }
{
    octets.len() as u128 == counted_len(1 + octets_needed(count))
        && ends_in_zeros(octets, spare_bits(count))
}

/// A BIT STRING (X.696, 13). Bits past the last one may have any values; canonically they are 0.
pub(crate) fn check_bit_string(size: &Size, at: &mut Cursor) -> Result<bool, Stop>
    ensures { outcome same result at.new ≡ check_value (bit_string size.now) (place_of at.old) }
{
    if let Some(count) = size.fixed() {
        let octets = group_at(at, octets_needed(count))?;
        return Ok(ends_in_zeros(octets, spare_bits(count)));
    }
    let start = *at;
    let bits = counted_bits(size, at)?;
    Ok(are_least_bits(bits.to, octets_between(start, *at)))
}

// A length, the initial octet, and the bits.
fn counted_bits<'a>(size: &Size, at: &mut Cursor<'a>) -> Result<Bits<'a>, Stop>
    ensures whole { IfOk result (λ y. IsWhole y) }
    ensures bits { outcome bits_in result at.new ≡ read_bits None size.now (place_of at.old) }
{
    let length = length_at(at)?;
    if length == 0 {
        return Err(Stop {
            why: Why::BitUnused,
        });
    }
    let unused = octet_at(at)?;
    if !may_be_unused(unused, length) {
        return Err(Stop {
            why: Why::BitUnused,
        });
    }
    sized_bits(size, length - 1, unused, at)
}

// So many octets without the last bits, where the size allows as many bits.
fn sized_bits<'a>(
    size: &Size,
    count: u64,
    unused: u8,
    at: &mut Cursor<'a>,
) -> Result<Bits<'a>, Stop>
    requires { unused ≤ 8 * count }
    ensures whole { IfOk result (λ y. IsWhole y) }
    ensures bits { outcome bits_in result at.new ≡ guard (size_fits size.now (8 * count - unused)) reason.Size
        (bind (group count) (λ d. give (take (length (the_bits d) - unused) (the_bits d)))) (place_of at.old) }
{
    let bits = 8 * u128::from(count) - u128::from(unused);
    if !size.allows(bits) {
        return Err(Stop { why: Why::Size });
    }
    let octets = group_at(at, count)?;
    Ok(Bits {
        octets,
        from: 0,
        to: bits as u64,
    })
}

/// The preamble of a SEQUENCE (X.696, 16.2): so many bits, and zeros to the octet's end.
pub fn preamble<'a>(count: u64, at: &mut Cursor<'a>) -> Result<Bits<'a>, Stop>
    ensures { outcome bits_in result at.new ≡ preamble_read count (place_of at.old) }
{
    let octets = group_at(at, octets_needed(count))?;
    if !ends_in_zeros(octets, spare_bits(count)) {
        return Err(Stop {
            why: Why::PreamblePadding,
        });
    }
    Ok(Bits {
        octets,
        from: 0,
        to: count,
    })
}

// Whether a bit is set, each of the known additions has one, and the last one beyond them is set.
fn marks_all(bits: Bits, known: u64) -> bool
    requires { IsWhole bits }
    ensures { result ≡ (not (all_false (bits_in bits.entry)) && (leb known (length (bits_in bits.entry)) && ends_set (drop known (bits_in bits.entry)))) }
{
    !bits.are_clear_from(0) && known <= bits.to && bits.ends_set_from(known)
}

/// The presence bitmap of additions.
#[derive(Clone, Copy)]
pub struct Map<'a> {
    pub bits: Bits<'a>,
    pub is_canonical: bool,
}

/// The presence bitmap of additions (X.696, 16.4), of which `known` are known, and whether it is
/// canonical. A set bit past place 65,535 is rejected with `UnknownAddition`.
pub fn addition_map<'a>(known: usize, at: &mut Cursor<'a>) -> Result<Map<'a>, Stop>
    ensures whole { IfOk result (λ y. IsWhole y.bits) }
    ensures bits { outcome (λ y. (bits_in y.bits, y.is_canonical)) result at.new ≡ addition_map_read known (place_of at.old) }
{
    let start = *at;
    let bits = counted_bits(&Size::any(), at)?;
    if !bits.are_clear_from(ADDITION_PLACES as u64) {
        return Err(Stop {
            why: Why::UnknownAddition,
        });
    }
    let is_shortest = are_least_bits(bits.to, octets_between(start, *at));
    let is_canonical = is_shortest && marks_all(bits, known as u64);
    Ok(Map { bits, is_canonical })
}
