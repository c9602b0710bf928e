//! Bits: BIT STRING and the presence bitmap of a SEQUENCE.
ghost use Rattle.std.specs.Prelude.{◌≡◌, ◌≤◌, ◌<◌, ◌-◌, ◌*◌, ◌^◌, ◌∷◌, [], IfOk, None, length, drop, take};
ghost use Rattle.oer_units.specs.Reads.{state};
ghost use Rattle.oer_model.specs.AsnType.{bit_string as bit_string_type};
ghost use Rattle.oer_model.specs.Bits.{bits_of as the_bits, all_false, octets_for};
ghost use Rattle.oer_model.specs.Constraints.{fixed as fixed_size};
ghost use Rattle.oer_model.specs.Limits.{addition_places};
ghost use Rattle.oer_model.specs.Reading.{read_bits, read_value};
ghost use Rattle.oer_values.specs.ValueView.{value_of};
ghost use Rattle.oer_decoder.specs.BitReading.{addition_map_at, fixed_bits_at, initial_octet_at, sized_octet_at, used};
ghost use Rattle.oer_decoder.specs.Stops.{ReadsAs, same};

use crate::parts::set;
use crate::stop::Stop;
use oer_types::{ADDITION_PLACES, Bits, Size, Value, bit_of, may_be_unused, octets_needed};
use oer_units::{Source, Why, Window, length, octet, octets};
use std::alloc::{AllocError, Global};

// How many octets hold the bits of the places of additions.
const PLACES_OCTETS: usize = ADDITION_PLACES / 8;

/// Reads a BIT STRING (X.696, 13) into `value`. Bits past the last one may have any values.
pub(crate) fn read_bit_string<R: Source>(
    alloc: Global,
    size: &Size,
    value: &mut Value,
    w: &mut Window<R>,
) -> Result<(), Stop>
    requires { value.old ≡ Value.Null }
    ensures { ReadsAs (read_value (bit_string_type size.now)) (state R.loan R.remaining R.failed w.old) (λ _. value_of value.new) result
        (state R.loan R.remaining R.failed w.new) }
{
    let bits = sized_bits(alloc, size, w)?;
    set(value, Value::Bits(bits));
    Ok(())
}

// As many bits as the one size says, or else as a length says that the size allows.
fn sized_bits<R: Source>(alloc: Global, size: &Size, w: &mut Window<R>) -> Result<Bits, Stop>
    ensures { ReadsAs (read_bits (fixed_size size.now) size.now) (state R.loan R.remaining R.failed w.old) same result
        (state R.loan R.remaining R.failed w.new) }
{
    match size.fixed() {
        Some(count) => fixed_bits(alloc, count, w),
        None => counted_bits(alloc, *size, w),
    }
}

// As many bits, and any bits to the octet's end.
fn fixed_bits<R: Source>(alloc: Global, count: u64, w: &mut Window<R>) -> Result<Bits, Stop>
    ensures { ReadsAs (fixed_bits_at count) (state R.loan R.remaining R.failed w.old) same result
        (state R.loan R.remaining R.failed w.new) }
{
    let octets = octets(alloc, w, octets_needed(count))?;
    Ok(packed(octets, count))
}

// A length, the initial octet, and the bits.
fn counted_bits<R: Source>(alloc: Global, size: Size, w: &mut Window<R>) -> Result<Bits, Stop>
    ensures { ReadsAs (read_bits None size) (state R.loan R.remaining R.failed w.old) same result
        (state R.loan R.remaining R.failed w.new) }
{
    let length = length(w)?;
    let unused = sized_octet(size, length, w)?;
    let octets = octets(alloc, w, length - 1)?;
    Ok(packed(octets, bits_used(length, unused) as u64))
}

// The number of unused bits in the last of `length - 1` octets (X.696, 13.3).
fn initial_octet<R: Source>(length: u64, w: &mut Window<R>) -> Result<u8, Stop>
    ensures room { IfOk result (λ u. (1 ≤ length) × (u ≤ 7) × (u ≤ 8 * (length - 1))) }
    ensures reads { ReadsAs (initial_octet_at length) (state R.loan R.remaining R.failed w.old) same result
        (state R.loan R.remaining R.failed w.new) }
{
    if length == 0 {
        return Err(Stop {
            why: Why::BitUnused,
        });
    }
    let unused = octet(w)?;
    if !may_be_unused(unused, length) {
        return Err(Stop {
            why: Why::BitUnused,
        });
    }
    Ok(unused)
}

// The number of unused bits, where the size allows as many bits as are used.
fn sized_octet<R: Source>(size: Size, length: u64, w: &mut Window<R>) -> Result<u8, Stop>
    ensures room { IfOk result (λ u. (1 ≤ length) × (u ≤ 7) × (u ≤ 8 * (length - 1)) × (8 * (length - 1) - u < 2 ^ 64)) }
    ensures reads { ReadsAs (sized_octet_at size length) (state R.loan R.remaining R.failed w.old) same result
        (state R.loan R.remaining R.failed w.new) }
{
    let unused = initial_octet(length, w)?;
    let count = bits_used(length, unused);
    if !size.allows(count) {
        return Err(Stop { why: Why::Size });
    }
    Ok(unused)
}

// How many bits are used where a length counts the initial octet.
fn bits_used(length: u64, unused: u8) -> u128
    requires some { 1 ≤ length }
    requires room { unused ≤ 8 * (length - 1) }
    ensures { result ≡ 8 * (length - 1) - unused }
{
    8 * u128::from(length - 1) - u128::from(unused)
}

// The first `count` bits of the octets.
fn packed(octets: Vec<u8>, count: u64) -> Bits
    requires { length octets.items ≡ octets_for count }
    ensures { result ≡ take count (the_bits octets.items) }
{
    match Bits::from_octets(octets, count) {
        Ok(bits) => bits,
        Err(_) => unreachable!(),
    }
}

/// The presence bitmap of the additions (X.696, 16.4), as far as additions are kept: up to place
/// 65,535. It is a BIT STRING without size constraint, so more than 2^64 - 1 bits are rejected with
/// `Size`. A set bit past place 65,535 is rejected with `UnknownAddition`.
pub(crate) fn addition_map<R: Source>(alloc: Global, w: &mut Window<R>) -> Result<Vec<bool>, Stop>
    ensures few { IfOk result (λ v. length v.items ≤ addition_places) }
    ensures reads { ReadsAs addition_map_at (state R.loan R.remaining R.failed w.old) (λ v. v.items) result
        (state R.loan R.remaining R.failed w.new) }
{
    let length = length(w)?;
    let unused = sized_octet(Size::any(), length, w)?;
    let octets = octets(alloc, w, length - 1)?;
    if !is_clear_past(&octets, unused) {
        return Err(Stop {
            why: Why::UnknownAddition,
        });
    }
    let Ok(bits) = kept_bits(alloc, &octets, unused) else {
        return Err(Stop { why: Why::Memory });
    };
    Ok(bits)
}

// Whether no bit but the last `unused` ones is set past the places of additions.
fn is_clear_past(octets: &[u8], unused: u8) -> bool
    requires { unused ≤ 7 }
    ensures { result ≡ all_false (drop addition_places (used unused octets.now)) }
{
    if octets.len() <= PLACES_OCTETS {
        return true;
    }
    is_clear(&octets[PLACES_OCTETS..], unused)
}

// Whether no bit but the last `unused` ones is set.
fn is_clear(octets: &[u8], unused: u8) -> bool
    requires { unused ≤ 7 }
    ensures { result ≡ all_false (used unused octets.now) }
{
    match octets {
        [first @ .., last] => {
            let bits = bits_of_octet(*last);
            are_zero(first) && are_false_from(&bits[..8 - usize::from(unused)], 0)
        }
        [] => true,
    }
}

fn are_zero(octets: &[u8]) -> bool
    ensures { result ≡ all_false (the_bits octets.now) }
{
    for octet in octets {
        if *octet != 0 {
            return false;
        }
    }
    true
}

// The bits of the places of additions, without the last `unused` ones.
fn kept_bits(alloc: Global, octets: &[u8], unused: u8) -> Result<Vec<bool>, AllocError>
    requires { unused ≤ 7 }
    ensures { IfOk result (λ v. v.items ≡ take addition_places (used unused octets.now)) }
{
    if octets.len() > PLACES_OCTETS {
        return bits_of(alloc, &octets[..PLACES_OCTETS]);
    }
    let mut bits = bits_of(alloc, octets)?;
    let count = bits.len().saturating_sub(usize::from(unused));
    bits.truncate(count);
    Ok(bits)
}

// The bits of the octets, the most significant first.
pub(crate) fn bits_of(alloc: Global, octets: &[u8]) -> Result<Vec<bool>, AllocError>
    ensures { IfOk result (λ v. v.items ≡ the_bits octets.now) }
{
    let mut bits = Vec::new(alloc);
    for octet in octets {
        bits.extend_from_slice(&bits_of_octet(*octet))?;
    }
    Ok(bits)
}

pub(crate) fn bits_of_octet(x: u8) -> [bool; 8]
    ensures { result ≡ the_bits (x ∷ []) }
{
    [
        bit_of(x, 7),
        bit_of(x, 6),
        bit_of(x, 5),
        bit_of(x, 4),
        bit_of(x, 3),
        bit_of(x, 2),
        bit_of(x, 1),
        bit_of(x, 0),
    ]
}

// Whether no bit from this one on is set.
pub(crate) fn are_false_from(bits: &[bool], from: usize) -> bool
    ensures { result ≡ all_false (drop from bits.now) }
{
    for i in from..bits.len() {
        if bits[i] {
            return false;
        }
    }
    true
}
