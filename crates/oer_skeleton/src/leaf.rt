//! The smallest values of types that hold no other.
ghost use Rattle.std.specs.Prelude.{◌≡◌, ◌≢◌, [], IfOk, false, length, map, replicate, string_bytes};
ghost use Rattle.oer_skeleton.specs.Skeleton.{first_number as spec_first_number, lowered as spec_lowered, nearest as spec_nearest, raised as spec_raised};
ghost use Rattle.oer_values.specs.ShapeView.{named_number};

use oer_values::{Bits, Item, octets_needed};
use std::alloc::{AllocError, Global};

fn raised(low: Option<i128>) -> i128
    ensures { result ≡ spec_raised low }
{
    match low {
        Some(low) if low > 0 => low,
        _ => 0,
    }
}

/// The number, or the upper bound where that is below it.
pub fn lowered(high: Option<i128>, number: i128) -> i128
    ensures { result ≡ spec_lowered high number }
{
    match high {
        Some(high) if number > high => high,
        _ => number,
    }
}

/// The number between the bounds that is nearest to 0.
pub fn nearest(low: Option<i128>, high: Option<i128>) -> i128
    ensures { result ≡ spec_nearest low high }
{
    lowered(high, raised(low))
}

/// The number of the first item.
pub(crate) fn first_number(items: &[Item]) -> i64
    requires { map named_number items.now ≢ [] }
    ensures { result ≡ spec_first_number (map named_number items.now) }
{
    match items {
        [first, ..] => first.number,
        [] => unreachable!(),
    }
}

/// So many octets 0.
pub(crate) fn zero_octets(alloc: Global, count: u64) -> Result<Vec<u8>, AllocError>
    ensures { IfOk result (λ v. v.items ≡ replicate count 0) }
{
    vec![in alloc; 0; count as usize]
}

/// So many bits 0.
pub(crate) fn zero_bits(alloc: Global, count: u64) -> Result<Bits, AllocError>
    ensures { IfOk result (λ b. b ≡ replicate count false) }
{
    let octets = zero_octets(alloc, octets_needed(count))?;
    match Bits::from_octets(octets, count) {
        Ok(bits) => Ok(bits),
        Err(_) => unreachable!(),
    }
}

/// So many characters `0`.
pub(crate) fn zero_characters(alloc: Global, count: u64) -> Result<String, AllocError>
    ensures { IfOk result (λ s. string_bytes s ≡ replicate count 48) }
{
    let mut text = String::with_capacity(alloc, count as usize)?;
    for _ in 0..count {
        text.push('0')?;
    }
    Ok(text)
}

/// The arcs 0.0.
pub(crate) fn least_arcs(alloc: Global) -> Result<Vec<u128>, AllocError>
    ensures { IfOk result (λ v. v.items ≡ replicate 2 0) }
{
    vec![in alloc; 0; 2]
}
