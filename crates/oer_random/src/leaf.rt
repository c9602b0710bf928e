//! Octets, bits and object identifiers.
ghost use Rattle.std.specs.Prelude.{◌≡◌, ◌<◌, IfOk, map};
ghost use Rattle.oer_random.specs.Leaves.{arc as spec_arc, arcs_drawn, bits_drawn, octets_drawn, second as spec_second};

use crate::words::{of_length, words};
use oer_values::{Bits, octets_needed};
use std::alloc::{AllocError, Global};

/// So many octets.
pub(crate) fn octets(alloc: Global, count: u64, seed: u64) -> Result<Vec<u8>, AllocError>
    ensures { IfOk result (λ v. v.items ≡ octets_drawn count seed) }
{
    let words = words(alloc, seed, count)?;
    let mut octets = Vec::with_capacity(alloc, words.len())?;
    for word in &words {
        octets.push((*word % 256) as u8)?;
    }
    Ok(octets)
}

/// So many bits.
pub(crate) fn bits(alloc: Global, count: u64, seed: u64) -> Result<Bits, AllocError>
    ensures { IfOk result (λ b. b ≡ bits_drawn count seed) }
{
    let octets = octets(alloc, octets_needed(count), seed)?;
    match Bits::from_octets(octets, count) {
        Ok(bits) => Ok(bits),
        Err(_) => unreachable!(),
    }
}

fn arc(number: u64) -> u128
    ensures { result ≡ spec_arc number }
{
    of_length((number % 64) as u32, u128::from(number / 64))
}

fn second(first: u64, number: u64) -> u128
    ensures { result ≡ spec_second first number }
{
    if first < 2 {
        u128::from(number % 40)
    } else {
        arc(number)
    }
}

/// The arcs of an object identifier, two to five.
pub(crate) fn arcs(alloc: Global, seed: u64) -> Result<Vec<u128>, AllocError>
    ensures { IfOk result (λ v. v.items ≡ arcs_drawn seed) }
{
    let words = words(alloc, seed, seed / 16 % 4)?;
    let first = seed % 3;
    let mut arcs = vec![in alloc; u128::from(first), second(first, seed / 3)]?;
    for word in &words {
        arcs.push(arc(*word))?;
    }
    Ok(arcs)
}
