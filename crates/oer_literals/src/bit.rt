//! Bits as digits 0 and 1.
ghost use Rattle.std.specs.Prelude.{◌≡◌, ◌++◌, ◌<◌, ◌≤◌, IfOk, OnOk, Some, drop, length, map, string_bytes};
ghost use Rattle.std.specs.List.{slice_get};
ghost use Rattle.oer_literals.specs.Bits.{bit_digit, is_one, octet_of, octets_more, one_at};

use oer_types::Bits;
use std::alloc::{AllocError, Global};

/// The digit of the bit at the index.
fn digit_at(bits: &Bits, index: u64) -> char
    requires { index < length bits.now }
    ensures value { slice_get (map bit_digit bits.now) index ≡ Some result }
    ensures small { result < 128 }
{
    match bits.get(index) {
        Some(true) => '1',
        _ => '0',
    }
}

/// Appends a digit for each bit.
pub fn push_bits(text: &mut String, bits: &Bits) -> Result<(), AllocError>
    ensures { OnOk result (string_bytes text.new ≡ string_bytes text.old ++ map bit_digit bits.now) }
{
    for index in 0..bits.count() {
        text.push(digit_at(bits, index))?;
    }
    Ok(())
}

fn one_at(digits: &[u8], index: usize) -> u8
    ensures value { result ≡ one_at digits.now index }
    ensures small { result ≤ 1 }
{
    match digits.get(index) {
        Some(b'1') => 1,
        _ => 0,
    }
}

/// The octet of the first eight digits.
#[tactic(auto, unfolding(crate::specs::Bits::octet_of))]
fn octet_of(digits: &[u8]) -> u8
    ensures { result ≡ octet_of digits.now }
{
    let high = 128 * one_at(digits, 0)
        + 64 * one_at(digits, 1)
        + 32 * one_at(digits, 2)
        + 16 * one_at(digits, 3);
    high + 8 * one_at(digits, 4) + 4 * one_at(digits, 5) + 2 * one_at(digits, 6) + one_at(digits, 7)
}

fn past_eight(digits: &[u8]) -> &[u8]
    ensures { result.now ≡ drop 8 digits.now }
{
    if digits.len() < 8 { &[] } else { &digits[8..] }
}

/// The octets of the digits, eight each.
fn octets_of(alloc: Global, digits: &[u8]) -> Result<Vec<u8>, AllocError>
    ensures { IfOk result (λ v. v.items ≡ octets_more (length digits.now) digits.now) }
{
    let mut octets = Vec::with_capacity(alloc, digits.len() / 8 + 1)?;
    let mut rest = digits;
    'octets: for turn in 0..digits.len() {
        if rest.is_empty() {
            return Ok(octets);
        }
        octets.push(octet_of(rest))?;
        rest = past_eight(rest);
    }
    Ok(octets)
}

/// A bit for each digit: one for the digit 1, zero for every other octet.
pub fn bits_of_digits(alloc: Global, digits: &[u8]) -> Result<Bits, AllocError>
    ensures { IfOk result (λ b. b ≡ map is_one digits.now) }
{
    let octets = octets_of(alloc, digits)?;
    match Bits::from_octets(octets, digits.len() as u64) {
        Ok(bits) => Ok(bits),
        Err(_) => unreachable!(),
    }
}
