//! Writers of one unit each. They append its least form to a sink.
//!
//! Each hands its octets to the sink in one push, and goes on with the rest where a push took only
//! some. A push that failed, by an error (an interruption too) or by taking none, isn't tried again:
//! the call returns `SinkFault`, with how many octets of this unit the sink took, fewer than all.
ghost use Rattle.std.specs.Prelude.{◌≡◌, ◌≤◌, ◌<◌, ◌^◌, ◌≤ℤ◌, pos, drop, ◌*◌, unsigned_abs, List, ◌∷◌, ℕ, length};
ghost use Rattle.oer_units.specs.Least.{big_endian, octets_needed, unsigned_octets, signed_octets, length_octets, counted, fixed_signed_octets, enumerated_octets, base128_octets, tag_octets};
ghost use Rattle.oer_units.specs.Spelling.{class_number};
ghost use Rattle.oer_units.specs.Width.{octets_of_width, FitsUnsignedWidth, FitsSignedWidth};
ghost use Rattle.oer_units.specs.Writing.{Puts};

use crate::fault::SinkFault;
use crate::stream::Sink;
use crate::tagging::{Class, Tag};
use crate::width::Width;

/// Writes the octets. It returns `SinkFault` if the sink fails before it took all of them.
pub fn put_octets<W: Sink>(octets: &[u8], w: &mut W) -> Result<(), SinkFault>
    ensures { Puts octets.now (W.contents w.old) (W.failed w.old) result (W.contents w.new) (W.failed w.new) }
{
    let mut at = 0;
    while at < octets.len() {
        match w.push(&octets[at..]) {
            Ok(0) => return Err(SinkFault { written: at as u64 }),
            Ok(taken) => at += taken,
            Err(_) => return Err(SinkFault { written: at as u64 }),
        }
    }
    Ok(())
}

// How many octets a number needs, one at least.
fn needed(n: u128) -> u32
    ensures value { result ≡ octets_needed n }
    ensures most { result ≤ 16 }
{
    let bits = 128 - n.leading_zeros();
    ((bits + 7) / 8).max(1)
}

// How many octets a number needs in two's complement, one at least.
fn signed_needed(z: i128) -> u32
    ensures value { result ≡ length (signed_octets z) }
    ensures most { result ≤ 16 }
{
    if z < 0 {
        needed(2 * (-(z + 1)) as u128)
    } else {
        needed(2 * z as u128)
    }
}

// Writes one octet, and then the lowest octets of `n`, as many as `count`.
fn put_low_octets<W: Sink>(head: u8, n: u128, count: u32, w: &mut W) -> Result<(), SinkFault>
    requires { count ≤ 16 }
    ensures { Puts (head ∷ big_endian count n) (W.contents w.old) (W.failed w.old) result (W.contents w.new) (W.failed w.new) }
{
    let from = 16 - count as usize;
    let mut buffer = [0u8; 17];
    buffer[1..].copy_from_slice(&n.to_be_bytes());
    buffer[from] = head;
    put_octets(&buffer[from..], w)
}

/// Writes the shortest length determinant of `n` (X.696, 8.6), or `SinkFault` if the sink fails.
pub fn put_length<W: Sink>(n: u64, w: &mut W) -> Result<(), SinkFault>
    ensures { Puts (length_octets n) (W.contents w.old) (W.failed w.old) result (W.contents w.new) (W.failed w.new) }
{
    if n < 128 {
        put_octets(&[n as u8], w)
    } else {
        let count = needed(n as u128);
        put_low_octets(128 + count as u8, n as u128, count, w)
    }
}

/// How many octets `put_length` writes.
pub fn length_len(n: u64) -> u64
    ensures { result ≡ length (length_octets n) }
{
    if n < 128 {
        1
    } else {
        1 + needed(n as u128) as u64
    }
}

/// Writes a number in the octets of the width (X.696, 10.3), which it has to fit, or `SinkFault` if the
/// sink fails.
pub fn put_unsigned_fixed<W: Sink>(value: u64, width: Width, w: &mut W) -> Result<(), SinkFault>
    requires { FitsUnsignedWidth width value }
    ensures { Puts (big_endian (octets_of_width width) value) (W.contents w.old) (W.failed w.old) result (W.contents w.new) (W.failed w.new) }
{
    put_octets(&value.to_be_bytes()[8 - width.octets()..], w)
}

/// Writes a number in two's complement in the octets of the width (X.696, 10.4), which it has to fit,
/// or `SinkFault` if the sink fails.
pub fn put_signed_fixed<W: Sink>(value: i64, width: Width, w: &mut W) -> Result<(), SinkFault>
    requires { FitsSignedWidth width value }
    ensures { Puts (fixed_signed_octets (octets_of_width width) value) (W.contents w.old) (W.failed w.old) result (W.contents w.new) (W.failed w.new) }
{
    let wide = value.cast_unsigned().to_be_bytes();
    put_octets(&wide[8 - width.octets()..], w)
}

/// Writes a number from 0 on: a length, and the fewest octets that stand for it (X.696, 10.3), or
/// `SinkFault` if the sink fails.
pub fn put_unsigned_counted<W: Sink>(value: i128, w: &mut W) -> Result<(), SinkFault>
    requires { pos 0 ≤ℤ value }
    ensures { Puts (counted (unsigned_octets (unsigned_abs value))) (W.contents w.old) (W.failed w.old) result (W.contents w.new) (W.failed w.new) }
{
    let octets = value.cast_unsigned();
    let count = needed(octets);
    put_low_octets(count as u8, octets, count, w)
}

/// Writes a number: a length, and the fewest octets that stand for it in two's complement (X.696,
/// 10.4), or `SinkFault` if the sink fails.
pub fn put_signed_counted<W: Sink>(value: i128, w: &mut W) -> Result<(), SinkFault>
    ensures { Puts (counted (signed_octets value)) (W.contents w.old) (W.failed w.old) result (W.contents w.new) (W.failed w.new) }
{
    let count = signed_needed(value);
    put_low_octets(count as u8, value.cast_unsigned(), count, w)
}

/// How many octets `put_unsigned_counted` writes.
pub fn unsigned_counted_len(value: i128) -> u64
    requires { pos 0 ≤ℤ value }
    ensures { result ≡ length (counted (unsigned_octets (unsigned_abs value))) }
{
    1 + needed(value.cast_unsigned()) as u64
}

/// How many octets `put_signed_counted` writes.
pub fn signed_counted_len(value: i128) -> u64
    ensures { result ≡ length (counted (signed_octets value)) }
{
    1 + signed_needed(value) as u64
}

/// Writes the number of an enumeration (X.696, 11): one octet from 0 to 127, else a count and the
/// fewest octets that stand for it in two's complement. `SinkFault` if the sink fails.
pub fn put_enumerated<W: Sink>(value: i64, w: &mut W) -> Result<(), SinkFault>
    ensures { Puts (enumerated_octets value) (W.contents w.old) (W.failed w.old) result (W.contents w.new) (W.failed w.new) }
{
    if 0 <= value && value < 128 {
        put_octets(&[value as u8], w)
    } else {
        let wide = value as i128;
        let count = signed_needed(wide);
        put_low_octets(128 + count as u8, wide.cast_unsigned(), count, w)
    }
}

/// How many octets `put_enumerated` writes.
pub fn enumerated_len(value: i64) -> u64
    ensures { result ≡ length (enumerated_octets value) }
{
    if 0 <= value && value < 128 {
        1
    } else {
        1 + signed_needed(value as i128) as u64
    }
}

// Writes the digits of `n` in base 128 to the end of the buffer, 128 added to each but the last.
// It answers where they begin.
fn fill_digits(n: u128, buffer: &mut [u8; 20]) -> usize
    ensures some { 1 ≤ result }
    ensures most { result ≤ 19 }
    ensures digits { drop result buffer.new ≡ base128_octets n }
{
    let mut at = 19;
    buffer[at] = (n % 128) as u8;
    let mut rest = n / 128;
    while rest > 0 {
        at -= 1;
        buffer[at] = 128 + (rest % 128) as u8;
        rest /= 128;
    }
    at
}

/// Writes a subidentifier (X.690, 8.19.2): its number in base 128, from the first digit that isn't zero
/// on. `SinkFault` if the sink fails.
pub fn put_subidentifier<W: Sink>(value: u128, w: &mut W) -> Result<(), SinkFault>
    ensures { Puts (base128_octets value) (W.contents w.old) (W.failed w.old) result (W.contents w.new) (W.failed w.new) }
{
    let mut buffer = [0u8; 20];
    let from = fill_digits(value, &mut buffer);
    put_octets(&buffer[from..], w)
}

/// How many octets `put_subidentifier` writes.
pub fn subidentifier_len(value: u128) -> u64
    ensures value { result ≡ length (base128_octets value) }
    ensures most { result ≤ 19 }
{
    let mut count = 1;
    let mut rest = value / 128;
    while rest > 0 {
        count += 1;
        rest /= 128;
    }
    count
}

// Bits 8 and 7 of a tag's first octet.
fn class_bits(class: Class) -> u8
    ensures value { result ≡ 64 * class_number class }
    ensures most { result ≤ 192 }
{
    match class {
        Class::Universal => 0,
        Class::Application => 64,
        Class::Context => 128,
        Class::Private => 192,
    }
}

/// Writes a tag (X.696, 8.7.2): a number up to 62 in the first octet, any other in base 128 after it.
/// `SinkFault` if the sink fails.
pub fn put_tag<W: Sink>(tag: Tag, w: &mut W) -> Result<(), SinkFault>
    ensures { Puts (tag_octets tag) (W.contents w.old) (W.failed w.old) result (W.contents w.new) (W.failed w.new) }
{
    let Tag { class, number } = tag;
    let bits = class_bits(class);
    if number < 63 {
        put_octets(&[bits + number as u8], w)
    } else {
        let mut buffer = [0u8; 20];
        let from = fill_digits(number as u128, &mut buffer) - 1;
        buffer[from] = bits + 63;
        put_octets(&buffer[from..], w)
    }
}

/// How many octets `put_tag` writes.
pub fn tag_len(tag: Tag) -> u64
    ensures { result ≡ length (tag_octets tag) }
{
    if tag.number < 63 {
        1
    } else {
        1 + subidentifier_len(tag.number as u128)
    }
}
