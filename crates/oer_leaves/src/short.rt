//! Counted numbers from 0 on (X.696, 10.3). One of 64 bits is written as such, which takes less time.
ghost use Rattle.std.specs.Prelude.{◌≡◌, ◌≤◌, ◌≤ℤ◌, length, pos, unsigned_abs};
ghost use Rattle.oer_units.specs.Least.{counted, octets_needed, unsigned_octets};
ghost use Rattle.oer_leaves.specs.Wrote.{Wrote};

use crate::slice::{put_slice, settle};
use oer_units::{Sink, SinkFault, put_unsigned_counted, unsigned_counted_len};

// How many octets it has with its length.
pub(crate) fn short_len(n: u64) -> u64
    ensures { result ≡ length (counted (unsigned_octets n)) }
{
    unsigned_counted_len(n as i128)
}

// How many octets it needs, one at least.
fn count_octets(n: u64) -> usize
    ensures value { result ≡ octets_needed n }
    ensures most { result ≤ 8 }
{
    short_len(n) as usize - 1
}

// Writes a number of 64 bits.
pub(crate) fn put_short<W: Sink>(n: u64, done: u64, sink: &mut W) -> Result<u64, SinkFault>
    ensures { Wrote done (counted (unsigned_octets n)) (W.contents sink.old) (W.failed sink.old) result (W.contents sink.new) (W.failed sink.new) }
{
    let count = count_octets(n);
    let from = 8 - count;
    let mut buffer = [0u8; 9];
    buffer[1..].copy_from_slice(&n.to_be_bytes());
    buffer[from] = count as u8;
    put_slice(&buffer[from..], done, sink)
}

// Writes a number from 0 on.
pub(crate) fn put_natural<W: Sink>(value: i128, done: u64, sink: &mut W) -> Result<u64, SinkFault>
    requires { pos 0 ≤ℤ value }
    ensures { Wrote done (counted (unsigned_octets (unsigned_abs value))) (W.contents sink.old) (W.failed sink.old) result (W.contents sink.new) (W.failed sink.new) }
{
    match u64::try_from(value) {
        Ok(short) => put_short(short, done, sink),
        Err(_) => settle(
            done,
            unsigned_counted_len(value),
            put_unsigned_counted(value, sink),
        ),
    }
}
