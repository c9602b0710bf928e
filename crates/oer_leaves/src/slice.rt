//! Octets and counted octets, with the number of octets written so far.
ghost use Rattle.std.specs.Prelude.{◌≡◌, ℕ, List, None, Some, Option, length, if◌then◌else◌};
ghost use Rattle.std.specs.Io.{WritesAtMost};
ghost use Rattle.std.specs.Io.KnownBytes.{WriteAppends};
ghost use Rattle.oer_units.specs.Least.{counted, length_octets};
ghost use Rattle.oer_units.specs.Stream.{counted_write};
ghost use Rattle.oer_model.specs.Canonical.{string_octets};
ghost use Rattle.oer_model.specs.Constraints.{fixed};
ghost use Rattle.oer_leaves.specs.Wrote.{Measures, Wrote, Settles};

use oer_types::Size;
use oer_units::{Sink, SinkFault, length_len, put_length, put_octets};
use std::io;

/// Takes all octets, and keeps none: for the number of octets alone.
#[derive(Drop)]
pub struct Nowhere;

impl Sink for Nowhere {
    ghost failed = { λ _. 0 };

    fn push(&mut self, from: &[u8]) -> io::Result<usize> {
        Ok(from.len())
    }

    fn failures(&self) -> u64 {
        0
    }
}

// What a unit of `count` octets comes to that was put after `done` octets.
pub(crate) fn settle(done: u64, count: u64, put: Result<(), SinkFault>) -> Result<u64, SinkFault>
    ensures { Settles done count put result }
{
    match put {
        Ok(()) => done.checked_add(count).ok_or(SinkFault { written: done }),
        Err(fault) => match done.checked_add(fault.written) {
            Some(written) => Err(SinkFault { written }),
            None => Err(SinkFault { written: done }),
        },
    }
}

// Adds so many octets to those done, or answers none where they come to 2^64.
pub(crate) fn added(done: u64, count: u64) -> Option<u64>
    ensures { (octets : List ℕ) → count ≡ length octets → Measures done octets result }
{
    done.checked_add(count)
}

/// Writes the octets, in one push where the sink takes them.
pub fn put_slice<W: Sink>(octets: &[u8], done: u64, sink: &mut W) -> Result<u64, SinkFault>
    ensures { Wrote done octets.now (W.contents sink.old) (W.failed sink.old) result (W.contents sink.new) (W.failed sink.new) }
{
    settle(done, octets.len() as u64, put_octets(octets, sink))
}

/// Writes a length determinant (X.696, 8.6).
pub fn put_count<W: Sink>(n: u64, done: u64, sink: &mut W) -> Result<u64, SinkFault>
    ensures { Wrote done (length_octets n) (W.contents sink.old) (W.failed sink.old) result (W.contents sink.new) (W.failed sink.new) }
{
    settle(done, length_len(n), put_length(n, sink))
}

// Writes the octets after their length.
pub(crate) fn put_counted<W: Sink>(octets: &[u8], done: u64, sink: &mut W) -> Result<u64, SinkFault>
    ensures { Wrote done (counted octets.now) (W.contents sink.old) (W.failed sink.old) result (W.contents sink.new) (W.failed sink.new) }
{
    let done = put_count(octets.len() as u64, done, sink)?;
    put_slice(octets, done, sink)
}

// Whether the constraint allows one size alone.
pub(crate) fn is_fixed(size: Size) -> bool
    ensures { fixed size ≡ (if result then Some size.low else None) }
{
    size.high == Some(size.low)
}

// Writes the octets, after their length where the constraint allows more than one.
pub(crate) fn put_string<W: Sink>(
    size: Size,
    octets: &[u8],
    done: u64,
    sink: &mut W,
) -> Result<u64, SinkFault>
    ensures { Wrote done (string_octets (fixed size) octets.now) (W.contents sink.old) (W.failed sink.old) result (W.contents sink.new) (W.failed sink.new) }
{
    if is_fixed(size) {
        put_slice(octets, done, sink)
    } else {
        put_counted(octets, done, sink)
    }
}
