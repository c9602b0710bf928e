//! A sink with room for a few octets.
ghost use Rattle.std.specs.Prelude.{◌≡◌, Some, [], take};
ghost use Rattle.std.specs.Io.{WritesAtMost};
ghost use Rattle.std.specs.Io.KnownBytes.{WriteAppends};
ghost use Rattle.oer_units.specs.Stream.{counted_write};
ghost use Rattle.oer_writer.specs.Gathering.{gathered};

use oer_units::Sink;
use std::io;

// Takes octets while there is room, on the stack. Then it fails.
#[derive(Drop)]
pub(crate) struct Small {
    octets: [u8; 512],
    at: usize,
    failures: u64,
}

impl Small {
    // With no octet so far.
    pub(crate) fn new() -> Small
        ensures held { gathered result ≡ Some [] }
        ensures failed { result.failures ≡ 0 }
    {
        Small {
            octets: [0; 512],
            at: 0,
            failures: 0,
        }
    }

    // The octets that it took.
    pub(crate) fn taken(&self) -> &[u8]
        ensures { result.now ≡ take self.now.at self.now.octets }
    {
        &self.octets[..self.at.min(512)]
    }
}

impl Sink for Small {
    ghost contents = { λ s. gathered s };

    ghost failed = { λ s. s.failures };

    fn push(&mut self, from: &[u8]) -> io::Result<usize> {
        let count = from.len();
        if self.at <= 512 && count <= 512 - self.at {
            self.octets[self.at..self.at + count].copy_from_slice(from);
            self.at += count;
            return Ok(count);
        }
        if count > 0 {
            self.failures = self.failures.saturating_add(1);
        }
        Ok(0)
    }

    fn failures(&self) -> u64 {
        self.failures
    }
}
