//! The octets that were read, as the front of all that the input has left.
ghost use Rattle.std.specs.Prelude.{◌≡◌, ◌++◌, Some};
ghost use Rattle.oer_lines_cmd.specs.Reading.{known};

use oer_units::Source;
use std::io;
use std::io::{ErrorKind, Read};

/// The octets that were read of an input, before those that it has left. Behind them it fails: what comes next isn't read yet.
#[derive(Drop)]
pub struct Front<'a, R: Read> {
    octets: &'a [u8],
    input: &'a R,
    failures: u64,
}

impl<'a, R: Read> Front<'a, R> {
    /// The octets, before those that the input has left.
    pub fn new(octets: &'a [u8], input: &'a R) -> Self
        ensures { result ≡ record { octets = octets.entry; input = input.entry; failures = 0 } }
    {
        Front {
            octets,
            input,
            failures: 0,
        }
    }
}

impl<'a, R: Read> Source for Front<'a, R> {
    ghost remaining = { λ s. Some (s.octets.now ++ known (R.remaining s.input.now)) };

    ghost failed = { λ s. s.failures };

    fn pull(&mut self, into: &mut [u8]) -> io::Result<usize> {
        if self.octets.is_empty() && !into.is_empty() {
            self.failures = self.failures.saturating_add(1);
            return Err(ErrorKind::WouldBlock.into());
        }
        self.octets.read(into)
    }

    fn failures(&self) -> u64 {
        self.failures
    }
}
