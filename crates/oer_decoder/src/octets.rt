//! Octets in memory, to which more are appended.
ghost use Rattle.std.specs.Prelude.{◌≡◌, ◌≤◌, ◌++◌, ◌-◌, ◌∷◌, List, [], Some, drop, length, take};
ghost use Rattle.oer_decoder.specs.Octets.{failures_of, gathered};

use oer_units::Sink;
use std::alloc::Global;
use std::io::{self, Write};

/// A sink in memory, whose octets may still be looked at, dropped and put elsewhere.
#[derive(Drop)]
pub(crate) struct Octets {
    held: Vec<u8>,
    failures: u64,
}

impl Octets {
    /// None so far.
    pub(crate) fn new(alloc: Global) -> Self
        ensures { gathered result ≡ [] }
    {
        Octets {
            held: Vec::new(alloc),
            failures: 0,
        }
    }

    /// How many there are.
    pub(crate) fn len(&self) -> usize
        ensures { result ≡ length (gathered self.now) }
    {
        self.held.len()
    }

    /// Those from a place on.
    pub(crate) fn from(&self, at: usize) -> &[u8]
        requires { at ≤ length (gathered self.now) }
        ensures { result.now ≡ drop at (gathered self.now) }
    {
        &self.held[at..]
    }

    /// Drops those from a place on.
    pub(crate) fn truncate(&mut self, at: usize)
        ensures { gathered self.new ≡ take at (gathered self.old) }
    {
        self.held.truncate(at);
    }

    /// Puts those from `from` on before those from `at` on.
    pub(crate) fn put_before(&mut self, at: usize, from: usize)
        requires order { at ≤ from }
        requires most { from ≤ length (gathered self.old) }
        ensures { gathered self.new ≡ take at (gathered self.old) ++ (drop (from - at) (drop at (gathered self.old)) ++ take (from - at) (drop at (gathered self.old))) }
    {
        self.held[at..].rotate_left(from - at);
    }

    /// The octets.
    pub(crate) fn into_vec(self) -> Vec<u8>
        ensures { result.items ≡ gathered self }
    {
        self.held
    }
}

impl Sink for Octets {
    ghost contents = { λ s. Some (gathered s) };

    ghost failed = { λ s. failures_of s };

    fn push(&mut self, from: &[u8]) -> io::Result<usize> {
        let answer = self.held.write(from);
        if answer.is_err() {
            self.failures = self.failures.saturating_add(1);
        }
        answer
    }

    fn failures(&self) -> u64 {
        self.failures
    }
}
