//! Readers, writers and sinks that stop.
use oer_units::Sink;
use std::io;
use std::io::{Error, ErrorKind, Read, Write};

/// Gives one octet a call, until its calls are used up. Then it fails. It keeps count of the octets that it gave, and of those that
/// it was asked for.
#[derive(Drop)]
pub struct SlowReader<'a> {
    octets: &'a [u8],
    calls: usize,
    given: usize,
    asked: usize,
}

impl<'a> SlowReader<'a> {
    pub fn new(octets: &'a [u8], calls: usize) -> SlowReader<'a> {
        SlowReader {
            octets,
            calls,
            given: 0,
            asked: 0,
        }
    }

    /// Whether it gave so many octets, and would have given no more, had it given all that a call asked for.
    pub fn has_given(&self, count: usize) -> bool {
        self.given == count && self.asked <= count
    }
}

impl<'a> Read for SlowReader<'a> {
    fn read(&mut self, into: &mut [u8]) -> io::Result<usize> {
        if into.is_empty() {
            return Ok(0);
        }
        self.asked = self.asked.max(self.given.saturating_add(into.len()));
        if self.calls == 0 {
            return Err(Error::from(ErrorKind::Interrupted));
        }
        let Some((first, rest)) = self.octets.split_first() else {
            return Ok(0);
        };
        self.calls -= 1;
        self.given = self.given.saturating_add(1);
        into[0] = *first;
        self.octets = rest;
        Ok(1)
    }
}

/// How many octets a `SlowWriter` takes at most.
pub const ROOM: usize = 160;

/// Takes one octet a call and `ROOM` at most, until its calls are used up. Then it fails, or takes
/// none. It wants no memory.
#[derive(Drop)]
pub struct SlowWriter {
    held: [u8; ROOM],
    count: usize,
    calls: usize,
    fails: bool,
}

impl SlowWriter {
    pub fn new(calls: usize, fails: bool) -> SlowWriter {
        SlowWriter {
            held: [0; ROOM],
            count: 0,
            calls,
            fails,
        }
    }

    /// The octets that it took.
    pub fn taken(&self) -> &[u8] {
        &self.held[..self.count.min(ROOM)]
    }
}

impl Write for SlowWriter {
    fn write(&mut self, from: &[u8]) -> io::Result<usize> {
        let Some(first) = from.first() else {
            return Ok(0);
        };
        if self.calls == 0 {
            return if self.fails {
                Err(Error::from(ErrorKind::Interrupted))
            } else {
                Ok(0)
            };
        }
        let Some(place) = self.held.get_mut(self.count) else {
            return Ok(0);
        };
        *place = *first;
        self.count += 1;
        self.calls -= 1;
        Ok(1)
    }

    fn flush(&mut self) -> io::Result<()> {
        Ok(())
    }
}

/// A sink that fails always, and can count no further failure.
#[derive(Drop)]
pub struct BrokenSink;

impl Sink for BrokenSink {
    ghost failed = { λ _. 18446744073709551615 };

    fn push(&mut self, _from: &[u8]) -> io::Result<usize> {
        Err(Error::from(ErrorKind::Other))
    }

    fn failures(&self) -> u64 {
        u64::MAX
    }
}

/// Keeps the octets that it takes, as many a push as it is told at most, and counts the pushes.
#[derive(Drop)]
pub struct CountingSink {
    pub held: Vec<u8>,
    pub most: usize,
    pub pushes: usize,
}

impl Sink for CountingSink {
    ghost failed = { λ _. 18446744073709551615 };

    fn push(&mut self, from: &[u8]) -> io::Result<usize> {
        self.pushes = self.pushes.saturating_add(1);
        let count = from.len().min(self.most);
        if self.held.extend_from_slice(&from[..count]).is_err() {
            return Err(Error::from(ErrorKind::OutOfMemory));
        }
        Ok(count)
    }

    fn failures(&self) -> u64 {
        u64::MAX
    }
}
