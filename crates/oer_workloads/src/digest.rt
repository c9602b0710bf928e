//! A digest of results.
use std::io;
use std::io::Write;

/// A digest of octets, by the method of Fowler, Noll and Vo (FNV-1a), in 64 bits.
#[derive(Drop)]
pub(crate) struct Digest {
    state: u64,
}

impl Digest {
    /// Of no octets.
    pub(crate) fn new() -> Digest {
        Digest {
            state: 0xcbf2_9ce4_8422_2325,
        }
    }

    /// Adds octets.
    pub(crate) fn add(&mut self, octets: &[u8]) {
        let mut state = self.state;
        for octet in octets {
            state = (state ^ u64::from(*octet)).wrapping_mul(0x0100_0000_01b3);
        }
        self.state = state;
    }

    /// Adds a number.
    pub(crate) fn add_number(&mut self, number: u64) {
        self.add(&number.to_be_bytes());
    }

    /// The digest.
    pub(crate) fn sum(&self) -> u64 {
        self.state
    }
}

impl Write for Digest {
    fn write(&mut self, from: &[u8]) -> io::Result<usize> {
        self.add(from);
        Ok(from.len())
    }

    fn flush(&mut self) -> io::Result<()> {
        Ok(())
    }
}
