//! A reader that gives a few octets a call.
use std::io;
use std::io::Read;

/// Gives its octets in pieces of at most `most`.
#[derive(Drop)]
pub(crate) struct Pieces<'a> {
    pub octets: &'a [u8],
    pub most: usize,
}

impl Read for Pieces<'_> {
    fn read(&mut self, into: &mut [u8]) -> io::Result<usize> {
        let count = into.len().min(self.most).min(self.octets.len());
        let (now, later) = self.octets.split_at(count);
        into[..count].copy_from_slice(now);
        self.octets = later;
        Ok(count)
    }
}
