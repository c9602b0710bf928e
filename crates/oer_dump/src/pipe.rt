//! Output that another program reads, which may stop reading.

use std::cell::Cell;
use std::io::{self, ErrorKind, Write};

/// Output, of which a cell notes that nobody reads it any more.
#[derive(Drop)]
pub(crate) struct Output<'c, W: Write> {
    writer: W,
    is_closed: &'c Cell<bool>,
}

impl<'c, W: Write> Output<'c, W> {
    pub(crate) fn new(writer: W, is_closed: &'c Cell<bool>) -> Self {
        Output { writer, is_closed }
    }
}

impl<W: Write> Write for Output<'_, W> {
    ghost contents = { λ s. W.contents s.writer };

    fn write(&mut self, octets: &[u8]) -> io::Result<usize> {
        let answer = self.writer.write(octets);
        if let Err(error) = &answer {
            if error.kind() == ErrorKind::BrokenPipe {
                self.is_closed.set(true);
            }
        }
        answer
    }

    fn flush(&mut self) -> io::Result<()> {
        self.writer.flush()
    }
}

/// Errors, which are written only as long as the output is read: where it no longer is, nobody asks why
/// the rest is missing.
#[derive(Drop)]
pub(crate) struct Errors<'c, W: Write> {
    writer: W,
    is_closed: &'c Cell<bool>,
}

impl<'c, W: Write> Errors<'c, W> {
    pub(crate) fn new(writer: W, is_closed: &'c Cell<bool>) -> Self {
        Errors { writer, is_closed }
    }
}

impl<W: Write> Write for Errors<'_, W> {
    fn write(&mut self, octets: &[u8]) -> io::Result<usize> {
        if self.is_closed.get() {
            return Ok(octets.len());
        }
        self.writer.write(octets)
    }

    fn flush(&mut self) -> io::Result<()> {
        self.writer.flush()
    }
}
