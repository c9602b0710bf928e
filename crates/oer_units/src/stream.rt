//! Where octets come from and go to, with a count of the calls that failed.
ghost use Rattle.std.specs.Prelude.{◌≡◌, ℕ, List, Option, None, Some, length};
ghost use Rattle.std.specs.Borrow.{GName};
ghost use Rattle.std.specs.Io.{ReadsAtMost, WritesAtMost};
ghost use Rattle.std.specs.Io.KnownBytes.{ReadConsumes, WriteAppends};
ghost use Rattle.oer_units.specs.Stream.{counted_read, counted_write, inner_of, failures_of, lent_by, loan_of, failures_of_lent};
ghost use Rattle.oer_units.specs.Writing.{Puts};

use crate::fault::SinkFault;
use std::io;
use std::io::{Read, Write};

/// What octets are read from. It counts the calls that failed: those that returned an error, an
/// interrupted one too.
pub trait Source {
    /// The octets that it will give from here on, where they are known.
    ghost remaining: { Self → Option (List ℕ) } = { λ _. None };

    /// The name of the loan through which it reads, if it borrows what it reads from.
    ghost loan: { Self → Option GName } = { λ _. None };

    /// How many calls failed, up to `u64::MAX`.
    ghost failed: { Self → ℕ };

    /// Reads octets into the front of `into`, as `Read::read` does, and returns how many. A call that
    /// returns an error takes none, and is counted.
    fn pull(&mut self, into: &mut [u8]) -> io::Result<usize>
        ensures bound { ReadsAtMost result into.new }
        ensures bytes { ReadConsumes (remaining self.old) (remaining self.new) result into.new }
        ensures loan { loan self.new ≡ loan self.old }
        ensures count { failed self.new ≡ counted_read (failed self.old) result };

    /// How many calls failed so far, up to `u64::MAX`.
    fn failures(&self) -> u64
        ensures { result ≡ failed self.now };
}

/// What octets are written to. It counts the calls that failed: those that returned an error, an
/// interrupted one too, or took none of one or more octets.
pub trait Sink {
    /// The octets that it holds, where they are known.
    ghost contents: { Self → Option (List ℕ) } = { λ _. None };

    /// How many calls failed, up to `u64::MAX`.
    ghost failed: { Self → ℕ };

    /// Takes octets from the front of `from`, as `Write::write` does, and returns how many. A call that
    /// returns an error takes none. It is counted, and so is one that takes none of one or more.
    fn push(&mut self, from: &[u8]) -> io::Result<usize>
        ensures bound { WritesAtMost result from.now }
        ensures bytes { WriteAppends (contents self.old) (contents self.new) result from.now }
        ensures count { failed self.new ≡ counted_write (failed self.old) result from.now };

    /// How many calls failed so far, up to `u64::MAX`.
    fn failures(&self) -> u64
        ensures { result ≡ failed self.now };
}

/// A reader or a writer of `std`, whose octets it passes on unchanged, with a count of its failures.
#[derive(Drop)]
pub struct Metered<T> {
    inner: T,
    count: u64,
}

impl<T> Metered<T> {
    /// A reader or a writer with no failure so far.
    pub fn new(inner: T) -> Self
        ensures inner { inner_of result ≡ inner }
        ensures count { failures_of result ≡ 0 }
    {
        Metered { inner, count: 0 }
    }

    /// The reader or the writer, as it stands now.
    pub fn into_inner(self) -> T
        ensures { result ≡ inner_of self }
    {
        self.inner
    }
}

/// A borrowed reader of `std`, whose octets it passes on unchanged, with a count of its failures. As long
/// as it is read, the same reader stays borrowed. So what was taken is known of the reader after it.
#[derive(Drop)]
pub struct Lent<'r, R: Read> {
    reader: &'r mut R,
    count: u64,
}

impl<'r, R: Read> Lent<'r, R> {
    /// The reader, with no failure so far.
    pub fn new(reader: &'r mut R) -> Self
        ensures loan { loan_of result ≡ reader.entry.ghost_name }
        ensures reader { lent_by result ≡ reader.old }
        ensures count { failures_of_lent result ≡ 0 }
    {
        Lent { reader, count: 0 }
    }
}

impl<'r, R: Read> Source for Lent<'r, R> {
    ghost remaining = { λ s. R.remaining (lent_by s) };

    ghost loan = { λ s. Some (loan_of s) };

    ghost failed = { λ s. failures_of_lent s };

    fn pull(&mut self, into: &mut [u8]) -> io::Result<usize> {
        let answer = self.reader.read(into);
        if answer.is_err() {
            self.count = self.count.saturating_add(1);
        }
        answer
    }

    fn failures(&self) -> u64 {
        self.count
    }
}

impl<T: Read> Source for Metered<T> {
    ghost remaining = { λ s. T.remaining (inner_of s) };

    ghost failed = { λ s. failures_of s };

    fn pull(&mut self, into: &mut [u8]) -> io::Result<usize> {
        let answer = self.inner.read(into);
        if answer.is_err() {
            self.count = self.count.saturating_add(1);
        }
        answer
    }

    fn failures(&self) -> u64 {
        self.count
    }
}

// The count of failures after a write of the octets: one more where it is an error, or took none of one
// or more octets.
fn count_after(count: u64, answer: &io::Result<usize>, octets: &[u8]) -> u64
    ensures { result ≡ counted_write count answer.now octets.now }
{
    let is_failure = match answer {
        Ok(taken) => *taken == 0 && !octets.is_empty(),
        Err(_) => true,
    };
    if is_failure {
        count.saturating_add(1)
    } else {
        count
    }
}

impl<W: Write> Metered<&mut W> {
    // `push`, after which the same writer is borrowed as before.
    fn push_borrowed(&mut self, from: &[u8]) -> io::Result<usize>
        ensures same { (inner_of self.new).ghost_name ≡ (inner_of self.old).ghost_name }
        ensures bound { WritesAtMost result from.now }
        ensures bytes { WriteAppends (W.contents (inner_of self.old).now) (W.contents (inner_of self.new).now) result from.now }
        ensures count { failures_of self.new ≡ counted_write (failures_of self.old) result from.now }
    {
        let answer = self.inner.write(from);
        self.count = count_after(self.count, &answer, from);
        answer
    }

    /// Writes the octets to the borrowed writer, as `put_octets` does: in one call, which goes on with
    /// the rest where a call took only some. A call that fails, by an error (an interruption too) or by
    /// taking none, isn't tried again. It returns `SinkFault` if the writer fails before it took all.
    pub fn put(&mut self, octets: &[u8]) -> Result<(), SinkFault>
        ensures same { (inner_of self.new).ghost_name ≡ (inner_of self.old).ghost_name }
        ensures puts { Puts octets.now (W.contents (inner_of self.old).now) (failures_of self.old) result
            (W.contents (inner_of self.new).now) (failures_of self.new) }
    {
        let mut at = 0;
        while at < octets.len() {
            match self.push_borrowed(&octets[at..]) {
                Ok(0) => return Err(SinkFault { written: at as u64 }),
                Ok(taken) => at += taken,
                Err(_) => return Err(SinkFault { written: at as u64 }),
            }
        }
        Ok(())
    }
}

impl<T: Write> Sink for Metered<T> {
    ghost contents = { λ s. T.contents (inner_of s) };

    ghost failed = { λ s. failures_of s };

    fn push(&mut self, from: &[u8]) -> io::Result<usize> {
        let answer = self.inner.write(from);
        self.count = count_after(self.count, &answer, from);
        answer
    }

    fn failures(&self) -> u64 {
        self.count
    }
}
