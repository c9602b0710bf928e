//! Units, read at a cursor.
ghost use Rattle.std.specs.Io.{ReadsAtMost};
ghost use Rattle.std.specs.Io.KnownBytes.{ReadConsumes};
ghost use Rattle.std.specs.Prelude.{◌≡◌, ◌≤◌, ◌<◌, ◌+◌, ◌/◌, ◌%◌, ◌≤ℤ◌, FitsSigned, Some, IfOk, pos};
ghost use Rattle.std.specs.Int.{w64, w128};
ghost use Rattle.oer_units.specs.Fixed.{signed_fixed_at as signed_fixed_read, unsigned_fixed_at as unsigned_fixed_read};
ghost use Rattle.oer_units.specs.Numbers.{natural, signed};
ghost use Rattle.oer_units.specs.Reader.{group};
ghost use Rattle.oer_units.specs.Reading.{class_of, counted_length, counted_number, enumerated as enumerated_read, is_int128, octet as octet_read, tag as tag_read};
ghost use Rattle.oer_units.specs.Stream.{counted_read};
ghost use Rattle.oer_checker.specs.Places.{outcome, place_of, same};
ghost use Rattle.oer_checker.specs.Steps.{subidentifier_size};

use crate::cursor::Cursor;
use crate::stop::Stop;
use oer_units::{
    Source, Tag, Why, Width, Window, class, enumerated, length, signed_counted, signed_of,
    subidentifier, tag, unsigned_counted, unsigned_of,
};
use std::io;
use std::io::Read;

// Octets that are there.
#[derive(Drop)]
struct Octets<'a> {
    rest: &'a [u8],
}

impl<'a> Source for Octets<'a> {
    ghost remaining = { λ s. Some s.rest.now };

    ghost failed = { λ _. 0 };

    fn pull(&mut self, into: &mut [u8]) -> io::Result<usize> {
        if into.len() != 1 || self.rest.is_empty() {
            return self.rest.read(into);
        }
        into.copy_from_slice(&self.rest[..1]);
        self.rest = &self.rest[1..];
        Ok(1)
    }

    fn failures(&self) -> u64 {
        0
    }
}

/// The next octets.
pub fn group_at<'a>(at: &mut Cursor<'a>, count: u64) -> Result<&'a [u8], Stop>
    ensures { outcome (λ s. s.now) result at.new ≡ group count (place_of at.old) }
{
    let rest = at.rest;
    if count > at.left {
        return Err(Stop { why: Why::Limit });
    }
    if count > rest.len() as u64 {
        at.rest = &rest[rest.len()..];
        return Err(Stop { why: Why::End });
    }
    at.left -= count;
    let count = count as usize;
    at.rest = &rest[count..];
    Ok(&rest[..count])
}

/// The next octet.
pub(crate) fn octet_at(at: &mut Cursor) -> Result<u8, Stop>
    ensures { outcome same result at.new ≡ octet_read (place_of at.old) }
{
    let octets = group_at(at, 1)?;
    Ok(octets[0])
}

/// A length determinant (X.696, 8.6) that is not above what is left after it.
pub(crate) fn length_at(at: &mut Cursor) -> Result<u64, Stop>
    ensures { outcome same result at.new ≡ counted_length (place_of at.old) }
{
    let start = *at;
    let first = octet_at(at)?;
    if first >= 128 {
        *at = start;
        return long_length_at(at);
    }
    let count = first as u64;
    if count > at.left {
        return Err(Stop { why: Why::Limit });
    }
    Ok(count)
}

// A length of any form.
fn long_length_at(at: &mut Cursor) -> Result<u64, Stop>
    ensures { outcome same result at.new ≡ counted_length (place_of at.old) }
{
    let mut source = Octets { rest: at.rest };
    let mut w = Window::new(&mut source, at.left);
    let answer = length(&mut w);
    at.after(answer, w.taken())
}

/// An unsigned number of fixed size (X.696, 10.3).
pub(crate) fn unsigned_fixed_at(at: &mut Cursor, width: Width) -> Result<u64, Stop>
    ensures { outcome same result at.new ≡ unsigned_fixed_read width (place_of at.old) }
{
    let octets = group_at(at, width.octets() as u64)?;
    Ok(unsigned_of(octets))
}

/// A number of fixed size in two's complement (X.696, 10.4).
pub(crate) fn signed_fixed_at(at: &mut Cursor, width: Width) -> Result<i64, Stop>
    ensures number { outcome same result at.new ≡ signed_fixed_read width (place_of at.old) }
    ensures range { IfOk result (λ y. FitsSigned w64 y) }
{
    let octets = group_at(at, width.octets() as u64)?;
    Ok(signed_of(octets))
}

/// An unsigned number after its count of octets (X.696, 10.3).
pub(crate) fn unsigned_counted_at(at: &mut Cursor) -> Result<i128, Stop>
    ensures number { outcome same result at.new ≡ counted_number natural is_int128 (place_of at.old) }
    ensures range { IfOk result (λ y. FitsSigned w128 y) }
    ensures natural { IfOk result (λ y. pos 0 ≤ℤ y) }
{
    natural_at(at)
}

fn natural_at(at: &mut Cursor) -> Result<i128, Stop>
    ensures number { outcome same result at.new ≡ counted_number natural is_int128 (place_of at.old) }
    ensures range { IfOk result (λ y. FitsSigned w128 y) }
{
    let start = *at;
    let count = length_at(at)?;
    if count == 0 || count > 8 {
        *at = start;
        return long_natural_at(at);
    }
    let octets = group_at(at, count)?;
    Ok(unsigned_of(octets) as i128)
}

// An unsigned number of any number of octets.
fn long_natural_at(at: &mut Cursor) -> Result<i128, Stop>
    ensures number { outcome same result at.new ≡ counted_number natural is_int128 (place_of at.old) }
    ensures range { IfOk result (λ y. FitsSigned w128 y) }
{
    let mut source = Octets { rest: at.rest };
    let mut w = Window::new(&mut source, at.left);
    let answer = unsigned_counted(&mut w);
    let taken = w.taken();
    match answer {
        Ok(number) => at.after(Ok(number), taken),
        Err(fault) => at.after(Err(fault), taken),
    }
}

/// A number in two's complement after its count of octets (X.696, 10.4).
pub(crate) fn signed_counted_at(at: &mut Cursor) -> Result<i128, Stop>
    ensures number { outcome same result at.new ≡ counted_number signed is_int128 (place_of at.old) }
    ensures range { IfOk result (λ y. FitsSigned w128 y) }
{
    let mut source = Octets { rest: at.rest };
    let mut w = Window::new(&mut source, at.left);
    let answer = signed_counted(&mut w);
    let taken = w.taken();
    match answer {
        Ok(number) => at.after(Ok(number), taken),
        Err(fault) => at.after(Err(fault), taken),
    }
}

/// The number of an ENUMERATED (X.696, 11).
pub(crate) fn enumerated_at(at: &mut Cursor) -> Result<i64, Stop>
    ensures number { outcome same result at.new ≡ enumerated_read (place_of at.old) }
    ensures range { IfOk result (λ y. FitsSigned w64 y) }
{
    let start = *at;
    let first = octet_at(at)?;
    if first >= 128 {
        *at = start;
        return long_enumerated_at(at);
    }
    Ok(first as i64)
}

// The number of an ENUMERATED in either form.
fn long_enumerated_at(at: &mut Cursor) -> Result<i64, Stop>
    ensures number { outcome same result at.new ≡ enumerated_read (place_of at.old) }
    ensures range { IfOk result (λ y. FitsSigned w64 y) }
{
    let mut source = Octets { rest: at.rest };
    let mut w = Window::new(&mut source, at.left);
    let answer = enumerated(&mut w);
    let taken = w.taken();
    match answer {
        Ok(number) => at.after(Ok(number), taken),
        Err(fault) => at.after(Err(fault), taken),
    }
}

/// A tag (X.696, 8.7).
pub fn tag_at(at: &mut Cursor) -> Result<Tag, Stop>
    ensures { outcome same result at.new ≡ tag_read (place_of at.old) }
{
    let start = *at;
    let first = octet_at(at)?;
    if first % 64 == 63 {
        *at = start;
        return long_tag_at(at);
    }
    Ok(short_tag(first))
}

// The tag that stands in one octet, whose number is below 63.
fn short_tag(first: u8) -> Tag
    ensures octet { first < 256 }
    ensures class { result.class ≡ class_of (first / 64) }
    ensures number { result.number ≡ first % 64 }
{
    Tag {
        class: class(first),
        number: (first % 64) as u32,
    }
}

// A tag of any form.
fn long_tag_at(at: &mut Cursor) -> Result<Tag, Stop>
    ensures { outcome same result at.new ≡ tag_read (place_of at.old) }
{
    let mut source = Octets { rest: at.rest };
    let mut w = Window::new(&mut source, at.left);
    let answer = tag(&mut w);
    at.after(answer, w.taken())
}

/// How many octets the next subidentifier has (X.690, 8.19.2), at most `content`.
pub(crate) fn subidentifier_at(at: &mut Cursor, content: u64) -> Result<u64, Stop>
    requires some { 1 ≤ content }
    requires room { content ≤ at.old.left }
    ensures size { outcome same result at.new ≡ subidentifier_size content (place_of at.old) }
    ensures room { IfOk result (λ y. y + at.new.left ≡ at.old.left) }
{
    let mut source = Octets { rest: at.rest };
    let mut w = Window::new(&mut source, at.left);
    let answer = subidentifier(&mut w, content);
    let taken = w.taken();
    match answer {
        Ok(_) => at.after(Ok(taken), taken),
        Err(fault) => at.after(Err(fault), taken),
    }
}
