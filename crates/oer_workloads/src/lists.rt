//! Long lists of small records, as a logger of measurements keeps them: read from a reader that gives blocks,
//! checked against the type, and written.
ghost use Rattle.std.specs.Prelude.{IfSome};
ghost use Rattle.oer_model.specs.Fits.{Fits};
ghost use Rattle.oer_types.specs.Schema.{the_type};
ghost use Rattle.oer_values.specs.ValueView.{value_of};

use crate::digest::Digest;
use crate::random::Random;
use oer_reader::{check, read};
use oer_text::parse_type;
use oer_types::{Schema, Value, fits};
use oer_units::Metered;
use oer_writer::write;
use std::alloc::{AllocError, Global};
use std::io;
use std::io::Read;

/// A list of measurements.
const LIST: &str = "SEQUENCE OF SEQUENCE {
  at INTEGER (0..4294967295),
  sensor IA5String (SIZE(1..16)),
  value INTEGER,
  unit ENUMERATED {none, metre, second, kelvin, pascal, ...} DEFAULT none,
  flags BIT STRING (SIZE(12)),
  note CHOICE {text UTF8String, code INTEGER (0..255), raw OCTET STRING, ...} OPTIONAL,
  ...,
  accuracy INTEGER (0..65535)
}";

/// How many records a list has.
const RECORDS: u16 = 20_000;

/// Gives its octets in blocks.
#[derive(Drop)]
struct Blocks<'a> {
    octets: &'a [u8],
}

impl Read for Blocks<'_> {
    fn read(&mut self, into: &mut [u8]) -> io::Result<usize> {
        let count = into.len().min(4096).min(self.octets.len());
        let (now, later) = self.octets.split_at(count);
        into[..count].copy_from_slice(now);
        self.octets = later;
        Ok(count)
    }
}

/// Adds a note: a text, a code or octets.
fn put_note(random: &mut Random, to: &mut Vec<u8>) -> Result<(), AllocError> {
    let count = (random.number() % 24) as u8;
    match random.below(3) {
        0 => {
            to.extend_from_slice(&[0x80, count])?;
            random.put_letters(usize::from(count), to)
        }
        1 => {
            to.push(0x81)?;
            random.put(1, to)
        }
        _ => {
            to.extend_from_slice(&[0x82, count])?;
            random.put(usize::from(count), to)
        }
    }
}

/// Adds a record. One in eight has an addition, and one in eight spells its value by more octets than needed.
fn put_record(random: &mut Random, to: &mut Vec<u8>) -> Result<(), AllocError> {
    let has_addition = random.is_one_of(8);
    let has_unit = random.is_one_of(2);
    let has_note = random.is_one_of(2);
    to.push(u8::from(has_addition) * 0x80 + u8::from(has_unit) * 0x40 + u8::from(has_note) * 0x20)?;
    random.put(4, to)?;
    let letters = (random.number() % 16) as u8 + 1;
    to.push(letters)?;
    random.put_letters(usize::from(letters), to)?;
    let value = (random.number() % 6) as u8 + 1;
    to.push(value)?;
    random.put(usize::from(value), to)?;
    if has_unit {
        to.push((random.number() % 7) as u8)?;
    }
    to.push(random.octet())?;
    to.push(random.octet() & 0xf0)?;
    if has_note {
        put_note(random, to)?;
    }
    if has_addition {
        to.extend_from_slice(&[0x02, 0x07, 0x80, 0x02])?;
        random.put(2, to)?;
    }
    Ok(())
}

/// The octets of a list.
fn list(alloc: Global, random: &mut Random) -> Option<Vec<u8>> {
    let mut octets = Vec::new(alloc);
    octets.push(2).ok()?;
    octets.extend_from_slice(&RECORDS.to_be_bytes()).ok()?;
    for _ in 0..RECORDS {
        put_record(random, &mut octets).ok()?;
    }
    Some(octets)
}

/// The value of a list, read in blocks.
fn value_in(alloc: Global, schema: &Schema, octets: &[u8]) -> Option<Value>
    ensures { IfSome result (λ value. Fits (the_type schema.now) (value_of value)) }
{
    let mut reader = Metered::new(Blocks { octets });
    let value = read(alloc, schema, &mut reader, u64::MAX).ok()?;
    if !fits(schema, &value) {
        return None;
    }
    Some(value)
}

/// Adds what is found of a list, and what is written of its value.
fn copy(alloc: Global, schema: &Schema, octets: &[u8], digest: &mut Digest) -> Option<()> {
    let verdict = check(schema, octets).ok()?;
    digest.add_number(verdict.octets as u64);
    digest.add_number(u64::from(verdict.canonical));
    let value = value_in(alloc, schema, octets)?;
    let mut sink = Metered::new(Vec::new(alloc));
    write(schema, &value, &mut sink).ok()?;
    digest.add(sink.into_inner().as_slice());
    Some(())
}

/// The digest of what is found and written of so many lists.
pub(crate) fn copied(alloc: Global, count: u32, random: &mut Random) -> Option<Digest> {
    let schema = parse_type(alloc, LIST).ok()?;
    let mut digest = Digest::new();
    for _ in 0..count {
        let octets = list(alloc, random)?;
        copy(alloc, &schema, octets.as_slice(), &mut digest)?;
    }
    Some(digest)
}
