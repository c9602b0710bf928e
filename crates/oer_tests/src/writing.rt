//! Values written and octets rewritten to sinks that take one octet a call, and fail or take none from a call on. Nothing that
//! writes takes memory once the value is made: the writer is given no allocator, and the sink is an array.
use crate::devices::{BrokenSink, CountingSink, ROOM, SlowReader, SlowWriter};
use crate::shared::{octets, schema_of, type_of, value_of};
use oer_reader::{RewriteFault, Verdict, check, rewrite};
use oer_types::{Schema, Shape, Size, Value, fits};
use oer_units::{Metered, Sink};
use oer_vectors::{KINDS, NESTED_VALUES, Row, VALUES, expanded, row_of};
use oer_writer::parts::equals;
use oer_writer::{WriteFault, length, write};
use std::alloc::Global;
use std::test::Fail;

/// An encoding of a row, with the value as which it is read.
#[derive(Drop)]
struct Case {
    schema: Schema,
    value: Value,
    canonical: Vec<u8>,
    octets: Vec<u8>,
    /// The octets, and one more.
    followed: Vec<u8>,
}

// What the row says of the encoding, of which `=` is that of its canonical octets. The type and the value are copies.
fn case_of(at: Global, row: Row<'_>, digits: &str) -> Result<Case, Fail> {
    let digits = if digits == "=" { row.third } else { digits };
    let schema = type_of(at, row.first)?;
    let value = value_of(at, &schema, row.second)?;
    let mut followed = octets(at, digits)?;
    followed.push(0x62)?;
    Ok(Case {
        schema: schema_of(schema.shape().clone_in(at)?)?,
        value: value.clone_in(at)?,
        canonical: octets(at, row.third)?,
        octets: octets(at, digits)?,
        followed,
    })
}

// Whether the value fits, and the octets are told to be its canonical ones.
fn is_equal(case: &Case, octets: &[u8]) -> bool {
    fits(&case.schema, &case.value) && equals(case.schema.shape(), &case.value, octets)
}

// Whether octets are told to be the value's canonical ones exactly where they are, also by the check of the type.
fn is_told(case: &Case) -> bool {
    let is_canonical = case.octets == case.canonical;
    let verdict = Verdict {
        octets: case.octets.len(),
        canonical: is_canonical,
    };
    is_equal(case, &case.octets) == is_canonical
        && is_equal(case, &case.canonical)
        && !is_equal(case, &case.followed)
        && check(&case.schema, &case.followed) == Ok(verdict)
}

// Whether nothing is written if the sink fails always.
fn breaks(case: &Case) -> bool {
    if case.canonical.is_empty() {
        return true;
    }
    if !fits(&case.schema, &case.value) {
        return false;
    }
    let done = write(&case.schema, &case.value, &mut BrokenSink);
    done == Err(WriteFault::Device { written: 0 })
}

// Whether the write stops where the sink does, after so many calls. The number of the octets is told before.
fn stops_at(case: &Case, calls: usize, fails: bool) -> bool {
    if !fits(&case.schema, &case.value) {
        return false;
    }
    let written = calls as u64;
    let want = if calls < case.canonical.len() {
        (Err(WriteFault::Device { written }), 1)
    } else {
        (Ok(written), 0)
    };
    let front = &case.canonical[..calls.min(case.canonical.len())];
    let mut sink = Metered::new(SlowWriter::new(calls, fails));
    let told = length(&case.schema, &case.value);
    let done = write(&case.schema, &case.value, &mut sink);
    told == Some(case.canonical.len() as u64)
        && (done, sink.failures()) == want
        && sink.into_inner().taken() == front
}

// Whether the rewriting of the octets stops where the sink does, after so many calls. The octets, and
// none besides, were taken then, and no more were asked for.
fn rewriting_stops_at(at: Global, case: &Case, calls: usize, fails: bool) -> bool {
    let written = calls as u64;
    let want = if calls < case.canonical.len() {
        (Err(RewriteFault::Write(WriteFault::Device { written })), 1)
    } else {
        (Ok((case.octets.len() as u64, written)), 0)
    };
    let front = &case.canonical[..calls.min(case.canonical.len())];
    let mut reader = Metered::new(SlowReader::new(&case.followed, usize::MAX));
    let mut sink = Metered::new(SlowWriter::new(calls, fails));
    let done = rewrite(at, &case.schema, &mut reader, u64::MAX, &mut sink);
    (done, sink.failures()) == want
        && sink.into_inner().taken() == front
        && reader.into_inner().has_given(case.octets.len())
}

// Whether both stop where the sink does, wherever that is.
fn stop(at: Global, case: &Case) -> bool {
    if case.canonical.len() > ROOM {
        return true;
    }
    for calls in 0..=case.canonical.len() {
        for fails in [true, false] {
            if !stops_at(case, calls, fails) || !rewriting_stops_at(at, case, calls, fails) {
                return false;
            }
        }
    }
    true
}

// That it is so of each encoding of the row.
fn is_so(at: Global, row: &str) -> Result<(), Fail> {
    let whole = expanded(at, row)?;
    let columns = row_of(whole.as_str());
    for digits in columns.rest.split(' ') {
        let case = case_of(at, columns, digits)?;
        if !is_told(&case) || !breaks(&case) || !stop(at, &case) {
            return Err(Fail::new(row));
        }
    }
    Ok(())
}

#[test]
fn stop_at_each_octet(rt: HostRuntime) -> Result<(), Fail> {
    for rows in [KINDS, VALUES, NESTED_VALUES] {
        for row in rows.lines() {
            is_so(rt.alloc(), row)?;
        }
    }
    Ok(())
}

/// The length determinant of an OCTET STRING, and how many octets follow it. With 512 or fewer in all it
/// goes to the sink in one push.
const SMALL: &[(&str, usize)] = &[
    ("00", 0),
    ("01", 1),
    ("7f", 127),
    ("8180", 128),
    ("81ff", 255),
    ("820100", 256),
    ("8201fd", 509),
];

// So many octets, of which no two neighbours are the same.
fn contents_of(at: Global, count: usize) -> Result<Vec<u8>, Fail> {
    let mut contents = Vec::new(at);
    for index in 0..count {
        contents.push((index % 251) as u8)?;
    }
    Ok(contents)
}

// How many pushes write an OCTET STRING of so many octets to a sink that takes so many a push, if it then has the
// canonical ones.
fn pushes_of(at: Global, length: &str, count: usize, most: usize) -> Result<Option<usize>, Fail> {
    let contents = contents_of(at, count)?;
    let mut canonical = octets(at, length)?;
    canonical.extend_from_slice(contents.as_slice())?;
    let schema = schema_of(Shape::OctetString(Size::any()))?;
    let value = Value::Octets(contents);
    if !fits(&schema, &value) {
        return Ok(None);
    }
    let mut sink = CountingSink {
        held: Vec::new(at),
        most,
        pushes: 0,
    };
    let done = write(&schema, &value, &mut sink);
    let is_whole = done == Ok(canonical.len() as u64) && sink.held == canonical;
    Ok(if is_whole { Some(sink.pushes) } else { None })
}

#[test]
fn small_in_one_push(rt: HostRuntime) -> Result<(), Fail> {
    for (length, count) in SMALL {
        let octets = (length.len() / 2).saturating_add(*count);
        let at_once = pushes_of(rt.alloc(), length, *count, usize::MAX)?;
        let one_by_one = pushes_of(rt.alloc(), length, *count, 1)?;
        if at_once != Some(1) || one_by_one != Some(octets) {
            return Err(Fail::new(length));
        }
    }
    Ok(())
}
