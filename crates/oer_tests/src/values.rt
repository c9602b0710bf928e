//! Which values fit that no text spells, which are the same, and what they are when filled in.
use crate::shared::{NESTED, is_well, octets, type_of, value_of};
use oer_reader::read;
use oer_text::parse_type;
use oer_types::{Schema, Shape, Unknown, Value, filled, fits, fits_shape, same_filled};
use oer_units::Metered;
use oer_vectors::row_of;
use std::alloc::{AllocError, Global};
use std::test::Fail;

// A value of SEQUENCE {..., x BOOLEAN} with additions at two places that the type doesn't know.
fn with_unknown(at: Global, first: u16, second: u16) -> Result<Value, AllocError> {
    let early = Unknown {
        place: first,
        octets: Vec::from_array(at, [9])?,
    };
    let late = Unknown {
        place: second,
        octets: Vec::new(at),
    };
    Ok(Value::Seq {
        root: Vec::new(at),
        added: Vec::from_array(at, [None])?,
        unknown: Vec::from_array(at, [early, late])?,
    })
}

// Whether a value with unknown additions at these places fits.
fn fits_with(at: Global, schema: &Schema, first: u16, second: u16) -> Result<bool, Fail> {
    Ok(fits(schema, &with_unknown(at, first, second)?))
}

#[test]
fn unknown_parts(rt: HostRuntime) -> Result<(), Fail> {
    let at = rt.alloc();
    let schema = parse_type(at, "SEQUENCE {..., x BOOLEAN}")?;
    is_well("the last place", fits_with(at, &schema, 1, 65535)?)?;
    is_well("a known place", !fits_with(at, &schema, 0, 2)?)?;
    is_well("falling places", !fits_with(at, &schema, 3, 2)?)?;
    is_well("one place twice", !fits_with(at, &schema, 2, 2)?)?;
    let another = fits_shape(&Shape::Boolean, &Value::Null);
    is_well("a value of another type", !another)
}

/// A type; two values by JSON or by octets; whether they are the same, are the same
/// after defaults, and whether the first with its defaults is the second.
const PAIRS: &str = "NESTED | {} | {\"s\":{\"b\":true}} | false true true
NESTED | {\"s\":{\"b\":true}} | {\"s\":{\"b\":true}} | true true true
NESTED | {\"s\":{}} | {\"s\":{\"b\":true}} | false true true
NESTED | {} | {\"s\":{\"b\":false}} | false false false
NESTED | {\"s\":{\"b\":true}} | {\"s\":{}} | false true false
NESTED | {} | 00 | true true false
NESTED | {\"s\":{}} | 8000 | true true false
NESTED | {\"s\":{\"b\":true}} | 8080ff | true true true
NESTED | 00 | 8080ff | false true true
SEQUENCE {a BOOLEAN, ..., x INTEGER (0..255), y BOOLEAN} | {\"a\":true,\"#2\":\"09\"} | 80ff0205200109 | true true true
CHOICE {a NULL, ..., b OCTET STRING} | {\"#c5\":\"0102\"} | 85020102 | true true true";

// The value by JSON or by its octets.
fn one_of(at: Global, schema: &Schema, text: &str) -> Result<Value, Fail> {
    if text.starts_with('{') {
        return value_of(at, schema, text);
    }
    let octets = octets(at, text)?;
    let mut reader = Metered::new(octets.as_slice());
    Ok(read(at, schema, &mut reader, u64::MAX)?)
}

// Whether this is answered of two values of the type, which fit it.
fn is_compared(
    at: Global,
    schema: &Schema,
    one: &Value,
    other: &Value,
    want: &str,
) -> Result<bool, Fail> {
    let same = one.same(other);
    let there = same_filled(schema, one, other);
    let full = filled(at, schema, one)?.same(other);
    let answer = format!(in at; "{same} {there} {full}")?;
    let fit = fits(schema, one) && fits(schema, other);
    Ok(fit && same_filled(schema, other, one) == there && answer.as_str() == want)
}

#[test]
fn values_compared(rt: HostRuntime) -> Result<(), Fail> {
    let at = rt.alloc();
    for row in PAIRS.lines() {
        let columns = row_of(row);
        let is_nested = columns.first == "NESTED";
        let schema = type_of(at, if is_nested { NESTED } else { columns.first })?;
        let one = one_of(at, &schema, columns.second)?;
        let other = one_of(at, &schema, columns.third)?;
        is_well(row, is_compared(at, &schema, &one, &other, columns.rest)?)?;
    }
    Ok(())
}
