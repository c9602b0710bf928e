//! Values that hold no other.
ghost use Rattle.std.specs.Prelude.{◌≡◌, ◌≤◌, ◌<◌, ◌^◌, ◌++◌, ◌∷◌, [], ℕ, suc, length, ◌+◌, ◌-◌, ◌*◌, drop, if◌then◌else◌};
ghost use Rattle.std.specs.Int.{w128, cast_unsigned};
ghost use Rattle.oer_units.specs.Least.{base128_octets, big_endian, counted, enumerated_octets, fixed_signed_octets, length_octets, object_id_octets, subidentifier_octets, tag_octets, upper_digits, unsigned_octets};
ghost use Rattle.oer_units.specs.Width.{octets_of_width};
ghost use Rattle.oer_model.specs.Bits.{spare_bits};
ghost use Rattle.oer_model.specs.Canonical.{bit_octets, integer_octets, string_octets};
ghost use Rattle.oer_model.specs.Constraints.{fixed, form_of};
ghost use Rattle.oer_values.specs.ShapeView.{type_of};
ghost use Rattle.oer_values.specs.ValueView.{value_of};
ghost use Rattle.oer_leaves.specs.Parts.{leaf_octets};
ghost use Rattle.oer_leaves.specs.Wrote.{Wrote};

use crate::form::form_by;
use crate::short::{put_natural, put_short, short_len};
use crate::slice::{Nowhere, is_fixed, put_count, put_counted, put_slice, put_string, settle};
use oer_types::{Bits, Form, Shape, Size, Value};
use oer_units::{
    Sink, SinkFault, Tag, Width, enumerated_len, put_enumerated, put_signed_counted,
    put_subidentifier, put_tag, signed_counted_len, subidentifier_len, tag_len,
};

/// Writes a tag (X.696, 8.7).
pub fn put_tag_octets<W: Sink>(tag: Tag, done: u64, sink: &mut W) -> Result<u64, SinkFault>
    ensures { Wrote done (tag_octets tag) (W.contents sink.old) (W.failed sink.old) result (W.contents sink.new) (W.failed sink.new) }
{
    settle(done, tag_len(tag), put_tag(tag, sink))
}

/// How many octets the number of elements has.
pub fn quantity_len(count: usize) -> u64
    ensures { result ≡ length (counted (unsigned_octets count)) }
{
    short_len(count as u64)
}

/// Writes how many elements there are (X.696, 17.2).
pub fn put_quantity<W: Sink>(count: usize, done: u64, sink: &mut W) -> Result<u64, SinkFault>
    ensures { Wrote done (counted (unsigned_octets count)) (W.contents sink.old) (W.failed sink.old) result (W.contents sink.new) (W.failed sink.new) }
{
    put_short(count as u64, done, sink)
}

// Writes a BOOLEAN (X.696, 9).
pub(crate) fn put_boolean<W: Sink>(value: bool, done: u64, sink: &mut W) -> Result<u64, SinkFault>
    ensures { Wrote done ((if value then 255 else 0) ∷ []) (W.contents sink.old) (W.failed sink.old) result (W.contents sink.new) (W.failed sink.new) }
{
    put_slice(&[if value { 255 } else { 0 }], done, sink)
}

// Writes an ENUMERATED (X.696, 11).
pub(crate) fn put_item<W: Sink>(value: i64, done: u64, sink: &mut W) -> Result<u64, SinkFault>
    ensures { Wrote done (enumerated_octets value) (W.contents sink.old) (W.failed sink.old) result (W.contents sink.new) (W.failed sink.new) }
{
    settle(done, enumerated_len(value), put_enumerated(value, sink))
}

// Writes the lowest octets of a number in two's complement.
fn put_low<W: Sink>(value: i128, count: usize, done: u64, sink: &mut W) -> Result<u64, SinkFault>
    requires { count ≤ 8 }
    ensures { Wrote done (big_endian count (cast_unsigned w128 value)) (W.contents sink.old) (W.failed sink.old) result (W.contents sink.new) (W.failed sink.new) }
{
    let low = (value.cast_unsigned() % (1 << 64)) as u64;
    put_slice(&low.to_be_bytes()[8 - count..], done, sink)
}

// Writes a number in the octets of the width (X.696, 10.3 and 10.4).
fn put_fixed<W: Sink>(value: i128, width: Width, done: u64, sink: &mut W) -> Result<u64, SinkFault>
    ensures { Wrote done (fixed_signed_octets (octets_of_width width) value) (W.contents sink.old) (W.failed sink.old) result (W.contents sink.new) (W.failed sink.new) }
{
    match width {
        Width::One => put_low(value.max(-256), 1, done, sink),
        Width::Two => put_low(value.max(-65536), 2, done, sink),
        Width::Four => put_low(value.max(-4294967296), 4, done, sink),
        Width::Eight => put_low(value.max(-18446744073709551616), 8, done, sink),
    }
}

// Writes an INTEGER by its bounds (X.696, 10).
pub(crate) fn put_integer<W: Sink>(
    low: Option<i128>,
    high: Option<i128>,
    value: i128,
    done: u64,
    sink: &mut W,
) -> Result<u64, SinkFault>
    ensures { Wrote done (integer_octets (form_of low high) value) (W.contents sink.old) (W.failed sink.old) result (W.contents sink.new) (W.failed sink.new) }
{
    match form_by(low, high) {
        Form::UnsignedFixed(width) if value >= 0 => put_fixed(value, width, done, sink),
        Form::SignedFixed(width) => put_fixed(value, width, done, sink),
        Form::UnsignedCounted if value >= 0 => put_natural(value, done, sink),
        Form::SignedCounted => {
            settle(
                done,
                signed_counted_len(value),
                put_signed_counted(value, sink),
            )
        }
        _ => Ok(done),
    }
}

// How many bits of the last octet aren't used, of so many bits.
pub(crate) fn unused_bits(count: u128) -> u8
    ensures { result ≡ spare_bits count }
{
    ((8 - count % 8) % 8) as u8
}

// Writes the length of the contents of a BIT STRING, and how many bits of the last octet aren't used
// (X.696, 13.3).
pub(crate) fn put_bits_head<W: Sink>(
    length: u64,
    unused: u8,
    done: u64,
    sink: &mut W,
) -> Result<u64, SinkFault>
    ensures { Wrote done (length_octets length ++ unused ∷ []) (W.contents sink.old) (W.failed sink.old) result (W.contents sink.new) (W.failed sink.new) }
{
    let done = put_count(length, done, sink)?;
    put_slice(&[unused], done, sink)
}

// Writes a BIT STRING (X.696, 13).
pub(crate) fn put_bits<W: Sink>(
    size: Size,
    bits: &Bits,
    done: u64,
    sink: &mut W,
) -> Result<u64, SinkFault>
    ensures { Wrote done (bit_octets (fixed size) bits.now) (W.contents sink.old) (W.failed sink.old) result (W.contents sink.new) (W.failed sink.new) }
{
    let octets = bits.octets();
    if is_fixed(size) {
        return put_slice(octets, done, sink);
    }
    let unused = unused_bits(bits.count() as u128);
    let done = put_bits_head(octets.len() as u64 + 1, unused, done, sink)?;
    put_slice(octets, done, sink)
}

// Writes the digits of `n` in base 128 before the last octet of the buffer, 128 added to each. It
// answers where they begin.
fn fill_upper(n: u128, buffer: &mut [u8; 20]) -> usize
    ensures most { result ≤ 19 }
    ensures digits { drop result buffer.new ≡ upper_digits n n ++ drop 19 buffer.old }
{
    let mut at = 19;
    let mut rest = n;
    while rest > 0 {
        at -= 1;
        buffer[at] = 128 + (rest % 128) as u8;
        rest /= 128;
    }
    at
}

// Writes the subidentifier of the first two arcs (X.690, 8.19.4).
fn put_first<W: Sink>(first: u128, second: u128, done: u64, sink: &mut W) -> Result<u64, SinkFault>
    ensures { Wrote done (base128_octets (40 * first + second)) (W.contents sink.old) (W.failed sink.old) result (W.contents sink.new) (W.failed sink.new) }
{
    let low = 40 * (first % 128) + second % 128;
    let rest = 40 * (first / 128) + second / 128 + low / 128;
    let mut buffer = [0u8; 20];
    buffer[19] = (low % 128) as u8;
    let from = fill_upper(rest, &mut buffer);
    put_slice(&buffer[from..], done, sink)
}

// Writes a subidentifier (X.690, 8.19.2).
fn put_arc<W: Sink>(arc: u128, done: u64, sink: &mut W) -> Result<u64, SinkFault>
    ensures { Wrote done (base128_octets arc) (W.contents sink.old) (W.failed sink.old) result (W.contents sink.new) (W.failed sink.new) }
{
    settle(done, subidentifier_len(arc), put_subidentifier(arc, sink))
}

// Writes subidentifiers, one after another.
fn put_arcs<W: Sink>(arcs: &[u128], done: u64, sink: &mut W) -> Result<u64, SinkFault>
    ensures { Wrote done (subidentifier_octets arcs.now) (W.contents sink.old) (W.failed sink.old) result (W.contents sink.new) (W.failed sink.new) }
{
    let mut done = done;
    for arc in arcs {
        done = put_arc(*arc, done, sink)?;
    }
    Ok(done)
}

// Writes the contents of an OBJECT IDENTIFIER.
fn put_all_arcs<W: Sink>(arcs: &[u128], done: u64, sink: &mut W) -> Result<u64, SinkFault>
    ensures { Wrote done (object_id_octets arcs.now) (W.contents sink.old) (W.failed sink.old) result (W.contents sink.new) (W.failed sink.new) }
{
    let Some((first, later)) = arcs.split_first() else {
        return Ok(done);
    };
    let Some((second, rest)) = later.split_first() else {
        return Ok(done);
    };
    let done = put_first(*first, *second, done, sink)?;
    put_arcs(rest, done, sink)
}

// Writes an OBJECT IDENTIFIER (X.696, 21).
pub(crate) fn put_object_id<W: Sink>(
    arcs: &[u128],
    done: u64,
    sink: &mut W,
) -> Result<u64, SinkFault>
    ensures { Wrote done (counted (object_id_octets arcs.now)) (W.contents sink.old) (W.failed sink.old) result (W.contents sink.new) (W.failed sink.new) }
{
    let length = put_all_arcs(arcs, 0, &mut Nowhere)?;
    let done = put_count(length, done, sink)?;
    put_all_arcs(arcs, done, sink)
}

// Writes an alternative that the type doesn't know (X.696, 20).
fn put_foreign<W: Sink>(tag: Tag, octets: &[u8], done: u64, sink: &mut W) -> Result<u64, SinkFault>
    ensures { Wrote done (tag_octets tag ++ counted octets.now) (W.contents sink.old) (W.failed sink.old) result (W.contents sink.new) (W.failed sink.new) }
{
    let done = put_tag_octets(tag, done, sink)?;
    put_counted(octets, done, sink)
}

/// Writes a value that holds no other.
#[tactic(auto, using(crate::proofs::Views::views))]
pub fn put_leaf<W: Sink>(
    shape: &Shape,
    value: &Value,
    done: u64,
    sink: &mut W,
) -> Result<u64, SinkFault>
    ensures { Wrote done (leaf_octets (type_of shape.now) (value_of value.now)) (W.contents sink.old) (W.failed sink.old) result (W.contents sink.new) (W.failed sink.new) }
{
    match (shape, value) {
        (Shape::Boolean, Value::Bool(value)) => put_boolean(*value, done, sink),
        (Shape::Integer { low, high }, Value::Int(value)) => {
            put_integer(*low, *high, *value, done, sink)
        }
        (Shape::Enumerated { .. }, Value::Enum(value)) => put_item(*value, done, sink),
        (Shape::BitString(size), Value::Bits(bits)) => put_bits(*size, bits, done, sink),
        (Shape::OctetString(size), Value::Octets(octets)) => put_string(*size, octets, done, sink),
        (Shape::ObjectId, Value::Oid(arcs)) => put_object_id(arcs, done, sink),
        (Shape::Ia5(size), Value::Text(text)) => put_string(*size, text.as_bytes(), done, sink),
        (Shape::Visible(size), Value::Text(text)) => put_string(*size, text.as_bytes(), done, sink),
        (Shape::Numeric(size), Value::Text(text)) => put_string(*size, text.as_bytes(), done, sink),
        (Shape::Printable(size), Value::Text(text)) => put_string(
            *size,
            text.as_bytes(),
            done,
            sink,
        ),
        (Shape::Utf8(_), Value::Text(text)) => put_counted(text.as_bytes(), done, sink),
        (Shape::Choice { .. }, Value::Foreign { tag, octets }) => {
            put_foreign(*tag, octets, done, sink)
        }
        _ => Ok(done),
    }
}
