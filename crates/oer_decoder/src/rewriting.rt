//! Rewriting an encoding as canonical octets.
ghost use Rattle.std.specs.Prelude.{◌≡◌, IfErr, IfOk, IsTrue};
ghost use Rattle.oer_decoder.specs.Memory.{NeedsNoMemory};
ghost use Rattle.oer_decoder.specs.Rewriting.{IsRefused, IsRewritten, KeepsCanonical, NotForMemory, ReadsAndWrites, RewritesWhatComes};
ghost use Rattle.oer_decoder.specs.Recoding.{RecodesFront, Rewrites};
ghost use Rattle.oer_model.specs.Constraints.{KeepsLimits};
ghost use Rattle.oer_model.specs.Fits.{DefaultsFit};
ghost use Rattle.oer_types.specs.Schema.{the_type};
ghost use Rattle.oer_values.specs.ShapeView.{type_of};

use crate::fault::RewriteFault;
use crate::front::read_counted;
use crate::octets::Octets;
use crate::recoding::recode_shape;
use oer_leaves::put_slice;
use oer_types::{Schema, Shape};
use oer_units::{ReadFault, Sink, Source, Window};
use oer_writer::{WriteFault, write};
use std::alloc::Global;

// Whether the type's values hold others.
#[tactic(auto, using(oer_values::proofs::Shapes::shapes))]
fn holds_others(shape: &Shape) -> bool
    ensures { IsTrue result → NeedsNoMemory (type_of shape.now) → ⊥ }
{
    matches!(
        shape,
        Shape::Sequence { .. } | Shape::SequenceOf { .. } | Shape::Choice { .. }
    )
}

// The canonical octets of the value at the front of the reader, and how many octets were taken.
fn recode<R: Source>(
    shape: &Shape,
    alloc: Global,
    reader: &mut R,
    limit: u64,
) -> Result<(Vec<u8>, u64), ReadFault>
    requires limits { KeepsLimits (type_of shape.now) }
    requires defaults { DefaultsFit (type_of shape.now) }
    ensures loan { R.loan reader.new ≡ R.loan reader.old }
    ensures recodes { RecodesFront (type_of shape.now) limit (R.remaining reader.old) (R.failed reader.old) result
        (R.remaining reader.new) (R.failed reader.new) }
{
    let mut w = Window::new(reader, limit);
    let mut octets = Octets::new(alloc);
    match recode_shape(shape, alloc, &mut octets, &mut w) {
        Ok(()) => Ok((octets.into_vec(), w.taken())),
        Err(stop) => Err(w.fault(stop.why)),
    }
}

// Rewrites a value that holds others: by its parts, so that memory grows with the octets alone.
fn rewrite_parts<R: Source, W: Sink>(
    alloc: Global,
    schema: &Schema,
    reader: &mut R,
    limit: u64,
    sink: &mut W,
) -> Result<(u64, u64), RewriteFault>
    ensures loan { R.loan reader.new ≡ R.loan reader.old }
    ensures rewrites { Rewrites (the_type schema.now) limit (R.remaining reader.old) (R.failed reader.old) (R.remaining reader.new)
        (R.failed reader.new) (W.contents sink.old) (W.failed sink.old) result (W.contents sink.new) (W.failed sink.new) }
{
    let (octets, taken) = match recode(schema.shape(), alloc, reader, limit) {
        Ok(recoded) => recoded,
        Err(fault) => return Err(RewriteFault::Read(fault)),
    };
    match put_slice(&octets, 0, sink) {
        Ok(written) => Ok((taken, written)),
        Err(fault) => Err(RewriteFault::Write(WriteFault::Device {
            written: fault.written,
        })),
    }
}

// Rewrites a value that holds no other, by way of the value.
fn rewrite_value<R: Source, W: Sink>(
    alloc: Global,
    schema: &Schema,
    reader: &mut R,
    limit: u64,
    sink: &mut W,
) -> Result<(u64, u64), RewriteFault>
    ensures memory { NeedsNoMemory (the_type schema.now) → IfErr result NotForMemory }
    ensures loan { R.loan reader.new ≡ R.loan reader.old }
    ensures rewrites { Rewrites (the_type schema.now) limit (R.remaining reader.old) (R.failed reader.old) (R.remaining reader.new)
        (R.failed reader.new) (W.contents sink.old) (W.failed sink.old) result (W.contents sink.new) (W.failed sink.new) }
{
    let (value, taken) = match read_counted(schema.shape(), alloc, reader, limit) {
        Ok(counted) => counted,
        Err(fault) => return Err(RewriteFault::Read(fault)),
    };
    match write(schema, &value, sink) {
        Ok(written) => Ok((taken, written)),
        Err(fault) => Err(RewriteFault::Write(fault)),
    }
}

/// Reads the value of the type whose Basic-OER encoding (X.696) comes next, of at most `limit` octets,
/// and appends its Canonical-OER encoding to the sink: how many octets were taken, and how many were
/// written. Canonical octets are written as they were read. It takes exactly the octets of the
/// encoding, and what follows is left unread. Nothing is flushed. Until the encoding is read its
/// canonical octets are held, and no value of a type that holds others: parts that the type has and that
/// aren't there take no memory. It fails with
///
/// - `Read`, with the error of [`read`](crate::read): nothing was written;
/// - `Write`, with the error of [`write`](oer_writer::write): the value was read.
pub fn rewrite<R: Source, W: Sink>(
    alloc: Global,
    schema: &Schema,
    reader: &mut R,
    limit: u64,
    sink: &mut W,
) -> Result<(u64, u64), RewriteFault>
    // An encoding of a value was taken, and that value's canonical octets were appended.
    ensures rewritten { IfOk result (λ done. IsRewritten (the_type schema.now) limit (R.remaining reader.old) (R.remaining reader.new)
        (W.contents sink.old) (W.contents sink.new) done) }
    // What a refusal says, and what it leaves.
    ensures refused { IfErr result (λ fault. IsRefused (the_type schema.now) limit (R.remaining reader.old) (R.remaining reader.new)
        (W.contents sink.old) fault (W.contents sink.new)) }
    // An encoding that comes next, within the limit, is rewritten.
    ensures comes { RewritesWhatComes (the_type schema.now) limit (R.remaining reader.old) (R.remaining reader.new)
        (W.contents sink.old) (W.contents sink.new) result }
    // Canonical octets are left as they are.
    ensures stays { KeepsCanonical (the_type schema.now) (R.remaining reader.old) (R.remaining reader.new)
        (W.contents sink.old) (W.contents sink.new) result }
    // Values without parts and texts are rewritten without memory.
    ensures memory { NeedsNoMemory (the_type schema.now) → IfErr result NotForMemory }
    // A reader that borrows what it reads from has the same loan as before.
    ensures loan { R.loan reader.new ≡ R.loan reader.old }
    // Which refusal it is, where, and that a count of failures rises exactly at Device.
    ensures exact { ReadsAndWrites (the_type schema.now) limit (R.remaining reader.old) (R.failed reader.old)
        (R.remaining reader.new) (R.failed reader.new) (W.contents sink.old) (W.failed sink.old) result (W.contents sink.new) (W.failed sink.new) }
{
    if holds_others(schema.shape()) {
        rewrite_parts(alloc, schema, reader, limit, sink)
    } else {
        rewrite_value(alloc, schema, reader, limit, sink)
    }
}
