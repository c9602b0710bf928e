//! Reading a value from the front of a reader.
ghost use Rattle.std.specs.Prelude.{◌≡◌, IfOk};
ghost use Rattle.oer_units.specs.Reads.{ReadsFront, TakesNoMemory, seen};
ghost use Rattle.oer_model.specs.Fits.{Fits};
ghost use Rattle.oer_model.specs.Reading.{read_value};
ghost use Rattle.oer_types.specs.Schema.{the_type};
ghost use Rattle.oer_values.specs.ShapeView.{type_of};
ghost use Rattle.oer_values.specs.ValueView.{value_of};
ghost use Rattle.oer_decoder.specs.Front.{IsTaken, ReadsAndCounts, ReadsWhatComes, Told, counted_of, value_in};
ghost use Rattle.oer_decoder.specs.Memory.{NeedsNoMemory};

use crate::value::read_shape;
use oer_types::{Schema, Shape, Value};
use oer_units::{ReadFault, Source, Window};
use std::alloc::Global;

/// Reads the value of the type whose Basic-OER encoding (X.696) comes next, of at most `limit` octets.
/// It takes exactly the octets of the encoding, and what follows is left unread; memory grows with the
/// octets that came. An error says how many octets were taken, and no others are gone:
///
/// - `Memory`: an allocation failed, never for BOOLEAN, NULL, INTEGER and ENUMERATED;
/// - `Device`: the reader failed;
/// - `End`: the reader gave no further octet, and all that it gave has no encoding at its front;
/// - `Limit`: no encoding of at most `limit` octets begins with what was taken;
/// - any other reason: no encoding begins with what was taken.
pub fn read<R: Source>(
    alloc: Global,
    schema: &Schema,
    reader: &mut R,
    limit: u64,
) -> Result<Value, ReadFault>
    // What was taken, at most as much as the limit, and what the answer says of it.
    ensures told { Told (the_type schema.now) limit (R.remaining reader.old) (R.remaining reader.new) (seen value_of result) }
    // An encoding that comes next, within the limit, is read.
    ensures comes { ReadsWhatComes (the_type schema.now) limit (R.remaining reader.old) (R.remaining reader.new) (seen value_of result) }
    // A value that is read fits the type, also where the reader doesn't tell its octets.
    ensures fits { IfOk result (λ value. Fits (the_type schema.now) (value_of value)) }
    // Values without parts and texts are read without memory.
    ensures memory { NeedsNoMemory (the_type schema.now) → TakesNoMemory result }
    // A reader that borrows what it reads from has the same loan as before.
    ensures loan { R.loan reader.new ≡ R.loan reader.old }
    // Which refusal it is, where, and that the count of failures rises exactly at Device.
    ensures exact { ReadsFront (read_value (the_type schema.now)) limit (R.remaining reader.old) (R.failed reader.old)
        (seen value_of result) (R.remaining reader.new) (R.failed reader.new) }
{
    let (value, _) = read_counted(schema.shape(), alloc, reader, limit)?;
    Ok(value)
}

/// Reads a value as [`read`] does, and returns how many octets its encoding has, too. It fails as
/// [`read`] does.
pub fn read_with_length<R: Source>(
    alloc: Global,
    schema: &Schema,
    reader: &mut R,
    limit: u64,
) -> Result<(Value, u64), ReadFault>
    // What was taken, at most as much as the limit, and what the answer says of it.
    ensures told { Told (the_type schema.now) limit (R.remaining reader.old) (R.remaining reader.new) (seen value_in result) }
    // An encoding that comes next, within the limit, is read.
    ensures comes { ReadsWhatComes (the_type schema.now) limit (R.remaining reader.old) (R.remaining reader.new) (seen value_in result) }
    // An encoding of the value was taken, of so many octets.
    ensures taken { IfOk result (λ read. IsTaken (the_type schema.now) limit (R.remaining reader.old) (R.remaining reader.new) (counted_of read)) }
    // A value that is read fits the type, also where the reader doesn't tell its octets.
    ensures fits { IfOk result (λ read. Fits (the_type schema.now) (value_in read)) }
    // Values without parts and texts are read without memory.
    ensures memory { NeedsNoMemory (the_type schema.now) → TakesNoMemory result }
    // A reader that borrows what it reads from has the same loan as before.
    ensures loan { R.loan reader.new ≡ R.loan reader.old }
    // Which refusal it is, where, and that the count of failures rises exactly at Device.
    ensures exact { ReadsAndCounts (read_value (the_type schema.now)) limit (R.remaining reader.old) (R.failed reader.old)
        (seen counted_of result) (R.remaining reader.new) (R.failed reader.new) }
{
    read_counted(schema.shape(), alloc, reader, limit)
}

// Reads a value, and returns how many octets were taken, too.
pub(crate) fn read_counted<R: Source>(
    shape: &Shape,
    alloc: Global,
    reader: &mut R,
    limit: u64,
) -> Result<(Value, u64), ReadFault>
    ensures memory { NeedsNoMemory (type_of shape.now) → TakesNoMemory result }
    ensures loan { R.loan reader.new ≡ R.loan reader.old }
    ensures reads { ReadsAndCounts (read_value (type_of shape.now)) limit (R.remaining reader.old) (R.failed reader.old)
        (seen counted_of result) (R.remaining reader.new) (R.failed reader.new) }
{
    let mut w = Window::new(reader, limit);
    let mut value = Value::Null;
    match read_shape(shape, alloc, &mut value, &mut w) {
        Ok(()) => Ok((value, w.taken())),
        Err(stop) => Err(w.fault(stop.why)),
    }
}
