//! Lengths and octets of values.
ghost use Rattle.std.specs.Prelude.{◌≡◌, ◌↔◌, None, Err};
ghost use Rattle.oer_model.specs.Canonical.{canonical_octets};
ghost use Rattle.oer_model.specs.Fits.{Fits};
ghost use Rattle.oer_types.specs.Schema.{the_type};
ghost use Rattle.oer_values.specs.ValueView.{value_of};
ghost use Rattle.oer_writer.specs.Write.{Counts, IsTooLong, TellsFailure, TellsLength, Writes, WritesAll, WritesCanonical};
ghost use Rattle.oer_writer.specs.declared.fault.WriteFault.TheVariants.{TooLong};

use crate::fault::WriteFault;
use crate::whole::{count, put_all};
use oer_types::{Schema, Value, laws};
use oer_units::Sink;

/// How many canonical octets (X.696, Canonical-OER) a value that fits the type has. None exactly
/// where there are none of fewer than 2^64. It allocates nothing.
pub fn length(schema: &Schema, value: &Value) -> Option<u64>
    requires { Fits (the_type schema.now) (value_of value.now) }
    ensures computed { Counts (canonical_octets (the_type schema.now) (value_of value.now)) result }
    ensures canonical { TellsLength (the_type schema.now) (value_of value.now) result }
    ensures too_long { (result ≡ None) ↔ IsTooLong (the_type schema.now) (value_of value.now) }
{
    laws::computed_octets();
    count(schema.shape(), value)
}

/// Writes the canonical octets (X.696, Canonical-OER) of a value that fits the type, straight to the
/// sink, and returns how many they are. It allocates nothing, writes nothing of a value that is too long,
/// and flushes nothing. A value of at most 512 octets goes to the sink in one push, if the sink takes
/// all of them; a longer one part by part.
///
/// `TooLong` comes exactly where `length` is None: nothing is written then. `Device` comes where a
/// call of the sink fails, and elsewhere only where the sink's count of failures stands at
/// `u64::MAX`: the sink holds then what it held and the first `written` of the octets.
pub fn write<W: Sink>(schema: &Schema, value: &Value, w: &mut W) -> Result<u64, WriteFault>
    requires { Fits (the_type schema.now) (value_of value.now) }
    ensures computed { Writes (canonical_octets (the_type schema.now) (value_of value.now)) (W.contents w.old) (W.failed w.old) result (W.contents w.new) (W.failed w.new) }
    ensures canonical { WritesCanonical (the_type schema.now) (value_of value.now) (W.contents w.old) result (W.contents w.new) }
    ensures too_long { (result ≡ Err TooLong) ↔ IsTooLong (the_type schema.now) (value_of value.now) }
    ensures device { TellsFailure (W.failed w.old) result (W.failed w.new) }
    ensures complete { WritesAll (the_type schema.now) (value_of value.now) (W.failed w.old) result (W.failed w.new) }
{
    laws::computed_octets();
    put_all(schema.shape(), value, w)
}
