//! Values without parts.
ghost use Rattle.std.specs.Prelude.{◌≡◌};
ghost use Rattle.oer_units.specs.Reads.{state};
ghost use Rattle.oer_model.specs.Reading.{read_value};
ghost use Rattle.oer_values.specs.ShapeView.{type_of};
ghost use Rattle.oer_values.specs.ValueView.{value_of};
ghost use Rattle.oer_decoder.specs.Memory.{NeedsNoMemory};
ghost use Rattle.oer_decoder.specs.Parts.{HasNoParts};
ghost use Rattle.oer_decoder.specs.Stops.{ReadsAs, StopsNotForMemory};

use crate::bit_strings::read_bit_string;
use crate::numbers::{read_boolean, read_enumerated, read_integer};
use crate::parts::set;
use crate::stop::Stop;
use crate::strings::{read_object_id, read_octet_string, read_text, read_utf8};
use oer_types::{Alphabet, Shape, Value};
use oer_units::{Source, Window};
use std::alloc::Global;

/// Reads a value of a type without parts into `value`.
pub(crate) fn read_leaf<R: Source>(
    shape: &Shape,
    alloc: Global,
    value: &mut Value,
    w: &mut Window<R>,
) -> Result<(), Stop>
    requires parts { HasNoParts (type_of shape.now) }
    requires empty { value.old ≡ Value.Null }
    ensures memory { NeedsNoMemory (type_of shape.now) → StopsNotForMemory result }
    ensures reads { ReadsAs (read_value (type_of shape.now)) (state R.loan R.remaining R.failed w.old) (λ _. value_of value.new) result
        (state R.loan R.remaining R.failed w.new) }
{
    match shape {
        Shape::Boolean => read_boolean(value, w),
        Shape::Null => {
            set(value, Value::Null);
            Ok(())
        }
        Shape::Integer { low, high } => read_integer(*low, *high, value, w),
        Shape::Enumerated { items, extensible } => read_enumerated(items, *extensible, value, w),
        Shape::BitString(size) => read_bit_string(alloc, size, value, w),
        Shape::OctetString(size) => read_octet_string(alloc, size, value, w),
        Shape::ObjectId => read_object_id(alloc, value, w),
        Shape::Ia5(size) => read_text(alloc, Alphabet::Ia5, size, value, w),
        Shape::Visible(size) => read_text(alloc, Alphabet::Visible, size, value, w),
        Shape::Numeric(size) => read_text(alloc, Alphabet::Numeric, size, value, w),
        Shape::Printable(size) => read_text(alloc, Alphabet::Printable, size, value, w),
        Shape::Utf8(size) => read_utf8(alloc, size, value, w),
        _ => unreachable!(),
    }
}
