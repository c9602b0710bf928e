//! BOOLEAN, INTEGER and ENUMERATED, which don't allocate.
ghost use Rattle.std.specs.Prelude.{◌≡◌, ◌||◌, map};
ghost use Rattle.oer_units.specs.Reads.{state};
ghost use Rattle.oer_model.specs.AsnValue.{bool as truth_value};
ghost use Rattle.oer_model.specs.AsnType.{boolean, enumerated as enumerated_type, integer as integer_type};
ghost use Rattle.oer_model.specs.Constraints.{has_number};
ghost use Rattle.oer_model.specs.Reading.{read_integer, read_value};
ghost use Rattle.oer_values.specs.ShapeView.{named_number};
ghost use Rattle.oer_values.specs.ValueView.{value_of};
ghost use Rattle.oer_model.specs.SharedSteps.{number_in};
ghost use Rattle.oer_values.specs.FormView.{form_seen};
ghost use Rattle.oer_decoder.specs.Stops.{ReadsAs, StopsNotForMemory, same};

use crate::parts::set;
use crate::stop::Stop;
use oer_types::{Form, Item, Value, contains_number, is_in_range};
use oer_units::{
    Source, Why, Window, enumerated, octet, signed_counted, signed_fixed, unsigned_counted,
    unsigned_fixed,
};

/// A BOOLEAN (X.696, 9): every octet but `00` is TRUE.
pub(crate) fn truth<R: Source>(w: &mut Window<R>) -> Result<bool, Stop>
    ensures memory { StopsNotForMemory result }
    ensures reads { ReadsAs (read_value boolean) (state R.loan R.remaining R.failed w.old) truth_value result
        (state R.loan R.remaining R.failed w.new) }
{
    let octet = octet(w)?;
    Ok(octet != 0)
}

/// Reads a BOOLEAN into `value`.
pub(crate) fn read_boolean<R: Source>(value: &mut Value, w: &mut Window<R>) -> Result<(), Stop>
    requires { value.old ≡ Value.Null }
    ensures memory { StopsNotForMemory result }
    ensures reads { ReadsAs (read_value boolean) (state R.loan R.remaining R.failed w.old) (λ _. value_of value.new) result
        (state R.loan R.remaining R.failed w.new) }
{
    let is_true = truth(w)?;
    set(value, Value::Bool(is_true));
    Ok(())
}

/// Reads an INTEGER within the bounds (X.696, 10) into `value`, in the form that they choose.
pub(crate) fn read_integer<R: Source>(
    low: Option<i128>,
    high: Option<i128>,
    value: &mut Value,
    w: &mut Window<R>,
) -> Result<(), Stop>
    requires { value.old ≡ Value.Null }
    ensures memory { StopsNotForMemory result }
    ensures reads { ReadsAs (read_value (integer_type low high)) (state R.loan R.remaining R.failed w.old)
        (λ _. value_of value.new) result (state R.loan R.remaining R.failed w.new) }
{
    let number = number(Form::of_bounds(low, high), w)?;
    if !is_in_range(low, high, number) {
        return Err(Stop {
            why: Why::IntegerRange,
        });
    }
    set(value, Value::Int(number));
    Ok(())
}

// A number of this form.
fn number<R: Source>(form: Form, w: &mut Window<R>) -> Result<i128, Stop>
    ensures memory { StopsNotForMemory result }
    ensures reads { ReadsAs (number_in (form_seen form)) (state R.loan R.remaining R.failed w.old) same result
        (state R.loan R.remaining R.failed w.new) }
{
    match form {
        Form::UnsignedFixed(width) => {
            let number = unsigned_fixed(w, width)?;
            Ok(i128::from(number))
        }
        Form::SignedFixed(width) => {
            let number = signed_fixed(w, width)?;
            Ok(i128::from(number))
        }
        Form::UnsignedCounted => Ok(unsigned_counted(w)?),
        Form::SignedCounted => Ok(signed_counted(w)?),
    }
}

/// Reads an ENUMERATED (X.696, 11) into `value`: the number of an item, or any where the type is
/// extensible.
pub(crate) fn read_enumerated<R: Source>(
    items: &[Item],
    extensible: bool,
    value: &mut Value,
    w: &mut Window<R>,
) -> Result<(), Stop>
    requires { value.old ≡ Value.Null }
    ensures memory { StopsNotForMemory result }
    ensures reads { ReadsAs (read_value (enumerated_type (map named_number items.now) extensible))
        (state R.loan R.remaining R.failed w.old) (λ _. value_of value.new) result (state R.loan R.remaining R.failed w.new) }
{
    let number = enumerated(w)?;
    if !is_known(items, extensible, number) {
        return Err(Stop {
            why: Why::UnknownEnum,
        });
    }
    set(value, Value::Enum(number));
    Ok(())
}

fn is_known(items: &[Item], extensible: bool, number: i64) -> bool
    ensures { result ≡ (extensible || has_number (map named_number items.now) number) }
{
    extensible || contains_number(items, number)
}
