//! BOOLEAN, INTEGER and ENUMERATED, and the number of elements of a SEQUENCE OF.
ghost use Rattle.std.specs.Prelude.{◌≡◌, ◌||◌, eqb, map};
ghost use Rattle.oer_units.specs.Reader.{give, guard};
ghost use Rattle.oer_units.specs.declared.fault.Why.TheVariants.{IntegerRange};
ghost use Rattle.oer_model.specs.AsnType.{boolean, enumerated as enumerated_type, integer as integer_type};
ghost use Rattle.oer_model.specs.Checking.{check_value};
ghost use Rattle.oer_model.specs.Constraints.{has_number, in_range};
ghost use Rattle.oer_values.specs.ShapeView.{named_number};
ghost use Rattle.oer_checker.specs.Places.{counted_as, outcome, place_of, same};
ghost use Rattle.oer_checker.specs.Steps.{sized_quantity};

use crate::cursor::Cursor;
use crate::lengths::{Counted, is_of_length};
use crate::stop::Stop;
use crate::units::{
    enumerated_at, octet_at, signed_counted_at, signed_fixed_at, unsigned_counted_at,
    unsigned_fixed_at,
};
use oer_types::{Form, Item, Size, contains_number, is_in_range};
use oer_units::{Why, enumerated_len, signed_counted_len, unsigned_counted_len};

/// A BOOLEAN (X.696, 9): `00`, or canonically `ff`.
pub(crate) fn check_boolean(at: &mut Cursor) -> Result<bool, Stop>
    ensures { outcome same result at.new ≡ check_value boolean (place_of at.old) }
{
    let octet = octet_at(at)?;
    Ok(is_least_boolean(octet))
}

// Whether an octet is that of a canonical BOOLEAN.
fn is_least_boolean(octet: u8) -> bool
    ensures { result ≡ (eqb octet 0 || eqb octet 255) }
{
    octet == 0 || octet == 255
}

/// An INTEGER within the bounds (X.696, 10), in the form that they choose.
pub(crate) fn check_integer(
    low: Option<i128>,
    high: Option<i128>,
    at: &mut Cursor,
) -> Result<bool, Stop>
    ensures { outcome same result at.new ≡ check_value (integer_type low high) (place_of at.old) }
{
    match Form::of_bounds(low, high) {
        Form::UnsignedFixed(width) => {
            let number = unsigned_fixed_at(at, width)?;
            in_bounds(low, high, i128::from(number), true, at)
        }
        Form::SignedFixed(width) => {
            let number = signed_fixed_at(at, width)?;
            in_bounds(low, high, i128::from(number), true, at)
        }
        Form::UnsignedCounted => {
            let start = *at;
            let number = unsigned_counted_at(at)?;
            let is_least = is_of_length(start, *at, unsigned_counted_len(number));
            in_bounds(low, high, number, is_least, at)
        }
        Form::SignedCounted => {
            let start = *at;
            let number = signed_counted_at(at)?;
            let is_least = is_of_length(start, *at, signed_counted_len(number));
            in_bounds(low, high, number, is_least, at)
        }
    }
}

// What a number that was read answers, which has to be within the bounds.
fn in_bounds(
    low: Option<i128>,
    high: Option<i128>,
    number: i128,
    is_least: bool,
    at: &Cursor,
) -> Result<bool, Stop>
    ensures { outcome same result at.now ≡ guard (in_range low high number) IntegerRange (give is_least) (place_of at.now) }
{
    if !is_in_range(low, high, number) {
        return Err(Stop {
            why: Why::IntegerRange,
        });
    }
    Ok(is_least)
}

/// An ENUMERATED (X.696, 11): the number of an item, or any where the type is extensible.
pub(crate) fn check_enumerated(
    items: &[Item],
    extensible: bool,
    at: &mut Cursor,
) -> Result<bool, Stop>
    ensures { outcome same result at.new ≡ check_value (enumerated_type (map named_number items.now) extensible) (place_of at.old) }
{
    let start = *at;
    let number = enumerated_at(at)?;
    if !is_known(items, extensible, number) {
        return Err(Stop {
            why: Why::UnknownEnum,
        });
    }
    Ok(is_of_length(start, *at, enumerated_len(number)))
}

fn is_known(items: &[Item], extensible: bool, number: i64) -> bool
    ensures { result ≡ (extensible || has_number (map named_number items.now) number) }
{
    extensible || contains_number(items, number)
}

/// How many elements follow (X.696, 17): a quantity that is not above what is left, and that the
/// size allows; and whether it is in its least form.
pub fn sized_quantity_at(size: Size, at: &mut Cursor) -> Result<Counted, Stop>
    ensures { outcome counted_as result at.new ≡ sized_quantity size (place_of at.old) }
{
    let start = *at;
    let quantity = unsigned_counted_at(at)?;
    let is_least = is_of_length(start, *at, unsigned_counted_len(quantity));
    let count = quantity.unsigned_abs();
    if count > u128::from(at.left) {
        return Err(Stop { why: Why::Limit });
    }
    if !size.allows(count) {
        return Err(Stop { why: Why::Size });
    }
    Ok(Counted {
        count: count as u64,
        is_least,
    })
}
