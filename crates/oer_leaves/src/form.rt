//! The form of an INTEGER. Bounds of 64 bits are compared as such, which takes half the time.
ghost use Rattle.std.specs.Prelude.{◌≡◌, ◌&&◌, Some, int_le};
ghost use Rattle.oer_model.specs.Constraints.{form_of, signed_form, unsigned_form};
ghost use Rattle.oer_values.specs.FormView.{form_seen};

use oer_types::Form;
use oer_units::Width;

// Whether a bound is so much at most.
fn is_to(most: i64, high: i64) -> bool
    ensures { result ≡ int_le high most }
{
    high <= most
}

// Whether a bound is so much at least.
fn is_from(least: i64, low: i64) -> bool
    ensures { result ≡ int_le least low }
{
    least <= low
}

// Whether both bounds are within these.
fn is_within(least: i64, most: i64, low: i64, high: i64) -> bool
    ensures { result ≡ (int_le least low && int_le high most) }
{
    is_from(least, low) && is_to(most, high)
}

// Of numbers from 0 on.
fn short_unsigned_form(high: i64) -> Form
    ensures { form_seen result ≡ unsigned_form (Some high) }
{
    if is_to(255, high) {
        Form::UnsignedFixed(Width::One)
    } else if is_to(65535, high) {
        Form::UnsignedFixed(Width::Two)
    } else if is_to(4294967295, high) {
        Form::UnsignedFixed(Width::Four)
    } else {
        Form::UnsignedFixed(Width::Eight)
    }
}

// Of numbers that may be negative.
fn short_signed_form(low: i64, high: i64) -> Form
    ensures { form_seen result ≡ signed_form (Some low) (Some high) }
{
    if is_within(-128, 127, low, high) {
        Form::SignedFixed(Width::One)
    } else if is_within(-32768, 32767, low, high) {
        Form::SignedFixed(Width::Two)
    } else if is_within(-2147483648, 2147483647, low, high) {
        Form::SignedFixed(Width::Four)
    } else {
        Form::SignedFixed(Width::Eight)
    }
}

// By two bounds of 64 bits.
#[inline(always)]
fn short_form(low: i64, high: i64) -> Form
    ensures { form_seen result ≡ form_of (Some low) (Some high) }
{
    if is_from(0, low) {
        short_unsigned_form(high)
    } else {
        short_signed_form(low, high)
    }
}

// By two bounds.
#[inline(always)]
fn bounded_form(low: i128, high: i128) -> Form
    ensures { form_seen result ≡ form_of (Some low) (Some high) }
{
    match (i64::try_from(low), i64::try_from(high)) {
        (Ok(low), Ok(high)) => short_form(low, high),
        _ => Form::of_bounds(Some(low), Some(high)),
    }
}

// By the bounds that are there.
#[inline(always)]
pub(crate) fn form_by(low: Option<i128>, high: Option<i128>) -> Form
    ensures { form_seen result ≡ form_of low high }
{
    match (low, high) {
        (Some(low), Some(high)) => bounded_form(low, high),
        (low, None) => Form::of_bounds(low, None),
        (None, high) => Form::of_bounds(None, high),
    }
}
