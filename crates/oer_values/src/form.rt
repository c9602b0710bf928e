//! How the bounds of an INTEGER choose its encoding.
ghost use Rattle.std.specs.Prelude.{◌≡◌, ◌&&◌};
ghost use Rattle.oer_model.specs.Constraints.{low_from, high_to, form_of, unsigned_form, signed_form};
ghost use Rattle.oer_values.specs.FormView.{form_seen};

use oer_units::Width;

/// How an INTEGER is encoded (X.696, 10.2 to 10.4): in a fixed number of octets or after a length,
/// unsigned or in two's complement.
#[derive(Clone, Copy, Debug, PartialEq, Eq)]
pub enum Form {
    UnsignedFixed(Width),
    SignedFixed(Width),
    UnsignedCounted,
    SignedCounted,
}

// Whether there is a lower bound, and it is `least` or above.
fn is_from(least: i128, low: Option<i128>) -> bool
    ensures { result ≡ low_from least low }
{
    match low {
        Some(low) => least <= low,
        None => false,
    }
}

// Whether there is an upper bound, and it is `most` or below.
fn is_to(most: i128, high: Option<i128>) -> bool
    ensures { result ≡ high_to most high }
{
    match high {
        Some(high) => high <= most,
        None => false,
    }
}

// Whether both bounds are there, and within these.
fn is_within(least: i128, most: i128, low: Option<i128>, high: Option<i128>) -> bool
    ensures { result ≡ (low_from least low && high_to most high) }
{
    is_from(least, low) && is_to(most, high)
}

// The form of numbers from 0 on.
fn unsigned_form(high: Option<i128>) -> Form
    ensures { form_seen result ≡ unsigned_form high }
{
    if is_to(255, high) {
        Form::UnsignedFixed(Width::One)
    } else if is_to(65535, high) {
        Form::UnsignedFixed(Width::Two)
    } else if is_to(4294967295, high) {
        Form::UnsignedFixed(Width::Four)
    } else if is_to(18446744073709551615, high) {
        Form::UnsignedFixed(Width::Eight)
    } else {
        Form::UnsignedCounted
    }
}

// The form of numbers that may be negative.
fn signed_form(low: Option<i128>, high: Option<i128>) -> Form
    ensures { form_seen result ≡ signed_form low high }
{
    if is_within(-128, 127, low, high) {
        Form::SignedFixed(Width::One)
    } else if is_within(-32768, 32767, low, high) {
        Form::SignedFixed(Width::Two)
    } else if is_within(-2147483648, 2147483647, low, high) {
        Form::SignedFixed(Width::Four)
    } else if is_within(-9223372036854775808, 9223372036854775807, low, high) {
        Form::SignedFixed(Width::Eight)
    } else {
        Form::SignedCounted
    }
}

impl Form {
    /// The form of an INTEGER with these bounds; an absent one is `MIN` or `MAX`.
    pub fn of_bounds(low: Option<i128>, high: Option<i128>) -> Form
        ensures { form_seen result ≡ form_of low high }
    {
        if is_from(0, low) {
            unsigned_form(high)
        } else {
            signed_form(low, high)
        }
    }
}
