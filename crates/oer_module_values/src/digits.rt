//! From digits to whole numbers.
ghost use Rattle.std.specs.Prelude.{◌≡◌};
ghost use Rattle.oer_module_values.specs.Digits.{below_zero, whole_of};

/// The magnitude of the least number of 128 bits.
const MAGNITUDE_OF_LEAST: u128 = 0x8000_0000_0000_0000_0000_0000_0000_0000;

/// The number of this magnitude that isn't positive, if it has 128 bits.
fn below_zero(magnitude: u128) -> Option<i128>
    ensures { result ≡ below_zero magnitude }
{
    if magnitude == MAGNITUDE_OF_LEAST {
        return Some(i128::MIN);
    }
    match i128::try_from(magnitude) {
        Ok(number) => Some(-number),
        Err(_) => None,
    }
}

/// The number that digits and a sign write, if it has 128 bits (X.680, 12.8 and 19.1). That of `-0` is 0.
pub fn whole_of(negative: bool, digits: &str) -> Option<i128>
    ensures { result ≡ whole_of negative digits.now }
{
    let Ok(magnitude) = digits.parse::<u128>() else {
        return None;
    };
    if negative {
        return below_zero(magnitude);
    }
    match i128::try_from(magnitude) {
        Ok(number) => Some(number),
        Err(_) => None,
    }
}
