//! Numbers of elements.
ghost use Rattle.std.specs.Prelude.{◌≡◌};
ghost use Rattle.oer_at.specs.Names.{element_of, is_led};

use oer_literals::size_of;

// Whether a plus is first, or a zero before other digits.
fn is_led(digits: &[u8]) -> bool
    ensures { result ≡ is_led digits.now }
{
    match digits {
        [first, _, ..] => *first == b'+' || *first == b'0',
        [first] => *first == b'+',
        [] => false,
    }
}

/// The number that the name is in decimal digits without leading zeros, below 2^64.
pub fn element_of(name: &str) -> Option<usize>
    ensures { result ≡ element_of name.now }
{
    if is_led(name.as_bytes()) {
        return None;
    }
    match size_of(name) {
        Some(number) => Some(number as usize),
        None => None,
    }
}
