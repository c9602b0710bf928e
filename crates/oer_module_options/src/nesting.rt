//! How often a type that contains itself is written out.
ghost use Rattle.std.specs.Prelude.{◌≡◌, ◌<◌};
ghost use Rattle.oer_module_options.specs.Nesting.{nesting_of, number_from};

// The number that these digits write, where it is 255 at most.
fn number_in(digits: &[u8]) -> Option<u8>
    ensures { result ≡ number_from 0 digits.now }
{
    let mut number: u8 = 0;
    for octet in digits {
        if !octet.is_ascii_digit() {
            return None;
        }
        let next = number as u16 * 10 + (*octet - 48) as u16;
        if next > 255 {
            return None;
        }
        number = next as u8;
    }
    Some(number)
}

/// A number from 1 to 255, in decimal digits.
pub fn nesting_of(text: &str) -> Option<u8>
    ensures { result ≡ nesting_of text.now }
{
    match number_in(text.as_bytes()) {
        Some(0) | None => None,
        Some(number) => Some(number),
    }
}
