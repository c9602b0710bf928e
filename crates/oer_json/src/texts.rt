//! What is read of texts.
ghost use Rattle.std.specs.Prelude.{◌≡◌};
ghost use Rattle.std.specs.Str.{all_ascii_digits};
ghost use Rattle.oer_json.specs.Texts.{are_bits, is_natural, is_positive, is_whole};

fn are_digits(bytes: &[u8]) -> bool
    ensures { result ≡ all_ascii_digits bytes.now }
{
    for byte in bytes {
        if !byte.is_ascii_digit() {
            return false;
        }
    }
    true
}

/// Whether these are decimal digits, of which the first is 0 only where it stands alone.
#[tactic(auto, unfolding(crate::specs::Texts::is_natural))]
pub(crate) fn is_natural(bytes: &[u8]) -> bool
    ensures { result ≡ is_natural bytes.now }
{
    if bytes.is_empty() || !are_digits(bytes) {
        return false;
    }
    bytes.len() == 1 || bytes[0] != b'0'
}

#[tactic(auto, unfolding(crate::specs::Texts::is_positive))]
fn is_positive(bytes: &[u8]) -> bool
    ensures { result ≡ is_positive bytes.now }
{
    match bytes {
        [b'0', ..] => false,
        _ => is_natural(bytes),
    }
}

/// Whether this is a whole number in decimal.
#[tactic(auto, unfolding(crate::specs::Texts::is_whole))]
pub(crate) fn is_whole(bytes: &[u8]) -> bool
    ensures { result ≡ is_whole bytes.now }
{
    match bytes {
        [b'-', rest @ ..] => is_positive(rest),
        _ => is_natural(bytes),
    }
}

/// Whether each is a digit 0 or 1.
pub(crate) fn are_bits(bytes: &[u8]) -> bool
    ensures { result ≡ are_bits bytes.now }
{
    for byte in bytes {
        if *byte != b'0' && *byte != b'1' {
            return false;
        }
    }
    true
}
