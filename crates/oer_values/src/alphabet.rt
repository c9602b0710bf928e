//! The characters of the strings that have one octet for each character.
ghost use Rattle.std.specs.Prelude.{◌≡◌};
ghost use Rattle.oer_values.specs.AlphabetView.{alphabet_of};
ghost use Rattle.oer_model.specs.AsnType.{printable};
ghost use Rattle.oer_model.specs.Constraints.{all_characters, is_character};

/// The character strings that have one octet for each character.
#[derive(Clone, Copy, Debug, PartialEq, Eq)]
pub enum Alphabet {
    Ia5,
    Visible,
    Numeric,
    Printable,
}

/// Whether each octet is a character of such strings (X.680, 41).
pub fn are_characters(kind: Alphabet, octets: &[u8]) -> bool
    ensures { result ≡ all_characters (alphabet_of kind) octets.now }
{
    for octet in octets {
        if !is_in_alphabet(kind, *octet) {
            return false;
        }
    }
    true
}

fn is_in_alphabet(kind: Alphabet, octet: u8) -> bool
    ensures { result ≡ is_character (alphabet_of kind) octet }
{
    match kind {
        Alphabet::Ia5 => octet <= 127,
        Alphabet::Visible => 32 <= octet && octet <= 126,
        Alphabet::Numeric => 48 <= octet && octet <= 57 || octet == 32,
        Alphabet::Printable => is_printable(octet),
    }
}

// A letter, a digit, a space or one of ' ( ) + , - . / : = ? (X.680, 41.4).
fn is_printable(octet: u8) -> bool
    ensures { result ≡ is_character printable octet }
{
    matches!(octet, b'A'..=b'Z' | b'a'..=b'z' | b'0'..=b'9' | b' ' | b'\'' | b'(' | b')')
        || matches!(octet, b'+' | b',' | b'-' | b'.' | b'/' | b':' | b'=' | b'?')
}
