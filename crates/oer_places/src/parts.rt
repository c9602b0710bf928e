//! Some of the characters of a text.
ghost use Rattle.std.specs.Prelude.{◌≡◌, ◌++◌, OnOk, string_bytes};
ghost use Rattle.oer_places.specs.Parts.{count_of, first_of, last_of};

use std::alloc::AllocError;

/// How many characters a text has.
pub fn count_of(text: &str) -> usize
    ensures { result ≡ count_of text.now }
{
    if text.is_ascii() {
        return text.len();
    }
    text.chars().count()
}

/// Appends the first characters of a text, so many. It fails where an allocation does.
pub fn push_first(text: &mut String, part: &str, count: usize) -> Result<(), AllocError>
    ensures { OnOk result (string_bytes text.new ≡ string_bytes text.old ++ first_of count part.now) }
{
    for character in part.chars().take(count) {
        text.push(character)?;
    }
    Ok(())
}

/// Appends the characters of a text but for the first, so many. It fails where an allocation does.
pub fn push_last(text: &mut String, part: &str, left: usize) -> Result<(), AllocError>
    ensures { OnOk result (string_bytes text.new ≡ string_bytes text.old ++ last_of left part.now) }
{
    for character in part.chars().skip(left) {
        text.push(character)?;
    }
    Ok(())
}
