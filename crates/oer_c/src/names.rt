//! The text of names.
ghost use Rattle.std.specs.Prelude.{◌≡◌, map};
ghost use Rattle.oer_at.specs.Names.{text_behind};
ghost use Rattle.oer_c.specs.Found.{AreNames};
ghost use Rattle.oer_c.specs.Parts.{are_words};

use crate::status::{MEMORY, NO_PATH};
use oer_at::{is_word, names_in};
use std::alloc::Global;

// Whether each name has letters, digits and hyphens only, and one at least.
fn are_words(names: &[&str]) -> bool
    ensures { result ≡ are_words (map text_behind names.now) }
{
    for name in names {
        if !is_word(name) {
            return false;
        }
    }
    true
}

/// The names in the text, or the status of a call that can't read them.
pub(crate) fn names_of(alloc: Global, text: &[u8]) -> Result<Vec<&str>, u32>
    ensures { AreNames text.now result }
{
    let Ok(text) = std::str::from_utf8(text) else {
        return Err(NO_PATH);
    };
    let Ok(names) = names_in(alloc, text) else {
        return Err(MEMORY);
    };
    if !are_words(&names) {
        return Err(NO_PATH);
    }
    Ok(names)
}
