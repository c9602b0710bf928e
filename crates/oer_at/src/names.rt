//! The names of a text.
ghost use Rattle.std.specs.Prelude.{◌≡◌, IfOk, map};
ghost use Rattle.oer_at.specs.Names.{is_word, names_in, text_behind};

use std::alloc::{AllocError, Global};

/// The names in the text, which stand with a point between each and the next. An empty text is one empty name.
pub fn names_in(alloc: Global, text: &str) -> Result<Vec<&str>, AllocError>
    ensures { IfOk result (λ names. map text_behind names.items ≡ names_in text.entry.now) }
{
    let mut names = Vec::new(alloc);
    let mut rest = text;
    while let Some((front, more)) = rest.split_once('.') {
        names.push(front)?;
        rest = more;
    }
    names.push(rest)?;
    Ok(names)
}

/// Whether the text has letters, digits and hyphens only, and one at least, as an identifier and the number of an element have.
pub fn is_word(text: &str) -> bool
    ensures { result ≡ is_word text.now }
{
    for c in text.as_bytes() {
        if !matches!(*c, b'a'..=b'z' | b'A'..=b'Z' | b'0'..=b'9' | b'-') {
            return false;
        }
    }
    !text.is_empty()
}
