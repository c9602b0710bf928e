//! A place of a text, with its line and a sentence.
ghost use Rattle.std.specs.Prelude.{◌≡◌, ◌≤◌, IfOk, length, string_bytes};
ghost use Rattle.oer_explain.specs.Place.{notes_at, place_line};

use oer_places::{Place, place_of, quote};
use std::alloc::{AllocError, Global};

// The line that tells the place.
fn place_line(alloc: Global, place: Place) -> Result<String, AllocError>
    ensures { IfOk result (λ line. string_bytes line ≡ place_line place) }
{
    let Place { line, column } = place;
    format!(in alloc; "  line {line}, column {column}:\n")
}

/// The place, the line of it with a mark, a sentence on it, and a hint that may be empty. It fails where an allocation does.
pub fn notes_at(
    alloc: Global,
    text: &[u8],
    at: usize,
    sentence: &str,
    hint: &str,
) -> Result<String, AllocError>
    requires { at ≤ length text.now }
    ensures { IfOk result (λ notes. string_bytes notes ≡ notes_at text.now at sentence.now hint.now) }
{
    let (front, rest) = text.split_at(at);
    let place = place_line(alloc, place_of(alloc, front)?)?;
    let quoted = quote(alloc, front, rest)?;
    format!(in alloc; "{place}{quoted}  {sentence}\n{hint}")
}
