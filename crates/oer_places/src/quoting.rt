//! The line of a place, as it is printed.
ghost use Rattle.std.specs.Prelude.{◌≡◌, ◌++◌, IfOk, OnOk, string_bytes};
ghost use Rattle.oer_places.specs.Parts.{count_of};
ghost use Rattle.oer_places.specs.Place.{first_line, last_line};
ghost use Rattle.oer_places.specs.Quoting.{front_shown, if_text, mark_of, quoted, rest_shown, spaces};

use crate::parts::{count_of, push_first, push_last};
use crate::place::{first_line, last_line};
use crate::visible::visible_text;
use std::alloc::{AllocError, Global};

// How many characters of a line are printed before a place, and from it on.
const MOST_SHOWN: usize = 40;

// The mark of what is left out, where a text has more characters.
fn mark_of(text: &str) -> &'static str
    ensures { result.now ≡ mark_of text.now }
{
    if count_of(text) > MOST_SHOWN {
        return "..";
    }
    ""
}

// What stands in the line before a place.
fn front_shown(alloc: Global, text: &str) -> Result<String, AllocError>
    ensures { IfOk result (λ shown. string_bytes shown ≡ front_shown text.now) }
{
    let mut last = String::new(alloc);
    push_last(&mut last, text, count_of(text).saturating_sub(MOST_SHOWN))?;
    let last = visible_text(alloc, last)?;
    let mut shown = String::from_str(alloc, mark_of(text))?;
    shown.push_str(last.as_str())?;
    Ok(shown)
}

// What stands there from the place on.
fn rest_shown(alloc: Global, text: &str) -> Result<String, AllocError>
    ensures { IfOk result (λ shown. string_bytes shown ≡ rest_shown text.now) }
{
    let mut first = String::new(alloc);
    push_first(&mut first, text, MOST_SHOWN)?;
    let mut shown = visible_text(alloc, first)?;
    shown.push_str(mark_of(text))?;
    Ok(shown)
}

// The line up to the place behind this front of a text.
fn before(alloc: Global, front: &[u8]) -> Result<String, AllocError>
    ensures { IfOk result (λ shown. string_bytes shown ≡ if_text (last_line front.now) front_shown) }
{
    let line = last_line(alloc, front)?;
    match str::from_utf8(line.as_slice()) {
        Ok(text) => front_shown(alloc, text),
        Err(_) => String::from_str(alloc, ".."),
    }
}

// The line from the place on before this rest of a text.
fn behind(alloc: Global, rest: &[u8]) -> Result<String, AllocError>
    ensures { IfOk result (λ shown. string_bytes shown ≡ if_text (first_line rest.now) rest_shown) }
{
    let line = first_line(alloc, rest)?;
    match str::from_utf8(line.as_slice()) {
        Ok(text) => rest_shown(alloc, text),
        Err(_) => String::from_str(alloc, ".."),
    }
}

// Appends so many spaces.
fn push_spaces(text: &mut String, count: usize) -> Result<(), AllocError>
    ensures { OnOk result (string_bytes text.new ≡ string_bytes text.old ++ spaces count) }
{
    for _ in 0..count {
        text.push(' ')?;
    }
    Ok(())
}

/// The line between the front and the rest of a text, and below it a mark under the place between them. Characters that a terminal obeys are
/// spelt out, and of a long line the characters around the place are there. It fails where an allocation does.
pub fn quote(alloc: Global, front: &[u8], rest: &[u8]) -> Result<String, AllocError>
    ensures { IfOk result (λ text. string_bytes text ≡ quoted front.now rest.now) }
{
    let before = before(alloc, front)?;
    let behind = behind(alloc, rest)?;
    let mut text = String::from_str(alloc, "  ")?;
    text.push_str(before.as_str())?;
    text.push_str(behind.as_str())?;
    text.push_str("\n  ")?;
    push_spaces(&mut text, count_of(before.as_str()))?;
    text.push_str("^\n")?;
    Ok(text)
}
