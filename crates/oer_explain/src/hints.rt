//! What may help where a text of types is rejected.
ghost use Rattle.std.specs.Prelude.{◌≡◌, ◌≤◌, ◌+◌, IfOk, length, string_bytes, take};
ghost use Rattle.oer_explain.specs.Hints.{hint_of, later_hint, name_hint, why_hint};

use oer_places::{definition_behind, is_file_name, occurs, place_of, word_length};
use oer_value_notation::TextWhy;
use std::alloc::{AllocError, Global};

// That the Name is defined later, behind this front of the text.
fn later_hint(alloc: Global, front: &[u8]) -> Result<String, AllocError>
    ensures { IfOk result (λ hint. string_bytes hint ≡ later_hint front.now) }
{
    let line = place_of(alloc, front)?.line;
    format!(in alloc;
        "  It is defined at line {line}. A definition may only refer to those before it.\n"
    )
}

// What may help where no earlier definition has the Name that begins at this place.
fn name_hint(alloc: Global, text: &[u8], at: usize) -> Result<String, AllocError>
    requires { at ≤ length text.now }
    ensures { IfOk result (λ hint. string_bytes hint ≡ name_hint text.now at) }
{
    let rest = &text[at..];
    let name = &rest[..word_length(rest)];
    if let Some(count) = definition_behind(name, rest) {
        return later_hint(alloc, &text[..at + count]);
    }
    if definition_behind(name, &text[..at]).is_some() {
        return String::from_str(
            alloc,
            "  It is being defined here. Only --modules takes a type that contains itself.\n",
        );
    }
    Ok(String::new(alloc))
}

// What may help by the reason alone.
fn why_hint(alloc: Global, why: TextWhy, text: &[u8], at: usize) -> Result<String, AllocError>
    requires { at ≤ length text.now }
    ensures { IfOk result (λ hint. string_bytes hint ≡ why_hint why text.now at) }
{
    match why {
        TextWhy::Syntax if occurs(b"DEFINITIONS", &text[at..]) => String::from_str(
            alloc,
            "  DEFINITIONS follows, as in a module: give modules by --modules.\n",
        ),
        TextWhy::Name => name_hint(alloc, text, at),
        _ => Ok(String::new(alloc)),
    }
}

/// What may help where the text is rejected at this place, in a line; or nothing. It fails where an allocation does.
pub fn hint_of(alloc: Global, why: TextWhy, text: &[u8], at: usize) -> Result<String, AllocError>
    requires { at ≤ length text.now }
    ensures { IfOk result (λ hint. string_bytes hint ≡ hint_of why text.now at) }
{
    if is_file_name(text) {
        return String::from_str(
            alloc,
            "  This looks like the name of a file, and no file is opened. --types=\"$(cat FILE)\" gives the text of one.\n",
        );
    }
    why_hint(alloc, why, text, at)
}
