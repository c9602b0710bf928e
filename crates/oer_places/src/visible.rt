//! Text as it is printed: characters that a terminal would take for more than a sign are spelt out.
ghost use Rattle.std.specs.Prelude.{◌≡◌, ◌<◌, ◌∷◌, [], ◌++◌, IfOk, OnOk, string_bytes, true};
ghost use Rattle.std.specs.Char.{digit_char};
ghost use Rattle.oer_places.specs.Visible.{is_among, is_hidden, spelt_out, visible, visible_character};

use std::alloc::{AllocError, Global};

// Whether a number is one of those from the first to the last.
fn is_among(first: u32, last: u32, number: u32) -> bool
    requires { last < 1114112 }
    ensures { result ≡ is_among first last number }
{
    number < last + 1 && first < number + 1
}

// Whether the character is spelt out.
fn is_hidden(c: char) -> bool
    ensures { result ≡ is_hidden c }
{
    let code = c as u32;
    is_among(0x00, 0x1f, code)
        || is_among(0x7f, 0x9f, code)
        || is_among(0x061c, 0x061c, code)
        || is_among(0x200e, 0x200f, code)
        || is_among(0x2028, 0x202e, code)
        || is_among(0x2066, 0x2069, code)
}

// Appends a hexadecimal digit.
fn push_digit(text: &mut String, digit: u32) -> Result<(), AllocError>
    requires { digit < 16 }
    ensures { OnOk result (string_bytes text.new ≡ string_bytes text.old ++ digit_char digit ∷ []) }
{
    let Some(c) = char::from_digit(digit, 16) else {
        unreachable!();
    };
    text.push(c)
}

// Appends what stands for a character that is spelt out.
fn push_spelt_out(text: &mut String, c: char) -> Result<(), AllocError>
    ensures { OnOk result (string_bytes text.new ≡ string_bytes text.old ++ spelt_out c) }
{
    let code = c as u32;
    text.push_str("\\u")?;
    push_digit(text, code / 4096 % 16)?;
    push_digit(text, code / 256 % 16)?;
    push_digit(text, code / 16 % 16)?;
    push_digit(text, code % 16)
}

// Appends a character.
fn push_character(text: &mut String, c: char) -> Result<(), AllocError>
    ensures { OnOk result (string_bytes text.new ≡ string_bytes text.old ++ visible_character c) }
{
    if is_hidden(c) {
        return push_spelt_out(text, c);
    }
    text.push(c)
}

// Appends a text, character by character.
fn push_each(text: &mut String, part: &str) -> Result<(), AllocError>
    ensures { OnOk result (string_bytes text.new ≡ string_bytes text.old ++ visible part.now) }
{
    for c in part.chars() {
        push_character(text, c)?;
    }
    Ok(())
}

// Whether each octet is a letter, a digit, a space or a sign of ASCII: no such text has a character that
// is spelt out.
fn is_plain(text: &str) -> bool
    ensures { result ≡ true → visible text.now ≡ text.now }
{
    let mut is_plain = true;
    for octet in text.as_bytes() {
        if *octet < 32 || *octet > 126 {
            is_plain = false;
        }
    }
    is_plain
}

/// A text, of which each character that is hidden is spelt out.
pub fn visible_text(alloc: Global, text: String) -> Result<String, AllocError>
    ensures { IfOk result (λ made. string_bytes made ≡ visible (string_bytes text)) }
{
    if is_plain(text.as_str()) {
        return Ok(text);
    }
    let mut made = String::new(alloc);
    push_each(&mut made, text.as_str())?;
    Ok(made)
}

/// Appends a text, of which each character that is hidden is spelt out.
pub fn push_visible(text: &mut String, part: &str) -> Result<(), AllocError>
    ensures { OnOk result (string_bytes text.new ≡ string_bytes text.old ++ visible part.now) }
{
    if is_plain(part) {
        return text.push_str(part);
    }
    push_each(text, part)
}
