//! A text of JSON in ASCII.
ghost use Rattle.std.specs.Prelude.{◌≡◌, ◌++◌, ◌+◌, ◌/◌, ◌%◌, ◌<◌, IfOk, OnOk, string_bytes};
ghost use Rattle.std.specs.Char.{digit_char};
ghost use Rattle.std.specs.Str.{chars};
ghost use Rattle.oer_cmd.specs.Ascii.{IsPlain, ascii_char, ascii_chars, ascii_text, unit_escape};

use std::alloc::{AllocError, Global};

// The hexadecimal digit of the last four bits.
fn digit_of(unit: u32) -> char
    ensures { result ≡ digit_char (unit % 16) }
{
    match char::from_digit(unit % 16, 16) {
        Some(digit) => digit,
        None => unreachable!(),
    }
}

// Appends the escape of a unit of 16 bits.
fn push_unit(out: &mut String, unit: u32) -> Result<(), AllocError>
    ensures { OnOk result (string_bytes out.new ≡ string_bytes out.old ++ unit_escape unit) }
{
    out.push_str("\\u")?;
    out.push(digit_of(unit / 4096))?;
    out.push(digit_of(unit / 256))?;
    out.push(digit_of(unit / 16))?;
    out.push(digit_of(unit))
}

// Appends the escapes of the two units of a character that is so far above U+FFFF.
fn push_pair(out: &mut String, above: u32) -> Result<(), AllocError>
    requires { above < 0x10_0000 }
    ensures { OnOk result (string_bytes out.new ≡ string_bytes out.old
        ++ (unit_escape (55296 + above / 1024) ++ unit_escape (56320 + above % 1024))) }
{
    push_unit(out, 0xd800 + above / 0x400)?;
    push_unit(out, 0xdc00 + above % 0x400)
}

// Appends a character, or its escape.
fn push_char(out: &mut String, c: char) -> Result<(), AllocError>
    ensures { OnOk result (string_bytes out.new ≡ string_bytes out.old ++ ascii_char c) }
{
    let code = c as u32;
    if code < 127 {
        return out.push(c);
    }
    if code < 0x1_0000 {
        return push_unit(out, code);
    }
    push_pair(out, code - 0x1_0000)
}

fn push_chars(out: &mut String, text: &str) -> Result<(), AllocError>
    ensures { OnOk result (string_bytes out.new ≡ string_bytes out.old ++ ascii_chars (chars text.now)) }
{
    'characters: for c in text.chars() {
        push_char(out, c)?;
    }
    Ok(())
}

#[tactic(auto, using(crate::proofs::Plain::plain))]
/// The text with every character above U+007E escaped, as JSON escapes it in a string: `\u` and four
/// hexadecimal digits, twice for a character above U+FFFF. Fails if an allocation does.
pub fn in_ascii(alloc: Global, text: &str) -> Result<String, AllocError>
    ensures text { IfOk result (λ line. string_bytes line ≡ ascii_text text.now) }
    ensures plain { IfOk result (λ line. IsPlain (string_bytes line)) }
{
    let mut out = String::new(alloc);
    push_chars(&mut out, text)?;
    Ok(out)
}
