//! The cells of an entry's line.
ghost use Rattle.std.specs.Prelude.{◌≡◌, ◌++◌, IfOk, OnOk, string_bytes};
ghost use Rattle.oer_layout.specs.Cells.{are_digits, bit_text, bits_text, canonical_note, cells_in, cells_of, choice_text, digits_or_none, end_note, first_digits, note_of, or_dash, quoted_digits, value_text};

use crate::as_json::push_json;
use crate::tag::tag_text;
use oer_entries::{Entry, Name, NamedBit, What, name_text};
use oer_places::visible_text;
use oer_units::Tag;
use std::alloc::{AllocError, Global};

/// How many octets a note shows at most.
const SHOWN: usize = 8;

/// The cells of a line.
#[derive(Drop)]
pub(crate) struct Line<'e> {
    pub offset: usize,
    pub count: usize,
    pub path: &'e str,
    pub names: &'e str,
    pub kind: &'static str,
    pub value: String,
    /// Whether the value is octets, two digits for each, between quotation marks.
    pub is_digits: bool,
    /// What stands behind the value.
    pub note: String,
}

/// A text; `-` stands for the empty one.
pub(crate) fn or_dash(text: &str) -> &str
    ensures { result.now ≡ or_dash text.now }
{
    if text.is_empty() { "-" } else { text }
}

// Appends a bit by its name.
fn push_bit(alloc: Global, text: &mut String, bit: NamedBit<'_>) -> Result<(), AllocError>
    ensures { OnOk result (string_bytes text.new ≡ string_bytes text.old ++ bit_text bit.entry) }
{
    text.push_str(" ")?;
    text.push_str(name_text(alloc, bit.name)?.as_str())?;
    text.push_str(if bit.is_set { "=1" } else { "=0" })
}

// A word, and bits by their names.
fn bits_text(alloc: Global, word: &str, bits: &[NamedBit<'_>]) -> Result<String, AllocError>
    ensures { IfOk result (λ text. string_bytes text ≡ bits_text word.now bits.now) }
{
    let mut text = String::from_str(alloc, word)?;
    for bit in bits {
        push_bit(alloc, &mut text, *bit)?;
    }
    Ok(text)
}

// A tag, and the alternative that has it.
fn choice_text(alloc: Global, tag: Tag, name: Name<'_>) -> Result<String, AllocError>
    ensures { IfOk result (λ text. string_bytes text ≡ choice_text tag name.entry) }
{
    let tag = tag_text(alloc, tag)?;
    let name = name_text(alloc, name)?;
    format!(in alloc; "tag {tag} {name}")
}

// Octets in hexadecimal digits, between quotation marks.
fn quoted_digits(alloc: Global, octets: &[u8]) -> Result<String, AllocError>
    ensures { IfOk result (λ text. string_bytes text ≡ quoted_digits octets.now) }
{
    let digits = hex::encode(alloc, octets)?;
    format!(in alloc; "\"{digits}\"")
}

// The first of the octets in hexadecimal digits, and how many are left out.
fn first_digits(alloc: Global, octets: &[u8]) -> Result<String, AllocError>
    ensures { IfOk result (λ text. string_bytes text ≡ first_digits octets.now) }
{
    if octets.len() <= SHOWN {
        return hex::encode(alloc, octets);
    }
    let digits = hex::encode(alloc, &octets[..SHOWN])?;
    let left = octets.len().saturating_sub(SHOWN);
    format!(in alloc; "{digits}..+{left}")
}

// What the octets of the entry say.
fn value_text(alloc: Global, entry: &Entry<'_>) -> Result<String, AllocError>
    ensures { IfOk result (λ text. string_bytes text ≡ value_text entry.now.what entry.now.octets.now) }
{
    match &entry.what {
        What::Preamble(bits) => bits_text(alloc, "preamble", bits.as_slice()),
        What::Bitmap(bits) => bits_text(alloc, "bitmap", bits.as_slice()),
        What::Quantity(count) => format!(in alloc; "quantity {count}"),
        What::Tag(tag, name) => choice_text(alloc, *tag, *name),
        What::UnknownTag(tag, name) => choice_text(alloc, *tag, *name),
        What::Length(count) => format!(in alloc; "length {count}"),
        What::Value(value) => {
            let mut json = String::new(alloc);
            push_json(alloc, &mut json, value)?;
            visible_text(alloc, json)
        }
        What::Unknown => quoted_digits(alloc, entry.octets),
        What::Follows => quoted_digits(alloc, entry.octets),
        What::Rejected => quoted_digits(alloc, entry.octets),
    }
}

// Whether that is octets.
fn are_digits(what: &What<'_>, kind: &str) -> bool
    ensures { result ≡ are_digits what.now kind.now }
{
    match what {
        What::Preamble(_) | What::Bitmap(_) | What::Quantity(_) | What::Length(_) => false,
        What::Tag(..) | What::UnknownTag(..) => false,
        What::Value(_) => kind == "OCTET STRING",
        What::Unknown | What::Follows | What::Rejected => true,
    }
}

// What is noted of octets that follow the value, or that made the reader reject the input.
fn end_note(what: &What<'_>) -> &'static str
    ensures { result.now ≡ end_note what.now }
{
    match what {
        What::Preamble(_) | What::Bitmap(_) | What::Quantity(_) | What::Length(_) => "",
        What::Tag(..) | What::Value(_) | What::Unknown => "",
        What::UnknownTag(..) | What::Rejected => " -- rejected",
        What::Follows => " -- follows",
    }
}

// Appends octets in hexadecimal digits, the first of them.
fn push_digits(alloc: Global, note: &mut String, octets: &[u8]) -> Result<(), AllocError>
    ensures { OnOk result (string_bytes note.new ≡ string_bytes note.old ++ digits_or_none octets.now) }
{
    if octets.is_empty() {
        return note.push_str("none");
    }
    note.push_str(first_digits(alloc, octets)?.as_str())
}

// Appends what canonical octets have in place of these.
fn push_canonical(
    alloc: Global,
    note: &mut String,
    octets: &[u8],
    canonical: &Option<Vec<u8>>,
) -> Result<(), AllocError>
    ensures { OnOk result (string_bytes note.new ≡ string_bytes note.old ++ canonical_note canonical.now octets.now) }
{
    let Some(canonical) = canonical else {
        return Ok(());
    };
    note.push_str(" -- basic ")?;
    note.push_str(first_digits(alloc, octets)?.as_str())?;
    note.push_str(", canonical ")?;
    push_digits(alloc, note, canonical.as_slice())
}

// What stands behind the value.
fn note(alloc: Global, entry: &Entry<'_>) -> Result<String, AllocError>
    ensures { IfOk result (λ note. string_bytes note ≡ note_of entry.now) }
{
    let mut note = String::new(alloc);
    note.push_str(end_note(&entry.what))?;
    push_canonical(alloc, &mut note, entry.octets, &entry.canonical)?;
    if entry.is_default {
        note.push_str(" -- DEFAULT, canonical absent")?;
    }
    Ok(note)
}

/// The cells of the line of an entry.
pub(crate) fn line_of<'e>(alloc: Global, entry: &'e Entry<'_>) -> Result<Line<'e>, AllocError>
    ensures { IfOk result (λ line. cells_in line ≡ cells_of entry.now) }
{
    let path = or_dash(entry.path);
    Ok(Line {
        offset: entry.offset,
        count: entry.octets.len(),
        path,
        names: or_dash(entry.names),
        kind: entry.kind,
        value: value_text(alloc, entry)?,
        is_digits: are_digits(&entry.what, entry.kind),
        note: note(alloc, entry)?,
    })
}
