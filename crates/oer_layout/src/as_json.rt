//! Entries as JSON: an array of an object for each. The text is made at once, with the members in the
//! order of their keys.
ghost use Rattle.std.specs.Prelude.{◌≡◌, ◌++◌, ◌∷◌, [], IfOk, OnOk, codes, false, string_bytes, true};
ghost use Rattle.std.specs.Fmt.{decimal};
ghost use Rattle.json.specs.Print.{escape, quoted};
ghost use Rattle.serde_json.specs.Data.{boolean};
ghost use Rattle.serde_json.specs.View.{view};
ghost use Rattle.serde_json.specs.Written.{comma_if, compact_text};
ghost use Rattle.oer_entries.specs.Names.{text_of};
ghost use Rattle.oer_places.specs.Visible.{visible};
ghost use Rattle.oer_types.specs.Schema.{the_type};
ghost use Rattle.oer_layout.specs.Printing.{PrintsObject, PrintsObjects};
ghost use Rattle.oer_layout.specs.Pages.{PrintsArrayOf};
ghost use Rattle.oer_layout.specs.Array.{bit_data, bits_data, object_of, octets_data, opening, role_text, separator, tag_data, value_data};

use crate::outgoing::{Outgoing, block_text, write_last};
use crate::tag::tag_text;
use oer_entries::{
    Entry, Name, NamedBit, Place, PlainJson, Stopped, TakeEntry, What, each_entry, name_text,
};
use oer_places::push_visible;
use oer_types::Schema;
use oer_units::Tag;
use serde_json::Value as Json;
use std::alloc::{AllocError, Global};
use std::fmt::Write as _;
use std::io::Write;

// Whether a string has the text as it is. No other character than these is spelt otherwise there.
fn is_plain(text: &str) -> bool
    ensures { result ≡ true → escape text.now ≡ text.now }
{
    let mut is_plain = true;
    for octet in text.as_bytes() {
        if *octet < 32 || *octet == 34 || *octet == 92 {
            is_plain = false;
        }
    }
    is_plain
}

// Appends a text as a string, with the spelling of each character.
fn push_spelt(alloc: Global, text: &mut String, part: &str) -> Result<(), AllocError>
    ensures { OnOk result (string_bytes text.new ≡ string_bytes text.old ++ quoted part.now) }
{
    let string = Json::try_from_str(alloc, part)?.to_string(alloc)?;
    text.push_str(string.as_str())
}

/// Up to how many octets a text is looked through for characters with another spelling.
const SHORT: usize = 64;

// Appends a text between quotation marks, as it is.
fn push_between_quotes(text: &mut String, part: &str) -> Result<(), AllocError>
    ensures { OnOk result (string_bytes text.new ≡ string_bytes text.old ++ 34 ∷ (part.now ++ 34 ∷ [])) }
{
    text.push_str("\"")?;
    text.push_str(part)?;
    text.push_str("\"")
}

// Appends a text as a string. A long one is left to serde_json, which looks through it faster.
fn push_quoted(alloc: Global, text: &mut String, part: &str) -> Result<(), AllocError>
    ensures { OnOk result (string_bytes text.new ≡ string_bytes text.old ++ quoted part.now) }
{
    if part.len() > SHORT || !is_plain(part) {
        return push_spelt(alloc, text, part);
    }
    push_between_quotes(text, part)
}

// Appends a name as a string.
fn push_name(alloc: Global, text: &mut String, name: Name<'_>) -> Result<(), AllocError>
    ensures { OnOk result (string_bytes text.new ≡ string_bytes text.old ++ quoted (text_of name.entry)) }
{
    if let Name::Text(name) = name {
        return push_quoted(alloc, text, name);
    }
    let name = name_text(alloc, name)?;
    push_quoted(alloc, text, name.as_str())
}

// Appends the object of a bit.
fn push_bit(alloc: Global, text: &mut String, bit: NamedBit<'_>) -> Result<(), AllocError>
    ensures { OnOk result (string_bytes text.new ≡ string_bytes text.old ++ compact_text (bit_data bit.entry)) }
{
    text.push_str("{\"name\":")?;
    push_name(alloc, text, bit.name)?;
    if bit.is_set {
        text.push_str(",\"set\":true}")
    } else {
        text.push_str(",\"set\":false}")
    }
}

// Appends a comma, where something stands before.
fn push_comma(text: &mut String, is_later: bool) -> Result<(), AllocError>
    ensures { OnOk result (string_bytes text.new ≡ string_bytes text.old ++ comma_if is_later) }
{
    if is_later { text.push_str(",") } else { Ok(()) }
}

// Appends bits: an array of an object for each, in their order.
fn push_bits(alloc: Global, text: &mut String, bits: &[NamedBit<'_>]) -> Result<(), AllocError>
    ensures { OnOk result (string_bytes text.new ≡ string_bytes text.old ++ compact_text (bits_data bits.now)) }
{
    text.push_str("[")?;
    let mut is_later = false;
    for bit in bits {
        push_comma(text, is_later)?;
        push_bit(alloc, text, *bit)?;
        is_later = true;
    }
    text.push_str("]")
}

// Appends the object of a tag, with the name of the alternative.
fn push_tag(alloc: Global, text: &mut String, tag: Tag, name: Name<'_>) -> Result<(), AllocError>
    ensures { OnOk result (string_bytes text.new ≡ string_bytes text.old ++ compact_text (tag_data tag name.entry)) }
{
    let tag = tag_text(alloc, tag)?;
    text.push_str("{\"name\":")?;
    push_name(alloc, text, name)?;
    text.push_str(",\"tag\":")?;
    push_quoted(alloc, text, tag.as_str())?;
    text.push_str("}")
}

/// Appends the JSON of a value.
pub(crate) fn push_json(
    alloc: Global,
    text: &mut String,
    value: &PlainJson,
) -> Result<(), AllocError>
    ensures { OnOk result (string_bytes text.new ≡ string_bytes text.old ++ compact_text (view value.now.json)) }
{
    if let Some(part) = value.json.as_str() {
        if value.is_digits {
            return push_between_quotes(text, part);
        }
        return push_quoted(alloc, text, part);
    }
    if let Some(number) = value.json.as_u64() {
        return write!(text, "{number}");
    }
    let whole = value.json.to_string(alloc)?;
    text.push_str(whole.as_str())
}

// Appends what the octets say; null where they are all that there is to say.
fn push_value(alloc: Global, text: &mut String, what: &What<'_>) -> Result<(), AllocError>
    ensures { OnOk result (string_bytes text.new ≡ string_bytes text.old ++ compact_text (value_data what.now)) }
{
    match what {
        What::Preamble(bits) => push_bits(alloc, text, bits.as_slice()),
        What::Bitmap(bits) => push_bits(alloc, text, bits.as_slice()),
        What::Quantity(count) => write!(text, "{count}"),
        What::Tag(tag, name) => push_tag(alloc, text, *tag, *name),
        What::UnknownTag(tag, name) => push_tag(alloc, text, *tag, *name),
        What::Length(count) => write!(text, "{count}"),
        What::Value(value) => push_json(alloc, text, value),
        What::Unknown => text.push_str("null"),
        What::Follows => text.push_str("null"),
        What::Rejected => text.push_str("null"),
    }
}

// What the octets are.
fn role(what: &What<'_>) -> &'static str
    ensures { result.now ≡ role_text what.now }
{
    match what {
        What::Preamble(_) => "preamble",
        What::Bitmap(_) => "bitmap",
        What::Quantity(_) => "quantity",
        What::Tag(..) => "tag",
        What::UnknownTag(..) => "rejected",
        What::Length(_) => "length",
        What::Value(_) => "value",
        What::Unknown => "unknown",
        What::Follows => "follows",
        What::Rejected => "rejected",
    }
}

// Appends octets in hexadecimal digits, as a string. Digits stand there as they are.
fn push_octets(alloc: Global, text: &mut String, octets: &[u8]) -> Result<(), AllocError>
    ensures { OnOk result (string_bytes text.new ≡ string_bytes text.old ++ compact_text (octets_data octets.now)) }
{
    let digits = hex::encode(alloc, octets)?;
    push_between_quotes(text, digits.as_str())
}

// Begins an object, with the member for the canonical spelling, if it is another one.
fn push_opening(
    alloc: Global,
    text: &mut String,
    canonical: &Option<Vec<u8>>,
) -> Result<(), AllocError>
    ensures { OnOk result (string_bytes text.new ≡ string_bytes text.old ++ opening canonical.now) }
{
    let Some(octets) = canonical else {
        return text.push_str("{");
    };
    text.push_str("{\"canonical\":")?;
    push_octets(alloc, text, octets.as_slice())?;
    text.push_str(",")
}

// Appends a key and a number.
fn push_number(text: &mut String, key: &str, number: usize) -> Result<(), AllocError>
    ensures { OnOk result (string_bytes text.new ≡ string_bytes text.old ++ (key.now ++ decimal number)) }
{
    text.push_str(key)?;
    write!(text, "{number}")
}

// Appends a key and a text as a string.
fn push_text(alloc: Global, text: &mut String, key: &str, part: &str) -> Result<(), AllocError>
    ensures { OnOk result (string_bytes text.new ≡ string_bytes text.old ++ (key.now ++ quoted part.now)) }
{
    text.push_str(key)?;
    push_quoted(alloc, text, part)
}

// Appends the member that says whether the part has the value of its DEFAULT.
fn push_default(text: &mut String, is_default: bool) -> Result<(), AllocError>
    ensures { OnOk result (string_bytes text.new ≡ string_bytes text.old ++ (codes ",\"default\":" ++ compact_text (boolean is_default))) }
{
    if is_default {
        text.push_str(",\"default\":true")
    } else {
        text.push_str(",\"default\":false")
    }
}

// Appends the object of an entry.
fn push_object(alloc: Global, text: &mut String, entry: &Entry<'_>) -> Result<(), AllocError>
    ensures { OnOk result (string_bytes text.new ≡ string_bytes text.old ++ compact_text (object_of entry.now)) }
{
    push_opening(alloc, text, &entry.canonical)?;
    push_number(text, "\"count\":", entry.octets.len())?;
    push_default(text, entry.is_default)?;
    push_text(alloc, text, ",\"kind\":", entry.kind)?;
    push_text(alloc, text, ",\"names\":", entry.names)?;
    text.push_str(",\"octets\":")?;
    push_octets(alloc, text, entry.octets)?;
    push_number(text, ",\"offset\":", entry.offset)?;
    push_text(alloc, text, ",\"path\":", entry.path)?;
    push_text(alloc, text, ",\"role\":", role(&entry.what))?;
    text.push_str(",\"value\":")?;
    push_value(alloc, text, &entry.what)?;
    text.push_str("}")
}

// How many octets most objects have at most.
const USUAL_OBJECT: usize = 256;

// Appends the object of an entry as it is printed.
fn push_line(alloc: Global, text: &mut String, entry: &Entry<'_>) -> Result<(), AllocError>
    ensures { OnOk result (string_bytes text.new ≡ string_bytes text.old ++ visible (compact_text (object_of entry.now))) }
{
    let mut object = String::with_capacity(alloc, USUAL_OBJECT)?;
    push_object(alloc, &mut object, entry)?;
    push_visible(text, object.as_str())
}

// What stands before an object.
fn separator(is_first: bool) -> &'static str
    ensures { result.now ≡ separator is_first }
{
    if is_first { "" } else { ",\n" }
}

/// Prints an object for each entry that it takes.
#[derive(Drop)]
struct Objects<'o, W: Write> {
    alloc: Global,
    is_first: bool,
    out: Outgoing<'o, W>,
}

impl<W: Write> TakeEntry for Objects<'_, W> {
    ghost takes = { λ s e t. (t.is_first ≡ false) × PrintsObject W.contents s.is_first s.out e t.out };

    fn take(&mut self, entry: &Entry<'_>) -> Result<(), Stopped> {
        self.out.text.push_str(separator(self.is_first))?;
        push_line(self.alloc, &mut self.out.text, entry)?;
        self.is_first = false;
        self.out.send_block()
    }
}

// Prints an object for each entry of octets.
fn print_each<'o, 's, W: Write>(
    alloc: Global,
    schema: &'s Schema,
    octets: &'s [u8],
    objects: Objects<'o, W>,
) -> Result<(Objects<'o, W>, Option<Place<'s>>), Stopped>
    ensures loan { IfOk result (λ done. done.0.out.output.ghost_name ≡ objects.entry.out.output.ghost_name) }
    ensures printed { IfOk result (λ done. PrintsObjects W.contents objects.entry.is_first (the_type schema.now) octets.now
        objects.entry.out done.0.out) }
{
    each_entry(alloc, schema, octets, objects)
}

/// Prints the array of the entries of octets, with a line for each object. Returns the part that was being
/// read when the octets were rejected, if they were. It fails if an allocation fails, or if the output does.
pub fn print_array<'s, W: Write>(
    alloc: Global,
    schema: &'s Schema,
    octets: &'s [u8],
    output: &mut W,
) -> Result<Option<Place<'s>>, Stopped>
    ensures { IfOk result (λ _. PrintsArrayOf (the_type schema.now) octets.now (W.contents output.old) (W.contents output.new)) }
{
    let text = block_text(alloc, "[")?;
    let objects = Objects {
        alloc,
        is_first: true,
        out: Outgoing::new(text, output),
    };
    let (objects, place) = print_each(alloc, schema, octets, objects)?;
    let Objects { out, .. } = objects;
    let Outgoing { text, output } = out;
    write_last(text, "]\n", output)?;
    Ok(place)
}
