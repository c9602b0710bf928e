//! What octets are, with names and values.

use crate::bits::NamedBit;
use crate::frame::Name;
use crate::plain::PlainJson;
use oer_types::Shape;
use oer_units::Tag;

/// What the octets of an entry are.
#[derive(Drop)]
pub enum What<'a> {
    /// The preamble of a SEQUENCE.
    Preamble(Vec<NamedBit<'a>>),
    /// The bitmap of its additions.
    Bitmap(Vec<NamedBit<'a>>),
    /// The quantity of a SEQUENCE OF.
    Quantity(u64),
    /// The tag of a CHOICE, and the name of the alternative.
    Tag(Tag, Name<'a>),
    /// The tag of a CHOICE without an extension marker, of which no alternative has the tag: by it all
    /// octets are rejected. The name is the key that such an alternative has in JSON.
    UnknownTag(Tag, Name<'a>),
    /// The length of an open type.
    Length(u64),
    /// A value without parts, as its JSON. Where it is octets, each has two digits there.
    Value(PlainJson),
    /// What the type doesn't know.
    Unknown,
    /// Octets after the value.
    Follows,
    /// The octets that made the reader reject the input.
    Rejected,
}

/// A part, by its path and its names.
#[derive(Drop)]
pub struct Place<'s> {
    pub path: String,
    pub names: String,
    /// Its type, if that is known.
    pub shape: Option<&'s Shape>,
}

/// Octets, and what they are.
#[derive(Drop)]
pub struct Entry<'e> {
    /// How many octets are before them.
    pub offset: usize,
    pub octets: &'e [u8],
    /// The path to the part of which they are a piece.
    pub path: &'e str,
    /// The names on that path.
    pub names: &'e str,
    /// The kind of its type.
    pub kind: &'static str,
    pub what: What<'e>,
    /// The canonical spelling, if they are another one.
    pub canonical: Option<Vec<u8>>,
    /// Whether the part has the value of its DEFAULT, so that canonical octets leave it out.
    pub is_default: bool,
}
