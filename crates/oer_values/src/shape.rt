//! Types of ASN.1, as a tree.
ghost use Rattle.std.specs.Prelude.{◌≡◌, ◌≤◌, length};
ghost use Rattle.oer_model.specs.Constraints.{optional as optional_in};
ghost use Rattle.oer_values.specs.ShapeView.{fields_of, known_additions as spec_known_additions, known_later as spec_known_later};

use crate::value::Value;
use oer_model::Size;
use oer_units::Tag;

/// A type. A `Schema` (of `oer_types`) is a shape of which it is known that no fault holds.
#[cycle(shape)]
#[derive(Drop)]
pub enum Shape {
    Boolean,
    Null,
    /// An INTEGER from `low` to `high`; an absent one is no bound.
    Integer {
        low: Option<i128>,
        high: Option<i128>,
    },
    /// The items on both sides of the extension marker are one list.
    Enumerated {
        items: Vec<Item>,
        extensible: bool,
    },
    /// The size counts bits.
    BitString(Size),
    /// The size counts octets.
    OctetString(Size),
    ObjectId,
    /// An IA5String. The size counts characters, here and in the other strings.
    Ia5(Size),
    /// A VisibleString.
    Visible(Size),
    /// A NumericString.
    Numeric(Size),
    /// A PrintableString.
    Printable(Size),
    /// A UTF8String.
    Utf8(Size),
    /// `additions` is there exactly where the type has an extension marker.
    Sequence {
        root: Vec<Field>,
        additions: Option<Vec<Addition>>,
    },
    /// The size counts elements.
    SequenceOf {
        size: Size,
        item: Box<Shape>,
    },
    /// `additions` is there exactly where the type has an extension marker.
    Choice {
        root: Vec<Alt>,
        additions: Option<Vec<Alt>>,
    },
}

/// An item of an ENUMERATED.
#[derive(Drop)]
pub struct Item {
    pub name: String,
    pub number: i64,
}

/// A component of a SEQUENCE's root.
#[cycle(shape)]
#[derive(Drop)]
pub struct Field {
    pub name: String,
    pub shape: Shape,
    pub need: Need,
}

/// Whether a component may be absent.
#[derive(Drop)]
pub enum Need {
    Must,
    /// OPTIONAL.
    May,
    /// DEFAULT: where the component is absent, it has this value.
    Default(Value),
}

/// A component after a SEQUENCE's extension marker. It may be absent.
#[cycle(shape)]
#[derive(Drop)]
pub struct Addition {
    pub name: String,
    pub shape: Shape,
}

/// An alternative of a CHOICE.
#[cycle(shape)]
#[derive(Drop)]
pub struct Alt {
    pub name: String,
    pub tag: Tag,
    pub shape: Shape,
}

/// How many components of a root may be absent: those that are OPTIONAL or have a DEFAULT. Each has a
/// bit in the preamble (X.696, 16.2).
pub fn optional(fields: &[Field]) -> usize
    ensures is { result ≡ optional_in (fields_of fields.now) }
    ensures most { result ≤ length fields.now }
{
    let mut count = 0;
    for field in fields {
        count += match field.need {
            Need::Must => 0,
            _ => 1,
        };
    }
    count
}

/// The additions, none where there is no extension marker.
pub fn known_additions(additions: &Option<Vec<Addition>>) -> &[Addition]
    ensures { result.now ≡ spec_known_additions additions.now }
{
    match additions {
        None => &[],
        Some(additions) => additions,
    }
}

/// The alternatives after the extension marker, none where there is none.
pub fn known_later(additions: &Option<Vec<Alt>>) -> &[Alt]
    ensures { result.now ≡ spec_known_later additions.now }
{
    match additions {
        None => &[],
        Some(additions) => additions,
    }
}
