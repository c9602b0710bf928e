//! What the reasons of errors mean, in a sentence each.
ghost use Rattle.std.specs.Prelude.{◌≡◌};
ghost use Rattle.oer_explain.specs.Reasons.{schema_sentence, text_sentence};

use oer_types::SchemaFault;
use oer_value_notation::TextWhy;

// What is wrong with a type that isn't well-formed.
fn schema_sentence(fault: SchemaFault) -> &'static str
    ensures { result.now ≡ schema_sentence fault }
{
    match fault {
        SchemaFault::TooDeep => "types are nested more than 32 deep",
        SchemaFault::TooManyParts => "the type has more than 4,096 parts",
        SchemaFault::BoundOrder =>
            "in the type that begins here, a lower bound is above the upper one",
        SchemaFault::SizeOrder => "in the type that begins here, a size ends below its begin",
        SchemaFault::BadName => "in the type that begins here, a name is no identifier",
        SchemaFault::RepeatedName =>
            "in the type that begins here, a name stands twice in a SEQUENCE, CHOICE or ENUMERATED",
        SchemaFault::NoItems =>
            "in the type that begins here, an ENUMERATED has no items, or a CHOICE no alternatives",
        SchemaFault::RepeatedNumber =>
            "in the type that begins here, a number stands twice in an ENUMERATED",
        SchemaFault::RepeatedTag => "in the type that begins here, a tag stands twice in a CHOICE",
        SchemaFault::DefaultMisfit =>
            "in the type that begins here, a value after DEFAULT does not fit",
        SchemaFault::EmptyElement =>
            "in the type that begins here, elements of a SEQUENCE OF may take no octets",
    }
}

/// What the reason for which a text is rejected says of the place.
pub fn text_sentence(why: TextWhy) -> &'static str
    ensures { result.now ≡ text_sentence why }
{
    match why {
        TextWhy::Memory => "an allocation failed",
        TextWhy::Token =>
            "no word, number, sign or quoted text begins here, or a comment or quoted text has no end",
        TextWhy::Syntax => "the notation has no such word or sign here, or the text ends too early",
        TextWhy::Number => "the number is out of the range of its place",
        TextWhy::Name => "no definition before this place has this Name",
        TextWhy::Repeated => "a definition before this place has this Name already",
        TextWhy::Mixed => "all alternatives have tags or none, and all items have numbers or none",
        TextWhy::Default => "the value after DEFAULT is not in the notation of the type",
        TextWhy::Schema(fault) => schema_sentence(fault),
    }
}
