//! The numbers of reasons.
ghost use Rattle.std.specs.Prelude.{◌≡◌};
ghost use Rattle.oer_c.specs.Reasons.{json_number, modules_number, schema_number, text_number};

use oer_json::JsonFault;
use oer_module_syntax::Why as Unread;
use oer_module_text::Why as Refused;
use oer_module_values::Why as Unresolved;
use oer_notation::TextWhy;
use oer_types::SchemaFault;

fn of_schema(fault: SchemaFault) -> u32
    ensures { result ≡ schema_number fault }
{
    match fault {
        SchemaFault::TooDeep => 9,
        SchemaFault::TooManyParts => 10,
        SchemaFault::BoundOrder => 11,
        SchemaFault::SizeOrder => 12,
        SchemaFault::BadName => 13,
        SchemaFault::RepeatedName => 14,
        SchemaFault::NoItems => 15,
        SchemaFault::RepeatedNumber => 16,
        SchemaFault::RepeatedTag => 17,
        SchemaFault::DefaultMisfit => 18,
        SchemaFault::EmptyElement => 19,
    }
}

/// The number of the reason that the types of definitions have more parts together than they may have, or the text
/// stands for more octets.
pub(crate) const TEXT_PARTS: u32 = 20;

/// The number of the reason that octets nest deeper than a type of modules is written out. Reasons of the reader have the
/// numbers below.
pub(crate) const NESTING: u32 = 19;

/// The number of the reason that what is understood of modules spells no types.
pub(crate) const MODULES_NO_TYPES: u32 = 4;

/// The number of a reason for which a text of modules can't be read: no token begins at the place or it has no end, a
/// token that the grammar doesn't have there, or types or values that nest too deep.
pub(crate) fn of_modules(why: Refused<'_>) -> u32
    ensures { result ≡ modules_number why.entry }
{
    match why {
        Refused::Unresolved(Unresolved::Unread(Unread::Token)) => 1,
        Refused::Unresolved(Unresolved::Unread(Unread::TooDeep)) => 3,
        _ => 2,
    }
}

/// The number of a reason for which definitions are rejected: from 1 on in the order of `TextWhy`,
/// and from 9 on in that of `SchemaFault`.
pub(crate) fn of_text(why: TextWhy) -> u32
    ensures { result ≡ text_number why }
{
    match why {
        TextWhy::Memory => 1,
        TextWhy::Token => 2,
        TextWhy::Syntax => 3,
        TextWhy::Number => 4,
        TextWhy::Name => 5,
        TextWhy::Repeated => 6,
        TextWhy::Mixed => 7,
        TextWhy::Default => 8,
        TextWhy::Schema(fault) => of_schema(fault),
    }
}

/// The number of a reason for which JSON is rejected, from 1 on in the order of `JsonFault`.
pub(crate) fn of_json(fault: JsonFault) -> u32
    ensures { result ≡ json_number fault }
{
    match fault {
        JsonFault::Memory => 1,
        JsonFault::Kind => 2,
        JsonFault::Name => 3,
        JsonFault::Missing => 4,
        JsonFault::Range => 5,
        JsonFault::Misfit => 6,
    }
}
