//! The tags of types that have words of their own.
ghost use Rattle.std.specs.Prelude.{◌≡◌};
ghost use Rattle.oer_module_parts.specs.Universal.{universal_number};

use oer_module_syntax::Builtin;

/// The number of the type's tag, of the class UNIVERSAL (X.680, 8.4, table 1); none for CHOICE, which has the tags of its
/// alternatives.
pub fn universal_number(builtin: Builtin) -> Option<u32>
    ensures { result ≡ universal_number builtin }
{
    match builtin {
        Builtin::Boolean => Some(1),
        Builtin::Integer => Some(2),
        Builtin::BitString => Some(3),
        Builtin::OctetString => Some(4),
        Builtin::Null => Some(5),
        Builtin::ObjectIdentifier => Some(6),
        Builtin::ObjectDescriptor => Some(7),
        Builtin::External => Some(8),
        Builtin::Real => Some(9),
        Builtin::Enumerated => Some(10),
        Builtin::EmbeddedPdv => Some(11),
        Builtin::Utf8String => Some(12),
        Builtin::RelativeOid => Some(13),
        Builtin::Time => Some(14),
        Builtin::Sequence => Some(16),
        Builtin::Set => Some(17),
        Builtin::NumericString => Some(18),
        Builtin::PrintableString => Some(19),
        Builtin::TeletexString | Builtin::T61String => Some(20),
        Builtin::VideotexString => Some(21),
        Builtin::Ia5String => Some(22),
        Builtin::UtcTime => Some(23),
        Builtin::GeneralizedTime => Some(24),
        Builtin::GraphicString => Some(25),
        Builtin::VisibleString | Builtin::Iso646String => Some(26),
        Builtin::GeneralString => Some(27),
        Builtin::UniversalString => Some(28),
        Builtin::CharacterString => Some(29),
        Builtin::BmpString => Some(30),
        Builtin::Date => Some(31),
        Builtin::TimeOfDay => Some(32),
        Builtin::DateTime => Some(33),
        Builtin::Duration => Some(34),
        Builtin::OidIri => Some(35),
        Builtin::RelativeOidIri => Some(36),
        Builtin::Choice => None,
    }
}
