//! Reserved words (X.680, 12.38), and words that have a meaning only where the grammar has them.
ghost use Rattle.std.specs.Prelude.{◌≡◌, is_some};
ghost use Rattle.oer_module_syntax.specs.Words.{builtin_of, builtin_among, builtin_first, builtin_second, is_identifier, is_reference, is_reserved, is_useful_class, keyword_of, keyword_among, keyword_text};

/// The words that begin no type. ANY, DEFINED, DESCENDANTS and SUCCESSORS are not reserved.
#[derive(Clone, Copy, Debug, PartialEq, Eq)]
pub enum Keyword {
    Absent,
    AbstractSyntax,
    All,
    Any,
    Application,
    Automatic,
    Begin,
    By,
    Class,
    Component,
    Components,
    Constrained,
    Containing,
    Default,
    Defined,
    Definitions,
    Descendants,
    Encoded,
    EncodingControl,
    End,
    Except,
    Explicit,
    Exports,
    Extensibility,
    False,
    From,
    Identifier,
    Implicit,
    Implied,
    Imports,
    Includes,
    Instance,
    Instructions,
    Intersection,
    Max,
    Min,
    MinusInfinity,
    NotANumber,
    Of,
    Optional,
    Pattern,
    Pdv,
    PlusInfinity,
    Present,
    Private,
    Settings,
    Size,
    String,
    Successors,
    Syntax,
    Tags,
    True,
    TypeIdentifier,
    Union,
    Unique,
    Universal,
    With,
}

/// The types that have words of their own: those that are built in (X.680, 17.2), and the useful types
/// GeneralizedTime, UTCTime and ObjectDescriptor (X.680, 17.3 and 45 to 48).
#[derive(Clone, Copy, Debug, PartialEq, Eq)]
pub enum Builtin {
    Boolean,
    Null,
    Integer,
    Real,
    Enumerated,
    BitString,
    OctetString,
    ObjectIdentifier,
    RelativeOid,
    OidIri,
    RelativeOidIri,
    Sequence,
    Set,
    Choice,
    External,
    EmbeddedPdv,
    CharacterString,
    BmpString,
    GeneralString,
    GraphicString,
    Ia5String,
    Iso646String,
    NumericString,
    PrintableString,
    TeletexString,
    T61String,
    UniversalString,
    Utf8String,
    VideotexString,
    VisibleString,
    ObjectDescriptor,
    GeneralizedTime,
    UtcTime,
    Time,
    Date,
    TimeOfDay,
    DateTime,
    Duration,
}

/// Those that are reserved.
const KEYWORDS: [Keyword; 53] = [
    Keyword::Absent,
    Keyword::AbstractSyntax,
    Keyword::All,
    Keyword::Application,
    Keyword::Automatic,
    Keyword::Begin,
    Keyword::By,
    Keyword::Class,
    Keyword::Component,
    Keyword::Components,
    Keyword::Constrained,
    Keyword::Containing,
    Keyword::Default,
    Keyword::Definitions,
    Keyword::Encoded,
    Keyword::EncodingControl,
    Keyword::End,
    Keyword::Except,
    Keyword::Explicit,
    Keyword::Exports,
    Keyword::Extensibility,
    Keyword::False,
    Keyword::From,
    Keyword::Identifier,
    Keyword::Implicit,
    Keyword::Implied,
    Keyword::Imports,
    Keyword::Includes,
    Keyword::Instance,
    Keyword::Instructions,
    Keyword::Intersection,
    Keyword::Max,
    Keyword::Min,
    Keyword::MinusInfinity,
    Keyword::NotANumber,
    Keyword::Of,
    Keyword::Optional,
    Keyword::Pattern,
    Keyword::Pdv,
    Keyword::PlusInfinity,
    Keyword::Present,
    Keyword::Private,
    Keyword::Settings,
    Keyword::Size,
    Keyword::String,
    Keyword::Syntax,
    Keyword::Tags,
    Keyword::True,
    Keyword::TypeIdentifier,
    Keyword::Union,
    Keyword::Unique,
    Keyword::Universal,
    Keyword::With,
];

const BUILTINS: [Builtin; 38] = [
    Builtin::Boolean,
    Builtin::Null,
    Builtin::Integer,
    Builtin::Real,
    Builtin::Enumerated,
    Builtin::BitString,
    Builtin::OctetString,
    Builtin::ObjectIdentifier,
    Builtin::RelativeOid,
    Builtin::OidIri,
    Builtin::RelativeOidIri,
    Builtin::Sequence,
    Builtin::Set,
    Builtin::Choice,
    Builtin::External,
    Builtin::EmbeddedPdv,
    Builtin::CharacterString,
    Builtin::BmpString,
    Builtin::GeneralString,
    Builtin::GraphicString,
    Builtin::Ia5String,
    Builtin::Iso646String,
    Builtin::NumericString,
    Builtin::PrintableString,
    Builtin::TeletexString,
    Builtin::T61String,
    Builtin::UniversalString,
    Builtin::Utf8String,
    Builtin::VideotexString,
    Builtin::VisibleString,
    Builtin::ObjectDescriptor,
    Builtin::GeneralizedTime,
    Builtin::UtcTime,
    Builtin::Time,
    Builtin::Date,
    Builtin::TimeOfDay,
    Builtin::DateTime,
    Builtin::Duration,
];

impl Keyword {
    /// How the word is written.
    pub fn text(self) -> &'static str
        ensures { result.now ≡ keyword_text self }
    {
        match self {
            Keyword::Absent => "ABSENT",
            Keyword::AbstractSyntax => "ABSTRACT-SYNTAX",
            Keyword::All => "ALL",
            Keyword::Any => "ANY",
            Keyword::Application => "APPLICATION",
            Keyword::Automatic => "AUTOMATIC",
            Keyword::Begin => "BEGIN",
            Keyword::By => "BY",
            Keyword::Class => "CLASS",
            Keyword::Component => "COMPONENT",
            Keyword::Components => "COMPONENTS",
            Keyword::Constrained => "CONSTRAINED",
            Keyword::Containing => "CONTAINING",
            Keyword::Default => "DEFAULT",
            Keyword::Defined => "DEFINED",
            Keyword::Definitions => "DEFINITIONS",
            Keyword::Descendants => "DESCENDANTS",
            Keyword::Encoded => "ENCODED",
            Keyword::EncodingControl => "ENCODING-CONTROL",
            Keyword::End => "END",
            Keyword::Except => "EXCEPT",
            Keyword::Explicit => "EXPLICIT",
            Keyword::Exports => "EXPORTS",
            Keyword::Extensibility => "EXTENSIBILITY",
            Keyword::False => "FALSE",
            Keyword::From => "FROM",
            Keyword::Identifier => "IDENTIFIER",
            Keyword::Implicit => "IMPLICIT",
            Keyword::Implied => "IMPLIED",
            Keyword::Imports => "IMPORTS",
            Keyword::Includes => "INCLUDES",
            Keyword::Instance => "INSTANCE",
            Keyword::Instructions => "INSTRUCTIONS",
            Keyword::Intersection => "INTERSECTION",
            Keyword::Max => "MAX",
            Keyword::Min => "MIN",
            Keyword::MinusInfinity => "MINUS-INFINITY",
            Keyword::NotANumber => "NOT-A-NUMBER",
            Keyword::Of => "OF",
            Keyword::Optional => "OPTIONAL",
            Keyword::Pattern => "PATTERN",
            Keyword::Pdv => "PDV",
            Keyword::PlusInfinity => "PLUS-INFINITY",
            Keyword::Present => "PRESENT",
            Keyword::Private => "PRIVATE",
            Keyword::Settings => "SETTINGS",
            Keyword::Size => "SIZE",
            Keyword::String => "STRING",
            Keyword::Successors => "SUCCESSORS",
            Keyword::Syntax => "SYNTAX",
            Keyword::Tags => "TAGS",
            Keyword::True => "TRUE",
            Keyword::TypeIdentifier => "TYPE-IDENTIFIER",
            Keyword::Union => "UNION",
            Keyword::Unique => "UNIQUE",
            Keyword::Universal => "UNIVERSAL",
            Keyword::With => "WITH",
        }
    }
}

impl Builtin {
    /// The first word of the type.
    pub fn first(self) -> &'static str
        ensures { result.now ≡ builtin_first self }
    {
        match self {
            Builtin::Boolean => "BOOLEAN",
            Builtin::Null => "NULL",
            Builtin::Integer => "INTEGER",
            Builtin::Real => "REAL",
            Builtin::Enumerated => "ENUMERATED",
            Builtin::BitString => "BIT",
            Builtin::OctetString => "OCTET",
            Builtin::ObjectIdentifier => "OBJECT",
            Builtin::RelativeOid => "RELATIVE-OID",
            Builtin::OidIri => "OID-IRI",
            Builtin::RelativeOidIri => "RELATIVE-OID-IRI",
            Builtin::Sequence => "SEQUENCE",
            Builtin::Set => "SET",
            Builtin::Choice => "CHOICE",
            Builtin::External => "EXTERNAL",
            Builtin::EmbeddedPdv => "EMBEDDED",
            Builtin::CharacterString => "CHARACTER",
            Builtin::BmpString => "BMPString",
            Builtin::GeneralString => "GeneralString",
            Builtin::GraphicString => "GraphicString",
            Builtin::Ia5String => "IA5String",
            Builtin::Iso646String => "ISO646String",
            Builtin::NumericString => "NumericString",
            Builtin::PrintableString => "PrintableString",
            Builtin::TeletexString => "TeletexString",
            Builtin::T61String => "T61String",
            Builtin::UniversalString => "UniversalString",
            Builtin::Utf8String => "UTF8String",
            Builtin::VideotexString => "VideotexString",
            Builtin::VisibleString => "VisibleString",
            Builtin::ObjectDescriptor => "ObjectDescriptor",
            Builtin::GeneralizedTime => "GeneralizedTime",
            Builtin::UtcTime => "UTCTime",
            Builtin::Time => "TIME",
            Builtin::Date => "DATE",
            Builtin::TimeOfDay => "TIME-OF-DAY",
            Builtin::DateTime => "DATE-TIME",
            Builtin::Duration => "DURATION",
        }
    }

    /// The second word of the type, if it has two.
    pub fn second(self) -> Option<Keyword>
        ensures { result ≡ builtin_second self }
    {
        match self {
            Builtin::BitString => Some(Keyword::String),
            Builtin::OctetString => Some(Keyword::String),
            Builtin::ObjectIdentifier => Some(Keyword::Identifier),
            Builtin::EmbeddedPdv => Some(Keyword::Pdv),
            Builtin::CharacterString => Some(Keyword::String),
            _ => None,
        }
    }
}

/// The reserved word that this is, if it begins no type.
#[tactic(auto, unfolding(crate::specs::Words::keyword_of))]
pub fn keyword_of(word: &str) -> Option<Keyword>
    ensures { result ≡ keyword_of word.now }
{
    let keywords: [Keyword; 53] = KEYWORDS;
    keyword_among(word, keywords.as_slice())
}

/// The type that begins with this word.
#[tactic(auto, unfolding(crate::specs::Words::builtin_of))]
pub fn builtin_of(word: &str) -> Option<Builtin>
    ensures { result ≡ builtin_of word.now }
{
    let builtins: [Builtin; 38] = BUILTINS;
    builtin_among(word, builtins.as_slice())
}

fn keyword_among(word: &str, keywords: &[Keyword]) -> Option<Keyword>
    ensures { result ≡ keyword_among word.now keywords.now }
{
    for keyword in keywords {
        if word == keyword.text() {
            return Some(*keyword);
        }
    }
    None
}

fn builtin_among(word: &str, builtins: &[Builtin]) -> Option<Builtin>
    ensures { result ≡ builtin_among word.now builtins.now }
{
    for builtin in builtins {
        if word == builtin.first() {
            return Some(*builtin);
        }
    }
    None
}

/// Whether the word is reserved.
pub fn is_reserved(word: &str) -> bool
    ensures { result ≡ is_reserved word.now }
{
    keyword_of(word).is_some() || builtin_of(word).is_some()
}

/// Whether the word is a class that needs no definition (X.681, 8.4 and annexes A and B).
pub fn is_useful_class(word: &str) -> bool
    ensures { result ≡ is_useful_class word.now }
{
    word == Keyword::TypeIdentifier.text() || word == Keyword::AbstractSyntax.text()
}

/// Whether the word begins with a small letter, as an identifier or a value reference does
/// (X.680, 12.3 and 12.4).
pub fn is_identifier(word: &str) -> bool
    ensures { result ≡ is_identifier word.now }
{
    match word.as_bytes().first() {
        Some(c) => c.is_ascii_lowercase(),
        None => false,
    }
}

/// Whether the word is the reference of a type, a class or a module: it begins with a capital letter and
/// isn't reserved (X.680, 12.2 and 12.5).
pub fn is_reference(word: &str) -> bool
    ensures { result ≡ is_reference word.now }
{
    !is_identifier(word) && !is_reserved(word)
}
