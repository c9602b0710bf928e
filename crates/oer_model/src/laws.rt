//! Laws over the definitions of encodings. Each function does nothing; its contract is the law.
//!
//! They speak of every type that keeps the limits of well-formed types, and of every value.

ghost use Rattle.oer_model.specs.Headline.{Headline};
ghost use Rattle.oer_model.specs.Laws.{ReadsEncodings, ReadsInside, ReadsEach, OneReading, OneCanonical, CanonicalTellsFilled, CanonicalEncodes, FilledTwice, FilledFits, NoFaultFound, FirstFaultFound, OneFirstFault, FaultlessIsWellFormed, WellFormedDefaults, CanonicalGiven, CanonicalComputed, EqualOctets, CanonicalStays, RewriteTwice, CheckTells, OlderSequence, OlderChoice, RelayedSequence, RelayedChoice, PartsBounded, FindsParts, MissesParts, KeepsUnknown};
ghost use Rattle.oer_model.specs.Examples.{Booleans, Integers, IntegerForms, Enumerations, OctetStrings, BitStrings, ObjectIds, Strings, Sequences, Extensions, UnknownAdditions, Lists, Choices, Checkings, Farthest, PathsFollowed, Boundaries};

/// For every well-formed type: values that fit have the same canonical octets exactly where they are
/// equal after defaults are filled in; the reader accepts exactly the inputs that begin with an encoding
/// within its limit, gives its one value and takes exactly its octets; and rewriting gives that value's
/// canonical octets, which rewriting leaves unchanged.
pub fn headline()
    ensures holds { Headline }
{}

/// What is read is an encoding at the front of the input and within the limit, and an error says that
/// there is none; every encoding at the front and within the limit is read.
pub fn reading()
    ensures encodings { ReadsEncodings }
    ensures inside { ReadsInside }
    ensures each { ReadsEach }
{}

/// Of two encodings of one type neither begins the other, and an encoding has one value.
pub fn one_reading()
    ensures one { OneReading }
{}

/// A value has one list of canonical octets.
pub fn one_canonical()
    ensures one { OneCanonical }
{}

/// Values that fit have the same canonical octets exactly where they are equal after defaults are
/// filled in.
pub fn canonical_tells_filled()
    ensures canonical { CanonicalTellsFilled }
    ensures computed { EqualOctets }
{}

/// Canonical octets are an encoding of a value that is equal after defaults are filled in.
pub fn canonical_encodes()
    ensures encodes { CanonicalEncodes }
{}

/// What is filled fits, and filling twice is filling once.
pub fn filling()
    ensures fits { FilledFits }
    ensures twice { FilledTwice }
{}

/// Of a type with faults the one of least number is found, and there is one such fault. Of a type
/// without none is found, and it is well-formed where its numbers are in their ranges.
pub fn first_fault()
    ensures none { NoFaultFound }
    ensures first { FirstFaultFound }
    ensures one { OneFirstFault }
    ensures well_formed { FaultlessIsWellFormed }
{}

/// The defaults in a well-formed type fit their components' types.
pub fn defaults_fit()
    ensures fit { WellFormedDefaults }
{}

/// A value has no more parts, and holds no more octets, than its type and its encoding allow.
pub fn parts_bounded()
    ensures bounded { PartsBounded }
{}

/// The computed octets of a value that fits are its canonical octets, and no others are.
pub fn computed_octets()
    ensures given { CanonicalGiven }
    ensures computed { CanonicalComputed }
{}

/// What is found in an encoding by a path is what the path leads to; where it leads nowhere, the first
/// step that does decides.
pub fn finding_parts()
    ensures finds { FindsParts }
    ensures misses { MissesParts }
{}

/// The octets of parts that the type doesn't know stand unchanged in the canonical octets, and the
/// other way round, except those in a DEFAULT component that equals its default.
pub fn relaying()
    ensures keeps { KeepsUnknown }
{}

/// Rewriting leaves canonical octets unchanged, so rewriting twice is rewriting once.
pub fn rewriting()
    ensures stays { CanonicalStays }
    ensures twice { RewriteTwice }
{}

/// Octets are checked without making a value.
pub fn checking()
    ensures tells { CheckTells }
{}

/// A type reads what is encoded by one that has further additions or alternatives at its end, and that
/// one reads the sender's value in what the older type writes.
pub fn older_types()
    ensures sequence { OlderSequence }
    ensures choice { OlderChoice }
    ensures relayed { RelayedSequence }
    ensures relayed_choice { RelayedChoice }
{}

/// Worked examples, octet by octet.
pub fn worked_examples()
    ensures booleans { Booleans }
    ensures integers { Integers }
    ensures integer_forms { IntegerForms }
    ensures enumerations { Enumerations }
    ensures octet_strings { OctetStrings }
    ensures bit_strings { BitStrings }
    ensures object_ids { ObjectIds }
    ensures strings { Strings }
    ensures sequences { Sequences }
    ensures extensions { Extensions }
    ensures unknown_additions { UnknownAdditions }
    ensures lists { Lists }
    ensures choices { Choices }
    ensures checkings { Checkings }
    ensures farthest { Farthest }
    ensures paths_followed { PathsFollowed }
    ensures boundaries { Boundaries }
{}
