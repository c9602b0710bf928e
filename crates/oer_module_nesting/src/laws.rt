//! Each function does nothing; its contract is the law. They speak of a type of modules at a nesting, and of the same at a
//! nesting that isn't less, where it has a text at both.
ghost use Rattle.oer_module_nesting.specs.Example.{IsWrittenOut};
ghost use Rattle.oer_module_nesting.specs.Laws.{CanonicalAlike, EncodesAlike, FreeCanonical, FreeEncodes, IsDeeper};

/// At the greater nesting the type is the same with some of its ends replaced, and with the same defaults.
pub fn nesting()
    ensures deeper { IsDeeper }
{}

/// A value that meets no end of the type at the lesser nesting has the same encodings by both, and the same canonical octets
/// where no default of the type meets an end.
pub fn encodings()
    ensures encodes { EncodesAlike }
    ensures canonical { CanonicalAlike }
{}

/// An encoding by the type at the lesser nesting is one by the other, of the same value, and its canonical octets if it was,
/// where no CHOICE in the value has chosen the tag of an end. For canonical octets the defaults of the type have to fit, as
/// those of each well-formed type do, and no CHOICE in one may have chosen that tag.
pub fn free_values()
    ensures encodes { FreeEncodes }
    ensures canonical { FreeCanonical }
{}

/// A module with one type that contains itself, Nest ::= SEQUENCE OF Nest, at the nestings 1 and 2.
pub fn example()
    ensures once { IsWrittenOut 1 }
    ensures twice { IsWrittenOut 2 }
{}
