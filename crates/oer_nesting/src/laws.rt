//! Each function does nothing; its contract is the law. They speak of two types, of which the second is the first with
//! some of its ends replaced, and of a value no part of which stands where the first has an end.
ghost use Rattle.oer_nesting.specs.Example.{NestsOnceMore};
ghost use Rattle.oer_nesting.specs.Laws.{CanonicalAlike, ChecksAlike, EncodesAlike, FilledAlike, FitsAlike, FreeDefaultsHaveNoEnd, FreeHasNoEnd, LeafDefaultsHaveNoEnd, NoneReplaced, ReadsAlike, RewritesAlike};

/// The value has the same encodings by both types, and fits the one exactly if it fits the other.
pub fn encodings()
    ensures fits { FitsAlike }
    ensures encodes { EncodesAlike }
{}

/// The value has the same canonical octets by both types, and is the same after defaults are filled in. No default of the
/// first type may have a part that stands where its component's type has an end.
pub fn canonical()
    ensures filled { FilledAlike }
    ensures canonical { CanonicalAlike }
{}

/// The reader gives the value by the one type exactly if it does by the other, with the same octets taken. These are
/// rewritten alike, and found to be canonical by both or by neither.
pub fn reading()
    ensures reads { ReadsAlike }
    ensures rewrites { RewritesAlike }
    ensures checks { ChecksAlike }
{}

/// Each type is itself with none of its ends replaced.
pub fn replacing()
    ensures none { NoneReplaced }
{}

/// Defaults meet no end where only components whose types hold no other have them.
pub fn leaf_defaults()
    ensures meet_none { LeafDefaultsHaveNoEnd }
{}

/// Defaults that fit meet no end where no CHOICE in one has chosen the tag of an end.
pub fn free_defaults()
    ensures meet_none { FreeDefaultsHaveNoEnd }
{}

/// A value in which no CHOICE has chosen the tag of an end meets no end of a type that it fits.
pub fn free_values()
    ensures meet_none { FreeHasNoEnd }
{}

/// A type that contains itself, written out any number of times and once more, and values that nest as often.
pub fn example()
    ensures nests { NestsOnceMore }
{}
