//! Each function does nothing; its contract is the law.
ghost use Rattle.oer_meant_leaves.specs.Laws.{EnumerationsAreSole, EnumerationsAreSound, LeavesAreSole, LeavesAreSound};
ghost use Rattle.oer_meant_leaves.specs.Laws.{RangesAreEffective, RangesAreSole};

/// The range found for the numbers, or the sizes, of what a type stands for is the effective one (X.680, 50 and 51; X.696, 8.2): the
/// least that has all whole numbers that its constraints allow.
pub fn ranges_are_effective()
    ensures { RangesAreEffective }
{}

/// The items found for an ENUMERATED are those in its braces, with the numbers that they have (X.680, 20).
pub fn enumerations_are_sound()
    ensures { EnumerationsAreSound }
{}

/// The type found for a type of a module that holds no other is the one that it is by X.680.
pub fn leaves_are_sound()
    ensures { LeavesAreSound }
{}

/// A type has one effective range.
pub fn ranges_are_sole()
    ensures { RangesAreSole }
{}

/// An ENUMERATED has one list of items, with one number each, and a marker or none.
pub fn enumerations_are_sole()
    ensures { EnumerationsAreSole }
{}

/// A type that holds no other is one of our types.
pub fn leaves_are_sole()
    ensures { LeavesAreSole }
{}
