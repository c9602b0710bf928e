//! Laws. Each function does nothing; its contract is the law.
ghost use Rattle.oer_compare.specs.Laws.{ExtendedIsRead, ExtendedIsRelayed, ExtendsBothWays, ExtendsOnward, NoDifferenceExtends};

/// No difference is found exactly where the second type only adds to the first. Types that only add to
/// each other are the same, and each only adds to itself. What only adds to a type that only adds to
/// another, only adds to that other.
pub fn comparing()
    ensures complete { NoDifferenceExtends }
    ensures both_ways { ExtendsBothWays }
    ensures onward { ExtendsOnward }
{}

/// What a type encodes that only adds to another is an encoding of that other too. What the older type relays
/// is read by the newer one as the sender's value, filled, where in the older one only components have
/// defaults whose types hold no other.
pub fn older()
    ensures read { ExtendedIsRead }
    ensures relayed { ExtendedIsRelayed }
{}
