//! What holds of ranges of sets. Each function does nothing; its contract is the law.
ghost use Rattle.oer_module_bounds.specs.Laws.{EffectiveIsLeast, HullIsLeast, LooseEffectiveHasEffective, LooseHasHull, OneHull};

/// The hull of a set has all numbers that the set allows, and each of its ends is one of these. It is none where the set
/// allows none, and an end is absent where there is no bound.
pub fn hull_is_least()
    ensures { HullIsLeast }
{}

/// The same of constraints in a row, and the numbers that each of them allows unless it is extensible.
pub fn effective_is_least()
    ensures { EffectiveIsLeast }
{}

/// No other range has this.
pub fn hull_is_one()
    ensures { OneHull }
{}

/// The hull of a set lies in the range as PER reads it.
pub fn loose_has_hull()
    ensures { LooseHasHull }
{}

/// The same of constraints in a row.
pub fn loose_effective_has_effective()
    ensures { LooseEffectiveHasEffective }
{}
