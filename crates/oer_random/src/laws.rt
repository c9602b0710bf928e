//! Laws on the values that seeds give. The function does nothing; its contract is the law.
ghost use Rattle.oer_random.specs.Laws.{RandomValuesFit, RandomValuesMeetNoEnd};

/// The values that seeds give of a well-formed type fit it. They meet no end of a nesting where the type
/// is found to have a value without one, and no default meets one.
pub fn random_values()
    ensures fit { RandomValuesFit }
    ensures meet_no_end { RandomValuesMeetNoEnd }
{}
