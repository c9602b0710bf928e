//! What holds of names. Each function does nothing; its contract is the law.
ghost use Rattle.oer_at.specs.Laws.{FindsMeaning, FindsReached, MeansOneThing, ReachesMeant};

/// What is found for names is what they mean.
pub fn names_are_found_as_they_mean()
    ensures { FindsMeaning }
{}

/// In a well-formed type names mean one thing at most, and it is found.
pub fn names_mean_one_thing()
    ensures { MeansOneThing }
{}

/// What is found in an encoding is what the names reach there.
pub fn parts_are_found_as_reached()
    ensures { FindsReached }
{}

/// What names reach in an encoding is of the type that they mean.
pub fn parts_are_of_the_type_meant()
    ensures { ReachesMeant }
{}
