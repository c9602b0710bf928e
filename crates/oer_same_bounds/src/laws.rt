//! Each function does nothing; its contract is the law. They speak of a type that is written so, or for which names stand, behind
//! which no constraint stands, and say nothing where the reader of modules has an error.
ghost use Rattle.oer_same_bounds.specs.Laws.{SameRange, SameSizes};

/// An INTEGER of modules, with bounds behind it as the notation has them, has the range that they are there.
pub fn ranges_of_numbers_are_the_same()
    ensures { SameRange }
{}

/// A string of modules, with a size behind it as the notation has it, has the range of that size.
pub fn sizes_of_strings_are_the_same()
    ensures { SameSizes }
{}
