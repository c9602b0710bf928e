//! What holds of the parts. Each function does nothing; its contract is the law.
ghost use Rattle.oer_module_parts.specs.Laws.{AutomaticSound, NumbersComplete, NumbersSound, NumbersUnique};

/// Where the items of an ENUMERATED were numbered, each has the number that X.680, 20.3 to 20.8, gives it.
pub fn numbers_are_those_of_the_items()
    ensures { NumbersSound }
{}

/// They have no others.
pub fn items_have_no_other_numbers()
    ensures { NumbersUnique }
{}

/// The automatic tags of the root, and then those of the additions, are 0, 1, 2 and so on in order.
pub fn automatic_tags_are_in_order()
    ensures { AutomaticSound }
{}

/// Where items have numbers, all below 2^127, these are found.
pub fn numbers_are_found()
    ensures { NumbersComplete }
{}
