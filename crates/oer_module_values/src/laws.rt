//! What holds of types and numbers. Each function does nothing; its contract is the law.
ghost use Rattle.oer_module_values.specs.Laws.{IntegersAreSound, NumbersAreSole, NumbersAreSound, TypesAreComplete, TypesAreSole, TypesAreSound};

/// What is found for a type is what it means: what its definition does, through references and tags.
pub fn types_are_sound()
    ensures { TypesAreSound }
{}

/// What a type means is found, in a number of steps.
pub fn types_are_complete()
    ensures { TypesAreComplete }
{}

/// A type means one type, and on the way to it the same is given.
pub fn types_are_sole()
    ensures { TypesAreSole }
{}

/// A number that is found is that of the amount: of its digits, or of the value for which its name stands.
pub fn integers_are_sound()
    ensures { IntegersAreSound }
{}

/// A number that is found is that of the amount under its governor: an item's comes before a value's.
pub fn numbers_are_sound()
    ensures { NumbersAreSound }
{}

/// An amount denotes one number.
pub fn numbers_are_sole()
    ensures { NumbersAreSole }
{}
