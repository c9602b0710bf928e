//! Each function does nothing; its contract is the law.
ghost use Rattle.oer_same_items.specs.Laws.{HasItem, SameEnumerated, SameItem, SameItems};

/// The items of an ENUMERATED have the same names and numbers in a module, in the same order, and there is an extension marker
/// in both or in neither. They are rejected only for a limit of the reader of modules (`IsLimit`); and those that
/// X.680, 20 numbers (`AreOrdinary`) not for their numbers.
pub fn items_are_the_same()
    ensures { SameItems }
{}

/// An ENUMERATED is the same type in a module whose header doesn't say EXTENSIBILITY IMPLIED, or is rejected for a limit.
pub fn enumerated_types_are_the_same()
    ensures { SameEnumerated }
{}

/// The name of an item is read as one of the type's own.
pub fn named_items_are_there()
    ensures { HasItem }
{}

/// After DEFAULT the name of an item stands for the same value in a module, or is rejected for a limit.
pub fn named_items_are_the_same()
    ensures { SameItem }
{}
