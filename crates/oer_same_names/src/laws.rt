//! Each function does nothing; its contract is the law.
ghost use Rattle.oer_same_names.specs.Laws.{AlternativesAreMeant, NamesAreFound, NamesAreFoundAnywhere, TagsAreTheirs, TypesAreMeant};

/// For the Name of a definition an assignment is found in a module that says definitions of the notation. It has no parameters, and says
/// the type of the definition by those before it. Where the first definitions have the Name, it is one of theirs.
pub fn names_are_found()
    ensures { NamesAreFound }
{}

/// The same of a Name that is sought in all modules.
pub fn names_are_found_anywhere()
    ensures { NamesAreFoundAnywhere }
{}

/// What is found for a tree that says a type of the notation: a tree that says this type and is neither a tag nor a Name. It is the
/// tree itself, or that of a definition before it. On the way nothing is given but empty constraints. Nothing is found only where the
/// way has more than 255 steps (`Circular`), which takes 254 definitions before the tree.
pub fn types_are_meant()
    ensures { TypesAreMeant }
{}

/// The same of the type of an alternative, which may have a tag before it.
pub fn alternatives_are_meant()
    ensures { AlternativesAreMeant }
{}

/// The tags that are found for the alternatives of a CHOICE are those of the notation, in order. None are found only where one has a
/// number of more than 32 bits (`TagNumber`), which takes as many alternatives.
pub fn tags_are_theirs()
    ensures { TagsAreTheirs }
{}
