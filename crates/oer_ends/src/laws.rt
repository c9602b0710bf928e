//! Each function does nothing; its contract is the law.
ghost use Rattle.oer_ends.specs.Laws.{EndlessIsOpen, EndlessNests, OpenedIsDeeper, PlaceIsFound};

/// With an extension marker in each end a type is the same with its ends replaced, and where it has no end it is itself.
pub fn opening()
    ensures deeper { OpenedIsDeeper }
    ensures same { EndlessIsOpen }
{}

/// The place where octets nest deeper than a type is written out is the one that a plain function finds; there is none by a type
/// that has no end.
pub fn nesting()
    ensures found { PlaceIsFound }
    ensures none { EndlessNests }
{}
