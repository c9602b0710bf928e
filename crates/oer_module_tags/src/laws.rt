//! What holds of tags. Each function does nothing; its contract is the law.
ghost use Rattle.oer_module_tags.specs.Laws.{AlternativesAreSound, TagsAreSole, TagsAreSound};

/// What is found for a type is its outermost tag.
pub fn tags_are_sound()
    ensures { TagsAreSound }
{}

/// A type has one outermost tag.
pub fn tags_are_sole()
    ensures { TagsAreSole }
{}

/// What is found for the alternatives of a CHOICE are their tags: automatic ones where those are called for, else the
/// outermost tags of their types.
pub fn alternatives_are_sound()
    ensures { AlternativesAreSound }
{}
