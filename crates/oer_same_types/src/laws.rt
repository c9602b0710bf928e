//! Each function does nothing but cite other laws; its contract is the law.
ghost use Rattle.oer_same_types.specs.Laws.{SameType, UnsizedIsSound};

use oer_model::laws::first_fault;
use oer_same_bounds::laws::{ranges_of_numbers_are_the_same, sizes_of_strings_are_the_same};
use oer_same_defaults::laws::defaults_are_the_same;
use oer_same_items::laws::enumerated_types_are_the_same;
use oer_same_names::laws::{alternatives_are_meant, tags_are_theirs, types_are_meant};

/// The tree of a definition that says a type of the notation is given that type, without the sizes of its lists, or is rejected for a
/// limit of the reader of modules (`IsLimit` of `oer_same_items`); an ordinary type (`IsOrdinary`) only since it has too many levels or
/// parts, its text is too long, or a tag has a number of more than 32 bits. Places have to rise: then no type in it is one that it stands in, and none is written out to its end.
pub fn trees_are_given_their_types()
    ensures { SameType }
{
    types_are_meant();
    alternatives_are_meant();
    tags_are_theirs();
    defaults_are_the_same();
    ranges_of_numbers_are_the_same();
    sizes_of_strings_are_the_same();
    enumerated_types_are_the_same();
}

/// No fault is found in a well-formed type without the sizes of its lists.
pub fn types_without_sizes_are_sound()
    ensures { UnsizedIsSound }
{
    first_fault();
}
