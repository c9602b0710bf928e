//! Each function does nothing but cite other laws; its contract is the law.
ghost use Rattle.oer_same_limits.specs.Laws.{TakesItsParts};

use oer_same_bounds::laws::{ranges_of_numbers_are_the_same, sizes_of_strings_are_the_same};
use oer_same_items::laws::{
    enumerated_types_are_the_same, items_are_the_same, named_items_are_there,
};
use oer_same_names::laws::{alternatives_are_meant, tags_are_theirs, types_are_meant};

/// The tree of a definition takes just the parts of the type that it says, where there is room for these and for its levels. Or it is
/// rejected: but not since types nest too deep, since there are too many parts, or for the number of a tag, as alternatives without tags
/// have their places as numbers, of which there are no more than parts; and where definitions are short (`AllShort`), not since its text
/// is too long. Places have to rise: then no type in it is one that it stands in, and none is written out to its end.
pub fn types_take_their_parts()
    ensures { TakesItsParts }
{
    types_are_meant();
    alternatives_are_meant();
    tags_are_theirs();
    items_are_the_same();
    named_items_are_there();
    ranges_of_numbers_are_the_same();
    sizes_of_strings_are_the_same();
    enumerated_types_are_the_same();
}
