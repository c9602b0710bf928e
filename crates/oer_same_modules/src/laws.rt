//! Each function does nothing but cite other laws; its contract is the law.
ghost use Rattle.oer_same_modules.specs.Laws.{OrdinaryAsParser, SameAsParser, ShortAsParser};

use oer_module_places::laws::places_rise;
use oer_notation::laws::what_is_parsed_is_spelled;
use oer_same_limits::laws::types_take_their_parts;
use oer_same_names::laws::names_are_found_anywhere;
use oer_same_trees::laws::what_is_parsed_is_read;
use oer_same_types::laws::{trees_are_given_their_types, types_without_sizes_are_sound};

/// In a module whose body is definitions that our own parser reads, a Name has the type that the parser gives it, but for the sizes of
/// lists, which types of modules leave out. Or it is rejected with one of the reasons of `IsLimit` (`oer_same_items`), but not since types
/// nest too deep, there are too many parts, the number of a tag is too large, or the type isn't well-formed. The header has AUTOMATIC TAGS
/// and nothing else, no Name is a reserved word of X.680, and the text has no vertical tabulation or form feed, which mean something
/// else in modules (X.680, 12.1.6).
pub fn modules_give_the_types_of_the_notation()
    ensures { SameAsParser }
{
    what_is_parsed_is_spelled();
    what_is_parsed_is_read();
    names_are_found_anywhere();
    places_rise();
    trees_are_given_their_types();
    types_take_their_parts();
    types_without_sizes_are_sound();
}

/// Where definitions are ordinary (`IsOrdinaryIn`), the only reason left is `TooLong`, for the text of the type.
pub fn ordinary_types_are_given()
    ensures { OrdinaryAsParser }
{
    what_is_parsed_is_spelled();
    what_is_parsed_is_read();
    names_are_found_anywhere();
    places_rise();
    trees_are_given_their_types();
    types_take_their_parts();
    types_without_sizes_are_sound();
}

/// Where they are short, too (`AreShortIn`), no reason is left: the Name has the type that the parser gives it. Short are names of at most
/// 60 octets, and values after DEFAULT of as many, with a space for each token. Then at most 256 octets are written for each of the 4,096
/// parts that a type may have.
pub fn short_types_are_given()
    ensures { ShortAsParser }
{
    what_is_parsed_is_spelled();
    what_is_parsed_is_read();
    names_are_found_anywhere();
    places_rise();
    trees_are_given_their_types();
    types_take_their_parts();
    types_without_sizes_are_sound();
}
