//! Each function does nothing; its contract is the law.
ghost use Rattle.oer_same_trees.specs.Laws.{BracketsApart, OneList, OneType, ReadsDefinitions, ReadsParsed, ReadsTexts, ReadsType};

use oer_notation::laws::what_is_parsed_is_spelled;
use oer_same_tokens::laws::tokens_of_the_notation_are_those_of_modules;

/// A type of the notation is read as a type of a module, from the same tokens, and its tree says the same type. The Names in it
/// aren't reserved words of modules, and levels suffice: two for each level of the type, since a tag takes one.
pub fn types_are_read()
    ensures { ReadsType }
{}

/// Definitions of the notation in a module are read as that module, and each assignment says the type of its definition.
pub fn definitions_are_read()
    ensures { ReadsDefinitions }
{}

/// The text of such a module is read so, from its tokens. It may have no vertical tabulation and no form feed.
pub fn texts_are_read()
    ensures { ReadsTexts }
{
    tokens_of_the_notation_are_those_of_modules();
}

/// Definitions that our own parser reads of a text are read of it in a module, too, between a header and END.
pub fn what_is_parsed_is_read()
    ensures { ReadsParsed }
{
    what_is_parsed_is_spelled();
    tokens_of_the_notation_are_those_of_modules();
}

/// A tree says at most one type of the notation, and the assignments of a module at most one list of definitions.
pub fn what_trees_say_is_one()
    ensures one { OneType }
    ensures all { OneList }
{}

/// In definitions of the notation no square bracket stands behind one of its kind, where modules would have another sign.
pub fn brackets_are_apart()
    ensures { BracketsApart }
{}
