//! What holds of the notation. Each function does nothing; its contract is the law.

ghost use Rattle.oer_notation.specs.Laws.{ParseSound, ParseAllSound, ParseComplete, ParseAllComplete, ParseRefuses, ParseAllRefuses, OneType};

use oer_lexer::laws::{text_falls_into_its_tokens, tokens_of_a_text_are_read};
use oer_types::laws::first_fault;

/// What is read of a text is a well-formed type that the text spells; and definitions that are read
/// are those that the text spells, their types well-formed.
pub fn what_is_parsed_is_spelled()
    ensures one { ParseSound }
    ensures all { ParseAllSound }
{
    text_falls_into_its_tokens();
    first_fault();
}

/// A well-formed type that a text spells is read of it, and so are definitions whose types are
/// well-formed: what is rejected spells none. A text spells at most one well-formed type.
pub fn what_is_spelled_is_parsed()
    ensures one { ParseComplete }
    ensures all { ParseAllComplete }
    ensures refused { ParseRefuses }
    ensures all_refused { ParseAllRefuses }
    ensures alone { OneType }
{
    tokens_of_a_text_are_read();
    first_fault();
}
