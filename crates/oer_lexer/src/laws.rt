//! What holds of tokens.
ghost use Rattle.oer_lexer.specs.Laws.{LexComplete, LexSound};

/// Where the whole text was read, it falls into the tokens that were read.
pub fn text_falls_into_its_tokens()
    ensures { LexSound }
{}

/// What falls into tokens is read as these, whole.
pub fn tokens_of_a_text_are_read()
    ensures { LexComplete }
{}
