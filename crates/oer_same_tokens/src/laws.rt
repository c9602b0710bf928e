//! Each function does nothing; its contract is the law.
ghost use Rattle.oer_same_tokens.specs.Example.{ReadsExamples};
ghost use Rattle.oer_same_tokens.specs.Laws.{SameBehind, SameTokens};

/// What falls into tokens of the notation is read as the same tokens by the lexer of modules, whole. The text may have no
/// vertical tabulation and no form feed, and among the tokens no square bracket may stand behind one of its kind.
pub fn tokens_of_the_notation_are_those_of_modules()
    ensures { SameTokens }
{}

/// Tokens behind others stand for tokens behind those of the others.
pub fn tokens_are_kept_apart()
    ensures { SameBehind }
{}

/// A definition is read alike by both lexers. A text with a vertical tabulation isn't, nor is one in which a bracket stands
/// behind one of its kind.
pub fn examples()
    ensures { ReadsExamples }
{}
