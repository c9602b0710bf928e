//! What holds of the syntax. Each function does nothing; its contract is the law.
ghost use Rattle.oer_module_syntax.specs.Grammar.{GroupsWhole, ModulesSound};
ghost use Rattle.oer_module_syntax.specs.Matched.{GroupsMatch};
ghost use Rattle.oer_module_syntax.specs.Turns.{TurnsSuffice};

/// Of the brackets in what is kept as tokens from a bracket on, the last closes the first, and those
/// between them match: each is closed by one of its kind. `[[` and `]]` are two brackets.
pub fn groups_match()
    ensures { GroupsMatch }
{}

/// What stands in brackets, from one that opens to the one that closes it, is taken whole, and nothing
/// behind it.
pub fn groups_are_whole()
    ensures { GroupsWhole }
{}

/// What is read of a text is what its tokens spell, production by production, from the first to the
/// last: no token is lost, and none is read twice. No token is left out before the text's end.
pub fn modules_are_spelled()
    ensures { ModulesSound }
{}

/// Each turn of a list takes a token. So one turn more than there are tokens suffices: with any more,
/// the same is read.
pub fn turns_suffice()
    ensures { TurnsSuffice }
{}
