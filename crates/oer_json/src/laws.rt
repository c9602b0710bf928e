//! What holds of the JSON form. Each function does nothing; its contract is the law.

ghost use Rattle.oer_json.specs.Laws.{ArcsRead, ArcsSpelt, IntegersRead, IntegersSpelt, MadeTaken, OneTaken, TakenComplete, TakenSound};

/// The texts that are taken as integers and as object identifiers are those that are made, and no
/// others: decimal, without leading zeros, arcs with points between them.
pub fn taken_numerals_are_those_made()
    ensures integers_spelt { IntegersSpelt }
    ensures integers_read { IntegersRead }
    ensures arcs_spelt { ArcsSpelt }
    ensures arcs_read { ArcsRead }
{}

/// JSON that is taken as a value stands for the value, which fits the type.
pub fn what_is_taken_is_denoted()
    ensures { TakenSound }
{}

/// JSON that stands for a value of a well-formed type, one that fits, is taken as this value. So it
/// stands for no other one, and what is rejected stands for none.
pub fn what_is_denoted_is_taken()
    ensures taken { TakenComplete }
    ensures one { OneTaken }
{}

/// What is made of a value that fits a well-formed type stands for this value.
pub fn made_json_denotes_its_value()
    ensures { MadeTaken }
{}
