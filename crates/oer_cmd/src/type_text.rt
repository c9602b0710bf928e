//! The type that the options name.
ghost use Rattle.std.specs.Prelude.{◌≡◌, ◌≢◌, ℕ, List, IfErr, IfOk, MatchResult, None, Some, false, string_bytes};
ghost use Rattle.oer_types.specs.Schema.{the_type};
ghost use Rattle.oer_notation.specs.Grammar.{IsDefined, IsNew};
ghost use Rattle.oer_notation.specs.Parsing.{parse, parse_all};
ghost use Rattle.oer_notation.specs.Reading.{find};
ghost use Rattle.oer_notation.specs.Views.{knowns};
ghost use Rattle.oer_options.specs.Words.{behind, texts_of};
ghost use Rattle.oer_checker.specs.Check.{most};
ghost use Rattle.oer_cmd.specs.Answer.{expected_type, named_as, parsed, types_input, types_text};
ghost use Rattle.oer_cmd.specs.Expected.{Meets, Says, stop};
ghost use Rattle.oer_cmd.specs.Taking.{GivesAll, status_after};
ghost use Rattle.oer_cmd.specs.Types.{AreDefinedIn, DefinesNone, IsOnly, IsTypeIn, NamesNone, SpellsNone, lack_of, reads_types, texts_at};

use crate::fault::Fault;
use crate::octets::gathered;
use oer_options::Options;
use oer_text::laws::{what_is_parsed_is_spelled, what_is_spelled_is_parsed};
use oer_text::{TextFault, TextWhy, Types, parse_type, parse_types};
use oer_types::Schema;
use std::alloc::Global;
use std::io::Read;

/// Where the type stands.
#[derive(Clone, Copy)]
pub enum TypeText<'a> {
    /// In the text of one type.
    One(&'a str),
    /// Among definitions, under a Name.
    Named { types: &'a str, name: &'a str },
}

/// Where the options say that the type stands: in the text of `--type`, or among the definitions of
/// `--types` under the Name of `--name`. It fails with `OneType` where neither `--type` nor `--types`
/// is given or both are, with `NoTypes` where `--name` is given beside `--type`, and with `NoName` where it
/// isn't beside `--types`.
pub fn type_text(options: Options<'_>) -> Result<TypeText<'_>, Fault<'_>>
    ensures named { MatchResult result (λ text. texts_at text ≡ texts_of options.entry)
        (λ fault. (fault ≡ lack_of (texts_of options.entry)) × NamesNone (texts_of options.entry)) }
    ensures lacking { IfErr result (λ fault. expected_type (texts_of options.entry) ≡ stop fault) }
    ensures unread { IfErr result (λ fault. reads_types (texts_of options.entry) ≡ false) }
{
    if let Some(text) = options.type_text {
        if options.types.is_some() {
            return Err(Fault::OneType);
        }
        if options.name.is_some() {
            return Err(Fault::NoTypes);
        }
        return Ok(TypeText::One(text));
    }
    let Some(types) = options.types else {
        return Err(Fault::OneType);
    };
    let Some(name) = options.name else {
        return Err(Fault::NoName);
    };
    Ok(TypeText::Named { types, name })
}

#[tactic(auto, using(crate::proofs::Naming::only_type))]
/// The one well-formed type that the text spells; fails with `Type`, or with `Memory`.
pub fn one_type(alloc: Global, text: &str) -> Result<Schema, Fault<'_>>
    ensures exact { Meets the_type (parsed (parse text.now)) result }
    ensures says { Says the_type (parsed (parse text.now)) result }
    ensures spells { IfOk result (λ schema. IsOnly (IsTypeIn text.now) (the_type schema)) }
    ensures refused { IfErr result (λ fault. SpellsNone fault text.now) }
{
    what_is_parsed_is_spelled();
    what_is_spelled_is_parsed();
    match parse_type(alloc, text) {
        Ok(schema) => Ok(schema),
        Err(fault) => Err(Fault::of_text(fault)),
    }
}

#[tactic(auto, using(crate::proofs::Naming::only_definitions))]
/// The definitions of well-formed types that the text spells; fails with `Type`, or with `Memory`.
pub fn definitions<'a>(alloc: Global, text: &str) -> Result<Types, Fault<'a>>
    ensures exact { Meets knowns (parsed (parse_all text.now)) result }
    ensures says { Says knowns (parsed (parse_all text.now)) result }
    ensures spells { IfOk result (λ types. IsOnly (AreDefinedIn text.now) (knowns types)) }
    ensures refused { IfErr result (λ fault. DefinesNone fault text.now) }
{
    what_is_parsed_is_spelled();
    what_is_spelled_is_parsed();
    match parse_types(alloc, text) {
        Ok(types) => Ok(types),
        Err(fault) => Err(Fault::of_text(fault)),
    }
}

#[tactic(auto, using(crate::proofs::TypesInput::text_refused))]
// The text that the octets are. Where they aren't UTF-8, no token begins after their longest front that is.
fn text_of<'a>(octets: Vec<u8>) -> Result<String, Fault<'a>>
    ensures { Says string_bytes (types_text octets.items) result }
{
    match String::from_utf8(octets) {
        Ok(text) => Ok(text),
        Err(fault) => Err(Fault::Type(TextFault {
            at: fault.utf8_error().valid_up_to(),
            why: TextWhy::Token,
        })),
    }
}

/// The text of definitions of which `--types=-` says that the input has it: all that the input has left.
/// `source` is the text of `--hex` or `--json`. Without it the input has the octets or the JSON, and the
/// answer is `NoSource`. It fails with `Type` where the input isn't UTF-8, as a text does in which no token
/// begins there; with `Input` where the reader fails; with `Longer` where the input has 2^64 octets or more;
/// and with `Memory`.
pub fn types_on_input<'a, R: Read>(
    alloc: Global,
    source: Option<&str>,
    input: &mut R,
) -> Result<String, Fault<'a>>
    ensures exact { Meets string_bytes (types_input (behind source.entry) (R.remaining input.old)) result }
    ensures says { (b : List ℕ) → R.remaining input.old ≡ Some b → Says string_bytes (types_input (behind source.entry) (Some b)) result }
    ensures untouched { behind source.entry ≡ None → input.new ≡ input.old }
    ensures takes { behind source.entry ≢ None
        → GivesAll most (status_after result) (R.remaining input.old) (R.remaining input.new) }
{
    if source.is_none() {
        return Err(Fault::NoSource);
    }
    let octets = gathered(alloc, input, u64::MAX)?;
    text_of(octets)
}

/// The type that the Name has among the definitions; fails with `Unnamed` if none has it.
pub fn named_type<'t, 'a>(types: &'t Types, name: &'a str) -> Result<&'t Schema, Fault<'a>>
    ensures exact { Meets (λ schema. the_type schema.now) (named_as name.now (find (knowns types.now) name.now)) result }
    ensures says { Says (λ schema. the_type schema.now) (named_as name.now (find (knowns types.now) name.now)) result }
    ensures defined { MatchResult result (λ schema. IsDefined name.now (the_type schema.now) (knowns types.now))
        (λ fault. (fault ≡ Fault.Unnamed name.entry) × IsNew name.now (knowns types.now)) }
{
    match types.get(name) {
        Some(schema) => Ok(schema),
        None => Err(Fault::Unnamed(name)),
    }
}
