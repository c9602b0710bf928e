//! From a text to its type, or to its definitions.
ghost use Rattle.std.specs.Prelude.{◌≡◌, [], IfErr, IfOk, MatchOption, MatchResult, Ok, OnOk, false, length, map, option_map, suc, true};
ghost use Rattle.oer_lexer.specs.Lexing.{lex};
ghost use Rattle.oer_lexer.specs.Token.{spots_of};
ghost use Rattle.oer_model.specs.WellFormed.{IsFirstFault, IsWellFormed};
ghost use Rattle.oer_types.specs.AnyFault.{any_fault};
ghost use Rattle.oer_types.specs.Schema.{shape_of, the_type};
ghost use Rattle.oer_values.specs.ShapeView.{type_of};
ghost use Rattle.oer_notation.specs.Defining.{HaveSameTypes, known_of};
ghost use Rattle.oer_notation.specs.Grammar.{IsDefined, IsNew, Spells, SpellsAll};
ghost use Rattle.oer_notation.specs.Refusing.{AreNoTypes, IsNoType};
ghost use Rattle.oer_value_notation.specs.State.{IsReading, state_of};
ghost use Rattle.oer_notation.specs.Reading.{find};
ghost use Rattle.oer_notation.specs.Parsing.{definition_at, end_of, entries_more, entry_at, name_at, parse, parse_all, start};
ghost use Rattle.oer_notation.specs.Views.{HasAllTypes, LacksOneType, given, known_by, knowns, next_name, shared_type};

use crate::known::{Definitions, add_name, add_type, define, find, find_shared, none};
use crate::laws::{what_is_parsed_is_spelled, what_is_spelled_is_parsed};
use crate::parse::{Start, begin, read_type};
use oer_lexer::{Sign, Token, Tokens, lex};
use oer_types::laws::first_fault;
use oer_types::{MAX_DEPTH, MAX_PARTS, Schema, SchemaFault, Shape, parts_left};
use oer_value_notation::{Cursor, TextFault, TextWhy, is_name};
use std::alloc::{AllocError, Global};
use std::sync::Arc;

/// A Name and its type.
#[derive(Drop)]
pub struct Definition {
    pub name: String,
    pub schema: Schema,
}

/// Types by their Names.
#[derive(Drop)]
pub struct Types {
    pub(crate) definitions: Definitions,
}

impl Types {
    /// The types of these definitions, which any text may name. Of several with one name the first counts.
    /// It fails where an allocation does.
    pub fn of(alloc: Global, definitions: Vec<Definition>) -> Result<Types, AllocError>
        ensures { IfOk result (λ types. HaveSameTypes (knowns types) (map known_of definitions.items)) }
    {
        let mut known = none(alloc);
        for definition in definitions {
            let Definition { name, schema } = definition;
            define(alloc, &mut known, name, schema)?;
        }
        Ok(Types { definitions: known })
    }

    /// The type that the Name was given, or `None` where the Name isn't defined.
    pub fn get(&self, name: &str) -> Option<&Schema>
        ensures found { option_map (λ s. the_type s.now) result ≡ find (knowns self.now) name.now }
        ensures defined { MatchOption result (IsNew name.now (knowns self.now)) (λ s. IsDefined name.now (the_type s.now) (knowns self.now)) }
    {
        find(&self.definitions, name)
    }
}

/// The type that the text spells (NOTATION.md): one type, in which no Name may stand. Of a text that
/// is rejected the error is the first one from the left, with the byte where it stands; or Memory.
pub fn parse_type(alloc: Global, text: &str) -> Result<Schema, TextFault>
    ensures exact { IsReading the_type result (parse text.now) }
    ensures spells { IfOk result (λ schema. Spells (the_type schema) text.now) }
    ensures refused { IfErr result (λ fault. IsNoType fault text.now) }
{
    what_is_parsed_is_spelled();
    what_is_spelled_is_parsed();
    read_text(alloc, text)
}

/// The definitions that the text spells (NOTATION.md): one or more `Name ::= type`, in which earlier
/// Names may stand for their types. The fault is the first one from the left, or Memory.
pub fn parse_types(alloc: Global, text: &str) -> Result<Types, TextFault>
    ensures exact { IsReading knowns result (parse_all text.now) }
    ensures spells { IfOk result (λ types. SpellsAll (knowns types) text.now) }
    ensures refused { IfErr result (λ fault. AreNoTypes fault text.now) }
{
    what_is_parsed_is_spelled();
    what_is_spelled_is_parsed();
    read_definitions(alloc, text)
}

/// The type of a text.
#[tactic(auto, unfolding(crate::specs::Parsing::parse))]
fn read_text(alloc: Global, text: &str) -> Result<Schema, TextFault>
    ensures { IsReading the_type result (parse text.now) }
{
    let tokens = lex(alloc, text)?;
    let mut cursor = first(&tokens);
    let known = none(alloc);
    let schema = read_definition(alloc, &known, &mut cursor)?;
    expect_end(&cursor)?;
    Ok(schema)
}

/// The definitions of a text.
#[tactic(auto, unfolding(crate::specs::Parsing::parse_all))]
fn read_definitions(alloc: Global, text: &str) -> Result<Types, TextFault>
    ensures { IsReading knowns result (parse_all text.now) }
{
    let tokens = lex(alloc, text)?;
    let mut cursor = first(&tokens);
    read_entries(alloc, &mut cursor)
}

/// Before the first token.
pub(crate) fn first<'s, 't>(tokens: &'s Tokens<'t>) -> Cursor<'s, 't>
    ensures { state_of result ≡ start (record { spots = spots_of tokens.now.spots.items; end = tokens.now.end; complete = tokens.now.complete }) }
{
    let why = if tokens.complete {
        TextWhy::Syntax
    } else {
        TextWhy::Token
    };
    Cursor {
        spots: tokens.spots.as_slice(),
        parts: MAX_PARTS,
        stop: TextFault {
            at: tokens.end,
            why,
        },
    }
}

/// Whether the text ends here.
pub(crate) fn expect_end(cursor: &Cursor<'_, '_>) -> Result<(), TextFault>
    ensures { IsReading (λ x. x) result (end_of (state_of cursor.now)) }
{
    if cursor.peek().is_some() {
        return Err(cursor.fault(TextWhy::Syntax));
    }
    match cursor.stop.why {
        TextWhy::Syntax => Ok(()),
        _ => Err(cursor.stop),
    }
}

/// The type of a shape. One that is sound isn't walked through again, and what it has from Names neither.
fn schema_of(shape: Shape, sound: bool) -> Result<Schema, (SchemaFault, Shape)>
    requires { sound ≡ true → any_fault (type_of shape) ≡ false }
    ensures { MatchResult result (λ schema. (shape_of schema ≡ shape) × IsWellFormed (type_of shape))
        (λ refused. IsFirstFault (type_of shape) refused.0 × (refused.1 ≡ shape)) }
{
    if sound {
        return Schema::of_sound(shape);
    }
    Schema::new(shape)
}

/// A well-formed type.
#[tactic(auto, unfolding(crate::specs::Parsing::definition_at))]
fn read_definition(
    alloc: Global,
    types: &Definitions,
    cursor: &mut Cursor<'_, '_>,
) -> Result<Schema, TextFault>
    ensures { IsReading (λ s. (the_type s, state_of cursor.new)) result (definition_at (known_by types.now) (state_of cursor.old)) }
{
    let at = cursor.fault(TextWhy::Syntax).at;
    cursor.parts = MAX_PARTS;
    let mut sound = true;
    let shape = read_type(alloc, types, cursor, MAX_DEPTH, &mut sound)?;
    // The law that the fault found is the one that `schema_of` names.
    first_fault();
    match schema_of(shape, sound) {
        Ok(schema) => Ok(schema),
        Err((fault, _)) => Err(TextFault {
            at,
            why: TextWhy::Schema(fault),
        }),
    }
}

/// A Name that isn't defined yet, which becomes that of the next definition.
#[tactic(auto, unfolding(crate::specs::Parsing::name_at))]
fn read_new_name(
    alloc: Global,
    types: &mut Definitions,
    cursor: &mut Cursor<'_, '_>,
) -> Result<(), TextFault>
    requires { HasAllTypes types.old }
    ensures read { IsReading (λ _. (next_name types.new, state_of cursor.new)) result (name_at (known_by types.old) (state_of cursor.old)) }
    ensures same { OnOk result (known_by types.new ≡ known_by types.old) }
    ensures next { OnOk result (LacksOneType types.new) }
{
    let Some(Token::Word(word)) = cursor.peek() else {
        return Err(cursor.fault(TextWhy::Syntax));
    };
    if !is_name(word) {
        return Err(cursor.fault(TextWhy::Syntax));
    }
    let name = String::from_str(alloc, word)?;
    if !add_name(types, name)? {
        return Err(cursor.fault(TextWhy::Repeated));
    }
    cursor.bump();
    Ok(())
}

/// The type of a definition that is only the Name of an earlier one, whose type it shares. `None` where
/// it isn't, or where its fault is yet to be found; then the cursor stays.
fn take_alias(types: &Definitions, cursor: &mut Cursor<'_, '_>) -> Option<Arc<Schema>>
    ensures { MatchOption result (state_of cursor.new ≡ state_of cursor.old)
        (λ s. definition_at (known_by types.now) (state_of cursor.old) ≡ Ok (shared_type s, state_of cursor.new)) }
{
    let Start::Name(name) = begin(cursor) else {
        return None;
    };
    let schema = find_shared(types, name)?;
    let left = parts_left(schema.shape(), MAX_PARTS)?;
    let Ok(shared) = Arc::try_clone(schema) else {
        return None;
    };
    // The law that no fault is found of a well-formed type.
    first_fault();
    cursor.parts = left;
    cursor.bump();
    Some(shared)
}

/// The type of a definition, which isn't copied where it is only a Name.
fn read_meaning(
    alloc: Global,
    types: &Definitions,
    cursor: &mut Cursor<'_, '_>,
) -> Result<Arc<Schema>, TextFault>
    ensures { IsReading (λ s. (shared_type s, state_of cursor.new)) result (definition_at (known_by types.now) (state_of cursor.old)) }
{
    if let Some(schema) = take_alias(types, cursor) {
        return Ok(schema);
    }
    let schema = read_definition(alloc, types, cursor)?;
    Ok(Arc::new(alloc, schema)?)
}

/// A Name and its type, which is yet to be added.
#[tactic(auto, unfolding(crate::specs::Parsing::entry_at))]
pub(crate) fn read_entry(
    alloc: Global,
    types: &mut Definitions,
    cursor: &mut Cursor<'_, '_>,
) -> Result<Arc<Schema>, TextFault>
    requires { HasAllTypes types.old }
    ensures read { IsReading (λ s. (given types.new s, state_of cursor.new)) result (entry_at (known_by types.old) (state_of cursor.old)) }
    ensures same { OnOk result (known_by types.new ≡ known_by types.old) }
    ensures next { OnOk result (LacksOneType types.new) }
{
    read_new_name(alloc, types, cursor)?;
    cursor.expect(Sign::Assign)?;
    read_meaning(alloc, types, cursor)
}

fn read_entries(alloc: Global, cursor: &mut Cursor<'_, '_>) -> Result<Types, TextFault>
    ensures { IsReading knowns result (entries_more (suc (length (state_of cursor.old).left)) [] (state_of cursor.old)) }
{
    let mut definitions = none(alloc);
    'entries: for turn in 0..cursor.spots.len() + 1 {
        let schema = read_entry(alloc, &mut definitions, cursor)?;
        add_type(&mut definitions, schema)?;
        if cursor.spots.is_empty() {
            expect_end(cursor)?;
            return Ok(Types { definitions });
        }
    }
    Err(cursor.stop)
}
