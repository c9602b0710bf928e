//! Definitions whose types may have so many parts together.
ghost use Rattle.std.specs.Prelude.{◌≡◌, ◌<◌, ◌≤◌, ◌+◌, [], IfErr, IfOk, MatchOption, None, Ok, length, suc};
ghost use Rattle.oer_notation.specs.Grammar.{SpellsAll};
ghost use Rattle.oer_notation.specs.Parsing.{parse_all};
ghost use Rattle.oer_model.specs.Nodes.{type_nodes};
ghost use Rattle.oer_notation.specs.Views.{knowns, shared_type};
ghost use Rattle.oer_notation.specs.Within.{AreNotWithin, IsMemory, IsReadWithin, entries_within, heavy_in, parse_within, parts_of};
ghost use Rattle.oer_notation.specs.declared.within.WithinFault.TheVariants.{Text};
ghost use Rattle.oer_value_notation.specs.State.{state_of};

use crate::known::{add_type, none};
use crate::laws::{what_is_parsed_is_spelled, what_is_spelled_is_parsed};
use crate::types::{Types, expect_end, first, read_entry};
use crate::weight::{heavy_at, room_for};
use oer_lexer::lex;
use oer_types::{MAX_PARTS, Schema, parts_left};
use oer_value_notation::{Cursor, TextFault, TextWhy};
use std::alloc::{AllocError, Global};
use std::sync::Arc;
use thiserror::Error;

/// Why definitions are rejected whose types may have so many parts together.
#[derive(Clone, Copy, Debug, PartialEq, Eq, Error)]
pub enum WithinFault {
    /// The text is rejected, however many parts its types may have.
    #[error("{0}")]
    Text(TextFault),
    /// With this definition the types have more parts, or the text stands for more octets than there is room for: the
    /// byte at which it begins.
    #[error("Parts at {0}")]
    Parts(usize),
}

impl From<TextFault> for WithinFault {
    ghost from_gives = { λ fault e. e ≡ Text fault };

    fn from(fault: TextFault) -> WithinFault {
        WithinFault::Text(fault)
    }
}

impl From<AllocError> for WithinFault {
    ghost from_gives = { λ _ e. IsMemory e };

    fn from(error: AllocError) -> WithinFault {
        WithinFault::Text(TextFault::from(error))
    }
}

/// The definitions that the text spells, as [`parse_types`](crate::parse_types) reads them, if their types have at
/// most `parts` parts together, and the text stands for at most 65,536 octets, and 64 more for each of these parts
/// (NOTATION.md, Limits). A Name stands for a copy of its type, with the names and defaults in it, so a short text
/// may spell many parts, and hold many octets; here the memory that a text can take is bounded. It fails
///
/// - with `Parts` at the first definition with which the text stands for more octets, which is looked at first;
/// - with `Text`, with the error of the text itself or with Memory;
/// - with `Parts` at the first definition with which the types have more parts.
pub fn parse_types_within(alloc: Global, text: &str, parts: u64) -> Result<Types, WithinFault>
    ensures exact { IsReadWithin knowns result (parse_within parts text.now) }
    ensures read { IfOk result (λ types. parse_all text.now ≡ Ok (knowns types)) }
    ensures spells { IfOk result (λ types. SpellsAll (knowns types) text.now) }
    ensures within { IfOk result (λ types. parts_of (knowns types) ≤ parts) }
    ensures light { IfOk result (λ types. heavy_in parts text.now ≡ None) }
    ensures refused { IfErr result (AreNotWithin parts text.now) }
{
    what_is_parsed_is_spelled();
    what_is_spelled_is_parsed();
    read_text_within(alloc, text, parts)
}

/// The definitions of a text.
#[tactic(auto, unfolding(crate::specs::Within::parse_within, crate::specs::Within::parse_parts))]
fn read_text_within(alloc: Global, text: &str, parts: u64) -> Result<Types, WithinFault>
    ensures { IsReadWithin knowns result (parse_within parts text.now) }
{
    let tokens = lex(alloc, text)?;
    if let Some(at) = heavy_at(alloc, tokens.spots.as_slice(), room_for(parts))? {
        return Err(WithinFault::Parts(at));
    }
    let mut cursor = first(&tokens);
    read_entries_within(alloc, &mut cursor, parts)
}

/// Of so many parts that definitions may have, what is left after that of this type.
fn left_after(schema: &Arc<Schema>, left: u64) -> Option<u64>
    ensures { MatchOption result (left < type_nodes (shared_type schema.now)) (λ rest. rest + type_nodes (shared_type schema.now) ≡ left) }
{
    let of_type = parts_left(schema.shape(), MAX_PARTS)?;
    left.checked_sub((MAX_PARTS - of_type) as u64)
}

fn read_entries_within(
    alloc: Global,
    cursor: &mut Cursor<'_, '_>,
    parts: u64,
) -> Result<Types, WithinFault>
    ensures { IsReadWithin knowns result
        (entries_within (suc (length (state_of cursor.old).left)) parts [] (state_of cursor.old)) }
{
    let mut definitions = none(alloc);
    let mut left = parts;
    'entries: for turn in 0..cursor.spots.len() + 1 {
        let at = cursor.fault(TextWhy::Syntax).at;
        let schema = read_entry(alloc, &mut definitions, cursor)?;
        let Some(rest) = left_after(&schema, left) else {
            return Err(WithinFault::Parts(at));
        };
        left = rest;
        add_type(&mut definitions, schema)?;
        if cursor.spots.is_empty() {
            expect_end(cursor)?;
            return Ok(Types { definitions });
        }
    }
    Err(WithinFault::Text(cursor.stop))
}
