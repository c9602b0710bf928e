//! From tokens to a value.
ghost use Rattle.std.specs.Prelude.{◌≡◌, suc, length, map};
ghost use Rattle.std.specs.Option.{option_map};
ghost use Rattle.oer_module_syntax.specs.Modules.{many};
ghost use Rattle.oer_module_syntax.specs.State.{IsReading, fault, first, state_of};
ghost use Rattle.oer_module_terms.specs.Looks.{no_comma};
ghost use Rattle.oer_module_terms.specs.Trees.{amount_of, atom_of, member_of, value_of};
ghost use Rattle.oer_module_terms.specs.Values.{alternative_by, amount_at, atom_at, atom_by, braces_at, choice_at, enclosed_at, fixed_of, later_member_at, member_at, member_ends, minus_by, named_at, negative_by, numbered_at, part_at, single_at, some_members_at, value_at, worded_at};

use crate::look::{is_at_numbered, take_path};
use crate::tree::{Amount, Atom, Fixed, Member, Value};
use oer_module_lexer::{Sign, Token};
use oer_module_syntax::{Cursor, Fault, Sought, Why, after, names_value};
use std::alloc::Global;

fn no_value(cursor: &Cursor<'_, '_>) -> Fault
    ensures { result ≡ fault (Why.Expected Sought.Value) (state_of cursor.now) }
{
    cursor.fault(Why::Expected(Sought::Value))
}

/// A value by its name, and the steps behind that.
#[tactic(auto, unfolding(crate::specs::Values::named_at))]
fn read_named<'s, 't>(cursor: &mut Cursor<'s, 't>, name: &'t str) -> Result<Amount<'s, 't>, Fault>
    ensures { IsReading (λ a. (amount_of a, state_of cursor.new)) result (named_at name.now (state_of cursor.old)) }
{
    if !names_value(name, cursor) {
        return Err(no_value(cursor));
    }
    cursor.bump();
    let path = take_path(cursor);
    Ok(Amount::Named { name, path })
}

/// The number after a hyphen.
fn read_negative<'s, 't>(cursor: &mut Cursor<'s, 't>) -> Result<Amount<'s, 't>, Fault>
    ensures { IsReading (λ a. (amount_of a, state_of cursor.new)) result (negative_by (first (state_of cursor.old)) (state_of cursor.old)) }
{
    let Some(Token::Number(digits)) = cursor.peek() else {
        return Err(no_value(cursor));
    };
    cursor.bump();
    Ok(Amount::Number {
        negative: true,
        digits,
    })
}

/// A number, or the name of a value; signed: a hyphen may stand before the number.
#[tactic(auto, unfolding(crate::specs::Values::amount_at))]
fn read_amount<'s, 't>(cursor: &mut Cursor<'s, 't>, signed: bool) -> Result<Amount<'s, 't>, Fault>
    ensures { IsReading (λ a. (amount_of a, state_of cursor.new)) result (amount_at signed (state_of cursor.old)) }
{
    if signed && cursor.is_at(Sign::Hyphen) {
        cursor.bump();
        return read_negative(cursor);
    }
    match cursor.peek() {
        Some(Token::Number(digits)) => {
            cursor.bump();
            Ok(Amount::Number {
                negative: false,
                digits,
            })
        }
        Some(Token::Word(name)) => read_named(cursor, name),
        _ => Err(no_value(cursor)),
    }
}

/// A number in parentheses, or the name of one.
#[tactic(auto, unfolding(crate::specs::Values::enclosed_at))]
pub fn read_enclosed<'s, 't>(
    cursor: &mut Cursor<'s, 't>,
    signed: bool,
) -> Result<Amount<'s, 't>, Fault>
    ensures { IsReading (λ a. (amount_of a, state_of cursor.new)) result (enclosed_at signed (state_of cursor.old)) }
{
    cursor.expect(Sign::OpenParenthesis)?;
    let number = read_amount(cursor, signed)?;
    cursor.expect(Sign::CloseParenthesis)?;
    Ok(number)
}

/// The value that this word is, if it is one of those that are reserved.
#[tactic(auto, unfolding(crate::specs::Values::fixed_of))]
fn fixed_of(word: &str) -> Option<Fixed>
    ensures { result ≡ fixed_of word.now }
{
    if word == "TRUE" {
        return Some(Fixed::True);
    }
    if word == "FALSE" {
        return Some(Fixed::False);
    }
    if word == "NULL" {
        return Some(Fixed::Null);
    }
    if word == "PLUS-INFINITY" {
        return Some(Fixed::PlusInfinity);
    }
    if word == "MINUS-INFINITY" {
        return Some(Fixed::MinusInfinity);
    }
    if word == "NOT-A-NUMBER" {
        return Some(Fixed::NotANumber);
    }
    None
}

/// A value that is a word, or begins with it.
fn read_worded<'s, 't>(cursor: &mut Cursor<'s, 't>, word: &'t str) -> Result<Atom<'s, 't>, Fault>
    ensures { IsReading (λ a. (atom_of a, state_of cursor.new)) result (worded_at (fixed_of word.now) word.now (state_of cursor.old)) }
{
    if let Some(fixed) = fixed_of(word) {
        cursor.bump();
        return Ok(Atom::Fixed(fixed));
    }
    let named = read_named(cursor, word)?;
    Ok(Atom::Amount(named))
}

/// What follows a hyphen.
fn read_minus<'s, 't>(cursor: &mut Cursor<'s, 't>) -> Result<Atom<'s, 't>, Fault>
    ensures { IsReading (λ a. (atom_of a, state_of cursor.new)) result (minus_by (first (state_of cursor.old)) (state_of cursor.old)) }
{
    let negative = true;
    let atom = match cursor.peek() {
        Some(Token::Number(digits)) => Atom::Amount(Amount::Number { negative, digits }),
        Some(Token::Real(digits)) => Atom::Real { negative, digits },
        _ => return Err(no_value(cursor)),
    };
    cursor.bump();
    Ok(atom)
}

/// A value that is one token or begins with a word.
fn read_unsigned<'s, 't>(cursor: &mut Cursor<'s, 't>) -> Result<Atom<'s, 't>, Fault>
    ensures { IsReading (λ a. (atom_of a, state_of cursor.new)) result (atom_by (first (state_of cursor.old)) (state_of cursor.old)) }
{
    let negative = false;
    let atom = match cursor.peek() {
        Some(Token::Word(word)) => return read_worded(cursor, word),
        Some(Token::Number(digits)) => Atom::Amount(Amount::Number { negative, digits }),
        Some(Token::Real(digits)) => Atom::Real { negative, digits },
        Some(Token::Bits(text)) => Atom::Bits(text),
        Some(Token::Digits(text)) => Atom::Digits(text),
        Some(Token::Text(text)) => Atom::Text(text),
        _ => return Err(no_value(cursor)),
    };
    cursor.bump();
    Ok(atom)
}

/// A value that holds no other.
#[tactic(auto, unfolding(crate::specs::Values::single_at))]
fn read_single<'s, 't>(cursor: &mut Cursor<'s, 't>) -> Result<Atom<'s, 't>, Fault>
    ensures { IsReading (λ a. (atom_of a, state_of cursor.new)) result (single_at (state_of cursor.old)) }
{
    if cursor.take(Sign::Hyphen) {
        return read_minus(cursor);
    }
    read_unsigned(cursor)
}

#[tactic(auto, using(crate::proofs::Views::views))]
fn read_atom<'s, 't>(cursor: &mut Cursor<'s, 't>) -> Result<Value<'s, 't>, Fault>
    ensures { IsReading (λ v. (value_of v, state_of cursor.new)) result (atom_at (state_of cursor.old)) }
{
    let at = cursor.place();
    let atom = read_single(cursor)?;
    Ok(Value::Atom { at, atom })
}

/// A name and its number in parentheses.
#[tactic(auto, unfolding(crate::specs::Values::numbered_at), using(crate::proofs::Views::views))]
fn read_numbered<'s, 't>(cursor: &mut Cursor<'s, 't>) -> Result<Value<'s, 't>, Fault>
    ensures { IsReading (λ v. (value_of v, state_of cursor.new)) result (numbered_at (state_of cursor.old)) }
{
    let at = cursor.place();
    let name = cursor.identifier()?;
    let number = read_enclosed(cursor, false)?;
    Ok(Value::Numbered { at, name, number })
}

/// The word before a colon, if these are next.
fn alternative<'t>(cursor: &Cursor<'_, 't>) -> Option<&'t str>
    ensures { option_map (λ w. w.now) result ≡ alternative_by (first (state_of cursor.now)) (state_of cursor.now) }
{
    match cursor.peek() {
        Some(Token::Word(word)) => if after(cursor).is_at(Sign::Colon) {
            Some(word)
        } else {
            None
        },
        _ => None,
    }
}

/// A value, in which so many levels of values may nest; each value takes one (X.680, 17.7). A name is that of a value
/// if it begins with a small letter, or is a module's with such a name behind it.
///
/// # Errors
/// The first fault from the left: `TooDeep` where a level is one too many, `Expected` at a token that can't go on, and
/// `Memory`. Where the tokens end before the value does, the fault is that of their end.
#[cycle(reading)]
#[tactic(auto, unfolding(crate::specs::Values::value_at, crate::specs::Values::any_value_at, crate::specs::Values::unbraced_by))]
pub fn read_value<'s, 't>(
    alloc: Global,
    cursor: &mut Cursor<'s, 't>,
    levels: u8,
) -> Result<Value<'s, 't>, Fault>
    ensures { IsReading (λ v. (value_of v, state_of cursor.new)) result (value_at levels (state_of cursor.old)) }
{
    if levels == 0 {
        return Err(cursor.fault(Why::TooDeep));
    }
    let at = cursor.place();
    if cursor.take(Sign::OpenBrace) {
        return read_braces(alloc, cursor, levels - 1, at);
    }
    if let Some(name) = alternative(cursor) {
        return read_choice(alloc, cursor, levels - 1, name);
    }
    read_atom(cursor)
}

/// A word, a colon and a value, at the word.
#[cycle(reading)]
#[tactic(auto, unfolding(crate::specs::Values::choice_at), using(crate::proofs::Views::views))]
fn read_choice<'s, 't>(
    alloc: Global,
    cursor: &mut Cursor<'s, 't>,
    levels: u8,
    name: &'t str,
) -> Result<Value<'s, 't>, Fault>
    ensures { IsReading (λ v. (value_of v, state_of cursor.new)) result (choice_at (value_at levels) name.now (state_of cursor.old)) }
{
    let at = cursor.place();
    cursor.bump();
    cursor.bump();
    let value = read_value(alloc, cursor, levels)?;
    Ok(Value::Choice {
        at,
        name,
        value: Box::new(alloc, value)?,
    })
}

/// What braces hold, after the opening one.
#[cycle(reading)]
#[tactic(auto, unfolding(crate::specs::Values::braces_at), using(crate::proofs::Views::views))]
fn read_braces<'s, 't>(
    alloc: Global,
    cursor: &mut Cursor<'s, 't>,
    levels: u8,
    at: usize,
) -> Result<Value<'s, 't>, Fault>
    ensures { IsReading (λ v. (value_of v, state_of cursor.new)) result (braces_at (value_at levels) at (state_of cursor.old)) }
{
    if cursor.take(Sign::CloseBrace) {
        return Ok(Value::Braces {
            at,
            members: Vec::new(alloc),
        });
    }
    let members = read_members(alloc, cursor, levels)?;
    cursor.expect(Sign::CloseBrace)?;
    Ok(Value::Braces { at, members })
}

/// One or more, joined by commas.
#[cycle(reading)]
#[tactic(auto, unfolding(crate::specs::Values::some_members_at))]
fn read_members<'s, 't>(
    alloc: Global,
    cursor: &mut Cursor<'s, 't>,
    levels: u8,
) -> Result<Vec<Member<'s, 't>>, Fault>
    ensures { IsReading (λ v. (map member_of v.items, state_of cursor.new)) result (some_members_at (value_at levels) (state_of cursor.old)) }
{
    let mut found = Vec::new(alloc);
    let first = read_member(alloc, cursor, levels)?;
    found.push(first)?;
    read_more_members(alloc, cursor, levels, &mut found)?;
    Ok(found)
}

/// Those behind commas, beside those found.
#[cycle(reading)]
fn read_more_members<'s, 't>(
    alloc: Global,
    cursor: &mut Cursor<'s, 't>,
    levels: u8,
    found: &mut Vec<Member<'s, 't>>,
) -> Result<(), Fault>
    ensures { IsReading (λ x. (map member_of found.new.items, state_of cursor.new)) result (many no_comma (later_member_at (value_at levels)) (suc (length (state_of cursor.old).left)) (map member_of found.old.items) (state_of cursor.old)) }
{
    'more: for turn in 0..cursor.spots.len() + 1 {
        if !cursor.is_at(Sign::Comma) {
            return Ok(());
        }
        cursor.bump();
        let member = read_member(alloc, cursor, levels)?;
        found.push(member)?;
    }
    unreachable!()
}

/// The parts up to a comma or the closing brace.
#[cycle(reading)]
#[tactic(auto, unfolding(crate::specs::Values::member_at), using(crate::proofs::Views::views))]
fn read_member<'s, 't>(
    alloc: Global,
    cursor: &mut Cursor<'s, 't>,
    levels: u8,
) -> Result<Member<'s, 't>, Fault>
    ensures { IsReading (λ m. (member_of m, state_of cursor.new)) result (member_at (value_at levels) (state_of cursor.old)) }
{
    let mut parts = Vec::new(alloc);
    let first = read_part(alloc, cursor, levels)?;
    parts.push(first)?;
    read_more_parts(alloc, cursor, levels, &mut parts)?;
    Ok(Member { parts })
}

fn is_at_member_end(cursor: &Cursor<'_, '_>) -> bool
    ensures { result ≡ member_ends (state_of cursor.now) }
{
    cursor.is_at(Sign::Comma) || cursor.is_at(Sign::CloseBrace)
}

/// Further parts, beside those found.
#[cycle(reading)]
fn read_more_parts<'s, 't>(
    alloc: Global,
    cursor: &mut Cursor<'s, 't>,
    levels: u8,
    found: &mut Vec<Value<'s, 't>>,
) -> Result<(), Fault>
    ensures { IsReading (λ x. (map value_of found.new.items, state_of cursor.new)) result (many member_ends (part_at (value_at levels)) (suc (length (state_of cursor.old).left)) (map value_of found.old.items) (state_of cursor.old)) }
{
    'more: for turn in 0..cursor.spots.len() + 1 {
        if is_at_member_end(cursor) {
            return Ok(());
        }
        let part = read_part(alloc, cursor, levels)?;
        found.push(part)?;
    }
    unreachable!()
}

/// A value, or a name and its number.
#[cycle(reading)]
#[tactic(auto, unfolding(crate::specs::Values::part_at))]
fn read_part<'s, 't>(
    alloc: Global,
    cursor: &mut Cursor<'s, 't>,
    levels: u8,
) -> Result<Value<'s, 't>, Fault>
    ensures { IsReading (λ v. (value_of v, state_of cursor.new)) result (part_at (value_at levels) (state_of cursor.old)) }
{
    if is_at_numbered(cursor) {
        return read_numbered(cursor);
    }
    read_value(alloc, cursor, levels)
}
