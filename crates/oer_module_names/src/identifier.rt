//! The arcs of object identifiers of modules.
ghost use Rattle.std.specs.Prelude.{◌≡◌, [], IfOk, length, option_map};
ghost use Rattle.oer_module_lexer.specs.Token.{spots_of};
ghost use Rattle.oer_module_syntax.specs.State.{first, state_of};
ghost use Rattle.oer_module_names.specs.Identifiers.{arc_at, arcs, arcs_from, below_one, below_two, enclosed_by, iso_arc, itu_arc, letter_arc, letter_number, named_arc, number_of, root_arc, worded_by};

use oer_module_lexer::{Sign, Spot, Token};
use oer_module_syntax::Cursor;
use std::alloc::{AllocError, Global};

/// The number that digits write, if it has 128 bits (X.680, 12.8).
fn number_of(digits: &str) -> Option<u128>
    ensures { result ≡ number_of digits.now }
{
    match digits.parse::<u128>() {
        Ok(number) => Some(number),
        Err(_) => None,
    }
}

#[tactic(auto, unfolding(crate::specs::Identifiers::root_arc))]
/// The arc of a name at the root (X.660, annex A).
fn root_arc(name: &str) -> Option<u128>
    ensures { result ≡ root_arc name.now }
{
    if name == "itu-t" || name == "ccitt" {
        return Some(0);
    }
    if name == "iso" {
        return Some(1);
    }
    if name == "joint-iso-itu-t" || name == "joint-iso-ccitt" {
        return Some(2);
    }
    None
}

#[tactic(auto, unfolding(crate::specs::Identifiers::itu_arc))]
/// The arc of a name below itu-t.
fn itu_arc(name: &str) -> Option<u128>
    ensures { result ≡ itu_arc name.now }
{
    if name == "recommendation" {
        return Some(0);
    }
    if name == "question" {
        return Some(1);
    }
    if name == "administration" {
        return Some(2);
    }
    if name == "network-operator" {
        return Some(3);
    }
    if name == "identified-organization" {
        return Some(4);
    }
    if name == "r-recommendation" {
        return Some(5);
    }
    None
}

#[tactic(auto, unfolding(crate::specs::Identifiers::iso_arc))]
/// The arc of a name below iso.
fn iso_arc(name: &str) -> Option<u128>
    ensures { result ≡ iso_arc name.now }
{
    if name == "standard" {
        return Some(0);
    }
    if name == "registration-authority" {
        return Some(1);
    }
    if name == "member-body" {
        return Some(2);
    }
    if name == "identified-organization" {
        return Some(3);
    }
    None
}

/// The number of a letter, from 1 to 26.
fn letter_number(letter: u8) -> Option<u128>
    ensures { result ≡ letter_number letter }
{
    if letter < b'a' || letter > b'z' {
        return None;
    }
    Some((letter - 96) as u128)
}

/// The arc of a letter below recommendation.
fn letter_arc(name: &str) -> Option<u128>
    ensures { result ≡ letter_arc name.now }
{
    match name.as_bytes() {
        [letter] => letter_number(*letter),
        _ => None,
    }
}

fn below_one(arc: u128, name: &str) -> Option<u128>
    ensures { result ≡ below_one arc name.now }
{
    if arc == 0 {
        return itu_arc(name);
    }
    if arc == 1 {
        return iso_arc(name);
    }
    None
}

fn below_two(first: u128, second: u128, name: &str) -> Option<u128>
    ensures { result ≡ below_two first second name.now }
{
    if first == 0 && second == 0 {
        return letter_arc(name);
    }
    None
}

/// The arc that a name alone stands for behind these arcs.
fn named_arc(before: &[u128], name: &str) -> Option<u128>
    ensures { result ≡ named_arc before.now name.now }
{
    match before {
        [] => root_arc(name),
        [arc] => below_one(*arc, name),
        [first, second] => below_two(*first, *second, name),
        _ => None,
    }
}

/// A number, and the parenthesis that closes behind it.
fn take_enclosed(cursor: &mut Cursor<'_, '_>) -> Option<u128>
    ensures { option_map (λ n. (n, state_of cursor.new)) result ≡ enclosed_by (first (state_of cursor.old)) (state_of cursor.old) }
{
    let Some(Token::Number(digits)) = cursor.peek() else {
        return None;
    };
    cursor.bump();
    if !cursor.take(Sign::CloseParenthesis) {
        return None;
    }
    number_of(digits)
}

/// The arc of a name, behind which its number may stand in parentheses.
fn take_worded(cursor: &mut Cursor<'_, '_>, before: &[u128], name: &str) -> Option<u128>
    ensures { option_map (λ n. (n, state_of cursor.new)) result ≡ worded_by before.now name.now (state_of cursor.old) }
{
    if cursor.take(Sign::OpenParenthesis) {
        return take_enclosed(cursor);
    }
    named_arc(before, name)
}

#[tactic(auto, unfolding(crate::specs::Identifiers::arc_at))]
/// The next arc, behind these (X.680, 32.3).
fn take_arc(cursor: &mut Cursor<'_, '_>, before: &[u128]) -> Option<u128>
    ensures { option_map (λ n. (n, state_of cursor.new)) result ≡ arc_at before.now (state_of cursor.old) }
{
    match cursor.peek() {
        Some(Token::Number(digits)) => {
            cursor.bump();
            number_of(digits)
        }
        Some(Token::Word(name)) => {
            cursor.bump();
            take_worded(cursor, before, name)
        }
        _ => None,
    }
}

/// The arcs up to the closing brace.
fn take_arcs(alloc: Global, cursor: &mut Cursor<'_, '_>) -> Result<Option<Vec<u128>>, AllocError>
    ensures { IfOk result (λ o. option_map (λ v. v.items) o ≡ arcs_from (length (state_of cursor.old).left) [] (state_of cursor.old)) }
{
    let mut arcs = Vec::new(alloc);
    for turn in 0..cursor.spots.len() {
        if cursor.is_at(Sign::CloseBrace) {
            return Ok(Some(arcs));
        }
        let Some(arc) = take_arc(cursor, &arcs) else {
            return Ok(None);
        };
        arcs.push(arc)?;
    }
    Ok(None)
}

#[tactic(auto, unfolding(crate::specs::Identifiers::arcs))]
/// The arcs of an identifier in braces, if each is told as a number: there is none for what isn't in
/// braces, where a component names a value or has a name that needs a number, and where a number is 2^128
/// or more.
pub fn arcs_of(alloc: Global, id: &[Spot<'_>]) -> Result<Option<Vec<u128>>, AllocError>
    ensures { IfOk result (λ o. option_map (λ v. v.items) o ≡ arcs (spots_of id.now)) }
{
    let mut cursor = Cursor {
        spots: id,
        end: 0,
        complete: true,
    };
    if !cursor.take(Sign::OpenBrace) {
        return Ok(None);
    }
    take_arcs(alloc, &mut cursor)
}
