//! How many tokens the parts have that stand in the tree as tokens.
ghost use Rattle.std.specs.Prelude.{◌≡◌, ◌≤◌, ◌<◌, ◌+◌, [], ◌∷◌, drop, length, reverse, IfOk, Ok};
ghost use Rattle.oer_module_lexer.specs.Token.{spots_of, token_of};
ghost use Rattle.oer_module_syntax.specs.Ranges.{atom_at, atom_len, base_at, close, constraints_at, ends_prefix, ends_span, exception_at, finished, goes_on, group_at, group_len, groups_len, is_any_word, is_pair, is_reserved_value, is_some_word, is_step, is_type_word, is_value_word, nest, nest_next, none_open, pairs_len, parameters_len, prefix_at, span_at, starts_sign, starts_with_amount, starts_with_pair, unclosed, value_at};
ghost use Rattle.oer_module_syntax.specs.State.{IsReading, first, state_of};

use crate::cursor::{Cursor, is_same, rest_of};
use crate::fault::{Fault, Sought, Why};
use crate::word::{is_identifier, is_reserved};
use oer_module_lexer::{Sign, Spot, Token};
use std::alloc::Global;

/// Where tokens end that are kept as they are, once all is closed that they open.
#[derive(Clone, Copy)]
pub enum Extent {
    /// There.
    Group,
    /// Where no further parenthesis opens.
    Constraints,
    /// Before a comma or a sign that closes.
    Span,
    /// Before a colon, or a sign that stands in no type.
    Prefix,
}

/// The pairs of tokens of which parts of types and values consist.
#[derive(Clone, Copy)]
pub enum Pair {
    /// `.` and a word or a field.
    Step,
    /// A word and `:`
    Choice,
}

fn tail<'s, 't>(spots: &'s [Spot<'t>]) -> &'s [Spot<'t>]
    ensures { result.now ≡ drop 1 spots.now }
{
    if spots.is_empty() { spots } else { &spots[1..] }
}

/// No tokens.
pub fn no_spots<'s, 't>() -> &'s [Spot<'t>]
    ensures { spots_of result.now ≡ [] }
{
    &[]
}

fn starts_sign(spots: &[Spot<'_>], sign: Sign) -> bool
    ensures { result ≡ starts_sign sign (spots_of spots.now) }
{
    match spots.first() {
        Some(spot) => match spot.token {
            Token::Sign(found) => is_same(sign, found),
            _ => false,
        },
        None => false,
    }
}

/// Opens what this sign closes. What is open is a list of the signs that close it, the innermost last.
fn open(opened: &mut Vec<Sign>, closing: Sign) -> Result<(), Fault>
    ensures { IsReading (λ _. reverse opened.new.items) result (Ok (closing ∷ reverse opened.old.items)) }
{
    opened.push(closing)?;
    Ok(())
}

/// Closes the innermost that is open by the sign at a place; else the sign was expected that closes it.
fn close(opened: &mut Vec<Sign>, at: usize, sign: Sign) -> Result<(), Fault>
    ensures { IsReading (λ _. reverse opened.new.items) result (close at sign (reverse opened.old.items)) }
{
    let Some(closing) = opened.pop() else {
        return Err(unclosed(at, sign));
    };
    if !is_same(closing, sign) {
        return Err(unclosed(at, closing));
    }
    Ok(())
}

fn unclosed(at: usize, closing: Sign) -> Fault
    ensures { result ≡ unclosed at closing }
{
    Fault {
        at,
        why: Why::Expected(Sought::Sign(closing)),
    }
}

/// What is open after this token: `[[` and `]]` count two.
fn nest(opened: &mut Vec<Sign>, at: usize, token: Token<'_>) -> Result<(), Fault>
    ensures { IsReading (λ _. reverse opened.new.items) result (nest at (token_of token.entry) (reverse opened.old.items)) }
{
    match token {
        Token::Sign(Sign::OpenBrace) => open(opened, Sign::CloseBrace),
        Token::Sign(Sign::OpenParenthesis) => open(opened, Sign::CloseParenthesis),
        Token::Sign(Sign::OpenBracket) => open(opened, Sign::CloseBracket),
        Token::Sign(Sign::OpenGroup) => {
            open(opened, Sign::CloseBracket)?;
            open(opened, Sign::CloseBracket)
        }
        Token::Sign(Sign::CloseGroup) => {
            close(opened, at, Sign::CloseBracket)?;
            close(opened, at, Sign::CloseBracket)
        }
        Token::Sign(Sign::CloseBrace) => close(opened, at, Sign::CloseBrace),
        Token::Sign(Sign::CloseParenthesis) => close(opened, at, Sign::CloseParenthesis),
        Token::Sign(Sign::CloseBracket) => close(opened, at, Sign::CloseBracket),
        _ => Ok(()),
    }
}

/// What is open after the next token.
fn nest_next(opened: &mut Vec<Sign>, spots: &[Spot<'_>]) -> Result<(), Fault>
    ensures { IsReading (λ _. reverse opened.new.items) result (nest_next (spots_of spots.now) (reverse opened.old.items)) }
{
    match spots.first() {
        Some(spot) => nest(opened, spot.at, spot.token),
        None => Ok(()),
    }
}

#[tactic(auto, using(crate::proofs::Spots::none_open_back))]
fn is_closed(opened: &[Sign]) -> bool
    ensures { result ≡ none_open (reverse opened.now) }
{
    match opened.first() {
        Some(_) => false,
        None => true,
    }
}

/// Nothing may be open where the tokens end; else the sign was expected that closes the innermost.
fn finish(opened: Vec<Sign>, cursor: &Cursor<'_, '_>) -> Result<(), Fault>
    ensures { IsReading (λ _. 0) result (finished (state_of cursor.now) (reverse opened.items)) }
{
    let mut opened = opened;
    match opened.pop() {
        Some(closing) => Err(cursor.end_fault(Why::Expected(Sought::Sign(closing)))),
        None => Ok(()),
    }
}

/// Whether a comma or a sign that closes is next.
pub fn ends_span(spots: &[Spot<'_>]) -> bool
    ensures { result ≡ ends_span (spots_of spots.now) }
{
    starts_sign(spots, Sign::Comma)
        || starts_sign(spots, Sign::CloseBrace)
        || starts_sign(spots, Sign::CloseParenthesis)
        || starts_sign(spots, Sign::CloseBracket)
        || starts_sign(spots, Sign::CloseGroup)
}

/// Whether a colon is next, or a sign that stands in no type.
fn ends_prefix(spots: &[Spot<'_>]) -> bool
    ensures { result ≡ ends_prefix (spots_of spots.now) }
{
    ends_span(spots)
        || starts_sign(spots, Sign::Colon)
        || starts_sign(spots, Sign::Assign)
        || starts_sign(spots, Sign::Semicolon)
}

/// Whether the tokens are not at their end, and what stands before them isn't whole.
fn goes_on(extent: Extent, is_closed: bool, spots: &[Spot<'_>]) -> bool
    ensures { result ≡ goes_on extent is_closed (spots_of spots.now) }
{
    if spots.is_empty() {
        return false;
    }
    if !is_closed {
        return true;
    }
    match extent {
        Extent::Group => false,
        Extent::Constraints => starts_sign(spots, Sign::OpenParenthesis),
        Extent::Span => !ends_span(spots),
        Extent::Prefix => !ends_prefix(spots),
    }
}

/// How many of the tokens it takes until the extent's end, where so much is open before them.
#[tactic(auto, using(crate::proofs::Spots::groups_more, crate::proofs::Spots::groups_over))]
fn groups_len(
    extent: Extent,
    opened: Vec<Sign>,
    cursor: &Cursor<'_, '_>,
    spots: &[Spot<'_>],
) -> Result<usize, Fault>
    ensures read { IsReading (λ n. n) result (groups_len extent (state_of cursor.now) (spots_of spots.now) (reverse opened.items)) }
    ensures within { IfOk result (λ n. n ≤ length spots.now) }
{
    let mut n = 0;
    let mut rest = spots;
    let mut opened = opened;
    while goes_on(extent, is_closed(&opened), rest) {
        nest_next(&mut opened, rest)?;
        rest = tail(rest);
        n += 1;
    }
    finish(opened, cursor)?;
    Ok(n)
}

fn is_pair(pair: Pair, first: Token<'_>, second: Token<'_>) -> bool
    ensures { result ≡ is_pair pair (token_of first.entry) (token_of second.entry) }
{
    match pair {
        Pair::Step => match first {
            Token::Sign(sign) => is_same(Sign::Point, sign) && is_step(second),
            _ => false,
        },
        Pair::Choice => match second {
            Token::Sign(sign) => is_same(Sign::Colon, sign) && is_any_word(first),
            _ => false,
        },
    }
}

fn is_step(token: Token<'_>) -> bool
    ensures { result ≡ is_step (token_of token.entry) }
{
    match token {
        Token::Word(_) | Token::Field(_) => true,
        _ => false,
    }
}

fn is_any_word(token: Token<'_>) -> bool
    ensures { result ≡ is_any_word (token_of token.entry) }
{
    match token {
        Token::Word(_) => true,
        _ => false,
    }
}

fn starts_with_pair(pair: Pair, spots: &[Spot<'_>]) -> bool
    ensures { result ≡ starts_with_pair pair (spots_of spots.now) }
{
    match spots.split_first() {
        Some((first, rest)) => match rest.first() {
            Some(second) => is_pair(pair, first.token, second.token),
            None => false,
        },
        None => false,
    }
}

/// How many tokens the pairs at the front have.
#[tactic(auto, using(crate::proofs::Spots::pairs_more, crate::proofs::Spots::pairs_over))]
pub fn pairs_len(pair: Pair, spots: &[Spot<'_>]) -> usize
    ensures value { result ≡ pairs_len pair (spots_of spots.now) }
    ensures within { result ≤ length spots.now }
{
    let mut n = 0;
    let mut rest = spots;
    while starts_with_pair(pair, rest) {
        rest = tail(tail(rest));
        n += 2;
    }
    n
}

/// How many tokens stand between the next, which opens, and the one that closes, with both.
#[tactic(auto, using(crate::proofs::Spots::behind))]
fn group_len(alloc: Global, cursor: &Cursor<'_, '_>) -> Result<usize, Fault>
    requires { 0 < length cursor.now.spots.now }
    ensures read { IsReading (λ n. n) result (group_len (state_of cursor.now)) }
    ensures within { IfOk result (λ n. n ≤ length cursor.now.spots.now) }
{
    let mut opened = Vec::new(alloc);
    nest_next(&mut opened, cursor.spots)?;
    let n = groups_len(Extent::Group, opened, cursor, &cursor.spots[1..])?;
    Ok(1 + n)
}

/// What stands between the sign that opens and the one that closes, with both; nothing where another token is next.
#[tactic(auto, unfolding(crate::specs::Ranges::group_at))]
pub fn take_group<'s, 't>(
    alloc: Global,
    cursor: &mut Cursor<'s, 't>,
    sign: Sign,
) -> Result<&'s [Spot<'t>], Fault>
    ensures { IsReading (λ r. (spots_of r.now, state_of cursor.new)) result (group_at sign (state_of cursor.old)) }
{
    if !starts_sign(cursor.spots, sign) {
        return Ok(no_spots());
    }
    let n = group_len(alloc, cursor)?;
    Ok(cursor.take_front(n))
}

/// Constraints: what stands in parentheses, one after another, with these.
#[tactic(auto, unfolding(crate::specs::Ranges::constraints_at))]
pub fn take_constraints<'s, 't>(
    alloc: Global,
    cursor: &mut Cursor<'s, 't>,
) -> Result<&'s [Spot<'t>], Fault>
    ensures { IsReading (λ r. (spots_of r.now, state_of cursor.new)) result (constraints_at (state_of cursor.old)) }
{
    let n = groups_len(Extent::Constraints, Vec::new(alloc), cursor, cursor.spots)?;
    Ok(cursor.take_front(n))
}

/// The tokens before the comma or the closing sign that belongs to none of them.
#[tactic(auto, unfolding(crate::specs::Ranges::span_at))]
pub fn take_span<'s, 't>(
    alloc: Global,
    cursor: &mut Cursor<'s, 't>,
) -> Result<&'s [Spot<'t>], Fault>
    ensures { IsReading (λ r. (spots_of r.now, state_of cursor.new)) result (span_at (state_of cursor.old)) }
{
    let n = groups_len(Extent::Span, Vec::new(alloc), cursor, cursor.spots)?;
    Ok(cursor.take_front(n))
}

/// Whether a word stands for a value: it isn't reserved, or is one of those that are values.
fn is_value_word(word: &str) -> bool
    ensures { result ≡ is_value_word word.now }
{
    !is_reserved(word) || is_reserved_value(word)
}

fn is_reserved_value(word: &str) -> bool
    ensures { result ≡ is_reserved_value word.now }
{
    word == "TRUE"
        || word == "FALSE"
        || word == "NULL"
        || word == "PLUS-INFINITY"
        || word == "MINUS-INFINITY"
        || word == "NOT-A-NUMBER"
}

fn starts_with_amount(spots: &[Spot<'_>]) -> bool
    ensures { result ≡ starts_with_amount (spots_of spots.now) }
{
    match spots.first() {
        Some(spot) => match spot.token {
            Token::Number(_) | Token::Real(_) => true,
            _ => false,
        },
        None => false,
    }
}

/// How many tokens the value at the front has that stands in no braces, and 0 where there is none.
#[tactic(auto, using(crate::proofs::Spots::behind))]
fn atom_len(spots: &[Spot<'_>]) -> usize
    ensures value { result ≡ atom_len (spots_of spots.now) }
    ensures within { result ≤ length spots.now }
{
    let Some((spot, rest)) = spots.split_first() else {
        return 0;
    };
    match spot.token {
        Token::Word(word) => {
            if !is_value_word(word) {
                return 0;
            }
            1 + pairs_len(Pair::Step, rest)
        }
        Token::Number(_) | Token::Real(_) | Token::Bits(_) | Token::Digits(_) | Token::Text(_) => 1,
        Token::Sign(sign) => {
            if is_same(Sign::Hyphen, sign) && starts_with_amount(rest) {
                2
            } else {
                0
            }
        }
        Token::Field(_) => 0,
    }
}

fn is_at_word(cursor: &Cursor<'_, '_>) -> bool
    ensures { result ≡ is_some_word (first (state_of cursor.now)) }
{
    match cursor.peek() {
        Some(Token::Word(_)) => true,
        _ => false,
    }
}

/// How many tokens the actual parameters have, after a value that takes some.
fn parameters_len(alloc: Global, takes: bool, cursor: &Cursor<'_, '_>) -> Result<usize, Fault>
    ensures read { IsReading (λ n. n) result (parameters_len takes (state_of cursor.now)) }
    ensures within { IfOk result (λ n. n ≤ length cursor.now.spots.now) }
{
    if !takes || !starts_sign(cursor.spots, Sign::OpenBrace) {
        return Ok(0);
    }
    group_len(alloc, cursor)
}

/// A value in no braces: how many tokens it has.
#[tactic(auto, unfolding(crate::specs::Ranges::atom_at))]
fn take_atom(alloc: Global, cursor: &mut Cursor<'_, '_>) -> Result<usize, Fault>
    ensures read { IsReading (λ n. (n, state_of cursor.new)) result (atom_at (state_of cursor.old)) }
    ensures within { IfOk result (λ n. n ≤ length cursor.old.spots.now) }
{
    let takes = is_at_word(cursor);
    let atom = atom_len(cursor.spots);
    if atom == 0 {
        return Err(cursor.fault(Why::Expected(Sought::Value)));
    }
    let _atom = cursor.take_front(atom);
    let more = parameters_len(alloc, takes, cursor)?;
    let _parameters = cursor.take_front(more);
    Ok(atom + more)
}

/// The value at the front, after what stands before it: how many tokens it has.
fn take_base(alloc: Global, cursor: &mut Cursor<'_, '_>) -> Result<usize, Fault>
    ensures read { IsReading (λ n. (n, state_of cursor.new)) result (base_at (state_of cursor.old)) }
    ensures within { IfOk result (λ n. n ≤ length cursor.old.spots.now) }
{
    if !starts_sign(cursor.spots, Sign::OpenBrace) {
        return take_atom(alloc, cursor);
    }
    let n = group_len(alloc, cursor)?;
    let _group = cursor.take_front(n);
    Ok(n)
}

/// Whether a word is next that begins no value by itself: that of a type, or the name of a module.
fn is_at_type_word(cursor: &Cursor<'_, '_>) -> bool
    ensures { result ≡ is_type_word (first (state_of cursor.now)) }
{
    match cursor.peek() {
        Some(Token::Word(word)) => !is_identifier(word) && !is_reserved_value(word),
        _ => false,
    }
}

/// A type and a colon, if they are there: how many tokens they have.
#[tactic(auto, unfolding(crate::specs::Ranges::prefix_at), using(crate::proofs::Spots::left, crate::proofs::Spots::sign_within))]
fn take_prefix(alloc: Global, cursor: &mut Cursor<'_, '_>) -> Result<usize, Fault>
    ensures read { IsReading (λ n. (n, state_of cursor.new)) result (prefix_at (state_of cursor.old)) }
    ensures within { IfOk result (λ n. length cursor.new.spots.now + n ≡ length cursor.old.spots.now) }
{
    if !is_at_type_word(cursor) {
        return Ok(0);
    }
    let n = groups_len(Extent::Prefix, Vec::new(alloc), cursor, cursor.spots)?;
    if !starts_sign(rest_of(cursor.spots, n), Sign::Colon) {
        return Ok(0);
    }
    let _prefix = cursor.take_front(n + 1);
    Ok(n + 1)
}

/// A value, as the tokens that it consists of; else a value was expected.
#[tactic(auto, unfolding(crate::specs::Ranges::value_at))]
pub fn take_value<'s, 't>(
    alloc: Global,
    cursor: &mut Cursor<'s, 't>,
) -> Result<&'s [Spot<'t>], Fault>
    ensures { IsReading (λ r. (spots_of r.now, state_of cursor.new)) result (value_at (state_of cursor.old)) }
{
    let spots = cursor.spots;
    let names = pairs_len(Pair::Choice, spots);
    let _names = cursor.take_front(names);
    let prefix = take_prefix(alloc, cursor)?;
    let base = take_base(alloc, cursor)?;
    Ok(&spots[..names + prefix + base])
}

/// The tokens after `!`, if that is next (X.680, 53).
pub fn take_exception<'s, 't>(
    alloc: Global,
    cursor: &mut Cursor<'s, 't>,
) -> Result<&'s [Spot<'t>], Fault>
    ensures { IsReading (λ r. (spots_of r.now, state_of cursor.new)) result (exception_at (state_of cursor.old)) }
{
    if !cursor.take(Sign::Exclamation) {
        return Ok(no_spots());
    }
    take_value(alloc, cursor)
}
