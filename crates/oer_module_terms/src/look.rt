//! What the next tokens are.
ghost use Rattle.std.specs.Prelude.{◌≡◌, Ok};
ghost use Rattle.oer_module_lexer.specs.Token.{spots_of};
ghost use Rattle.oer_module_syntax.specs.Ranges.{front_of, pairs_len};
ghost use Rattle.oer_module_syntax.specs.State.{IsReading, state_of};
ghost use Rattle.oer_module_syntax.specs.declared.range.Pair.TheVariants.{Step};
ghost use Rattle.oer_module_terms.specs.Looks.{at_numbered, at_type, is_null, names_type, taken_at};

use oer_module_lexer::{Sign, Spot, Token};
use oer_module_syntax::{
    Cursor, Fault, Pair, Sought, Why, after, builtin_of, is_at_small_step, is_reference, is_small,
    pairs_len, take_group,
};
use std::alloc::Global;

/// Whether a name and an opening parenthesis are next.
pub fn is_at_numbered(cursor: &Cursor<'_, '_>) -> bool
    ensures { result ≡ at_numbered (state_of cursor.now) }
{
    is_small(cursor.peek()) && after(cursor).is_at(Sign::OpenParenthesis)
}

/// Whether the word that is next names a type.
fn names_type(word: &str, cursor: &Cursor<'_, '_>) -> bool
    ensures { result ≡ names_type word.now (state_of cursor.now) }
{
    is_reference(word) && !is_at_small_step(cursor)
}

fn is_null(word: &str) -> bool
    ensures { result ≡ is_null word.now }
{
    word == "NULL"
}

/// Whether a type is next, and no value.
pub fn is_at_type(cursor: &Cursor<'_, '_>) -> bool
    ensures { result ≡ at_type (state_of cursor.now) }
{
    match cursor.peek() {
        Some(Token::Word(word)) => names_type(word, cursor)
            || builtin_of(word).is_some() && !is_null(word),
        _ => false,
    }
}

/// The steps behind a name.
pub fn take_path<'s, 't>(cursor: &mut Cursor<'s, 't>) -> &'s [Spot<'t>]
    ensures { front_of (pairs_len Step (state_of cursor.old).left) (state_of cursor.old) ≡ Ok (spots_of result.now, state_of cursor.new) }
{
    let count = pairs_len(Pair::Step, cursor.spots);
    cursor.take_front(count)
}

/// What stands between this sign and the one that closes, with both; else the sign was expected.
pub fn take_bracketed<'s, 't>(
    alloc: Global,
    cursor: &mut Cursor<'s, 't>,
    sign: Sign,
) -> Result<&'s [Spot<'t>], Fault>
    ensures { IsReading (λ r. (spots_of r.now, state_of cursor.new)) result (taken_at sign (state_of cursor.old)) }
{
    if !cursor.is_at(sign) {
        return Err(cursor.fault(Why::Expected(Sought::Sign(sign))));
    }
    take_group(alloc, cursor, sign)
}
