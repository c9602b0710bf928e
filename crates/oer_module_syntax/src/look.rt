//! What the next tokens are.
ghost use Rattle.std.specs.Prelude.{◌≡◌, option_map};
ghost use Rattle.oer_module_lexer.specs.Token.{token_of};
ghost use Rattle.oer_module_syntax.specs.Looks.{at_any_defined, at_field_step, at_small_step, begins_type, is_field, is_small, names_value};
ghost use Rattle.oer_module_syntax.specs.State.{bump, state_of};

use crate::cursor::Cursor;
use crate::word::{Keyword, is_identifier, is_reference};
use oer_module_lexer::{Sign, Token};

/// After the next token, if there is one.
pub fn after<'s, 't>(cursor: &Cursor<'s, 't>) -> Cursor<'s, 't>
    ensures { state_of result ≡ bump (state_of cursor.now) }
{
    let mut next = Cursor {
        spots: cursor.spots,
        end: cursor.end,
        complete: cursor.complete,
    };
    next.bump();
    next
}

/// Whether the token is a name that begins with a small letter.
pub fn is_small(token: Option<Token<'_>>) -> bool
    ensures { result ≡ is_small (option_map token_of token.entry) }
{
    match token {
        Some(Token::Word(word)) => is_identifier(word),
        _ => false,
    }
}

fn is_field(token: Option<Token<'_>>) -> bool
    ensures { result ≡ is_field (option_map token_of token.entry) }
{
    match token {
        Some(Token::Field(_)) => true,
        _ => false,
    }
}

/// Whether a point and a name that begins with a small letter follow the next token.
pub fn is_at_small_step(cursor: &Cursor<'_, '_>) -> bool
    ensures { result ≡ at_small_step (state_of cursor.now) }
{
    let next = after(cursor);
    next.is_at(Sign::Point) && is_small(after(&next).peek())
}

/// Whether a point and a field follow the next token.
pub fn is_at_field_step(cursor: &Cursor<'_, '_>) -> bool
    ensures { result ≡ at_field_step (state_of cursor.now) }
{
    let next = after(cursor);
    next.is_at(Sign::Point) && is_field(after(&next).peek())
}

/// Whether the word that is next names a value: it begins with a small letter, or is a module's with such a
/// name behind it (X.680, 14.1).
pub fn names_value(word: &str, cursor: &Cursor<'_, '_>) -> bool
    ensures { result ≡ names_value word.now (state_of cursor.now) }
{
    is_identifier(word) || is_reference(word) && is_at_small_step(cursor)
}

/// Whether the name that is next, with a small letter, begins a type.
pub fn begins_type(cursor: &Cursor<'_, '_>) -> bool
    ensures { result ≡ begins_type (state_of cursor.now) }
{
    after(cursor).is_at(Sign::Less) || is_at_field_step(cursor)
}

/// Whether the words ANY DEFINED BY are next.
pub fn is_at_any_defined(cursor: &Cursor<'_, '_>) -> bool
    ensures { result ≡ at_any_defined (state_of cursor.now) }
{
    let next = after(cursor);
    cursor.is_at_keyword(Keyword::Any)
        && next.is_at_keyword(Keyword::Defined)
        && after(&next).is_at_keyword(Keyword::By)
}
