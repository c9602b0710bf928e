//! The words for what is refused.
ghost use Rattle.std.specs.Prelude.{◌≡◌, Some, option_map};
ghost use Rattle.std.specs.List.{before_first};
ghost use Rattle.oer_module_lexer.specs.Token.{token_of};
ghost use Rattle.oer_module_limits.specs.Errors.{why_of as limit_of};
ghost use Rattle.oer_module_values.specs.Errors.{why_of as told_of};
ghost use Rattle.oer_modules.specs.Words.{dots, found_words, front, is_hidden, limit_words, part_words, plain, sign_text, sought_words, token_words, told_words};

use crate::place;
use oer_module_lexer::{Sign, Token};
use oer_module_syntax::Sought;
use oer_module_text::Part;
use std::{fmt, str};

/// How many characters of a name are shown.
const MOST: usize = 60;

/// Whether the byte isn't a printable character of ASCII.
fn is_hidden(byte: u8) -> bool
    ensures { result ≡ is_hidden byte }
{
    byte < 32 || 126 < byte
}

/// What stands before the first byte that is hidden.
fn printable(bytes: &[u8]) -> &[u8]
    ensures { result.now ≡ before_first is_hidden bytes.now }
{
    match bytes.iter().position(|byte| is_hidden(*byte)) {
        Some(count) => &bytes[..count],
        None => bytes,
    }
}

/// The front of a text, as far as it has printable characters of ASCII, and 60 at most.
#[tactic(auto, unfolding(crate::specs::Words::front))]
fn front(text: &str) -> &str
    ensures { result.now ≡ front text.now }
{
    match str::from_utf8(printable(place::front(text.as_bytes(), MOST))) {
        Ok(front) => front,
        Err(_) => unreachable!(),
    }
}

/// What stands behind the front of a name, where that isn't all of it.
fn dots(front: &str, name: &str) -> &'static str
    ensures { result.now ≡ dots front.now name.now }
{
    if front.len() < name.len() { ".." } else { "" }
}

/// A name, cut where it is long or has a character that isn't printable, with `..` then.
#[derive(Clone, Copy)]
pub struct Plain<'t>(pub &'t str);

impl fmt::Display for Plain<'_> {
    ghost output = { λ name. Some (plain name.0.now) };

    fn fmt<W: fmt::Write>(&self, f: &mut fmt::Formatter<W>) -> fmt::Result {
        let shown = front(self.0);
        let behind = dots(shown, self.0);
        write!(f, "{shown}{behind}")
    }
}

/// What stands in a text: a token, or its end.
#[derive(Clone, Copy)]
pub struct Found<'t>(pub Option<Token<'t>>);

impl fmt::Display for Found<'_> {
    ghost output = { λ found. Some (found_words (option_map token_of found.0)) };

    fn fmt<W: fmt::Write>(&self, f: &mut fmt::Formatter<W>) -> fmt::Result {
        match self.0 {
            Some(
                Token::Word(text) | Token::Field(text) | Token::Number(text) | Token::Real(text),
            ) => {
                let text = Plain(text);
                write!(f, "\"{text}\"")
            }
            Some(Token::Bits(_)) => f.write_str("bits in quotes"),
            Some(Token::Digits(_)) => f.write_str("digits in quotes"),
            Some(Token::Text(_)) => f.write_str("a text in quotes"),
            Some(Token::Sign(sign)) => write!(f, "\"{}\"", sign_text(sign)),
            None => f.write_str("the end of the text"),
        }
    }
}

/// The token that shows a reason, behind it; nothing where there is none.
#[derive(Clone, Copy)]
pub struct At<'t>(pub Option<Token<'t>>);

impl fmt::Display for At<'_> {
    ghost output = { λ at. Some (token_words (option_map token_of at.0)) };

    fn fmt<W: fmt::Write>(&self, f: &mut fmt::Formatter<W>) -> fmt::Result {
        match self.0 {
            Some(token) => {
                let found = Found(Some(token));
                write!(f, ", at {found}")
            }
            None => Ok(()),
        }
    }
}

/// What the grammar has in place of a token.
#[derive(Clone, Copy)]
pub struct Seek(pub Sought);

impl fmt::Display for Seek {
    ghost output = { λ seek. Some (sought_words seek.0) };

    fn fmt<W: fmt::Write>(&self, f: &mut fmt::Formatter<W>) -> fmt::Result {
        match self.0 {
            Sought::Sign(sign) => write!(f, "\"{}\"", sign_text(sign)),
            Sought::Keyword(keyword) => f.write_str(keyword.text()),
            Sought::Type => f.write_str("a type"),
            Sought::Value => f.write_str("a value"),
            Sought::Identifier => f.write_str("a name that begins with a small letter"),
            Sought::Reference => f.write_str("a name that begins with a capital letter"),
            Sought::Symbol => f.write_str("a name"),
            Sought::Closing => f.write_str("the sign that closes what this opens"),
        }
    }
}

/// How a sign is written.
fn sign_text(sign: Sign) -> &'static str
    ensures { result.now ≡ sign_text sign }
{
    match sign {
        Sign::OpenBrace => "{",
        Sign::CloseBrace => "}",
        Sign::OpenParenthesis => "(",
        Sign::CloseParenthesis => ")",
        Sign::OpenBracket => "[",
        Sign::CloseBracket => "]",
        Sign::OpenGroup => "[[",
        Sign::CloseGroup => "]]",
        Sign::Less => "<",
        Sign::Greater => ">",
        Sign::Comma => ",",
        Sign::Semicolon => ";",
        Sign::Point => ".",
        Sign::Range => "..",
        Sign::Ellipsis => "...",
        Sign::Colon => ":",
        Sign::Assign => "::=",
        Sign::Equals => "=",
        Sign::Hyphen => "-",
        Sign::At => "@",
        Sign::Bar => "|",
        Sign::Exclamation => "!",
        Sign::Caret => "^",
    }
}

/// Why a reference stands for nothing, where this names no Name and no fault of the syntax.
pub fn told_words(why: oer_module_values::Why<'_>) -> &'static str
    ensures { result.now ≡ told_words (told_of why.entry) }
{
    use oer_module_values::Why;
    match why {
        Why::Unread(_) => "this can't be read",
        Why::Unnamed(_) => "the name stands for nothing",
        Why::Circular => "the references go round, or are more than 255 one after another",
        Why::NotAType => "this isn't a type",
        Why::NotAValue => "this isn't a value",
        Why::NotANumber => "this isn't the value of a number",
        Why::Unnumbered => "this item has no number in parentheses",
        Why::Unsettled => "this depends on parameters, or on a field of a class",
        Why::TooLarge => "the number doesn't fit 128 bits",
    }
}

/// Why a type has no limits.
pub fn limit_words(why: oer_module_limits::Why<'_>) -> &'static str
    ensures { result.now ≡ limit_words (limit_of why.entry) }
{
    use oer_module_limits::Why;
    match why {
        Why::Unresolved(why) => told_words(why),
        Why::TooDeep => "sets nest too deep",
        Why::Inapplicable => "the type has no such constraint",
        Why::NotANumber => "a bound isn't a whole number",
        Why::OpenEnd => "< at MIN or MAX isn't read",
        Why::TooLarge => "a bound is at the end of 128 bits",
        Why::ValueSet => "a set of values by its name isn't read",
        Why::Contained => "a contained type isn't read",
        Why::Empty => "the constraints allow no value",
        Why::Differs => "readers differ on this constraint",
    }
}

/// What isn't taken.
pub fn part_words(part: Part) -> &'static str
    ensures { result.now ≡ part_words part }
{
    match part {
        Part::Word => "this type isn't taken",
        Part::Set => "SET isn't taken",
        Part::SetOf => "SET OF isn't taken",
        Part::Group => "[[ ]] isn't taken",
        Part::SecondMarker => "a second ... isn't taken",
        Part::Implied => "EXTENSIBILITY IMPLIED isn't taken",
        Part::ComponentsOf => "COMPONENTS OF isn't taken",
        Part::Parameters => "parameters aren't taken",
        Part::Field => "a field that isn't a type's isn't taken",
        Part::Selection => "the type of an alternative isn't taken",
        Part::InstanceOf => "INSTANCE OF isn't taken",
        Part::AnyDefinedBy => "ANY DEFINED BY isn't taken",
        Part::NamedBits => "named bits without a fixed SIZE aren't taken",
        Part::AddedDefault => "DEFAULT behind ... isn't taken",
        Part::Value => "this default isn't taken",
        Part::Untagged => "a CHOICE without a tag as alternative isn't taken",
        Part::Instructions => "instructions in brackets aren't taken",
    }
}
