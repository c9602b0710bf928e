//! Tokens, written with the spaces between them.
ghost use Rattle.std.specs.Prelude.{◌≡◌, ◌++◌, IfOk, string_bytes};
ghost use Rattle.std.specs.Char.{is_ascii_lowercase};
ghost use Rattle.oer_lexer.specs.Characters.{starts};
ghost use Rattle.oer_lexer.specs.FallsInto.{sign_text};
ghost use Rattle.oer_lexer.specs.Token.{token_of, word, sign as of_sign};
ghost use Rattle.oer_printer.specs.Printing.{integer_token, is_tight, natural_token, space_if, token_text};
ghost use Rattle.oer_printer.specs.Printer.{are_apart, edge_of, edge_of_sign, is_opening_edge, is_parenthesis_edge, is_plain_edge, is_word_edge, run, step, written};

use oer_lexer::{Sign, Token};
use std::alloc::{AllocError, Global};

/// What a token is, as far as the spaces beside it depend on it.
#[derive(Clone, Copy)]
pub enum Edge {
    /// A word that is joined to a parenthesis after it.
    Tight,
    /// Any other word.
    Word,
    /// A number, or what stands in quotes.
    Value,
    /// An opening parenthesis.
    Parenthesis,
    /// An opening brace or bracket.
    Opening,
    /// What closes any of these.
    Closing,
    Comma,
    Other,
}

/// A text that grows by tokens.
#[derive(Drop)]
pub struct Printer {
    pub out: String,
    /// What the last token was.
    pub last: Edge,
}

fn edge_of_sign(sign: Sign) -> Edge
    ensures { result ≡ edge_of_sign sign }
{
    match sign {
        Sign::OpenParenthesis => Edge::Parenthesis,
        Sign::OpenBrace => Edge::Opening,
        Sign::OpenBracket => Edge::Opening,
        Sign::CloseParenthesis => Edge::Closing,
        Sign::CloseBrace => Edge::Closing,
        Sign::CloseBracket => Edge::Closing,
        Sign::Comma => Edge::Comma,
        Sign::Range => Edge::Other,
        Sign::Ellipsis => Edge::Other,
        Sign::Assign => Edge::Other,
    }
}

/// Whether the word begins with a small letter.
fn starts_small(text: &str) -> bool
    ensures { result ≡ starts is_ascii_lowercase text.now }
{
    match text.as_bytes().first() {
        Some(c) => c.is_ascii_lowercase(),
        None => false,
    }
}

/// Whether the word is joined to a parenthesis after it: an item's id, and SIZE.
fn is_tight(text: &str) -> bool
    ensures { result ≡ is_tight (word text.now) }
{
    starts_small(text) || text == "SIZE"
}

fn edge_of(token: Token<'_>) -> Edge
    ensures { result ≡ edge_of (token_of token.entry) }
{
    match token {
        Token::Word(text) => {
            if is_tight(text) {
                return Edge::Tight;
            }
            Edge::Word
        }
        Token::Number(_) => Edge::Value,
        Token::Bits(_) => Edge::Value,
        Token::Digits(_) => Edge::Value,
        Token::Text(_) => Edge::Value,
        Token::Sign(sign) => edge_of_sign(sign),
    }
}

fn sign_text(sign: Sign) -> &'static str
    ensures { result.now ≡ sign_text sign }
{
    match sign {
        Sign::OpenBrace => "{",
        Sign::CloseBrace => "}",
        Sign::OpenParenthesis => "(",
        Sign::CloseParenthesis => ")",
        Sign::OpenBracket => "[",
        Sign::CloseBracket => "]",
        Sign::Comma => ",",
        Sign::Range => "..",
        Sign::Ellipsis => "...",
        Sign::Assign => "::=",
    }
}

fn token_text<'t>(token: Token<'t>) -> &'t str
    ensures { result.now ≡ token_text (token_of token.entry) }
{
    match token {
        Token::Word(text) => text,
        Token::Number(text) => text,
        Token::Bits(text) => text,
        Token::Digits(text) => text,
        Token::Text(text) => text,
        Token::Sign(sign) => sign_text(sign),
    }
}

fn is_word(edge: Edge) -> bool
    ensures { result ≡ is_word_edge edge }
{
    match edge {
        Edge::Tight => true,
        Edge::Word => true,
        _ => false,
    }
}

fn is_plain(edge: Edge) -> bool
    ensures { result ≡ is_plain_edge edge }
{
    match edge {
        Edge::Tight => true,
        Edge::Word => true,
        Edge::Value => true,
        _ => false,
    }
}

fn is_opening(edge: Edge) -> bool
    ensures { result ≡ is_opening_edge edge }
{
    match edge {
        Edge::Opening => true,
        _ => false,
    }
}

fn is_parenthesis(edge: Edge) -> bool
    ensures { result ≡ is_parenthesis_edge edge }
{
    match edge {
        Edge::Parenthesis => true,
        _ => false,
    }
}

/// Whether a space stands between two tokens.
fn are_apart(last: Edge, next: Edge) -> bool
    ensures { result ≡ are_apart last next }
{
    match last {
        Edge::Tight => is_plain(next) || is_opening(next),
        Edge::Word => is_plain(next) || is_opening(next) || is_parenthesis(next),
        Edge::Value => is_plain(next),
        Edge::Closing => is_word(next),
        Edge::Comma => true,
        Edge::Parenthesis => false,
        Edge::Opening => false,
        Edge::Other => false,
    }
}

impl Printer {
    /// Puts out a space if it is to be there.
    fn space(&mut self, apart: bool) -> Result<(), AllocError>
        ensures text { IfOk result (λ x. string_bytes self.new.out ≡ string_bytes self.old.out ++ space_if apart) }
    {
        if !apart {
            return Ok(());
        }
        self.out.push(' ')
    }

    /// One token more, after a space where it needs one.
    pub fn put(&mut self, token: Token<'_>) -> Result<(), AllocError>
        ensures { IfOk result (λ x. written self.new ≡ step (written self.old) (token_of token.entry)) }
    {
        let edge = edge_of(token);
        self.space(are_apart(self.last, edge))?;
        self.out.push_str(token_text(token))?;
        self.last = edge;
        Ok(())
    }

    pub fn word(&mut self, text: &str) -> Result<(), AllocError>
        ensures { IfOk result (λ x. written self.new ≡ step (written self.old) (word text.now)) }
    {
        self.put(Token::Word(text))
    }

    pub fn sign(&mut self, sign: Sign) -> Result<(), AllocError>
        ensures { IfOk result (λ x. written self.new ≡ step (written self.old) (of_sign sign)) }
    {
        self.put(Token::Sign(sign))
    }

    pub fn integer(&mut self, alloc: Global, number: i128) -> Result<(), AllocError>
        ensures { IfOk result (λ x. written self.new ≡ step (written self.old) (integer_token number)) }
    {
        let text = format!(in alloc; "{number}")?;
        self.put(Token::Number(text.as_str()))
    }

    pub fn natural(&mut self, alloc: Global, number: u128) -> Result<(), AllocError>
        ensures { IfOk result (λ x. written self.new ≡ step (written self.old) (natural_token number)) }
    {
        let text = format!(in alloc; "{number}")?;
        self.put(Token::Number(text.as_str()))
    }
}
