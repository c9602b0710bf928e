//! A place among the tokens.
ghost use Rattle.std.specs.Prelude.{◌≡◌, ◌≤◌, ◌+◌, drop, length, option_map, take, if◌then◌else◌};
ghost use Rattle.oer_module_lexer.specs.Token.{spots_of, token_of};
ghost use Rattle.oer_module_syntax.specs.State.{IsReading, at_keyword, at_sign, bump, end_fault, fault, first, identifier_at, past, place, reference_at, same_sign, skip_keyword, skip_sign, start, state_of};

use crate::fault::{Fault, Sought, Why};
use crate::word::{Keyword, is_identifier, is_reference};
use oer_module_lexer::{Sign, Spot, Token, Tokens};

/// The tokens that are left, the byte at which they end, and whether that is the text's end.
#[derive(Drop)]
pub struct Cursor<'s, 't> {
    pub spots: &'s [Spot<'t>],
    pub end: usize,
    pub complete: bool,
}

impl<'s, 't> Cursor<'s, 't> {
    /// Before the first of the tokens.
    pub fn new(tokens: &'s Tokens<'t>) -> Cursor<'s, 't>
        ensures { state_of result ≡ start tokens.now }
    {
        Cursor {
            spots: &tokens.spots,
            end: tokens.end,
            complete: tokens.complete,
        }
    }

    /// The place of the next token.
    pub fn place(&self) -> usize
        ensures { result ≡ place (state_of self.now) }
    {
        match self.spots.first() {
            Some(spot) => spot.at,
            None => self.end,
        }
    }

    /// The fault where the tokens end: Token, where the text goes on.
    pub fn end_fault(&self, why: Why) -> Fault
        ensures { result ≡ end_fault why (state_of self.now) }
    {
        if self.complete {
            return Fault { at: self.end, why };
        }
        Fault {
            at: self.end,
            why: Why::Token,
        }
    }

    /// The fault at the next token.
    pub fn fault(&self, why: Why) -> Fault
        ensures { result ≡ fault why (state_of self.now) }
    {
        match self.spots.first() {
            Some(spot) => Fault { at: spot.at, why },
            None => self.end_fault(why),
        }
    }

    /// The next token.
    pub fn peek(&self) -> Option<Token<'t>>
        ensures { option_map token_of result ≡ first (state_of self.now) }
    {
        match self.spots.first() {
            Some(spot) => Some(spot.token),
            None => None,
        }
    }

    /// Goes past the next token, if there is one.
    pub fn bump(&mut self)
        ensures { state_of self.new ≡ bump (state_of self.old) }
    {
        if !self.spots.is_empty() {
            self.spots = &self.spots[1..];
        }
    }

    /// Takes so many tokens.
    #[tactic(auto, using(crate::proofs::Spots::taken, crate::proofs::Spots::dropped))]
    pub fn take_front(&mut self, count: usize) -> &'s [Spot<'t>]
        requires { count ≤ length self.old.spots.now }
        ensures value { spots_of result.now ≡ take count (state_of self.old).left }
        ensures rest { state_of self.new ≡ past count (state_of self.old) }
        ensures within { length self.new.spots.now + count ≡ length self.old.spots.now }
    {
        let front = &self.spots[..count];
        self.spots = rest_of(self.spots, count);
        front
    }

    /// Whether the next token is this sign.
    pub fn is_at(&self, sign: Sign) -> bool
        ensures { result ≡ at_sign sign (state_of self.now) }
    {
        match self.peek() {
            Some(Token::Sign(found)) => is_same(sign, found),
            _ => false,
        }
    }

    /// Takes the next token, if it is this sign.
    pub fn take(&mut self, sign: Sign) -> bool
        ensures value { result ≡ at_sign sign (state_of self.old) }
        ensures rest { state_of self.new ≡ (if result then bump (state_of self.old) else state_of self.old) }
    {
        if !self.is_at(sign) {
            return false;
        }
        self.bump();
        true
    }

    /// Whether the next token is this word.
    pub fn is_at_keyword(&self, keyword: Keyword) -> bool
        ensures { result ≡ at_keyword keyword (state_of self.now) }
    {
        match self.peek() {
            Some(Token::Word(found)) => found == keyword.text(),
            _ => false,
        }
    }

    /// Takes the next token, if it is this word.
    pub fn take_keyword(&mut self, keyword: Keyword) -> bool
        ensures value { result ≡ at_keyword keyword (state_of self.old) }
        ensures rest { state_of self.new ≡ (if result then bump (state_of self.old) else state_of self.old) }
    {
        if !self.is_at_keyword(keyword) {
            return false;
        }
        self.bump();
        true
    }

    /// Takes this sign; else it was expected.
    #[tactic(auto, unfolding(crate::specs::State::skip_sign))]
    pub fn expect(&mut self, sign: Sign) -> Result<(), Fault>
        ensures { IsReading (λ x. (x, state_of self.new)) result (skip_sign sign (state_of self.old)) }
    {
        if !self.take(sign) {
            return Err(self.fault(Why::Expected(Sought::Sign(sign))));
        }
        Ok(())
    }

    /// Takes this word; else it was expected.
    #[tactic(auto, unfolding(crate::specs::State::skip_keyword))]
    pub fn expect_keyword(&mut self, keyword: Keyword) -> Result<(), Fault>
        ensures { IsReading (λ x. (x, state_of self.new)) result (skip_keyword keyword (state_of self.old)) }
    {
        if !self.take_keyword(keyword) {
            return Err(self.fault(Why::Expected(Sought::Keyword(keyword))));
        }
        Ok(())
    }

    /// Takes an identifier; else it was expected.
    #[tactic(auto, unfolding(crate::specs::State::identifier_at))]
    pub fn identifier(&mut self) -> Result<&'t str, Fault>
        ensures { IsReading (λ w. (w.now, state_of self.new)) result (identifier_at (state_of self.old)) }
    {
        let Some(Token::Word(word)) = self.peek() else {
            return Err(self.fault(Why::Expected(Sought::Identifier)));
        };
        if !is_identifier(word) {
            return Err(self.fault(Why::Expected(Sought::Identifier)));
        }
        self.bump();
        Ok(word)
    }

    /// Takes a reference that begins with a capital letter; else what is sought was expected.
    #[tactic(auto, unfolding(crate::specs::State::reference_at))]
    pub fn reference(&mut self, sought: Sought) -> Result<&'t str, Fault>
        ensures { IsReading (λ w. (w.now, state_of self.new)) result (reference_at sought (state_of self.old)) }
    {
        let Some(Token::Word(word)) = self.peek() else {
            return Err(self.fault(Why::Expected(sought)));
        };
        if !is_reference(word) {
            return Err(self.fault(Why::Expected(sought)));
        }
        self.bump();
        Ok(word)
    }
}

pub fn rest_of<'s, 't>(spots: &'s [Spot<'t>], count: usize) -> &'s [Spot<'t>]
    requires { count ≤ length spots.now }
    ensures { result.now ≡ drop count spots.now }
{
    &spots[count..]
}

pub fn is_same(a: Sign, b: Sign) -> bool
    ensures { result ≡ same_sign a b }
{
    a == b
}
