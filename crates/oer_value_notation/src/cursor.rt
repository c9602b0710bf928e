//! A place among the tokens.
ghost use Rattle.std.specs.Prelude.{◌≡◌, ◌==◌, option_map, if◌then◌else◌};
ghost use Rattle.oer_lexer.specs.Token.{token_of};
ghost use Rattle.oer_value_notation.specs.State.{IsReading, at_sign, at_word, bump, fault, first, full, id_at, number_text_at, part_at, same_sign, skip_sign, skip_word, state_of};

use crate::fault::{TextFault, TextWhy};
use crate::word::is_id;
use oer_lexer::{Sign, Spot, Token};
use oer_types::SchemaFault;

/// The tokens that are left, how many parts the type may still have, and the fault where the tokens
/// end.
#[derive(Drop)]
pub struct Cursor<'s, 't> {
    pub spots: &'s [Spot<'t>],
    pub parts: u16,
    pub stop: TextFault,
}

impl<'s, 't> Cursor<'s, 't> {
    /// The fault at the next token.
    pub fn fault(&self, why: TextWhy) -> TextFault
        ensures { result ≡ fault why (state_of self.now) }
    {
        match self.spots.first() {
            Some(spot) => TextFault { at: spot.at, why },
            None => self.stop,
        }
    }

    /// The next token.
    pub fn peek(&self) -> Option<Token<'t>>
        ensures { option_map token_of result ≡ first (state_of self.now) }
    {
        match self.spots.first() {
            Some(spot) => Some(spot.token),
            None => None,
        }
    }

    /// Goes past the next token, if there is one.
    pub fn bump(&mut self)
        ensures { state_of self.new ≡ bump (state_of self.old) }
    {
        if !self.spots.is_empty() {
            self.spots = &self.spots[1..];
        }
    }

    /// Whether the next token is this sign.
    pub fn is_at(&self, sign: Sign) -> bool
        ensures { result ≡ at_sign sign (state_of self.now) }
    {
        match self.peek() {
            Some(Token::Sign(found)) => is_same(sign, found),
            _ => false,
        }
    }

    /// Whether the token after the next is this sign.
    pub fn is_before(&self, sign: Sign) -> bool
        ensures { result ≡ at_sign sign (bump (state_of self.now)) }
    {
        if self.spots.is_empty() {
            return false;
        }
        let after = Cursor {
            spots: &self.spots[1..],
            parts: self.parts,
            stop: self.stop,
        };
        after.is_at(sign)
    }

    /// Takes the next token, if it is this sign.
    pub fn take(&mut self, sign: Sign) -> bool
        ensures value { result ≡ at_sign sign (state_of self.old) }
        ensures rest { state_of self.new ≡ (if result then bump (state_of self.old) else state_of self.old) }
    {
        if !self.is_at(sign) {
            return false;
        }
        self.bump();
        true
    }

    /// Whether the next token is this word.
    pub fn is_at_word(&self, word: &str) -> bool
        ensures { result ≡ at_word word.now (state_of self.now) }
    {
        match self.peek() {
            Some(Token::Word(found)) => found == word,
            _ => false,
        }
    }

    /// Takes the next token, if it is this word.
    pub fn take_word(&mut self, word: &str) -> bool
        ensures value { result ≡ at_word word.now (state_of self.old) }
        ensures rest { state_of self.new ≡ (if result then bump (state_of self.old) else state_of self.old) }
    {
        if !self.is_at_word(word) {
            return false;
        }
        self.bump();
        true
    }

    /// Takes this sign; else Syntax.
    #[tactic(auto, unfolding(crate::specs::State::skip_sign))]
    pub fn expect(&mut self, sign: Sign) -> Result<(), TextFault>
        ensures { IsReading (λ x. (x, state_of self.new)) result (skip_sign sign (state_of self.old)) }
    {
        if !self.take(sign) {
            return Err(self.fault(TextWhy::Syntax));
        }
        Ok(())
    }

    /// Takes this word; else Syntax.
    #[tactic(auto, unfolding(crate::specs::State::skip_word))]
    pub fn expect_word(&mut self, word: &str) -> Result<(), TextFault>
        ensures { IsReading (λ x. (x, state_of self.new)) result (skip_word word.now (state_of self.old)) }
    {
        if !self.take_word(word) {
            return Err(self.fault(TextWhy::Syntax));
        }
        Ok(())
    }

    /// Takes an id; else Syntax.
    #[tactic(auto, unfolding(crate::specs::State::id_at))]
    pub fn id(&mut self) -> Result<&'t str, TextFault>
        ensures { IsReading (λ w. (w.now, state_of self.new)) result (id_at (state_of self.old)) }
    {
        let Some(Token::Word(word)) = self.peek() else {
            return Err(self.fault(TextWhy::Syntax));
        };
        if !is_id(word) {
            return Err(self.fault(TextWhy::Syntax));
        }
        self.bump();
        Ok(word)
    }

    /// Takes a number, as it stands; else Syntax.
    #[tactic(auto, unfolding(crate::specs::State::number_text_at))]
    pub fn number(&mut self) -> Result<&'t str, TextFault>
        ensures { IsReading (λ w. (w.now, state_of self.new)) result (number_text_at (state_of self.old)) }
    {
        let Some(Token::Number(digits)) = self.peek() else {
            return Err(self.fault(TextWhy::Syntax));
        };
        self.bump();
        Ok(digits)
    }

    /// Counts one more part of the type; where it has all, this fault.
    #[tactic(auto, unfolding(crate::specs::State::part_at))]
    pub fn part(&mut self, full: TextFault) -> Result<(), TextFault>
        ensures { IsReading (λ x. (x, state_of self.new)) result (part_at full (state_of self.old)) }
    {
        if self.parts == 0 {
            return Err(full);
        }
        self.parts -= 1;
        Ok(())
    }

    /// The fault of a type or an item that begins at the next token and is one too many.
    pub fn full(&self) -> TextFault
        ensures { result ≡ full (state_of self.now) }
    {
        self.fault(TextWhy::Schema(SchemaFault::TooManyParts))
    }
}

pub fn is_same(a: Sign, b: Sign) -> bool
    ensures { result ≡ same_sign a b }
{
    a == b
}
