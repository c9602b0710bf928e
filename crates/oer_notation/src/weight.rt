//! For how many octets the definitions of a text stand.
ghost use Rattle.std.specs.Prelude.{◌≡◌, ◌<◌, ◌+◌, IfOk, MatchOption, OnOk, Some, option_map};
ghost use Rattle.oer_lexer.specs.Token.{spot_of, spots_of, token_of};
ghost use Rattle.oer_lexer.specs.declared.token.Sign.TheVariants.{Assign};
ghost use Rattle.oer_value_notation.specs.State.{is_sign};
ghost use Rattle.oer_notation.specs.Weight.{begin_at, copied, heavy_at, named, name_by, nothing, octets_at, room_for, scale_of, step_by, step_of, token_octets, weigh, with_open};

use crate::names::Names;
use oer_lexer::{Sign, Spot, Token};
use std::alloc::{AllocError, Global};

/// For how many octets a text may stand whose types have so many parts: 65,536, and 64 more for each part.
pub fn room_for(parts: u64) -> u128
    ensures { result ≡ room_for parts }
{
    parts as u128 * 64 + 65_536
}

/// A definition that hasn't ended.
#[derive(Clone, Copy)]
struct Open {
    /// The byte at which it begins.
    at: usize,
    /// For how many octets it and the rest might stand.
    before: u128,
}

/// What was weighed so far.
#[derive(Drop)]
struct Scale {
    /// The Names of the definitions.
    names: Names,
    /// For how many octets those stand that ended.
    octets: Vec<u128>,
    /// The definition that goes on.
    current: Option<Open>,
    /// For how many octets the rest may stand.
    left: u128,
}

/// What follows from a token.
#[derive(Clone, Copy)]
enum Step {
    On,
    /// The definition that begins at this byte stands for too many octets.
    Heavy(usize),
    /// A Name stands twice, which is another error.
    Over,
}

/// How many octets may be kept of a token.
fn token_octets(token: Token<'_>) -> u128
    ensures { result ≡ token_octets (token_of token.entry) }
{
    match token {
        Token::Word(text) | Token::Bits(text) | Token::Digits(text) | Token::Text(text) => {
            text.len() as u128
        }
        Token::Number(_) => 16,
        Token::Sign(_) => 0,
    }
}

impl Scale {
    /// No definitions yet.
    fn new(alloc: Global, room: u128) -> Scale
        ensures { scale_of result ≡ nothing room }
    {
        Scale {
            names: Names::new(alloc),
            octets: Vec::new(alloc),
            current: None,
            left: room,
        }
    }

    /// For how many octets the definition with this place stands. One that goes on stands for none yet.
    fn octets_at(&self, place: Option<usize>) -> u128
        ensures { result ≡ octets_at self.now.octets.items place }
    {
        let Some(place) = place else {
            return 0;
        };
        if place >= self.octets.len() {
            return 0;
        }
        self.octets[place]
    }

    /// For how many octets the definition stands whose Name the token is.
    fn copied(&self, token: Token<'_>) -> u128
        ensures { result ≡ copied (scale_of self.now) (token_of token.entry) }
    {
        match token {
            Token::Word(word) => self.octets_at(self.names.place(word)),
            _ => 0,
        }
    }

    /// For how many octets the rest may stand after the token, if it isn't too much.
    fn after(&self, token: Token<'_>) -> Option<u128>
        ensures { MatchOption result
            (self.now.left < token_octets (token_of token.entry) + copied (scale_of self.now) (token_of token.entry))
            (λ rest. rest + (token_octets (token_of token.entry) + copied (scale_of self.now) (token_of token.entry)) ≡ self.now.left) }
    {
        let rest = self.left.checked_sub(token_octets(token))?;
        rest.checked_sub(self.copied(token))
    }

    /// A token of the definition that goes on. Before the first there is nothing to weigh.
    fn weigh(&mut self, token: Token<'_>) -> Step
        ensures { step_of result (scale_of self.new) ≡ weigh (token_of token.entry) (scale_of self.old) }
    {
        let Some(definition) = self.current else {
            return Step::On;
        };
        let Some(left) = self.after(token) else {
            return Step::Heavy(definition.at);
        };
        self.left = left;
        Step::On
    }

    /// Ends the definition that goes on.
    fn close(&mut self) -> Result<(), AllocError>
        ensures octets { OnOk result (self.new.octets.items ≡ with_open self.old.octets.items self.old.left self.old.current) }
        ensures names { self.new.names ≡ self.old.names }
        ensures left { self.new.left ≡ self.old.left }
    {
        let Some(definition) = self.current else {
            return Ok(());
        };
        let octets = definition.before.saturating_sub(self.left);
        self.octets.push(octets)?;
        Ok(())
    }

    /// The definition of a Name begins at this byte. The octets of the Name count once, and with no copy.
    fn begin(&mut self, alloc: Global, at: usize, name: &str) -> Result<Step, AllocError>
        ensures { IfOk result (λ step. step_of step (scale_of self.new) ≡ begin_at at name.now (scale_of self.old)) }
    {
        let octets = name.len() as u128;
        let name = String::from_str(alloc, name)?;
        if !self.names.add(name)? {
            return Ok(Step::Over);
        }
        let Some(left) = self.left.checked_sub(octets) else {
            return Ok(Step::Heavy(at));
        };
        self.close()?;
        self.left = left;
        self.current = Some(Open { at, before: left });
        Ok(Step::On)
    }

    /// A token. It is the Name, if a definition begins with it.
    fn step(
        &mut self,
        alloc: Global,
        spot: Spot<'_>,
        name: Option<&str>,
    ) -> Result<Step, AllocError>
        ensures { IfOk result (λ step. step_of step (scale_of self.new)
            ≡ step_by (option_map (λ w. w.now) name.entry) (spot_of spot.entry) (scale_of self.old)) }
    {
        match name {
            Some(name) => self.begin(alloc, spot.at, name),
            None => Ok(self.weigh(spot.token)),
        }
    }
}

/// Whether the token is `::=`.
fn assigns(token: Token<'_>) -> bool
    ensures { result ≡ is_sign Assign (Some (token_of token.entry)) }
{
    match token {
        Token::Sign(sign) => sign == Sign::Assign,
        _ => false,
    }
}

/// The first token as a Name, if the second is `::=`.
fn name_by<'t>(first: Token<'t>, second: Token<'t>) -> Option<&'t str>
    ensures { option_map (λ w. w.now) result ≡ name_by (token_of first.entry) (token_of second.entry) }
{
    let Token::Word(word) = first else {
        return None;
    };
    if !assigns(second) {
        return None;
    }
    Some(word)
}

/// The Name whose definition begins with the first token.
fn named<'t>(spots: &[Spot<'t>]) -> Option<&'t str>
    ensures { option_map (λ w. w.now) result ≡ named (spots_of spots.now) }
{
    match spots {
        [first, second, ..] => name_by(first.token, second.token),
        _ => None,
    }
}

/// Where the first definition begins with which the tokens stand for more octets than this.
pub fn heavy_at(alloc: Global, spots: &[Spot<'_>], room: u128) -> Result<Option<usize>, AllocError>
    ensures { IfOk result (λ at. at ≡ heavy_at room (spots_of spots.now)) }
{
    let mut scale = Scale::new(alloc, room);
    for index in 0..spots.len() {
        let name = named(&spots[index..]);
        match scale.step(alloc, spots[index], name)? {
            Step::On => {}
            Step::Heavy(at) => return Ok(Some(at)),
            Step::Over => return Ok(None),
        }
    }
    Ok(None)
}
