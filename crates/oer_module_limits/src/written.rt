//! All constraints of a type, as they are written.
ghost use Rattle.std.specs.Prelude.{◌≡◌, map};
ghost use Rattle.oer_module_lexer.specs.Token.{spots_of, token_of};
ghost use Rattle.oer_module_terms.specs.Trees.{constraint_of};
ghost use Rattle.oer_module_values.specs.Views.{given_of};
ghost use Rattle.oer_module_limits.specs.Errors.{Gives};
ghost use Rattle.oer_module_limits.specs.Views.{written_of};
ghost use Rattle.oer_module_limits.specs.Written.{all_given_none, all_given_plain, all_plain, are_none, are_plain, constraints_in, given_constraints, given_none, given_plain, given_read, has_set, is_plain, is_set};

use crate::error::Error;
use crate::kept::read_row;
use oer_module_lexer::{Sign, Spot, Token};
use oer_module_terms::Constraint;
use oer_module_values::Given;
use std::alloc::Global;

/// The constraints of a type, parentheses included, which of the modules it stands in, and what is given on the way to it,
/// the nearest last.
#[derive(Clone, Copy)]
pub struct Written<'g, 's, 't> {
    pub module: usize,
    pub own: &'s [Spot<'t>],
    pub given: &'g [Given<'s, 't>],
}

/// Whether a token is a number, a sign other than an opening brace, or SIZE, MIN or MAX.
fn is_plain(token: Token<'_>) -> bool
    ensures { result ≡ is_plain (token_of token.entry) }
{
    match token {
        Token::Number(_) => true,
        Token::Sign(sign) => sign != Sign::OpenBrace,
        Token::Word(word) => word == "SIZE" || word == "MIN" || word == "MAX",
        _ => false,
    }
}

fn all_plain(spots: &[Spot<'_>]) -> bool
    ensures { result ≡ all_plain (spots_of spots.now) }
{
    for spot in spots {
        if !is_plain(spot.token) {
            return false;
        }
    }
    true
}

fn given_plain(given: Given<'_, '_>) -> bool
    ensures { result ≡ given_plain (given_of given.entry) }
{
    match given {
        Given::Constraints { spots, .. } => all_plain(spots),
        Given::Set { .. } => false,
    }
}

fn all_given_plain(given: &[Given<'_, '_>]) -> bool
    ensures { result ≡ all_given_plain (map given_of given.now) }
{
    for one in given {
        if !given_plain(*one) {
            return false;
        }
    }
    true
}

/// Whether all constraints are ranges of numbers or SIZE with such: numbers, MIN, MAX, SIZE and signs, without braces.
pub fn are_plain(written: Written<'_, '_, '_>) -> bool
    ensures { result ≡ are_plain (written_of written.entry) }
{
    all_plain(written.own) && all_given_plain(written.given)
}

fn given_none(given: Given<'_, '_>) -> bool
    ensures { result ≡ given_none (given_of given.entry) }
{
    match given {
        Given::Constraints { spots, .. } => spots.is_empty(),
        Given::Set { .. } => false,
    }
}

fn all_given_none(given: &[Given<'_, '_>]) -> bool
    ensures { result ≡ all_given_none (map given_of given.now) }
{
    for one in given {
        if !given_none(*one) {
            return false;
        }
    }
    true
}

/// Whether there are no constraints, and no set of values.
pub fn are_none(written: Written<'_, '_, '_>) -> bool
    ensures { result ≡ are_none (written_of written.entry) }
{
    written.own.is_empty() && all_given_none(written.given)
}

fn is_set(given: Given<'_, '_>) -> bool
    ensures { result ≡ is_set (given_of given.entry) }
{
    match given {
        Given::Constraints { .. } => false,
        Given::Set { .. } => true,
    }
}

/// Whether the name of a set of values stands for the type (X.680, 16.2).
pub fn has_set(given: &[Given<'_, '_>]) -> bool
    ensures { result ≡ has_set (map given_of given.now) }
{
    for one in given {
        if is_set(*one) {
            return true;
        }
    }
    false
}

/// The constraints behind a name; a set of values has none.
fn given_read<'s, 't>(
    alloc: Global,
    given: Given<'s, 't>,
) -> Result<Vec<Constraint<'s, 't>>, Error<'t>>
    ensures { Gives (λ v. map constraint_of v.items) result (given_read (given_of given.entry)) }
{
    match given {
        Given::Constraints { module, spots } => read_row(alloc, module, spots),
        Given::Set { .. } => Ok(Vec::new(alloc)),
    }
}

fn given_constraints<'s, 't>(
    alloc: Global,
    given: &[Given<'s, 't>],
) -> Result<Vec<Constraint<'s, 't>>, Error<'t>>
    ensures { Gives (λ v. map constraint_of v.items) result (given_constraints (map given_of given.now)) }
{
    let mut found = Vec::new(alloc);
    for one in given.iter() {
        let mut more = given_read(alloc, *one)?;
        found.append(&mut more)?;
    }
    Ok(found)
}

/// All of them as trees, the nearest last.
///
/// # Errors
/// Unresolved, where tokens can't be read or an allocation failed.
#[tactic(auto, unfolding(crate::specs::Written::constraints_in))]
pub fn constraints_in<'s, 't>(
    alloc: Global,
    written: Written<'_, 's, 't>,
) -> Result<Vec<Constraint<'s, 't>>, Error<'t>>
    ensures { Gives (λ v. map constraint_of v.items) result (constraints_in (written_of written.entry)) }
{
    let mut found = read_row(alloc, written.module, written.own)?;
    let mut more = given_constraints(alloc, written.given)?;
    found.append(&mut more)?;
    Ok(found)
}
