//! The text of a path.
ghost use Rattle.std.specs.Prelude.{◌≡◌, ◌<◌, ◌^◌, ℕ, List, decimal, IfOk, IfErr, MatchOption};
ghost use Rattle.oer_parts.specs.Walk.{path_of, step_of};
ghost use Rattle.oer_model.specs.Parts.{Step as PlainStep};
ghost use Rattle.oer_parts.specs.Path.{SpellsPath, SpellsStep};

use crate::step::Step;
use std::alloc::Global;
use thiserror::Error;

/// Why a path was not read.
#[derive(Clone, Copy, Debug, PartialEq, Eq, Error)]
pub enum PathFault {
    /// An allocation failed.
    #[error("Memory")]
    Memory,
    /// The text spells no path.
    #[error("Form")]
    Form,
}

// The number that decimal digits without leading zeros write, below 2^64.
fn number(digits: &str) -> Option<usize>
    ensures { MatchOption result ((n : ℕ) → n < 2 ^ 64 → digits.now ≡ decimal n → ⊥)
        (λ n. digits.now ≡ decimal n) }
{
    let Some((first, rest)) = digits.as_bytes().split_first() else {
        return None;
    };
    if *first == b'+' {
        return None;
    }
    if *first == b'0' {
        if rest.is_empty() {
            return Some(0);
        }
        return None;
    }
    match digits.parse() {
        Ok(n) => Some(n),
        Err(_) => None,
    }
}

// The step that the text spells.
fn step(text: &str) -> Option<Step>
    ensures { MatchOption result ((s : PlainStep) → SpellsStep text.now s → ⊥)
        (λ s. SpellsStep text.now (step_of s)) }
{
    if let Some(digits) = text.strip_prefix('c') {
        let n = number(digits)?;
        return Some(Step::Component(n));
    }
    if let Some(digits) = text.strip_prefix('a') {
        let n = number(digits)?;
        return Some(Step::Addition(n));
    }
    if let Some(digits) = text.strip_prefix('i') {
        let n = number(digits)?;
        return Some(Step::Item(n));
    }
    if text == "v" {
        Some(Step::Chosen)
    } else {
        None
    }
}

/// The path that the text spells: one step or more, joined by `.`, each `c` (component), `a` (addition)
/// or `i` (item) and a number counted from 0, in decimal digits without leading zeros and below 2^64,
/// or `v` (the alternative chosen). Every other text is rejected with `Form`.
pub fn read_path(alloc: Global, text: &str) -> Result<Vec<Step>, PathFault>
    ensures spelt { IfOk result (λ path. SpellsPath text.now (path_of path.items)) }
    ensures form { IfErr result (λ fault. fault ≡ PathFault.Form
        → (path : List PlainStep) → SpellsPath text.now path → ⊥) }
{
    let mut path = Vec::new(alloc);
    let mut rest = text;
    while let Some((front, more)) = rest.split_once('.') {
        let Some(next) = step(front) else {
            return Err(PathFault::Form);
        };
        if path.push(next).is_err() {
            return Err(PathFault::Memory);
        }
        rest = more;
    }
    let Some(last) = step(rest) else {
        return Err(PathFault::Form);
    };
    if path.push(last).is_err() {
        return Err(PathFault::Memory);
    }
    Ok(path)
}
