//! Sets put together: the numbers that so many of them have.
ghost use Rattle.std.specs.Prelude.{◌≡◌, ◌+◌, ◌<◌, ◌++◌, ◌^◌, [], IfOk, IsPermutation, OnOk, length, map, vec_len};
ghost use Rattle.std.specs.List.Sorted.{IsSortedByKey};
ghost use Rattle.std.specs.Ordering.{int_cmp};
ghost use Rattle.oer_module_bounds.specs.Steps.{Gives, ends_with, numbers, toggled};
ghost use Rattle.oer_module_bounds.specs.Tally.{number_at, one_if, passed, reached, sweep, sweep_of, turns_of};

use crate::ends::Cut;
use crate::steps::Steps;
use std::alloc::{AllocError, Global};

/// A place at which one of the sets begins or ends.
#[derive(Clone, Copy)]
pub struct Turn {
    pub at: Cut,
    pub begins: bool,
}

/// Some sets.
#[derive(Drop)]
pub struct Tally {
    /// How many of them have the numbers before the first place.
    pub holding: usize,
    pub turns: Vec<Turn>,
}

/// What was passed from below on.
#[derive(Drop)]
struct Sweep {
    /// How many sets have begun, with those that have the lowest numbers.
    begun: usize,
    /// How many have ended.
    ended: usize,
    /// Whether enough of them have the numbers here.
    inside: bool,
    /// Where that changed.
    cuts: Vec<Cut>,
}

impl Tally {
    /// No sets.
    pub fn new(alloc: Global) -> Tally
        ensures holding { result.holding ≡ 0 }
        ensures turns { result.turns.items ≡ [] }
    {
        Tally {
            holding: 0,
            turns: Vec::new(alloc),
        }
    }

    /// One more set.
    ///
    /// # Errors
    /// An allocation failed.
    pub fn add(&mut self, set: &Steps) -> Result<(), AllocError>
        requires { self.old.holding + 1 < 2 ^ 64 }
        ensures holding { OnOk result (self.new.holding ≡ self.old.holding + one_if set.now.lowest) }
        ensures turns { OnOk result (self.new.turns.items ≡ self.old.turns.items ++ turns_of set.now.lowest set.now.cuts.items) }
    {
        self.holding += usize::from(set.lowest);
        push_turns(&mut self.turns, set.lowest, set.cuts.as_slice())
    }

    /// The numbers that at least so many of the sets have.
    ///
    /// # Errors
    /// An allocation failed.
    pub fn at_least(self, alloc: Global, least: usize) -> Result<Steps, AllocError>
        requires few { self.holding < 2 ^ 63 }
        requires low { least < 2 ^ 63 }
        ensures { IfOk result (λ s. Gives s (reached least self.holding self.turns.items)) }
    {
        let holding = self.holding;
        let mut turns = self.turns;
        sort(turns.as_mut_slice());
        let lowest = least <= holding;
        let mut swept = Sweep {
            begun: holding,
            ended: 0,
            inside: lowest,
            cuts: Vec::new(alloc),
        };
        swept.pass_all(least, turns.as_slice())?;
        Ok(Steps {
            lowest,
            highest: swept.inside,
            cuts: swept.cuts,
        })
    }
}

/// The turns of a set that has the numbers before its first cut or not.
fn push_turns(turns: &mut Vec<Turn>, lowest: bool, cuts: &[Cut]) -> Result<(), AllocError>
    ensures { OnOk result (turns.new.items ≡ turns.old.items ++ turns_of lowest cuts.now) }
{
    let mut inside = lowest;
    for cut in cuts {
        inside = !inside;
        turns.push(Turn {
            at: *cut,
            begins: inside,
        })?;
    }
    Ok(())
}

fn sort(turns: &mut [Turn])
    ensures moved { IsPermutation turns.old turns.new }
    ensures sorted { IsSortedByKey number_at int_cmp turns.new }
{
    turns.sort_unstable_by_key(|turn| turn.at.number);
}

impl Sweep {
    fn pass_all(&mut self, least: usize, turns: &[Turn]) -> Result<(), AllocError>
        requires begun { self.old.begun < 2 ^ 63 }
        requires ended { self.old.ended ≡ 0 }
        requires least { least < 2 ^ 63 }
        ensures { OnOk result (sweep_of self.new ≡ sweep least (sweep_of self.old) turns.now) }
    {
        for turn in turns {
            self.pass(least, *turn)?;
        }
        Ok(())
    }

    /// One more place, not before those that were passed.
    fn pass(&mut self, least: usize, turn: Turn) -> Result<(), AllocError>
        requires begun { self.old.begun + 1 < 2 ^ 64 }
        requires ended { least + (self.old.ended + 1) < 2 ^ 64 }
        ensures { OnOk result (sweep_of self.new ≡ passed least (sweep_of self.old) turn) }
    {
        if turn.begins {
            self.begun += 1;
        } else {
            self.ended += 1;
        }
        let inside = least + self.ended <= self.begun;
        if inside != self.inside {
            toggle(&mut self.cuts, turn.at)?;
            self.inside = inside;
        }
        Ok(())
    }
}

/// Cuts with one more, which is not before them. Two at one place are none.
fn toggle(cuts: &mut Vec<Cut>, cut: Cut) -> Result<(), AllocError>
    ensures { OnOk result (numbers cuts.new.items ≡ toggled (numbers cuts.old.items) cut.number) }
{
    if is_last(cuts.as_slice(), cut.number) {
        cuts.pop();
        return Ok(());
    }
    cuts.push(cut)?;
    Ok(())
}

#[tactic(auto, using(crate::proofs::Giving::last_slice))]
fn is_last(cuts: &[Cut], number: i128) -> bool
    ensures { result ≡ ends_with (numbers cuts.now) number }
{
    match cuts.last() {
        Some(cut) => cut.number == number,
        None => false,
    }
}
