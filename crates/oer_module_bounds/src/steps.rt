//! Sets of whole numbers as the places at which they begin and end.
ghost use Rattle.std.specs.Prelude.{◌≡◌, ◌<ℤ◌, ◌++◌, IfOk, OnOk, not};
ghost use Rattle.std.specs.Option.{ForSome, option_map, option_to_list};
ghost use Rattle.oer_module_bounds.specs.Sets.{crossed, span_of};
ghost use Rattle.oer_module_bounds.specs.Numbers.{within};
ghost use Rattle.oer_module_bounds.specs.Steps.{Gives, ends_of, high_end, low_end, number_of, numbers};

use crate::ends::{Cut, Range};
use std::alloc::{AllocError, Global};

/// A set of whole numbers. It begins or ends at each of its cuts, which rise.
#[derive(Drop)]
pub struct Steps {
    /// Whether the numbers before the first cut are in it.
    pub lowest: bool,
    /// Whether the numbers past the last cut are in it.
    pub highest: bool,
    pub cuts: Vec<Cut>,
}

impl Steps {
    /// All numbers, or none.
    pub fn uniform(alloc: Global, inside: bool) -> Steps
        ensures { Gives result (λ n. inside) }
    {
        Steps {
            lowest: inside,
            highest: inside,
            cuts: Vec::new(alloc),
        }
    }

    /// The numbers of a range.
    ///
    /// # Errors
    /// An allocation failed.
    pub fn of_range(alloc: Global, range: Range) -> Result<Steps, AllocError>
        ensures { IfOk result (λ s. Gives s (within (span_of range))) }
    {
        if is_empty(range.low, range.high) {
            return Ok(Steps::uniform(alloc, false));
        }
        let mut cuts = Vec::new(alloc);
        push_some(&mut cuts, range.begin())?;
        push_some(&mut cuts, range.end())?;
        Ok(Steps {
            lowest: range.low.is_none(),
            highest: range.high.is_none(),
            cuts,
        })
    }

    /// The numbers that this set hasn't.
    pub fn opposite(self) -> Steps
        ensures lowest { result.lowest ≡ not self.lowest }
        ensures highest { result.highest ≡ not self.highest }
        ensures cuts { result.cuts ≡ self.cuts }
    {
        Steps {
            lowest: !self.lowest,
            highest: !self.highest,
            cuts: self.cuts,
        }
    }

    /// The least range that has all numbers of the set, if it has any.
    pub fn hull(&self) -> Option<Range>
        ensures { option_map span_of result ≡ ends_of self.now.lowest self.now.highest (numbers self.now.cuts.items) }
    {
        if !self.lowest && self.cuts.is_empty() {
            return None;
        }
        let low = self.low();
        let high = self.high();
        Some(Range { low, high })
    }

    fn low(&self) -> Option<i128>
        ensures is { result ≡ low_end self.now.lowest (numbers self.now.cuts.items) }
        ensures above { ForSome result (λ n. i128.MIN <ℤ n) }
    {
        if self.lowest {
            return None;
        }
        match self.cuts.first() {
            Some(cut) => Some(cut.number),
            None => None,
        }
    }

    #[tactic(auto, using(crate::proofs::Giving::high_is))]
    fn high(&self) -> Option<i128>
        ensures is { result ≡ high_end self.now.highest (numbers self.now.cuts.items) }
        ensures below { ForSome result (λ n. n <ℤ i128.MAX) }
    {
        if self.highest {
            return None;
        }
        match self.cuts.last() {
            Some(cut) => Some(cut.number - 1),
            None => None,
        }
    }
}

fn push_some(cuts: &mut Vec<Cut>, cut: Option<Cut>) -> Result<(), AllocError>
    ensures { OnOk result (numbers cuts.new.items ≡ numbers cuts.old.items ++ option_to_list (number_of cut)) }
{
    if let Some(cut) = cut {
        cuts.push(cut)?;
    }
    Ok(())
}

/// Whether there is no number from `low` to `high`.
pub fn is_empty(low: Option<i128>, high: Option<i128>) -> bool
    ensures { result ≡ crossed low high }
{
    match (low, high) {
        (Some(low), Some(high)) => high < low,
        _ => false,
    }
}
