//! A reader under a limit.
ghost use Rattle.std.specs.Prelude.{◌≡◌, ◌≤◌, ◌<◌, ◌-◌, ◌+◌, ℕ, zero, false, IfErr, IfOk, OnOk, OnErr, length};
ghost use Rattle.oer_units.specs.Reader.{group};
ghost use Rattle.oer_units.specs.Reading.{octet};
ghost use Rattle.oer_units.specs.Reads.{Reads, Keeps, seen, state, start, bound_of, left_of, end_of, was_inside, entered, returned, TakesNoMemory};
ghost use Rattle.oer_units.specs.ReadingSteps.{allow_at, Fills};

use crate::bound::Bound;
use crate::fault::{ReadFault, Why};
use crate::stream::Source;

/// The bound that was in force outside an open type.
#[derive(Clone, Copy)]
pub struct Outer {
    end: u64,
    is_inside: bool,
}

/// A reader under a limit: how many octets were taken from it so far, and how many the bound in
/// force still allows. Outside the open types (X.696, 30) that bound is the limit; inside one it is
/// the end of the innermost.
#[derive(Drop)]
pub struct Window<'r, R: Source> {
    reader: &'r mut R,
    bound: Bound,
}

impl<'r, R: Source> Window<'r, R> {
    /// A window on the reader that has taken nothing, and allows `limit` octets.
    pub fn new(reader: &'r mut R, limit: u64) -> Self
        ensures { state R.loan R.remaining R.failed result ≡ start reader.entry.ghost_name (R.loan reader.old) (R.remaining reader.old)
            (R.failed reader.old) limit }
    {
        Window {
            reader,
            bound: Bound {
                taken: 0,
                end: limit,
                limit,
                is_inside: false,
            },
        }
    }

    /// How many octets were taken so far.
    pub fn taken(&self) -> u64
        ensures { result ≡ (bound_of self.now).taken }
    {
        self.bound.taken
    }

    /// How many octets the bound in force still allows.
    pub fn left(&self) -> u64
        ensures { result ≡ left_of (bound_of self.now) }
    {
        self.bound.end - self.bound.taken
    }

    /// The error with this reason, here. It takes nothing.
    pub fn fault(&self, why: Why) -> ReadFault
        ensures taken { result.taken ≡ (bound_of self.now).taken }
        ensures why { result.why ≡ why }
    {
        ReadFault {
            taken: self.bound.taken,
            why,
        }
    }

    /// `n`, if the bound in force allows so many octets more. Otherwise the error at this place, which
    /// is `Window` in an open type and `Limit` outside one.
    pub fn allow(&self, n: u128) -> Result<u64, ReadFault>
        ensures room { OnOk result (n ≤ left_of (bound_of self.now)) }
        ensures value { IfOk result (λ m. m ≡ n) }
        ensures memory { TakesNoMemory result }
        ensures reads { Reads (allow_at n) (state R.loan R.remaining R.failed self.now) result
            (state R.loan R.remaining R.failed self.now) }
    {
        if n <= self.left() as u128 {
            Ok(n as u64)
        } else if self.bound.is_inside {
            Err(self.fault(Why::Window))
        } else {
            Err(self.fault(Why::Limit))
        }
    }

    // Takes octets into the front of `into`, and returns how many. One is taken at least, or it is
    // refused; at most as many are taken as the bound in force allows.
    pub(crate) fn fill(&mut self, into: &mut [u8]) -> Result<usize, ReadFault>
        requires some { 0 < length into.old }
        requires room { length into.old ≤ left_of (bound_of self.old) }
        ensures bound { Keeps (bound_of self.old) (bound_of self.new) }
        ensures memory { TakesNoMemory result }
        ensures count { IfOk result (λ n. (1 ≤ n) × (n ≤ length into.old)
            × ((bound_of self.new).taken ≡ (bound_of self.old).taken + n)) }
        ensures reads { Fills (state R.loan R.remaining R.failed self.old) result into.new
            (state R.loan R.remaining R.failed self.new) }
    {
        match self.reader.pull(into) {
            Ok(0) => Err(self.fault(Why::End)),
            Ok(count) => {
                self.bound.taken += count as u64;
                Ok(count)
            }
            Err(_) => Err(self.fault(Why::Device)),
        }
    }

    // Fills `into` with the next octets, which are within the bound in force.
    pub(crate) fn fill_all(&mut self, into: &mut [u8]) -> Result<(), ReadFault>
        requires { length into.old ≤ left_of (bound_of self.old) }
        ensures bound { Keeps (bound_of self.old) (bound_of self.new) }
        ensures memory { TakesNoMemory result }
        ensures count { OnOk result ((bound_of self.new).taken ≡ (bound_of self.old).taken + length into.old) }
        ensures reads { Reads (group (length into.old)) (state R.loan R.remaining R.failed self.old)
            (seen (λ _. into.new) result) (state R.loan R.remaining R.failed self.new) }
    {
        let mut at = 0;
        while at < into.len() {
            at += self.fill(&mut into[at..])?;
        }
        Ok(())
    }

    // The next octet, which is within the bound in force.
    pub(crate) fn next(&mut self) -> Result<u8, ReadFault>
        requires { (bound_of self.old).taken < (bound_of self.old).end }
        ensures bound { Keeps (bound_of self.old) (bound_of self.new) }
        ensures memory { TakesNoMemory result }
        ensures one { OnOk result ((bound_of self.new).taken ≡ (bound_of self.old).taken + 1) }
        ensures reads { Reads octet (state R.loan R.remaining R.failed self.old) result
            (state R.loan R.remaining R.failed self.new) }
    {
        let mut one = [0u8; 1];
        self.fill(&mut one)?;
        Ok(one[0])
    }

    /// Begins an open type of `n` octets (X.696, 30), and returns the former bound.
    pub fn enter(&mut self, n: u64) -> Outer
        requires { n ≤ left_of (bound_of self.old) }
        ensures end { end_of result ≡ (bound_of self.old).end }
        ensures inside { was_inside result ≡ (bound_of self.old).inside }
        ensures entered { state R.loan R.remaining R.failed self.new ≡ entered n (state R.loan R.remaining R.failed self.old) }
    {
        let Bound {
            taken,
            end,
            limit,
            is_inside,
        } = self.bound;
        self.bound = Bound {
            taken,
            end: taken + n,
            limit,
            is_inside: true,
        };
        Outer { end, is_inside }
    }

    /// Puts the bound back that `enter` returned. Where octets are left in the open type it fails with
    /// `Window`, and nothing changes.
    pub fn leave(&mut self, outer: Outer) -> Result<(), ReadFault>
        requires later { (bound_of self.old).end ≤ end_of outer }
        requires within { end_of outer ≤ (bound_of self.old).limit }
        ensures filled { OnOk result ((bound_of self.old).taken ≡ (bound_of self.old).end) }
        ensures ok { OnOk result (state R.loan R.remaining R.failed self.new
            ≡ returned (end_of outer) (was_inside outer) (state R.loan R.remaining R.failed self.old)) }
        ensures unfilled { OnErr result ((bound_of self.old).taken < (bound_of self.old).end) }
        ensures fault { IfErr result (λ e. (e.why ≡ Why.Window) × (e.taken ≡ (bound_of self.old).taken)) }
        ensures err { OnErr result (state R.loan R.remaining R.failed self.new ≡ state R.loan R.remaining R.failed self.old) }
    {
        if self.left() > 0 {
            return Err(self.fault(Why::Window));
        }
        let Bound { taken, limit, .. } = self.bound;
        self.bound = Bound {
            taken,
            end: outer.end,
            limit,
            is_inside: outer.is_inside,
        };
        Ok(())
    }
}
