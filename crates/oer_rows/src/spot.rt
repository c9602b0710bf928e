//! Where a walk through octets is, and the rows that it hands over.
ghost use Rattle.std.specs.Prelude.{◌≡◌};
ghost use Rattle.oer_rows.specs.Rows.{Adds, Copies, Reaches, ReadsRow};
ghost use Rattle.oer_parts.specs.Walk.{step_of};

use crate::row::{Halt, Role, RowRef, Stopped};
use crate::taker::TakeRow;
use oer_checker::readers::{Cursor, Stop, octets_between};
use oer_parts::Step;
use std::alloc::Global;

/// The part that a walk is in, and how many octets the walk began with.
#[derive(Drop)]
pub(crate) struct Spot {
    pub alloc: Global,
    pub total: usize,
    pub path: Vec<Step>,
}

impl Spot {
    // A copy of the path.
    fn copied(&self) -> Result<Vec<Step>, Halt>
        ensures { Copies self.now.path.items result }
    {
        let mut path = Vec::new(self.alloc);
        match path.extend_from_slice(&self.path) {
            Ok(()) => Ok(path),
            Err(_) => Err(Halt::Stopped(Stopped::Memory)),
        }
    }

    /// The part to which the step leads.
    pub(crate) fn inner(&self, step: Step) -> Result<Spot, Halt>
        ensures { Reaches self.now (step_of step) result }
    {
        let mut path = self.copied()?;
        if path.push(step).is_err() {
            return Err(Halt::Stopped(Stopped::Memory));
        }
        Ok(Spot {
            alloc: self.alloc,
            total: self.total,
            path,
        })
    }

    // Hands over a row of the octets from one cursor to another.
    fn add<'a, T: TakeRow>(
        &self,
        role: Role,
        taker: &mut T,
        from: Cursor<'a>,
        to: Cursor<'a>,
    ) -> Result<(), Halt>
        ensures { Adds T.takes self.now role taker.old from.entry to.entry taker.new result }
    {
        let row = RowRef {
            offset: self.total.saturating_sub(from.rest.len()),
            octets: octets_between(from, to),
            path: self.path.as_slice(),
            role,
        };
        match taker.take(row) {
            Ok(()) => Ok(()),
            Err(stopped) => Err(Halt::Stopped(stopped)),
        }
    }

    /// What was read from one cursor to another, once a row of the octets between them is taken.
    pub(crate) fn taken<'a, A: Copy, T: TakeRow>(
        &self,
        role: Role,
        taker: &mut T,
        from: Cursor<'a>,
        to: Cursor<'a>,
        answer: Result<A, Stop>,
    ) -> Result<A, Halt>
        ensures { ReadsRow T.takes self.now role taker.old from.entry to.entry answer taker.new result }
    {
        let Ok(value) = answer else {
            return Err(Halt::Refused);
        };
        self.add(role, taker, from, to)?;
        Ok(value)
    }
}
