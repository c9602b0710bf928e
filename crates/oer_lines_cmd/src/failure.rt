//! How the machine fails.
ghost use Rattle.std.specs.Prelude.{◌≡◌, ◌≤◌, MatchOption};
ghost use Rattle.oer_cmd.specs.Ending.{IsMachineLine};
ghost use Rattle.oer_cmd.specs.Faults.{error_line, status_of};

use oer_cmd::Fault;
use std::io::{Error, ErrorKind};

/// How the machine failed.
#[derive(Clone, Copy, Debug, PartialEq, Eq)]
pub enum Failure {
    /// A read of the input failed.
    Input,
    /// A write to the output failed, or its flush.
    Output,
    /// An allocation failed.
    Memory,
}

impl Failure {
    /// The fault that tells of it.
    pub fn fault(self) -> Fault<'static>
        ensures line { IsMachineLine (error_line result) }
        ensures status { status_of result ≡ 3 }
    {
        match self {
            Failure::Input => Fault::Input,
            Failure::Output => Fault::Output,
            Failure::Memory => Fault::Memory,
        }
    }

    /// The failure that a fault tells of; none where the words or the octets are at fault.
    pub fn of(fault: Fault<'_>) -> Option<Failure>
        ensures { MatchOption result (status_of fault.entry ≤ 2) (λ _. 3 ≤ status_of fault.entry) }
    {
        if fault.status() < 3 {
            return None;
        }
        match fault {
            Fault::Input => Some(Failure::Input),
            Fault::Output => Some(Failure::Output),
            _ => Some(Failure::Memory),
        }
    }

    /// The failure of a read that this error tells of.
    pub fn of_read(error: &Error) -> Failure {
        if error.kind() == ErrorKind::OutOfMemory {
            Failure::Memory
        } else {
            Failure::Input
        }
    }
}
