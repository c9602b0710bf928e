//! Cursors over the octets that are checked.
ghost use Rattle.std.specs.Prelude.{◌≡◌, ◌≤◌, IfErr, length, true};
ghost use Rattle.oer_checker.specs.Places.{ended, outcome, place_of, same};
ghost use Rattle.oer_checker.specs.Plain.{is_plain};

use crate::stop::Stop;
use oer_units::ReadFault;

/// The octets that are left, and how many of them the bound in force still allows.
#[derive(Clone, Copy)]
pub struct Cursor<'a> {
    pub rest: &'a [u8],
    pub left: u64,
}

impl<'a> Cursor<'a> {
    /// Goes on by `taken` octets, from which the answer was read.
    pub(crate) fn after<T>(&mut self, answer: Result<T, ReadFault>, taken: u64) -> Result<T, Stop>
        requires came { taken ≤ length self.old.rest.now }
        requires room { taken ≤ self.old.left }
        requires fault { IfErr answer (λ e. e.taken ≡ taken) }
        requires plain { IfErr answer (λ e. is_plain e.why ≡ true) }
        ensures { outcome same result self.new ≡ ended (place_of self.old) answer taken }
    {
        self.rest = &self.rest[taken as usize..];
        self.left -= taken;
        match answer {
            Ok(value) => Ok(value),
            Err(fault) => Err(Stop { why: fault.why }),
        }
    }
}
