//! Why octets are rejected.
ghost use Rattle.std.specs.Prelude.{◌≡◌, true};
ghost use Rattle.oer_checker.specs.Plain.{is_plain};

use oer_units::Why;

/// Why octets are rejected. Those that were not taken are left at the cursor.
#[derive(Clone, Copy)]
pub struct Stop {
    pub why: Why,
    ghost plain: { is_plain why ≡ true },
}

ghost use Rattle.oer_units.specs.Reader.{named_inside};

impl Stop {
    /// The same in an open type, where a limit is the open type's end.
    pub(crate) fn inside(self) -> Stop
        ensures { result.why ≡ named_inside self.why }
    {
        match self.why {
            Why::Limit => Stop { why: Why::Window },
            _ => self,
        }
    }
}
