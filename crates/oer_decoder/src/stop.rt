//! Why a value is not read.
ghost use Rattle.std.specs.Prelude.{◌≡◌};

use oer_units::{ReadFault, Why};

/// Why a value is not read. How many octets were taken is what the window says.
#[derive(Clone, Copy)]
pub(crate) struct Stop {
    pub why: Why,
}

impl From<ReadFault> for Stop {
    ghost from_gives = { λ fault stop. stop.why ≡ fault.why };

    fn from(fault: ReadFault) -> Stop {
        Stop { why: fault.why }
    }
}
