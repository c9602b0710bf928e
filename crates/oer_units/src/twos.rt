//! Numbers in two's complement.
ghost use Rattle.std.specs.Prelude.{◌≡◌, ◌<◌, ◌^◌};
ghost use Rattle.oer_units.specs.ReadingSteps.{int_of};

// A number, as it was read: its size is the number itself from 0 on, and one less than its
// distance from 0 below; `u128::MAX` stands for that and every greater size.
#[derive(Clone, Copy)]
pub(crate) struct Twos {
    pub is_below: bool,
    pub size: u128,
}

impl Twos {
    // The number, where it has 128 bits.
    pub(crate) fn wide(self) -> i128
        requires { self.size < 2 ^ 127 }
        ensures { result ≡ int_of self }
    {
        let size = self.size as i128;
        if self.is_below { -1 - size } else { size }
    }

    // The number, where it has 64 bits.
    pub(crate) fn narrow(self) -> i64
        requires { self.size < 2 ^ 63 }
        ensures { result ≡ int_of self }
    {
        let size = self.size as i64;
        if self.is_below { -1 - size } else { size }
    }
}
