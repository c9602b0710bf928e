//! Size constraints.
ghost use Rattle.std.specs.Prelude.{◌≡◌, ◌≤◌, ◌<◌, None};
ghost use Rattle.oer_model.specs.Constraints.{at_most, fixed as fixed_size, size_fits};

/// How many characters, octets, bits or elements a value may have: from `low` to `high`, or without
/// end where `high` is absent.
#[derive(Clone, Copy, Debug, PartialEq, Eq)]
pub struct Size {
    pub low: u64,
    pub high: Option<u64>,
}

impl Size {
    /// Every size.
    pub fn any() -> Self
        ensures low { result.low ≡ 0 }
        ensures high { result.high ≡ None }
    {
        Size { low: 0, high: None }
    }

    /// Whether the size allows so many. It never allows more than 64 bits count.
    pub fn allows(self, count: u128) -> bool
        ensures { result ≡ size_fits self count }
    {
        let is_high_enough = u128::from(self.low) <= count;
        is_high_enough && is_at_most(self.high, count) && count <= u128::from(u64::MAX)
    }

    /// The one size that is allowed, where there is only one.
    pub fn fixed(self) -> Option<u64>
        ensures { result ≡ fixed_size self }
    {
        match self.high {
            Some(high) => {
                if self.low == high {
                    Some(self.low)
                } else {
                    None
                }
            }
            None => None,
        }
    }
}

fn is_at_most(high: Option<u64>, count: u128) -> bool
    ensures { result ≡ at_most high count }
{
    match high {
        Some(high) => count <= u128::from(high),
        None => true,
    }
}
