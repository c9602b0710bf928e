//! Ends of ranges. None is the least number of 128 bits or the greatest, so that the number before a range and the one past
//! it have 128 bits, too.
ghost use Rattle.std.specs.Prelude.{◌<ℤ◌};
ghost use Rattle.std.specs.Option.{ForSome};
ghost use Rattle.std.below.core.specs.declared.int.i128.TheConstants.{MAX, MIN};

/// The numbers from `low` to `high`, both included; an absent end is no bound (X.680, 51.4). There are none where
/// `low` is above `high`. `low` isn't the least number of 128 bits, and `high` isn't the greatest.
#[derive(Clone, Copy, Debug, PartialEq, Eq)]
pub struct Range {
    pub(crate) low: Option<i128>,
    pub(crate) high: Option<i128>,
    ghost above: { ForSome low (λ n. MIN <ℤ n) },
    ghost below: { ForSome high (λ n. n <ℤ MAX) },
}

/// The place before a number, which isn't the least of 128 bits.
#[derive(Clone, Copy)]
pub struct Cut {
    pub number: i128,
    ghost above: { MIN <ℤ number },
}
