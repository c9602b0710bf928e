//! Ranges of whole numbers.
ghost use Rattle.std.specs.Prelude.{◌≡◌};
ghost use Rattle.std.specs.Option.{option_map};
ghost use Rattle.oer_module_bounds.specs.Steps.{number_of, past};
ghost use Rattle.oer_module_bounds.specs.Sets.{everything, is_greatest as greatest, is_least as least, range_from, span_of};

use crate::ends::{Cut, Range};

impl Range {
    /// The numbers from `low` to `high`. None where `low` is the least number of 128 bits, or `high` the greatest: such
    /// a range isn't read.
    pub fn new(low: Option<i128>, high: Option<i128>) -> Option<Range>
        ensures { option_map span_of result ≡ range_from low high }
    {
        if is_least(low) || is_greatest(high) {
            return None;
        }
        Some(Range { low, high })
    }

    /// All numbers.
    pub fn everything() -> Range
        ensures { span_of result ≡ everything }
    {
        Range {
            low: None,
            high: None,
        }
    }

    /// The least number, if there is a bound below.
    pub fn low(self) -> Option<i128>
        ensures { result ≡ (span_of self).low }
    {
        self.low
    }

    /// The greatest number, if there is a bound above.
    pub fn high(self) -> Option<i128>
        ensures { result ≡ (span_of self).high }
    {
        self.high
    }

    /// The place before the least number.
    pub(crate) fn begin(self) -> Option<Cut>
        ensures { number_of result ≡ (span_of self).low }
    {
        match self.low {
            Some(number) => Some(Cut { number }),
            None => None,
        }
    }

    /// The place past the greatest number.
    pub(crate) fn end(self) -> Option<Cut>
        ensures { number_of result ≡ past (span_of self).high }
    {
        match self.high {
            Some(number) => Some(Cut { number: number + 1 }),
            None => None,
        }
    }
}

fn is_least(low: Option<i128>) -> bool
    ensures { result ≡ least low }
{
    match low {
        Some(number) => number == i128::MIN,
        None => false,
    }
}

fn is_greatest(high: Option<i128>) -> bool
    ensures { result ≡ greatest high }
{
    match high {
        Some(number) => number == i128::MAX,
        None => false,
    }
}
