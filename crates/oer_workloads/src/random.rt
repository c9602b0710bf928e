//! Numbers that look random, the same for the same seed.
use std::alloc::AllocError;

/// The generator SplitMix64 of Steele, Lea and Flood.
#[derive(Drop)]
pub(crate) struct Random {
    state: u64,
}

impl Random {
    ghost use Rattle.std.specs.Prelude.{◌≤◌};

    /// From a seed.
    pub(crate) fn new(seed: u32) -> Random {
        Random {
            state: u64::from(seed),
        }
    }

    /// The next number.
    pub(crate) fn number(&mut self) -> u64 {
        self.state = self.state.wrapping_add(0x9e37_79b9_7f4a_7c15);
        let mut mixed = self.state;
        mixed = (mixed ^ (mixed >> 30)).wrapping_mul(0xbf58_476d_1ce4_e5b9);
        mixed = (mixed ^ (mixed >> 27)).wrapping_mul(0x94d0_49bb_1331_11eb);
        mixed ^ (mixed >> 31)
    }

    /// A number below this one, which is at least 1.
    pub(crate) fn below(&mut self, end: usize) -> usize
        ensures { result ≤ end }
    {
        if end == 0 {
            return 0;
        }
        (self.number() % end as u64) as usize
    }

    /// Whether something happens that does so once in so many times.
    pub(crate) fn is_one_of(&mut self, times: usize) -> bool {
        self.below(times) == 0
    }

    /// An octet.
    pub(crate) fn octet(&mut self) -> u8 {
        (self.number() & 0xff) as u8
    }

    /// Adds so many octets.
    pub(crate) fn put(&mut self, count: usize, to: &mut Vec<u8>) -> Result<(), AllocError> {
        let end = to.len().saturating_add(count);
        for _ in 0..count / 8 + 1 {
            to.extend_from_slice(&self.number().to_be_bytes())?;
        }
        to.truncate(end);
        Ok(())
    }

    /// Adds so many small letters.
    pub(crate) fn put_letters(&mut self, count: usize, to: &mut Vec<u8>) -> Result<(), AllocError> {
        for _ in 0..count {
            to.push(b'a' + (self.number() % 26) as u8)?;
        }
        Ok(())
    }
}
