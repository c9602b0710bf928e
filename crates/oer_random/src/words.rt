//! The numbers that a seed gives: those of the generator SplitMix64.
ghost use Rattle.std.specs.Prelude.{◌≡◌, ◌<◌, IfOk};
ghost use Rattle.oer_random.specs.Words.{after, of_length as spec_of_length, wide as spec_wide, word as spec_word, words as spec_words};

use rand_core::SeedableRng;
use rand_core::utils::NextWord;
use rand_xoshiro::SplitMix64;
use std::alloc::{AllocError, Global};

/// The next number.
pub(crate) fn next(rng: &mut SplitMix64) -> u64
    ensures word { result ≡ spec_word rng.old }
    ensures rest { rng.new ≡ after rng.old }
{
    rng.next_word()
}

/// The first number of the seed.
pub(crate) fn word(seed: u64) -> u64
    ensures { result ≡ spec_word seed }
{
    let mut rng = SplitMix64::seed_from_u64(seed);
    next(&mut rng)
}

/// The first numbers of the seed, so many.
pub(crate) fn words(alloc: Global, seed: u64, count: u64) -> Result<Vec<u64>, AllocError>
    ensures { IfOk result (λ v. v.items ≡ spec_words count seed) }
{
    let mut rng = SplitMix64::seed_from_u64(seed);
    let mut words = Vec::new(alloc);
    for _ in 0..count {
        words.push(next(&mut rng))?;
    }
    Ok(words)
}

/// The first two numbers of the seed as one.
pub(crate) fn wide(seed: u64) -> u128
    ensures { result ≡ spec_wide seed }
{
    let mut rng = SplitMix64::seed_from_u64(seed);
    let high = u128::from(next(&mut rng));
    let low = u128::from(next(&mut rng));
    high * 18_446_744_073_709_551_616 + low
}

/// A number of so many binary digits, or of one more.
pub(crate) fn of_length(length: u32, number: u128) -> u128
    requires { length < 127 }
    ensures value { result ≡ spec_of_length length number }
    ensures bound { result < 170141183460469231731687303715884105728 }
{
    let size = 1_u128 << length;
    size - 1 + number % size
}
