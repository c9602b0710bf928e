//! How many characters, octets, bits or elements a value has.
ghost use Rattle.std.specs.Prelude.{◌≡◌, ◌≤◌, ℕ};
ghost use Rattle.oer_random.specs.Drawn.{elements as spec_elements};
ghost use Rattle.oer_random.specs.Leaves.{count_in as spec_count_in, more_letters, spread as spec_spread};

use oer_model::Size;

/// How many characters, octets or bits a string may have above the least.
const MORE_LETTERS: u8 = 8;

fn spread(high: Option<u64>, low: u64, more: u8) -> u64
    ensures value { result ≡ spec_spread high low more }
    ensures most { result ≤ 255 }
{
    match high {
        None => u64::from(more),
        Some(high) => high.saturating_sub(low).min(u64::from(more)),
    }
}

/// The least, or up to `more` above it.
fn count_in(size: Size, more: u8, seed: u64) -> u64
    ensures { result ≡ spec_count_in size more seed }
{
    size.low
        .saturating_add(seed % (spread(size.high, size.low, more) + 1))
}

/// How many characters, octets or bits a string has.
pub(crate) fn string_size(size: Size, seed: u64) -> u64
    ensures { result ≡ spec_count_in size more_letters seed }
{
    count_in(size, MORE_LETTERS, seed)
}

/// How many elements a list has.
pub(crate) fn elements(room: u8, is_item_legal: bool, size: Size, seed: u64) -> u64
    ensures { result ≡ spec_elements room is_item_legal size seed }
{
    if is_item_legal {
        count_in(size, room, seed)
    } else {
        size.low
    }
}
