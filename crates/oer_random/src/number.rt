//! Numbers.
ghost use Rattle.std.specs.Prelude.{◌≡◌, ◌≢◌, ◌<◌, [], map};
ghost use Rattle.oer_random.specs.Leaves.{distance as spec_distance, item_number as spec_item_number, lifted as spec_lifted, moved as spec_moved, number as spec_number, start as spec_start, within as spec_within};
ghost use Rattle.oer_values.specs.ShapeView.{named_number};

use crate::words::{of_length, wide};
use oer_skeleton::{lowered, nearest};
use oer_values::Item;

fn distance(seed: u64) -> u128
    ensures value { result ≡ spec_distance seed }
    ensures bound { result < 170141183460469231731687303715884105728 }
{
    if seed % 4 == 0 {
        return 0;
    }
    of_length((seed / 16 % 127) as u32, wide(seed))
}

/// What is left of the distance between both bounds.
fn within(low: Option<i128>, high: Option<i128>, distance: u128) -> u128
    requires { distance < 170141183460469231731687303715884105728 }
    ensures value { result ≡ spec_within low high distance }
    ensures bound { result < 170141183460469231731687303715884105728 }
{
    let (Some(low), Some(high)) = (low, high) else {
        return distance;
    };
    let most = high.abs_diff(low);
    if distance <= most {
        return distance;
    }
    distance % (most + 1)
}

fn start(side: u64, low: Option<i128>, high: Option<i128>) -> i128
    ensures { result ≡ spec_start side low high }
{
    match side {
        0 => low.unwrap_or(nearest(low, high)),
        1 => high.unwrap_or(nearest(low, high)),
        _ => nearest(low, high),
    }
}

fn moved(side: u64, start: i128, distance: u128) -> i128
    requires { distance < 170141183460469231731687303715884105728 }
    ensures { result ≡ spec_moved side start distance }
{
    if side % 2 == 0 {
        start.saturating_add(distance as i128)
    } else {
        start.saturating_sub(distance as i128)
    }
}

fn lifted(low: Option<i128>, number: i128) -> i128
    ensures { result ≡ spec_lifted low number }
{
    match low {
        Some(low) if number < low => low,
        _ => number,
    }
}

/// A number between the bounds.
pub(crate) fn number(low: Option<i128>, high: Option<i128>, seed: u64) -> i128
    ensures { result ≡ spec_number low high seed }
{
    let side = seed / 4 % 4;
    let distance = within(low, high, distance(seed));
    lowered(
        high,
        lifted(low, moved(side, start(side, low, high), distance)),
    )
}

/// The number of an item.
pub(crate) fn item_number(items: &[Item], seed: u64) -> i64
    requires { map named_number items.now ≢ [] }
    ensures { result ≡ spec_item_number (map named_number items.now) seed }
{
    items[(seed % items.len() as u64) as usize].number
}
