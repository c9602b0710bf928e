//! Lengths and what they count.
ghost use Rattle.std.specs.Prelude.{◌≡◌, ◌+◌, eqb, length};
ghost use Rattle.oer_units.specs.Least.{length_octets};
ghost use Rattle.oer_model.specs.Checking.{check_octets as octets_checked};
ghost use Rattle.oer_checker.specs.Places.{counted_as, outcome, place_of, same};
ghost use Rattle.oer_checker.specs.Steps.{between, left_open, sized_length};

use crate::cursor::Cursor;
use crate::stop::Stop;
use crate::units::{group_at, length_at};
use oer_units::{Why, length_len};

/// The octets from one cursor to another.
pub fn octets_between<'a>(from: Cursor<'a>, to: Cursor<'a>) -> &'a [u8]
    ensures { result.now ≡ between (place_of from.entry) (place_of to.entry) }
{
    &from.rest[..from.rest.len().saturating_sub(to.rest.len())]
}

/// Whether there are so many octets from one cursor to another.
pub(crate) fn is_of_length<'a>(from: Cursor<'a>, to: Cursor<'a>, count: u64) -> bool
    ensures { result ≡ eqb (length (between (place_of from.entry) (place_of to.entry))) count }
{
    octets_between(from, to).len() as u64 == count
}

/// How many octets so many octets have after their length in its least form.
pub(crate) fn counted_len(count: u64) -> u128
    ensures { result ≡ length (length_octets count) + count }
{
    u128::from(length_len(count)) + u128::from(count)
}

/// A number of octets or of elements that stands before them.
#[derive(Clone, Copy)]
pub struct Counted {
    pub count: u64,
    /// Whether it is in its least form.
    pub is_least: bool,
}

/// A length determinant (X.696, 8.6) that is not above what is left after it, and whether it is in
/// its least form.
pub fn sized_length_at(at: &mut Cursor) -> Result<Counted, Stop>
    ensures { outcome counted_as result at.new ≡ sized_length (place_of at.old) }
{
    let start = *at;
    let count = length_at(at)?;
    let is_least = is_of_length(start, *at, length_len(count));
    Ok(Counted { count, is_least })
}

/// A length, and so many octets; whether the length is in its least form.
pub(crate) fn check_octets(at: &mut Cursor) -> Result<bool, Stop>
    ensures { outcome same result at.new ≡ octets_checked (place_of at.old) }
{
    let counted = sized_length_at(at)?;
    group_at(at, counted.count)?;
    Ok(counted.is_least)
}

/// What an open type of `count` octets (X.696, 30) answers, whose content began at `start` and answers
/// so. Where octets are left in it, or it would be passed, it fails with `Window`.
pub(crate) fn leave(
    start: Cursor,
    counted: Counted,
    answer: Result<bool, Stop>,
    at: &mut Cursor,
) -> Result<bool, Stop>
    ensures { outcome same result at.new ≡ left_open (place_of start.entry) counted.count counted.is_least (outcome same answer at.old) }
{
    match answer {
        Ok(is_canonical) => {
            if at.left > 0 {
                return Err(Stop { why: Why::Window });
            }
            at.left = start.left.saturating_sub(counted.count);
            Ok(counted.is_least && is_canonical)
        }
        Err(stop) => Err(stop.inside()),
    }
}
