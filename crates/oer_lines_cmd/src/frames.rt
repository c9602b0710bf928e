//! The messages of the input that stand each behind its length.
ghost use Rattle.std.specs.Prelude.{◌≡◌, ◌≤◌, ◌<◌, List, ℕ, IfOk, OnOk, length, take};
ghost use Rattle.std.specs.Io.KnownBytes.{Consumes, IsAtEnd, Keeps};
ghost use Rattle.oer_units.specs.Width.{octets_of_width};
ghost use Rattle.oer_lines_cmd.specs.Frames.{PassesUpTo, TakesFrame, TakesMessage, TakesUpTo};

use crate::failure::Failure;
use oer_units::{Width, unsigned_of};
use std::io::{ErrorKind, Read};

// How many octets are read at once.
const BLOCK: u64 = 4096;

/// What was taken of the input.
#[derive(Clone, Copy, Debug, PartialEq, Eq)]
pub enum Taken {
    /// Nothing: no octet is left.
    End,
    /// A message.
    Whole,
    /// One longer than the limit.
    Long,
    /// So many octets of a length and its message, behind which no octet is left.
    Cut(u128),
}

/// Reads octets into the front of `room`, and again where that is interrupted. How many.
///
/// # Errors
/// Input, if the read failed; Memory, if an allocation did.
pub fn read_some<R: Read>(input: &mut R, room: &mut [u8]) -> Result<usize, Failure>
    ensures room { length room.new ≡ length room.old }
    ensures most { IfOk result (λ n. n ≤ length room.new) }
    ensures octets { IfOk result (λ n. Consumes (R.remaining input.old) (R.remaining input.new) (take n room.new)) }
    ensures end { IfOk result (λ n. n ≡ 0 → 0 < length room.new → IsAtEnd (R.remaining input.new)) }
{
    for _ in 0..u64::MAX {
        match input.read(room) {
            Ok(count) => return Ok(count),
            Err(error) if error.kind() == ErrorKind::Interrupted => {}
            Err(error) => return Err(Failure::of_read(&error)),
        }
    }
    Err(Failure::Input)
}

// Takes so many octets of the input, or all that it has left where these are fewer, in place of what `octets` had.
fn take_octets<R: Read>(input: &mut R, count: u64, octets: &mut Vec<u8>) -> Result<(), Failure>
    ensures { OnOk result (TakesUpTo count (R.remaining input.old) (R.remaining input.new) octets.new.items) }
{
    octets.clear();
    let mut room = [0u8; BLOCK as usize];
    let mut left = count;
    while left > 0 {
        let most = left.min(BLOCK) as usize;
        let read = read_some(input, &mut room[..most])?;
        if read == 0 {
            return Ok(());
        }
        if octets.extend_from_slice(&room[..read]).is_err() {
            return Err(Failure::Memory);
        }
        left -= read as u64;
    }
    Ok(())
}

// Passes over so many octets of the input, or over all that it has left where these are fewer, block by block. How many.
fn pass_over<R: Read>(input: &mut R, count: u64, block: &mut Vec<u8>) -> Result<u64, Failure>
    ensures { IfOk result (PassesUpTo count (R.remaining input.old) (R.remaining input.new)) }
{
    let mut passed = 0;
    while passed < count {
        take_octets(input, (count - passed).min(BLOCK), block)?;
        if block.is_empty() {
            return Ok(passed);
        }
        passed += block.len() as u64;
    }
    Ok(passed)
}

// Takes a message of this size; or passes over it where it is longer than the limit. How many of its octets were there.
fn take_message<R: Read>(
    input: &mut R,
    size: u64,
    limit: u64,
    message: &mut Vec<u8>,
) -> Result<u64, Failure>
    ensures { IfOk result (TakesMessage size limit (R.remaining input.old) (R.remaining input.new) message.new.items) }
{
    if size > limit {
        return pass_over(input, size, message);
    }
    take_octets(input, size, message)?;
    Ok(message.len() as u64)
}

/// Takes the next message of the input and its length, in place of what `message` had. One longer than the limit is passed over, in
/// blocks of bounded size.
///
/// # Errors
/// Input, if a read failed; Memory, if an allocation did.
pub fn take_frame<R: Read>(
    input: &mut R,
    width: Width,
    limit: u64,
    message: &mut Vec<u8>,
) -> Result<Taken, Failure>
    ensures { TakesFrame (octets_of_width width) limit (R.remaining input.old) (R.remaining input.new) message.new.items result }
{
    take_octets(input, width.octets() as u64, message)?;
    let before = message.len();
    if before == 0 {
        return Ok(Taken::End);
    }
    if before < width.octets() {
        return Ok(Taken::Cut(before as u128));
    }
    let size = unsigned_of(message);
    let there = take_message(input, size, limit, message)?;
    if there < size {
        return Ok(Taken::Cut(before as u128 + there as u128));
    }
    if size > limit {
        return Ok(Taken::Long);
    }
    Ok(Taken::Whole)
}
