//! The messages of the input that stand right behind one another.
ghost use Rattle.std.specs.Prelude.{◌≡◌, ◌≤◌, IfSome, length};
ghost use Rattle.std.specs.Io.KnownBytes.{prepend_known};
ghost use Rattle.oer_types.specs.Schema.{the_type};
ghost use Rattle.oer_lines_cmd.specs.Reading.{FindsAhead, FindsLast, FindsPiece, ReadsSize, TakesPiece, ahead_of, known};

use crate::ahead::Ahead;
use crate::failure::Failure;
use crate::front::Front;
use oer_decoder::read_with_length;
use oer_types::Schema;
use oer_units::{Metered, ReadFault, Source, Why};
use std::alloc::Global;
use std::io::Read;

/// What stands at the front of the input, and how many octets that takes.
#[derive(Clone, Copy, Debug, PartialEq, Eq)]
pub enum Piece {
    /// A message.
    Message(usize),
    /// Octets with which none begins.
    Rejected(usize),
    /// Octets with which none begins within the limit, though a longer one may.
    Long(usize),
}

// How many octets the value has that stands at the front of a source.
fn size_at_front<S: Source>(
    alloc: Global,
    schema: &Schema,
    limit: u64,
    source: &mut S,
) -> Result<u64, ReadFault>
    ensures { ReadsSize (the_type schema.now) limit (S.remaining source.old) (S.failed source.old) result
        (S.remaining source.new) (S.failed source.new) }
{
    match read_with_length(alloc, schema, source, limit) {
        Ok((_, size)) => Ok(size),
        Err(fault) => Err(fault),
    }
}

// What stands at the front of a source, if that is among so many octets at its front.
fn find_piece<S: Source>(
    alloc: Global,
    schema: &Schema,
    limit: u64,
    source: &mut S,
    there: usize,
) -> Result<Option<Piece>, Failure>
    requires { 1 ≤ there }
    ensures { IfSome (S.remaining source.old) (λ xs. FindsPiece (the_type schema.now) limit xs there result) }
{
    let fault = match size_at_front(alloc, schema, limit, source) {
        Ok(0) => return Ok(Some(Piece::Rejected(1))),
        Ok(size) if size <= there as u64 => return Ok(Some(Piece::Message(size as usize))),
        Ok(_) => return Ok(None),
        Err(fault) => fault,
    };
    if fault.taken > there as u64 {
        return Ok(None);
    }
    match fault.why {
        Why::Device => Ok(None),
        Why::Memory => Err(Failure::Memory),
        Why::Limit => Ok(Some(Piece::Long(fault.taken as usize))),
        _ => Ok(Some(Piece::Rejected(fault.taken as usize))),
    }
}

// What stands at the front of the octets that were read, if they tell that.
fn piece_ahead<R: Read>(
    alloc: Global,
    schema: &Schema,
    limit: u64,
    octets: &[u8],
    input: &R,
) -> Result<Option<Piece>, Failure>
    ensures { FindsAhead (the_type schema.now) limit octets.now (known (R.remaining input.now)) result }
{
    if octets.is_empty() {
        return Ok(None);
    }
    find_piece(
        alloc,
        schema,
        limit,
        &mut Front::new(octets, input),
        octets.len(),
    )
}

// What stands at the front of the last octets, if there are any.
fn last_piece(
    alloc: Global,
    schema: &Schema,
    limit: u64,
    octets: &[u8],
) -> Result<Option<Piece>, Failure>
    ensures { FindsLast (the_type schema.now) limit octets.now result }
{
    if octets.is_empty() {
        return Ok(None);
    }
    match find_piece(
        alloc,
        schema,
        limit,
        &mut Metered::new(octets),
        octets.len(),
    ) {
        Ok(Some(piece)) => Ok(Some(piece)),
        Ok(None) => Err(Failure::Input),
        Err(failure) => Err(failure),
    }
}

/// What stands at the front of the octets ahead, before those that the input has left; none where nothing is left. So many octets are read
/// that they tell it, and none is waited for behind them.
///
/// # Errors
/// Input, if a read failed; Memory, if an allocation did.
pub fn take_piece<R: Read>(
    alloc: Global,
    schema: &Schema,
    limit: u64,
    input: &mut R,
    ahead: &mut Ahead,
) -> Result<Option<Piece>, Failure>
    ensures { TakesPiece (the_type schema.now) limit (prepend_known (ahead_of ahead.old) (R.remaining input.old)) (ahead_of ahead.new)
        (R.remaining input.new) result }
{
    for _ in 0..u64::MAX {
        if let Some(piece) = piece_ahead(alloc, schema, limit, ahead.octets(), input)? {
            return Ok(Some(piece));
        }
        if !ahead.more(alloc, input)? {
            return last_piece(alloc, schema, limit, ahead.octets());
        }
    }
    Err(Failure::Input)
}
