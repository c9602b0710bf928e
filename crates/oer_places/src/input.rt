//! What an input begins with.
ghost use Rattle.std.specs.Prelude.{◌≡◌, IfOk, IfSome};
ghost use Rattle.std.specs.Io.KnownBytes.{Keeps};
ghost use Rattle.oer_places.specs.Input.{IsFront, front_of};
ghost use Rattle.oer_places.specs.Place.{items_of};

use std::alloc::{AllocError, Global};
use std::io::BufRead;

// How many octets are copied at most.
const MOST_COPIED: usize = 65_536;

// A copy of the first octets of a block.
fn front_of(alloc: Global, block: &[u8]) -> Result<Vec<u8>, AllocError>
    ensures { IfOk result (λ copy. items_of copy ≡ front_of block.now) }
{
    let mut copy = Vec::new(alloc);
    copy.extend_from_slice(&block[..MOST_COPIED.min(block.len())])?;
    Ok(copy)
}

/// A copy of what an input has ready, of its first 65,536 octets at most; it is read where nothing is ready. Nothing is taken of it. There is
/// none where a read fails or an allocation does.
pub fn ready<R: BufRead>(alloc: Global, input: &mut R) -> Option<Vec<u8>>
    ensures front { IfSome result (λ copy. IsFront (R.remaining input.old) (items_of copy)) }
    ensures keeps { Keeps (R.remaining input.old) (R.remaining input.new) }
{
    match input.fill_buf() {
        Ok(block) => front_of(alloc, block).ok(),
        Err(_) => None,
    }
}
