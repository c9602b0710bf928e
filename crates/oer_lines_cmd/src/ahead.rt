//! The octets that were read of the input, and that no message has taken yet.
ghost use Rattle.std.specs.Prelude.{◌≡◌, ◌≤◌, IfOk, [], drop, length, vec_len};

use crate::failure::Failure;
use crate::frames::read_some;
use std::alloc::Global;
use std::io::Read;

// How many octets are read at once, at least.
const BLOCK: usize = 8192;

/// The octets that were read of the input, and that no message has taken yet.
#[derive(Drop)]
pub struct Ahead {
    octets: Vec<u8>,
    // How many of them messages took.
    at: usize,
    ghost within: { at ≤ vec_len octets },
}

// So many zeros.
fn zeros(alloc: Global, count: usize) -> Result<Vec<u8>, Failure>
    ensures { IfOk result (λ room. length room.items ≡ count) }
{
    let mut room = Vec::new(alloc);
    match room.resize(count, 0) {
        Ok(()) => Ok(room),
        Err(_) => Err(Failure::Memory),
    }
}

impl Ahead {
    ghost use Rattle.oer_lines_cmd.specs.Reading.{ReadsMore, ahead_of};

    /// None.
    pub fn new(alloc: Global) -> Self
        ensures { ahead_of result ≡ [] }
    {
        Ahead {
            octets: Vec::new(alloc),
            at: 0,
        }
    }

    /// The octets.
    pub fn octets(&self) -> &[u8]
        ensures { result.now ≡ ahead_of self.now }
    {
        &self.octets[self.at..]
    }

    /// A message takes so many of them.
    pub fn pass(&mut self, count: usize)
        requires { count ≤ length (ahead_of self.old) }
        ensures { ahead_of self.new ≡ drop count (ahead_of self.old) }
    {
        self.at += count;
    }

    /// Reads once more, as many octets as there are already, and no fewer than a block, or what the input gives of these without waiting
    /// for the rest. Whether there are more of them: if not, the input has none left.
    ///
    /// # Errors
    /// Input, if the read failed; Memory, if an allocation did.
    pub fn more<R: Read>(&mut self, alloc: Global, input: &mut R) -> Result<bool, Failure>
        ensures { IfOk result (ReadsMore (R.remaining input.old) (R.remaining input.new) (ahead_of self.old) (ahead_of self.new)) }
    {
        let mut octets = Vec::new(alloc);
        if octets.extend_from_slice(self.octets()).is_err() {
            return Err(Failure::Memory);
        }
        let mut room = zeros(alloc, octets.len().max(BLOCK))?;
        let read = read_some(input, &mut room)?;
        if octets.extend_from_slice(&room[..read]).is_err() {
            return Err(Failure::Memory);
        }
        *self = Ahead { octets, at: 0 };
        Ok(read > 0)
    }
}
