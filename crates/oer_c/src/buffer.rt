//! Octets put into a buffer of the caller's.
ghost use Rattle.std.specs.Prelude.{◌≡◌, leb, length};
ghost use Rattle.oer_c.specs.Buffers.{IsFilled, IsFront, IsPut, only_written, rejection, wrote};

use crate::status::{OK, REJECTED, ROOM};
use oer_units::ReadFault;

/// What a call answers that writes into a buffer. It takes 24 octets: `status` at 0, `why` at 4,
/// `octets` at 8 and `written` at 16.
#[repr(C)]
#[derive(Clone, Copy)]
pub struct Written {
    /// One of the statuses.
    pub status: u32,
    /// At `REJECTED` the number of the reason; else 0.
    pub why: u32,
    /// How many octets the encoding has that is at the front, or how many were looked at before
    /// they were rejected; else 0.
    pub octets: u64,
    /// How many octets were written, or at `ROOM` how many are needed; else 0.
    pub written: u64,
}

const _: () = prove!(size_of::<Written>() == 24);

/// A status and nothing else.
pub(crate) fn only_status(status: u32) -> Written
    ensures { result ≡ only_written status }
{
    Written {
        status,
        why: 0,
        octets: 0,
        written: 0,
    }
}

/// A status of a path in an encoding of so many octets.
pub(crate) fn missed(status: u32, taken: u64) -> Written
    ensures { result ≡ wrote status taken 0 }
{
    Written {
        status,
        why: 0,
        octets: taken,
        written: 0,
    }
}

/// Octets are rejected.
pub(crate) fn reject(fault: ReadFault) -> Written
    ensures { result ≡ rejection fault }
{
    Written {
        status: REJECTED,
        why: u32::from(fault.why.number()),
        octets: fault.taken,
        written: 0,
    }
}

// Puts the octets at the front of the buffer, if it has room for all of them.
fn fill(out: &mut [u8], octets: &[u8]) -> bool
    ensures room { result ≡ leb (length octets.now) (length out.old) }
    ensures filled { IsFilled octets.now out.old out.new result }
{
    if octets.len() > out.len() {
        return false;
    }
    out[..octets.len()].copy_from_slice(octets);
    true
}

/// Puts the octets into the buffer, if it has room for all of them. They were made of so many octets
/// that were read.
pub(crate) fn put(out: &mut [u8], octets: &[u8], taken: u64) -> Written
    ensures { IsPut octets.now taken out.old out.new result }
{
    let status = if fill(out, octets) { OK } else { ROOM };
    Written {
        status,
        why: 0,
        octets: taken,
        written: octets.len() as u64,
    }
}

/// Puts as much of the octets at the front of the buffer as it has room for, and returns how many these are.
pub(crate) fn put_front(out: &mut [u8], octets: &[u8]) -> usize
    ensures { IsFront octets.now out.old out.new result }
{
    let count = octets.len().min(out.len());
    out[..count].copy_from_slice(&octets[..count]);
    count
}
