//! All the octets that a source has left.
ghost use Rattle.std.specs.Prelude.{◌≡◌, ◌≤◌, ◌<◌, ◌+◌, length, IfErr, IfOk, IfSome};
ghost use Rattle.oer_cmd.specs.Gathering.{TellsAll, counted_by};
ghost use Rattle.oer_cmd.specs.Taking.{GivesFront, IsGathered};

use oer_units::Source;
use std::alloc::Global;
use thiserror::Error;

/// Why the octets of a source were not gathered.
#[derive(Clone, Copy, Debug, PartialEq, Eq, Error)]
pub enum GatherFault {
    /// An allocation failed.
    #[error("Memory")]
    Memory,
    /// A call of the source failed.
    #[error("Device")]
    Device,
    /// The source has more octets than the limit.
    #[error("Longer")]
    Longer,
}

#[tactic(auto, using(crate::proofs::Taking::more_gathered))]
/// All the octets that the source has left, at most `limit` of them. Memory grows with the octets that
/// came. It fails with `Longer` where the source gave more octets than the limit, of which some may be
/// left; with `Device` at the first call that fails; and with `Memory` if an allocation fails.
pub fn gather<R: Source>(alloc: Global, reader: &mut R, limit: u64) -> Result<Vec<u8>, GatherFault>
    ensures all { IfOk result (λ octets. IfSome (R.remaining reader.old) (λ xs. xs ≡ octets.items)) }
    ensures within { IfOk result (λ octets. length octets.items ≤ limit) }
    ensures longer { IfErr result (λ fault. fault ≡ GatherFault.Longer
        → IfSome (R.remaining reader.old) (λ xs. limit < length xs)) }
    // How much of the source was taken, which is read in blocks of 4,096 octets.
    ensures takes { GivesFront (R.remaining reader.old) (R.remaining reader.new)
        (λ b n. (n ≤ limit + 4096) × (TellsAll result → IsGathered limit b n)) }
    // A call failed exactly where the answer is `Device`.
    ensures count { R.failed reader.new ≡ counted_by (R.failed reader.old) result }
    // A reader that borrows what it reads from has the same loan as before.
    ensures loan { R.loan reader.new ≡ R.loan reader.old }
{
    let mut octets = Vec::new(alloc);
    while octets.len() as u64 <= limit {
        let mut room = [0u8; 4096];
        match reader.pull(&mut room) {
            Ok(0) => return Ok(octets),
            Ok(n) => {
                if octets.extend_from_slice(&room[..n]).is_err() {
                    return Err(GatherFault::Memory);
                }
            }
            Err(_) => return Err(GatherFault::Device),
        }
    }
    Err(GatherFault::Longer)
}
