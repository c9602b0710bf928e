//! The octets that a task is given.
ghost use Rattle.std.specs.Prelude.{◌≡◌, ◌≢◌, ◌≤◌, ◌<◌, ◌+◌, ℕ, List, Option, None, length, option_map, IfErr, IfOk, IfSome, Some, string_bytes};
ghost use Rattle.hex.specs.Hex.{decode_of};
ghost use Rattle.oer_options.specs.Words.{behind};
ghost use Rattle.oer_cmd.specs.Answer.{digits_octets, hex_octets, in_digits, limited_octets, within_limit};
ghost use Rattle.oer_cmd.specs.Expected.{Meets, Says};
ghost use Rattle.oer_cmd.specs.Gathering.{TellsAll};
ghost use Rattle.oer_cmd.specs.Octets.{AreAll, AreSpelt, IsTooLong, octets_of};
ghost use Rattle.oer_cmd.specs.Taking.{GivesAll, GivesFront, IsGathered, status_after};

use crate::fault::Fault;
use crate::gathering::{GatherFault, gather};
use hex::FromHexError;
use oer_units::Lent;
use std::alloc::Global;
use std::io::Read;

/// The octets that the digits spell; fails with `Hex`, or with `Memory`.
pub fn decoded<'a>(alloc: Global, digits: &str) -> Result<Vec<u8>, Fault<'a>>
    ensures exact { Says octets_of (digits_octets digits.now) result }
    ensures octets { IfOk result (λ b. decode_of digits.now ≡ Ok b.items) }
    ensures refused { IfErr result (λ fault. fault ≢ Fault.Memory → (fault ≡ Fault.Hex) × ((b : List ℕ) → decode_of digits.now ≡ Ok b → ⊥)) }
{
    match hex::decode(alloc, digits) {
        Ok(octets) => Ok(octets),
        Err(FromHexError::OutOfMemory) => Err(Fault::Memory),
        Err(_) => Err(Fault::Hex),
    }
}

/// The octets of `--hex`, if it is there; fails with `Hex`, or with `Memory`.
pub fn spelt<'a>(alloc: Global, hex: Option<&str>) -> Result<Option<Vec<u8>>, Fault<'a>>
    ensures exact { Meets (option_map octets_of) (hex_octets (behind hex.entry)) result }
    ensures octets { IfOk result (λ octets. AreSpelt (behind hex.entry) (option_map octets_of octets)) }
    ensures refused { IfErr result (λ fault. fault ≢ Fault.Memory → (fault ≡ Fault.Hex)
        × ((octets : Option (List ℕ)) → AreSpelt (behind hex.entry) octets → ⊥)) }
{
    let Some(digits) = hex else {
        return Ok(None);
    };
    match decoded(alloc, digits) {
        Ok(octets) => Ok(Some(octets)),
        Err(fault) => Err(fault),
    }
}

// What `gather` answers for the input.
fn gather_input<R: Read>(alloc: Global, input: &mut R, limit: u64) -> Result<Vec<u8>, GatherFault>
    ensures all { IfOk result (λ octets. IfSome (R.remaining input.old) (λ xs. xs ≡ octets.items)) }
    ensures within { IfOk result (λ octets. length octets.items ≤ limit) }
    ensures longer { IfErr result (λ fault. fault ≡ GatherFault.Longer
        → IfSome (R.remaining input.old) (λ xs. limit < length xs)) }
    ensures takes { GivesFront (R.remaining input.old) (R.remaining input.new)
        (λ b n. (n ≤ limit + 4096) × (TellsAll result → IsGathered limit b n)) }
{
    gather(alloc, &mut Lent::new(input), limit)
}

/// The octets, if they are no more than the limit. Refused as `Longer`.
pub fn within<'a>(octets: Vec<u8>, limit: u64) -> Result<Vec<u8>, Fault<'a>>
    ensures { Says octets_of (within_limit limit octets.items) result }
{
    if octets.len() as u64 > limit {
        return Err(Fault::Longer(limit));
    }
    Ok(octets)
}

/// The octets in lower hexadecimal digits; fails with `Memory`.
pub fn in_digits<'a>(alloc: Global, octets: &[u8]) -> Result<String, Fault<'a>>
    ensures { Says string_bytes (in_digits octets.now) result }
{
    match hex::encode(alloc, octets) {
        Ok(line) => Ok(line),
        Err(_) => Err(Fault::Memory),
    }
}

#[tactic(auto, using(crate::proofs::Taking::gave))]
/// All that the input has left, within the limit. Refused as `Longer`, as `Input` or as `Memory`.
pub fn gathered<'a, R: Read>(alloc: Global, input: &mut R, limit: u64) -> Result<Vec<u8>, Fault<'a>>
    ensures exact { (b : List ℕ) → R.remaining input.old ≡ Some b → Says octets_of (within_limit limit b) result }
    ensures within { IfOk result (λ b. length b.items ≤ limit) }
    ensures all { IfOk result (λ b. AreAll None (R.remaining input.old) b.items) }
    ensures refused { IfErr result (IsTooLong limit None (R.remaining input.old)) }
    ensures takes { GivesAll limit (status_after result) (R.remaining input.old) (R.remaining input.new) }
{
    match gather_input(alloc, input, limit) {
        Ok(octets) => Ok(octets),
        Err(GatherFault::Memory) => Err(Fault::Memory),
        Err(GatherFault::Device) => Err(Fault::Input),
        Err(GatherFault::Longer) => Err(Fault::Longer(limit)),
    }
}

/// All the octets: those of `--hex`, else all that the input has left. Refused as `Longer` where there
/// are more than the limit, as `Input` or as `Memory`.
pub fn all_octets<'a, R: Read>(
    alloc: Global,
    spelt: Option<Vec<u8>>,
    input: &mut R,
    limit: u64,
) -> Result<Vec<u8>, Fault<'a>>
    ensures exact { Meets octets_of (limited_octets limit (option_map octets_of spelt) (R.remaining input.old)) result }
    ensures untouched { option_map octets_of spelt ≢ None → input.new ≡ input.old }
    ensures takes { option_map octets_of spelt ≡ None
        → GivesAll limit (status_after result) (R.remaining input.old) (R.remaining input.new) }
    ensures within { IfOk result (λ b. length b.items ≤ limit) }
    ensures all { IfOk result (λ b. AreAll (option_map octets_of spelt) (R.remaining input.old) b.items) }
    ensures refused { IfErr result (IsTooLong limit (option_map octets_of spelt) (R.remaining input.old)) }
{
    let Some(octets) = spelt else {
        return gathered(alloc, input, limit);
    };
    if octets.len() as u64 > limit {
        return Err(Fault::Longer(limit));
    }
    Ok(octets)
}
