//! The canonical octets of a value.
ghost use Rattle.std.specs.Prelude.{◌≡◌, ℕ, List, Some};
ghost use Rattle.oer_types.specs.Schema.{the_type};
ghost use Rattle.oer_cmd.specs.Answer.{canonical_of, end_at};
ghost use Rattle.oer_cmd.specs.Expected.{Says, SaysOf};
ghost use Rattle.oer_cmd.specs.Octets.{octets_of};
ghost use Rattle.oer_cmd.specs.Taking.{Amounts, GivesFront, GivesValue, IsNext, status_after};

use crate::fault::Fault;
use oer_decoder::rewrite;
use oer_types::Schema;
use oer_units::{Metered, Source};
use std::alloc::Global;

#[tactic(auto, using(crate::proofs::Front::nothing_left, crate::proofs::Front::more_left, crate::proofs::Front::one_taken))]
/// That the reader has no octet left after a value that took so many. Refused as `Follows`, or as
/// `Input` where the reader fails.
pub fn check_end<'a, R: Source>(reader: &mut R, taken: u64) -> Result<(), Fault<'a>>
    ensures exact { (b : List ℕ) → R.remaining reader.old ≡ Some b → Says (λ u. u) (end_at taken b) result }
    ensures takes { GivesFront (R.remaining reader.old) (R.remaining reader.new) (Amounts 1 (status_after result) IsNext) }
    ensures loan { R.loan reader.new ≡ R.loan reader.old }
{
    let mut next = [0u8; 1];
    match reader.pull(&mut next) {
        Ok(0) => Ok(()),
        Ok(_) => Err(Fault::Follows(taken)),
        Err(_) => Err(Fault::Input),
    }
}

/// The canonical octets of the one value of the type that the reader has left, which takes no more
/// octets than the limit. Refused as `Read`, `Input` or `Memory` by the reader, as `Follows` where an
/// octet follows the value, beyond the limit too, as `Memory` where the canonical octets find no room,
/// and as `Output` where they are 2^64 or more.
pub fn canonical<'a, R: Source>(
    alloc: Global,
    schema: &Schema,
    reader: &mut R,
    limit: u64,
) -> Result<Vec<u8>, Fault<'a>>
    ensures exact { (b : List ℕ) → R.remaining reader.old ≡ Some b → SaysOf octets_of b (canonical_of (the_type schema.now) limit b) result }
    ensures takes { GivesValue (the_type schema.now) limit (status_after result) (R.remaining reader.old) (R.remaining reader.new) }
    ensures loan { R.loan reader.new ≡ R.loan reader.old }
{
    let mut sink = Metered::new(Vec::new(alloc));
    let taken = match rewrite(alloc, schema, reader, limit, &mut sink) {
        Ok((taken, _)) => taken,
        Err(fault) => return Err(Fault::of_rewrite(fault)),
    };
    check_end(reader, taken)?;
    Ok(sink.into_inner())
}
