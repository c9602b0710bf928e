//! Whether octets are canonical.
ghost use Rattle.std.specs.Prelude.{◌≡◌, ◌↔◌, ℕ, List, None, Some, length, true, IfErr, IfOk, string_bytes};
ghost use Rattle.oer_types.specs.Schema.{the_type};
ghost use Rattle.oer_parts.specs.Encoding.{octets_in, type_of_encoding};
ghost use Rattle.oer_units.specs.Octets.{IsOctets};
ghost use Rattle.oer_cmd.specs.Answer.{check_answer, check_octets, checked, limited};
ghost use Rattle.oer_cmd.specs.Expected.{Meets, Says, SaysOf, value};
ghost use Rattle.oer_cmd.specs.Run.{AreCanonical, IsEncoding, IsNoFront, verdict_text};
ghost use Rattle.oer_cmd.specs.Taking.{GivesAll, status_after};

use crate::fault::Fault;
use crate::octets::{decoded, gathered, within};
use oer_parts::Encoding;
use oer_types::Schema;
use std::alloc::Global;
use std::io::Read;

#[tactic(auto, using(crate::proofs::Exact::checked_all, crate::proofs::Exact::checked_more, crate::proofs::Exact::checked_stops))]
/// The encoding that the octets are, all of them. Refused as `Read` where no encoding stands at their
/// front, and as `Follows` where octets follow it.
pub fn judged<'s, 'o, 'a>(
    schema: &'s Schema,
    octets: &'o [u8],
) -> Result<Encoding<'s, 'o>, Fault<'a>>
    ensures kind { IfOk result (λ found. type_of_encoding found ≡ the_type schema.now) }
    ensures octets { IfOk result (λ found. octets_in found ≡ octets.now) }
    ensures whole { IfOk result (λ found. IsEncoding (the_type schema.now) octets.now) }
    ensures tells { IfOk result (λ found. (found.verdict.canonical ≡ true) ↔ AreCanonical (the_type schema.now) octets.now) }
    ensures only { IfOk result (λ found. IsNoFront (the_type schema.now) octets.now) }
    ensures exact { Meets (λ found. found.verdict.canonical) (checked (the_type schema.now) octets.now) result }
    ensures says { Says (λ found. found.verdict.canonical) (checked (the_type schema.now) octets.now) result }
    ensures none { IfErr result (λ fault. IsEncoding (the_type schema.now) octets.now → ⊥) }
{
    let encoding = match Encoding::at_front(schema, octets) {
        Ok(encoding) => encoding,
        Err(fault) => return Err(Fault::of_read(fault)),
    };
    let verdict = encoding.verdict;
    if verdict.octets != octets.len() {
        return Err(Fault::Follows(verdict.octets as u64));
    }
    Ok(encoding)
}

// The line for octets that are judged.
fn verdict_line<'a>(alloc: Global, is_canonical: bool, octets: &[u8]) -> Result<String, Fault<'a>>
    ensures { Says string_bytes (value (verdict_text is_canonical (length octets.now))) result }
{
    let size = octets.len();
    let line = if is_canonical {
        format!(in alloc; "canonical {size}")
    } else {
        format!(in alloc; "basic {size}")
    };
    match line {
        Ok(line) => Ok(line),
        Err(_) => Err(Fault::Memory),
    }
}

#[tactic(auto, using(crate::proofs::Meeting::anyway))]
// The line of `check` for the octets.
fn check_octets<'a>(alloc: Global, schema: &Schema, octets: &[u8]) -> Result<String, Fault<'a>>
    ensures exact { Says string_bytes (check_octets (the_type schema.now) octets.now) result }
    ensures octets { IfOk result (λ line. IsOctets octets.now) }
{
    let encoding = judged(schema, octets)?;
    verdict_line(alloc, encoding.verdict.canonical, octets)
}

/// The line of `check` for the octets that the digits spell.
pub fn check_digits<'a>(
    alloc: Global,
    schema: &Schema,
    digits: &str,
    limit: u64,
) -> Result<String, Fault<'a>>
    ensures { Says string_bytes (check_answer (the_type schema.now) limit (Some digits.now) None) result }
{
    let octets = decoded(alloc, digits)?;
    let octets = within(octets, limit)?;
    check_octets(alloc, schema, octets.as_slice())
}

#[tactic(auto, using(crate::proofs::Meeting::limited_said))]
/// The line of `check` for the octets that the input has left.
pub fn check_input<'a, R: Read>(
    alloc: Global,
    schema: &Schema,
    limit: u64,
    input: &mut R,
) -> Result<String, Fault<'a>>
    ensures exact { (b : List ℕ) → R.remaining input.old ≡ Some b
        → SaysOf string_bytes b (limited limit (check_octets (the_type schema.now)) b) result }
    ensures takes { GivesAll limit (status_after result) (R.remaining input.old) (R.remaining input.new) }
{
    let octets = gathered(alloc, input, limit)?;
    check_octets(alloc, schema, octets.as_slice())
}
