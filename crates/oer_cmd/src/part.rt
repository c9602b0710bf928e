//! A part of octets.
ghost use Rattle.std.specs.Prelude.{◌≡◌, ℕ, List, Option, None, Some, IfOk, string_bytes};
ghost use Rattle.oer_model.specs.Parts.{Step as PlainStep};
ghost use Rattle.oer_types.specs.Schema.{the_type};
ghost use Rattle.oer_parts.specs.Walk.{path_of as steps_of};
ghost use Rattle.oer_options.specs.Words.{behind};
ghost use Rattle.oer_units.specs.Octets.{IsOctets};
ghost use Rattle.oer_cmd.specs.Answer.{HasNoPath, HasPath, IsPathOf, part_answer, part_octets};
ghost use Rattle.oer_cmd.specs.Expected.{Expected, Says, SaysOf, stop};
ghost use Rattle.oer_cmd.specs.Taking.{GivesAll, status_after};

use crate::check::judged;
use crate::fault::Fault;
use crate::octets::{decoded, gathered, in_digits, within};
use oer_parts::laws::one_path;
use oer_parts::{PartFault, PathFault, Step, read_path};
use oer_types::Schema;
use std::alloc::Global;
use std::io::Read;

#[tactic(auto, using(crate::proofs::Exact::path_none))]
// The path of `--path`; fails with `Path`, or with `Memory`.
fn path_of<'a>(alloc: Global, text: Option<&str>) -> Result<Vec<Step>, Fault<'a>>
    ensures exact { (path : Expected (List PlainStep)) → IsPathOf (behind text.entry) path → Says (λ v. steps_of v.items) path result }
    ensures spells { IfOk result (λ path. HasPath (behind text.entry)) }
{
    let Some(text) = text else {
        return Ok(Vec::new(alloc));
    };
    // Only a law, for the proof: a text spells at most one path. The call does nothing.
    one_path();
    match read_path(alloc, text) {
        Ok(path) => Ok(path),
        Err(PathFault::Memory) => Err(Fault::Memory),
        Err(PathFault::Form) => Err(Fault::Path),
    }
}

// The part to which the path leads in octets that are all of one encoding, in hexadecimal digits.
fn digits_of_part<'a>(
    alloc: Global,
    schema: &Schema,
    octets: &[u8],
    path: &[Step],
) -> Result<String, Fault<'a>>
    ensures exact { Says string_bytes (part_octets (the_type schema.now) (steps_of path.now) octets.now) result }
    ensures octets { IfOk result (λ line. IsOctets octets.now) }
{
    let encoding = judged(schema, octets)?;
    let octets = match encoding.part(path) {
        Ok(octets) => octets,
        Err(PartFault::Read(fault)) => return Err(Fault::of_read(fault)),
        Err(PartFault::NoSuchStep) => return Err(Fault::NoSuchStep),
        Err(PartFault::Absent) => return Err(Fault::Absent),
    };
    in_digits(alloc, octets)
}

/// The line of `part` for the octets that the digits spell.
pub fn part_of_digits<'a>(
    alloc: Global,
    schema: &Schema,
    digits: &str,
    path: Option<&str>,
    limit: u64,
) -> Result<String, Fault<'a>>
    ensures exact { (steps : Expected (List PlainStep)) → IsPathOf (behind path.entry) steps
        → Says string_bytes (part_answer (the_type schema.now) limit (Some digits.now) steps None) result }
    ensures spells { IfOk result (λ line. HasPath (behind path.entry)) }
{
    let octets = decoded(alloc, digits)?;
    let steps = path_of(alloc, path)?;
    let octets = within(octets, limit)?;
    digits_of_part(alloc, schema, octets.as_slice(), steps.as_slice())
}

/// The line of `part` for the octets that the input has left.
pub fn part_of_input<'a, R: Read>(
    alloc: Global,
    schema: &Schema,
    path: Option<&str>,
    limit: u64,
    input: &mut R,
) -> Result<String, Fault<'a>>
    ensures exact { (steps : Expected (List PlainStep)) → IsPathOf (behind path.entry) steps
        → (b : List ℕ) → R.remaining input.old ≡ Some b
        → SaysOf string_bytes b (part_answer (the_type schema.now) limit None steps (Some b)) result }
    ensures spells { IfOk result (λ line. HasPath (behind path.entry)) }
    ensures takes { HasPath (behind path.entry)
        → GivesAll limit (status_after result) (R.remaining input.old) (R.remaining input.new) }
    ensures pathless { HasNoPath (behind path.entry) → (input.new ≡ input.old) × Says string_bytes (stop Fault.Path) result }
{
    let path = path_of(alloc, path)?;
    let octets = gathered(alloc, input, limit)?;
    digits_of_part(alloc, schema, octets.as_slice(), path.as_slice())
}
