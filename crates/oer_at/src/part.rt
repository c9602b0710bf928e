//! The part of an encoding to which hops lead.
ghost use Rattle.std.specs.Prelude.{◌≡◌, IfOk, MatchResult, Some, map};
ghost use Rattle.oer_model.specs.Parts.{find_part, go_on};
ghost use Rattle.oer_parts.specs.Encoding.{type_of_encoding};
ghost use Rattle.oer_parts.specs.Walk.{path_of, step_of};
ghost use Rattle.oer_at.specs.Finding.{Fails, Finds, find_at, is_chosen, octets_at_front, take_hop, take_step};
ghost use Rattle.oer_at.specs.Meaning.{step_behind};

use crate::hop::Hop;
use oer_checker::readers::{Cursor, tag_at};
use oer_parts::{Encoding, PartFault, Step};
use oer_types::is_same_tag;
use oer_units::Tag;
use std::alloc::Global;

/// Why there is no part.
#[derive(Clone, Copy)]
pub enum AtFault {
    /// An allocation failed.
    Memory,
    /// There are not as many elements.
    NoSuchStep,
    /// A component or an addition is absent, or another alternative is chosen.
    Absent,
}

// Whether the octets begin with the tag.
fn is_chosen(octets: &[u8], tag: Tag) -> bool
    ensures { result ≡ is_chosen tag octets.now }
{
    let mut cursor = Cursor {
        rest: octets,
        left: octets.len() as u64,
    };
    match tag_at(&mut cursor) {
        Ok(found) => is_same_tag(tag, found),
        Err(_) => false,
    }
}

// The part to which the steps lead.
fn part_on<'a>(encoding: &Encoding<'_, 'a>, path: &[Step]) -> Result<&'a [u8], AtFault>
    ensures { Finds (λ s. s.now) (find_part (Some (type_of_encoding encoding.now)) (octets_at_front encoding.now) (path_of path.now)) result }
{
    match encoding.part(path) {
        Ok(octets) => Ok(octets),
        Err(PartFault::NoSuchStep) => Err(AtFault::NoSuchStep),
        Err(PartFault::Absent) => Err(AtFault::Absent),
        Err(PartFault::Read(_)) => unreachable!(),
    }
}

// The step that the hop stands for, behind those of a path.
fn step_by(encoding: &Encoding<'_, '_>, path: &[Step], hop: Hop) -> Result<Step, AtFault>
    ensures found { MatchResult result
        (λ step. go_on (find_part (Some (type_of_encoding encoding.now)) (octets_at_front encoding.now) (path_of path.now)) (take_hop hop)
        ≡ go_on (find_part (Some (type_of_encoding encoding.now)) (octets_at_front encoding.now) (path_of path.now)) (take_step (step_of step)))
        (λ fault. Fails (go_on (find_part (Some (type_of_encoding encoding.now)) (octets_at_front encoding.now) (path_of path.now)) (take_hop hop)) fault) }
    ensures step { IfOk result (λ step. step_of step ≡ step_behind hop) }
{
    match hop {
        Hop::Part(step) => Ok(step),
        Hop::Alternative(tag) => {
            let octets = part_on(encoding, path)?;
            if is_chosen(octets, tag) {
                Ok(Step::Chosen)
            } else {
                Err(AtFault::Absent)
            }
        }
    }
}

/// The steps to the part of an encoding to which the hops lead: to an alternative, if it is the one chosen, the step to that. Where the hops
/// lead nowhere, the first that does so decides the error, or there are steps, on which `Encoding::part` fails with this error.
pub(crate) fn steps_at(
    alloc: Global,
    encoding: &Encoding<'_, '_>,
    hops: &[Hop],
) -> Result<Vec<Step>, AtFault>
    ensures found { MatchResult result
        (λ steps. find_part (Some (type_of_encoding encoding.now)) (octets_at_front encoding.now) (path_of steps.items)
        ≡ find_at (Some (type_of_encoding encoding.now)) (octets_at_front encoding.now) hops.now)
        (λ fault. Fails (find_at (Some (type_of_encoding encoding.now)) (octets_at_front encoding.now) hops.now) fault) }
    ensures steps { IfOk result (λ steps. path_of steps.items ≡ map step_behind hops.now) }
{
    let mut path = Vec::new(alloc);
    for hop in hops {
        let step = step_by(encoding, path.as_slice(), *hop)?;
        if path.push(step).is_err() {
            return Err(AtFault::Memory);
        }
    }
    Ok(path)
}

/// The part of an encoding to which the hops lead, as it stands in the octets: as `Encoding::part` hands it out. The first hop that leads
/// nowhere decides the error.
pub fn part_at<'a>(
    alloc: Global,
    encoding: &Encoding<'_, 'a>,
    hops: &[Hop],
) -> Result<&'a [u8], AtFault>
    ensures { Finds (λ s. s.now) (find_at (Some (type_of_encoding encoding.now)) (octets_at_front encoding.now) hops.now) result }
{
    let path = steps_at(alloc, encoding, hops)?;
    part_on(encoding, path.as_slice())
}
