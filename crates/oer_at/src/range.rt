//! Where the part of an encoding stands to which hops lead.
ghost use Rattle.std.specs.Prelude.{IfOk, Some, map};
ghost use Rattle.oer_model.specs.Parts.{find_part};
ghost use Rattle.oer_parts.specs.Encoding.{octets_in, type_of_encoding};
ghost use Rattle.oer_parts.specs.Ranges.{Lies, octets_in_range};
ghost use Rattle.oer_parts.specs.Walk.{path_of};
ghost use Rattle.oer_at.specs.Finding.{Finds, find_at, octets_at_front};
ghost use Rattle.oer_at.specs.Meaning.{step_behind};

use crate::hop::Hop;
use crate::part::{AtFault, steps_at};
use oer_parts::{Encoding, PartFault, Step};
use std::alloc::Global;
use std::ops::Range;

// Where the part stands to which the steps lead.
fn range_on(encoding: &Encoding<'_, '_>, path: &[Step]) -> Result<Range<usize>, AtFault>
    ensures found { Finds (octets_in_range (octets_in encoding.now)) (find_part (Some (type_of_encoding encoding.now)) (octets_at_front encoding.now) (path_of path.now)) result }
    ensures lies { IfOk result (λ range. Lies (type_of_encoding encoding.now) (octets_in encoding.now) (path_of path.now) range) }
{
    match encoding.part_range(path) {
        Ok(range) => Ok(range),
        Err(PartFault::NoSuchStep) => Err(AtFault::NoSuchStep),
        Err(PartFault::Absent) => Err(AtFault::Absent),
        Err(PartFault::Read(_)) => unreachable!(),
    }
}

/// Where the part of an encoding that `part_at` hands out stands in the octets: as `Encoding::part_range` says it, of the steps for which
/// the hops stand. It fails as `part_at` does.
pub fn range_at(
    alloc: Global,
    encoding: &Encoding<'_, '_>,
    hops: &[Hop],
) -> Result<Range<usize>, AtFault>
    ensures found { Finds (octets_in_range (octets_in encoding.now)) (find_at (Some (type_of_encoding encoding.now)) (octets_at_front encoding.now) hops.now) result }
    ensures lies { IfOk result (λ range. Lies (type_of_encoding encoding.now) (octets_in encoding.now) (map step_behind hops.now) range) }
{
    let path = steps_at(alloc, encoding, hops)?;
    range_on(encoding, path.as_slice())
}
