//! Handing out parts of an encoding.
ghost use Rattle.std.specs.Prelude.{IfOk};
ghost use Rattle.oer_types.specs.Schema.{the_type};
ghost use Rattle.oer_parts.specs.Handing.{AnswersPart, Follows, Hands, IsOfPath};
ghost use Rattle.oer_parts.specs.Ranges.{Lies, octets_in_range};
ghost use Rattle.oer_parts.specs.Walk.{path_of};

use crate::encoding::Encoding;
use crate::fault::PartFault;
use crate::step::Step;
use oer_types::Schema;
use std::ops::Range;

/// The part of an encoding to which the steps lead, as it stands in the octets: the part's own
/// encoding, without its tag and without the length of an open type. Without a step it is the whole
/// encoding. Of an addition or alternative that the type doesn't know it is the content of its open
/// type. What follows the encoding is not looked at, and nothing is allocated.
///
/// The whole is checked first, then the steps from the left; the first one that fails decides:
///
/// - `Read`: [`check`](crate::check) rejects the octets, with this error;
/// - `Absent`: the step names a component of the root or a known addition, which is absent;
/// - `NoSuchStep`: any other step that leads nowhere.
pub fn part<'a>(schema: &Schema, octets: &'a [u8], path: &[Step]) -> Result<&'a [u8], PartFault>
    // What is returned, and what a fault says.
    ensures told { Hands (λ s. s.now) (the_type schema.now) octets.now (path_of path.now) result }
    // A part is returned, and its absence said, wherever an encoding is at the front.
    ensures comes { Follows (λ s. s.now) (the_type schema.now) octets.now (path_of path.now) result }
    // Which fault it is, as the checker and the plain function of paths answer.
    ensures exact { AnswersPart (λ s. s.now) (the_type schema.now) octets.now (path_of path.now) result }
    ensures plain { IsOfPath result }
{
    match Encoding::at_front(schema, octets) {
        Ok(encoding) => encoding.part(path),
        Err(fault) => Err(PartFault::Read(fault)),
    }
}

/// Where the part of an encoding to which the steps lead stands in the octets: it is `octets[range]`.
/// Of a part without octets the range is empty, and begins where the part would. Everything else is as
/// for [`part`]; it fails as that does.
pub fn part_range(schema: &Schema, octets: &[u8], path: &[Step]) -> Result<Range<usize>, PartFault>
    // What the range names, and what a fault says.
    ensures told { Hands (octets_in_range octets.now) (the_type schema.now) octets.now (path_of path.now) result }
    // A part is named, and its absence said, wherever an encoding is at the front.
    ensures comes { Follows (octets_in_range octets.now) (the_type schema.now) octets.now (path_of path.now) result }
    // Which fault it is, as the checker and the plain function of paths answer.
    ensures exact { AnswersPart (octets_in_range octets.now) (the_type schema.now) octets.now (path_of path.now) result }
    ensures plain { IsOfPath result }
    // The part stands there, after the octets of all that is before it.
    ensures lies { IfOk result (λ range. Lies (the_type schema.now) octets.now (path_of path.now) range) }
{
    match Encoding::at_front(schema, octets) {
        Ok(encoding) => encoding.part_range(path),
        Err(fault) => Err(PartFault::Read(fault)),
    }
}
