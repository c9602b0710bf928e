//! Checking the octets from their front.
ghost use Rattle.oer_types.specs.Schema.{the_type};
ghost use Rattle.oer_checker.specs.Check.{Answers, Finds, IsOfOctets, Tells};

use crate::cursor::Cursor;
use crate::value::check_shape;
use crate::verdict::Verdict;
use oer_types::Schema;
use oer_units::ReadFault;

/// How many octets at the front are a Basic-OER encoding (X.696) of a value of the type, and whether
/// they are canonical. What follows them is not looked at, and nothing is allocated. It fails
/// where no encoding stands at the front, as a read under the greatest limit does; the error says how
/// many octets were looked at:
///
/// - `End`: there is no further octet, and no front of the octets is an encoding;
/// - `Limit`: an encoding that begins with those looked at has more than 2^64 - 1 octets;
/// - any other reason but `Memory` and `Device`, which are never returned: no encoding begins with
///   those looked at.
pub fn check(schema: &Schema, octets: &[u8]) -> Result<Verdict, ReadFault>
    // What an answer says of the octets.
    ensures told { Tells (the_type schema.now) octets.now result }
    // An encoding at the front is found.
    ensures comes { Finds (the_type schema.now) octets.now result }
    // Which refusal it is, and where.
    ensures exact { Answers (the_type schema.now) octets.now result }
    ensures plain { IsOfOctets result }
{
    let mut at = Cursor {
        rest: octets,
        left: u64::MAX,
    };
    match check_shape(schema.shape(), &mut at) {
        Ok(canonical) => Ok(Verdict {
            octets: octets.len().saturating_sub(at.rest.len()),
            canonical,
        }),
        Err(stop) => Err(ReadFault {
            taken: octets.len().saturating_sub(at.rest.len()) as u64,
            why: stop.why,
        }),
    }
}
