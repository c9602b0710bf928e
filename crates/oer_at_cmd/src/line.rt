//! The line for octets, by names that are read.
ghost use Rattle.std.specs.Prelude.{◌≡◌, ◌≢◌, None, option_map, string_bytes};
ghost use Rattle.oer_types.specs.Schema.{the_type};
ghost use Rattle.oer_cmd.specs.Expected.{Meets};
ghost use Rattle.oer_cmd.specs.Octets.{octets_of};
ghost use Rattle.oer_at_cmd.specs.Answer.{at_input, at_octets};

use oer_at::{AtFault, Hop, part_at};
use oer_cmd::{Fault, all_octets, judged};
use oer_ends_cmd::{Origin, told_by};
use oer_types::Schema;
use std::alloc::Global;
use std::io::Read;

// The part to which the hops lead in octets that are all of one encoding, in hexadecimal digits.
fn digits_at<'a>(
    alloc: Global,
    schema: &Schema,
    octets: &[u8],
    hops: &[Hop],
) -> Result<String, Fault<'a>>
    ensures { Meets string_bytes (at_octets (the_type schema.now) hops.now octets.now) result }
{
    let encoding = judged(schema, octets)?;
    let octets = match part_at(alloc, &encoding, hops) {
        Ok(octets) => octets,
        Err(AtFault::Memory) => return Err(Fault::Memory),
        Err(AtFault::NoSuchStep) => return Err(Fault::NoSuchStep),
        Err(AtFault::Absent) => return Err(Fault::Absent),
    };
    match hex::encode(alloc, octets) {
        Ok(line) => Ok(line),
        Err(_) => Err(Fault::Memory),
    }
}

/// The line for the octets in hand, else for those that the input has left.
pub fn line_at<'a, R: Read>(
    alloc: Global,
    schema: &Schema,
    origin: Origin,
    hops: &[Hop],
    spelt: Option<Vec<u8>>,
    limit: u64,
    input: &mut R,
) -> Result<String, Fault<'a>>
    ensures exact { Meets string_bytes (at_input origin (the_type schema.now) limit hops.now (option_map octets_of spelt) (R.remaining input.old)) result }
    ensures untouched { option_map octets_of spelt ≢ None → input.new ≡ input.old }
{
    let octets = all_octets(alloc, spelt, input, limit)?;
    let octets = octets.as_slice();
    match digits_at(alloc, schema, octets, hops) {
        Ok(line) => Ok(line),
        Err(fault) => Err(told_by(alloc, schema, origin, limit, octets, fault)),
    }
}
