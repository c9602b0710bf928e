//! Canonical octets that are gathered in memory, a piece at a time.
ghost use Rattle.std.specs.Prelude.{◌≡◌, ◌≤◌, MatchResult, Ok, Err, drop, length, map, take};
ghost use Rattle.oer_units.specs.Least.{counted, length_octets, tag_octets, unsigned_octets};
ghost use Rattle.oer_units.specs.declared.fault.Why.TheVariants.{Memory};
ghost use Rattle.oer_model.specs.Canonical.{unknown_octets};
ghost use Rattle.oer_leaves.specs.Parts.{leaf_octets};
ghost use Rattle.oer_values.specs.ShapeView.{type_of};
ghost use Rattle.oer_values.specs.ValueView.{unknown_of, value_of};
ghost use Rattle.oer_decoder.specs.Octets.{gathered};
ghost use Rattle.oer_decoder.specs.Recoding.{Grows};

use crate::octets::Octets;
use crate::stop::Stop;
use oer_leaves::{put_count, put_leaf, put_quantity, put_slice, put_tag_octets, put_unknown};
use oer_types::{Shape, Unknown, Value};
use oer_units::{SinkFault, Tag, Why};

// What a write into memory comes to: nothing but memory can be missing.
fn grown(put: Result<u64, SinkFault>) -> Result<(), Stop>
    ensures { MatchResult put (λ _. result ≡ Ok tt) (λ _. result ≡ Err (record { why = Memory })) }
{
    match put {
        Ok(_) => Ok(()),
        Err(_) => Err(Stop { why: Why::Memory }),
    }
}

/// Appends octets.
pub(crate) fn append(octets: &[u8], out: &mut Octets) -> Result<(), Stop>
    ensures { Grows octets.now (gathered out.old) result (gathered out.new) }
{
    grown(put_slice(octets, 0, out))
}

/// Appends a length determinant.
pub(crate) fn append_length(length: u64, out: &mut Octets) -> Result<(), Stop>
    ensures { Grows (length_octets length) (gathered out.old) result (gathered out.new) }
{
    grown(put_count(length, 0, out))
}

/// Appends octets, after their length.
pub(crate) fn append_counted(octets: &[u8], out: &mut Octets) -> Result<(), Stop>
    ensures { Grows (counted octets.now) (gathered out.old) result (gathered out.new) }
{
    append_length(octets.len() as u64, out)?;
    append(octets, out)
}

/// Puts the length of the octets from a place on before them.
pub(crate) fn count_from(at: usize, out: &mut Octets) -> Result<(), Stop>
    requires { at ≤ length (gathered out.old) }
    ensures { Grows (counted (drop at (gathered out.old))) (take at (gathered out.old)) result (gathered out.new) }
{
    let from = out.len();
    append_length((from - at) as u64, out)?;
    out.put_before(at, from);
    Ok(())
}

/// Appends the octets of a value that holds no other.
pub(crate) fn append_leaf(shape: &Shape, value: &Value, out: &mut Octets) -> Result<(), Stop>
    ensures { Grows (leaf_octets (type_of shape.now) (value_of value.now)) (gathered out.old) result (gathered out.new) }
{
    grown(put_leaf(shape, value, 0, out))
}

/// Appends a tag.
pub(crate) fn append_tag(tag: Tag, out: &mut Octets) -> Result<(), Stop>
    ensures { Grows (tag_octets tag) (gathered out.old) result (gathered out.new) }
{
    grown(put_tag_octets(tag, 0, out))
}

/// Appends how many elements there are.
pub(crate) fn append_quantity(count: u64, out: &mut Octets) -> Result<(), Stop>
    ensures { Grows (counted (unsigned_octets count)) (gathered out.old) result (gathered out.new) }
{
    grown(put_quantity(count as usize, 0, out))
}

/// Appends the additions that the type doesn't know, each after its length.
pub(crate) fn append_unknown(unknown: &[Unknown], out: &mut Octets) -> Result<(), Stop>
    ensures { Grows (unknown_octets (map unknown_of unknown.now)) (gathered out.old) result (gathered out.new) }
{
    grown(put_unknown(unknown, 0, out))
}
