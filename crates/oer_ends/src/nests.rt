//! Where octets nest deeper than a type is written out.
ghost use Rattle.std.specs.Prelude.{◌≡◌, IfOk, Some};
ghost use Rattle.oer_types.specs.Schema.{the_type};
ghost use Rattle.oer_ends.specs.Nests.{nests_at, unknown_at, unless_same};

use crate::opening::opened;
use oer_checker::check;
use oer_types::Schema;
use oer_units::Why;
use std::alloc::{AllocError, Global};

// After how many octets the octets are rejected as an alternative that a CHOICE doesn't have, if they are.
fn unknown_at(schema: &Schema, octets: &[u8]) -> Option<u64>
    ensures { result ≡ unknown_at (the_type schema.now) octets.now }
{
    match check(schema, octets) {
        Err(fault) if fault.why == Why::UnknownAlternative => Some(fault.taken),
        _ => None,
    }
}

// The first place, unless it is the other one, too.
fn unless_same(place: u64, other: Option<u64>) -> Option<u64>
    ensures { result ≡ unless_same (Some place) other }
{
    match other {
        Some(other) if other == place => None,
        _ => Some(place),
    }
}

/// After how many octets a message nests deeper than the type is written out, if it does: there it is rejected, as
/// `UnknownAlternative`, and it isn't with an extension marker in each end of the type. Fails if an allocation fails.
pub fn nests_at(alloc: Global, schema: &Schema, octets: &[u8]) -> Result<Option<u64>, AllocError>
    ensures { IfOk result (λ at. at ≡ nests_at (the_type schema.now) octets.now) }
{
    let Some(at) = unknown_at(schema, octets) else {
        return Ok(None);
    };
    match Schema::new(opened(alloc, schema.shape())?) {
        Ok(open) => Ok(unless_same(at, unknown_at(&open, octets))),
        Err(_) => Ok(None),
    }
}
