//! Checking that octets are the one canonical encoding of a value.
ghost use Rattle.std.specs.Prelude.{◌≡◌, Some, length};
ghost use Rattle.oer_types.specs.Schema.{the_type};
ghost use Rattle.oer_c.specs.Checking.{IsStatus, IsWhole, only};
ghost use Rattle.oer_c.specs.Naming.{ByName};
ghost use Rattle.oer_c.specs.Sharing.{types_of};

use crate::check::{Checked, only, rejected};
use crate::handle::Handle;
use crate::naming::find_type;
use crate::status::{FOLLOWS, NO_TYPES, NOT_CANONICAL, OK, UNNAMED};
use oer_checker::{Verdict, check};
use oer_notation::Types;
use oer_types::Schema;
use std::alloc::Global;

// The status where an encoding with this verdict is at the front of the octets.
fn status_of(verdict: Verdict, octets: &[u8]) -> u32
    ensures { IsStatus (length octets.now) verdict result }
{
    if verdict.octets < octets.len() {
        return FOLLOWS;
    }
    if verdict.canonical { OK } else { NOT_CANONICAL }
}

// What `check` answers of the whole, in numbers.
fn judged(schema: &Schema, octets: &[u8]) -> Checked
    ensures { IsWhole (the_type schema.now) octets.now result }
{
    match check(schema, octets) {
        Ok(verdict) => Checked {
            status: status_of(verdict, octets),
            why: 0,
            octets: verdict.octets as u64,
            canonical: u32::from(verdict.canonical),
        },
        Err(fault) => rejected(fault),
    }
}

// The octets are checked by the type that the Name has.
fn named(types: &Types, name: &[u8], octets: &[u8]) -> Checked
    ensures { ByName (Some types.now) name.now (λ T. IsWhole T octets.now result) (λ status. result ≡ only status) }
{
    match find_type(types, name) {
        Some(schema) => judged(schema, octets),
        None => only(UNNAMED),
    }
}

/// Whether the octets are the Canonical-OER encoding (X.696) of a value of the type that the Name has,
/// and nothing else. No memory is taken. The status is
///
/// - `OK`: they are;
/// - `FOLLOWS`: a Basic-OER encoding is at the front, and other octets follow it, after `octets` of
///   them;
/// - `NOT_CANONICAL`: they are a Basic-OER encoding, but not the canonical one;
/// - `REJECTED`: no encoding is at the front, for the reason `why`, which was decided after `octets` of
///   them;
/// - `NO_TYPES`: the handle has no types;
/// - `UNNAMED`: no definition has the Name, or it is not UTF-8.
#[unsafe(no_mangle)]
pub extern "C" fn oer_check_whole(
    alloc: Global,
    types: &mut Handle,
    name: &[u8],
    octets: &[u8],
) -> Checked
    // It is OK for canonical octets and no others, and else says what `check` does.
    ensures checks { ByName (types_of types.old.held.shared) name.now (λ T. IsWhole T octets.now result) (λ status. result ≡ only status) }
    // The types are those from before.
    ensures kept { types_of types.new.held.shared ≡ types_of types.old.held.shared }
{
    let Some(found) = types.take(alloc) else {
        return only(NO_TYPES);
    };
    let answer = named(found.get(), name, octets);
    *types = Handle::of(found);
    answer
}
