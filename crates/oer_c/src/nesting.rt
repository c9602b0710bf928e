//! Whether octets nest deeper than a type of modules is written out.
ghost use Rattle.std.specs.Prelude.{◌≡◌, Some};
ghost use Rattle.oer_types.specs.Schema.{the_type};
ghost use Rattle.oer_c.specs.Checking.{only};
ghost use Rattle.oer_c.specs.Naming.{ByName};
ghost use Rattle.oer_c.specs.Nesting.{IsNested};
ghost use Rattle.oer_c.specs.Sharing.{types_of};

use crate::check::{Checked, only};
use crate::handle::Handle;
use crate::naming::find_type;
use crate::reason;
use crate::status::{MEMORY, NO_TYPES, OK, REJECTED, UNNAMED};
use oer_ends::nests_at;
use oer_notation::Types;
use oer_types::Schema;
use std::alloc::Global;

// Where octets nest deeper than the type is written out, in numbers.
fn judged(alloc: Global, schema: &Schema, octets: &[u8]) -> Checked
    ensures { IsNested (the_type schema.now) octets.now result }
{
    match nests_at(alloc, schema, octets) {
        Ok(None) => only(OK),
        Ok(Some(taken)) => Checked {
            status: REJECTED,
            why: reason::NESTING,
            octets: taken,
            canonical: 0,
        },
        Err(_) => only(MEMORY),
    }
}

// The octets are asked about by the type that the Name has.
fn named(alloc: Global, types: &Types, name: &[u8], octets: &[u8]) -> Checked
    ensures { ByName (Some types.now) name.now (λ T. IsNested T octets.now result) (λ status. result ≡ only status) }
{
    match find_type(types, name) {
        Some(schema) => judged(alloc, schema, octets),
        None => only(UNNAMED),
    }
}

/// Whether the octets nest deeper than the type that the Name has is written out. A type of modules that contains itself is
/// written out to a nesting, and where it would stand once more is an end (MODULES.md), which has no encoding. The other calls
/// reject octets that get there as an unknown alternative. The status is
///
/// - `REJECTED`: they get there, after `octets` of them; `why` is the number of the reason for that;
/// - `OK`: they don't, whether they begin with an encoding or not;
/// - `NO_TYPES`: the handle has no types;
/// - `UNNAMED`: no definition has the Name, or it is not UTF-8;
/// - `MEMORY`: an allocation failed.
#[unsafe(no_mangle)]
pub extern "C" fn oer_check_nesting(
    alloc: Global,
    types: &mut Handle,
    name: &[u8],
    octets: &[u8],
) -> Checked
    // It is rejected exactly where they nest too deep, unless memory ran out.
    ensures asks { ByName (types_of types.old.held.shared) name.now (λ T. IsNested T octets.now result) (λ status. result ≡ only status) }
    // The types are those from before.
    ensures kept { types_of types.new.held.shared ≡ types_of types.old.held.shared }
{
    let Some(found) = types.take(alloc) else {
        return only(NO_TYPES);
    };
    let answer = named(alloc, found.get(), name, octets);
    *types = Handle::of(found);
    answer
}
