//! Checking octets.
ghost use Rattle.std.specs.Prelude.{◌≡◌, Err, Some};
ghost use Rattle.oer_types.specs.Schema.{the_type};
ghost use Rattle.oer_c.specs.Checking.{IsChecked, numbers, only};
ghost use Rattle.oer_c.specs.Naming.{ByName};
ghost use Rattle.oer_c.specs.Sharing.{types_of};

use crate::handle::Handle;
use crate::naming::find_type;
use crate::status::{NO_TYPES, OK, REJECTED, UNNAMED};
use oer_checker::check;
use oer_notation::Types;
use oer_types::Schema;
use oer_units::ReadFault;
use std::alloc::Global;

/// What a check answers. It takes 24 octets: `status` at 0, `why` at 4, `octets` at 8 and
/// `canonical` at 16.
#[repr(C)]
#[derive(Clone, Copy)]
pub struct Checked {
    /// One of the statuses.
    pub status: u32,
    /// At `REJECTED` the number of the reason; else 0.
    pub why: u32,
    /// How many octets the encoding has that is at the front, or how many were looked at before
    /// they were rejected; else 0.
    pub octets: u64,
    /// 1 where the encoding at the front is canonical, and 0 where it is another one or none is.
    pub canonical: u32,
}

const _: () = prove!(size_of::<Checked>() == 24);

/// A status and nothing else.
pub(crate) fn only(status: u32) -> Checked
    ensures { result ≡ only status }
{
    Checked {
        status,
        why: 0,
        octets: 0,
        canonical: 0,
    }
}

/// Octets are rejected.
pub(crate) fn rejected(fault: ReadFault) -> Checked
    ensures { result ≡ numbers (Err fault) }
{
    Checked {
        status: REJECTED,
        why: u32::from(fault.why.number()),
        octets: fault.taken,
        canonical: 0,
    }
}

/// What `check` answers, in numbers.
pub(crate) fn judged(schema: &Schema, octets: &[u8]) -> Checked
    ensures { IsChecked (the_type schema.now) octets.now result }
{
    match check(schema, octets) {
        Ok(verdict) => Checked {
            status: OK,
            why: 0,
            octets: verdict.octets as u64,
            canonical: u32::from(verdict.canonical),
        },
        Err(fault) => rejected(fault),
    }
}

// The octets are checked by the type that the Name has.
fn named(types: &Types, name: &[u8], octets: &[u8]) -> Checked
    ensures { ByName (Some types.now) name.now (λ T. IsChecked T octets.now result) (λ status. result ≡ only status) }
{
    match find_type(types, name) {
        Some(schema) => judged(schema, octets),
        None => only(UNNAMED),
    }
}

/// Whether the octets begin with a Basic-OER encoding (X.696) of a value of the type that the Name
/// has, how many octets it has, and whether it is canonical. What follows it is not looked at. No
/// memory is taken. The status is
///
/// - `OK`: an encoding is at the front;
/// - `REJECTED`: none is, for the reason `why`, which was decided after `octets` of them;
/// - `NO_TYPES`: the handle has no types;
/// - `UNNAMED`: no definition has the Name, or it is not UTF-8.
#[unsafe(no_mangle)]
pub extern "C" fn oer_check(
    alloc: Global,
    types: &mut Handle,
    name: &[u8],
    octets: &[u8],
) -> Checked
    // What `check` promises holds of the answer.
    ensures checks { ByName (types_of types.old.held.shared) name.now (λ T. IsChecked T octets.now result) (λ status. result ≡ only status) }
    // The types are those from before.
    ensures kept { types_of types.new.held.shared ≡ types_of types.old.held.shared }
{
    let Some(found) = types.take(alloc) else {
        return only(NO_TYPES);
    };
    let answer = named(found.get(), name, octets);
    *types = Handle::of(found);
    answer
}
