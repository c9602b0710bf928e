//! Giving types to another handle.
ghost use Rattle.std.specs.Prelude.{◌≡◌};
ghost use Rattle.oer_c.specs.Sharing.{IsGiven, IsShared, types_in, types_of};

use crate::handle::Handle;
use crate::shared::Shared;
use crate::status::{MEMORY, NO_TYPES, OK};
use std::alloc::Global;

// Gives the other handle these types.
fn give(alloc: Global, found: &Shared, other: &mut Handle) -> u32
    ensures { IsGiven (types_in found.now) (types_of other.old.held.shared) (types_of other.new.held.shared) result }
{
    let Ok(again) = found.again() else {
        return MEMORY;
    };
    match Box::new(alloc, again) {
        Ok(again) => {
            let _earlier = other.take(alloc);
            *other = Handle::of(again);
            OK
        }
        Err(_) => MEMORY,
    }
}

/// Gives another handle the types that this one has, in place of those that it had, as if it were
/// freed before. The types are in memory once, and are freed when no handle has them. Each of the two
/// is used by itself: one thread may call with the one while another thread calls with the other. The
/// status is
///
/// - `OK`: the other handle has the types;
/// - `NO_TYPES`: this handle has no types;
/// - `MEMORY`: an allocation failed, or 2^63 - 1 handles have the types.
///
/// Unless it is `OK` the other handle has the types from before.
#[unsafe(no_mangle)]
pub extern "C" fn oer_types_share(alloc: Global, types: &mut Handle, other: &mut Handle) -> u32
    // The other has the types, or those from before.
    ensures shares { IsShared (types_of types.old.held.shared) (types_of other.old.held.shared) (types_of other.new.held.shared) result }
    // The types are those from before.
    ensures kept { types_of types.new.held.shared ≡ types_of types.old.held.shared }
{
    let Some(found) = types.take(alloc) else {
        return NO_TYPES;
    };
    let status = give(alloc, &found, other);
    *types = Handle::of(found);
    status
}
