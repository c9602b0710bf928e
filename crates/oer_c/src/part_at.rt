//! Saying where parts of octets lie.
ghost use Rattle.std.specs.Prelude.{◌≡◌};
ghost use Rattle.oer_c.specs.Found.{place_of};
ghost use Rattle.oer_c.specs.Naming.{ByName};
ghost use Rattle.oer_c.specs.Parts.{IsLocated, IsLocatedByNames, nowhere};
ghost use Rattle.oer_c.specs.Sharing.{types_of};

use crate::buffer::Written;
use crate::find::{Found, Way, find};
use crate::handle::Handle;
use crate::status::OK;
use std::alloc::Global;

/// What a call answers that says where a part lies. It takes 32 octets: `status` at 0, `why` at 4,
/// `octets` at 8, `at` at 16 and `length` at 24.
#[repr(C)]
#[derive(Clone, Copy)]
pub struct Located {
    /// One of the statuses.
    pub status: u32,
    /// At `REJECTED` the number of the reason; else 0.
    pub why: u32,
    /// How many octets the encoding has that is at the front, or how many were looked at before
    /// they were rejected; else 0.
    pub octets: u64,
    /// At `OK` how many octets are before the part; else 0.
    pub at: usize,
    /// At `OK` how many octets the part has; else 0.
    pub length: usize,
}

const _: () = prove!(size_of::<Located>() == 32);

// Where the part lies that was found.
fn place_of(found: Result<Found<'_>, Written>) -> Located
    ensures { result ≡ place_of found.entry }
{
    match found {
        Ok(found) => Located {
            status: OK,
            why: 0,
            octets: found.taken,
            at: found.at,
            length: found.part.len(),
        },
        Err(answer) => Located {
            status: answer.status,
            why: answer.why,
            octets: answer.octets,
            at: 0,
            length: 0,
        },
    }
}

/// Says where the part of the Basic-OER encoding (X.696) at the front of the octets lies to which the
/// path leads: after how many of the octets, and how many it has. So the part is theirs, and no copy.
/// The type is the one that the Name has. What follows the encoding is not looked at; it begins after
/// `octets` of them, wherever an encoding is at the front. The status is
///
/// - `OK`: the part is the `length` octets from `at` on;
/// - `REJECTED`: no encoding is at the front, for the reason `why`, which was decided after `octets`
///   of them;
/// - `NO_PATH`: the text is no path;
/// - `NO_STEP`, `ABSENT`: the path leads nowhere, and the first step that does so names no component
///   of the root and no known addition, or one that is absent;
/// - `NO_TYPES`: the handle has no types;
/// - `UNNAMED`: no definition has the Name, or it is not UTF-8;
/// - `MEMORY`: an allocation failed.
///
/// Unless it is `OK`, `at` and `length` are 0.
#[unsafe(no_mangle)]
pub extern "C" fn oer_part_at(
    alloc: Global,
    types: &mut Handle,
    name: &[u8],
    octets: &[u8],
    path: &[u8],
) -> Located
    // It says where the part is, or why there is none.
    ensures locates { ByName (types_of types.old.held.shared) name.now (λ T. IsLocated T octets.now path.now result) (λ status. result ≡ nowhere status 0 0) }
    // The types are those from before.
    ensures kept { types_of types.new.held.shared ≡ types_of types.old.held.shared }
{
    place_of(find(alloc, types, name, octets, Way::Path(path)))
}

/// Says where the part lies that `oer_part_named` puts into a buffer: after how many of the octets, and how many it has. So the part is
/// theirs, and no copy. What follows the encoding begins after `octets` of them, wherever an encoding is at the front. The status is
///
/// - `OK`: the part is the `length` octets from `at` on;
/// - else that of `oer_part_named`, which is never `ROOM` here.
///
/// Unless it is `OK`, `at` and `length` are 0.
#[unsafe(no_mangle)]
pub extern "C" fn oer_part_named_at(
    alloc: Global,
    types: &mut Handle,
    name: &[u8],
    octets: &[u8],
    names: &[u8],
) -> Located
    // It says where the part is, or why there is none.
    ensures locates { ByName (types_of types.old.held.shared) name.now (λ T. IsLocatedByNames T octets.now names.now result) (λ status. result ≡ nowhere status 0 0) }
    // The types are those from before.
    ensures kept { types_of types.new.held.shared ≡ types_of types.old.held.shared }
{
    place_of(find(alloc, types, name, octets, Way::Names(names)))
}
