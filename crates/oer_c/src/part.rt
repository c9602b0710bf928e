//! Handing out parts of octets.
ghost use Rattle.std.specs.Prelude.{◌≡◌};
ghost use Rattle.oer_c.specs.Buffers.{IsUndone};
ghost use Rattle.oer_c.specs.Found.{Puts};
ghost use Rattle.oer_c.specs.Naming.{ByName};
ghost use Rattle.oer_c.specs.Parts.{IsCopied, IsCopiedByNames};
ghost use Rattle.oer_c.specs.Sharing.{types_of};

use crate::buffer::{Written, put};
use crate::find::{Found, Way, find};
use crate::handle::Handle;
use std::alloc::Global;

// The part that was found is put into the buffer.
fn copied(found: Result<Found<'_>, Written>, out: &mut [u8]) -> Written
    ensures { Puts found.entry out.old out.new result }
{
    match found {
        Ok(found) => put(out, found.part, found.taken),
        Err(answer) => answer,
    }
}

/// Writes the part of the Basic-OER encoding (X.696) at the front of the octets to which the path
/// leads, as it stands in them, into the buffer. The type is the one that the Name has. What follows
/// the encoding is not looked at; it begins after `octets` of them, wherever an encoding is at the
/// front. The status is
///
/// - `OK`: the part, `written` octets, is in the buffer;
/// - `ROOM`: the buffer has room for fewer than these `written` octets;
/// - `REJECTED`: no encoding is at the front, for the reason `why`, which was decided after `octets`
///   of them;
/// - `NO_PATH`: the text is no path;
/// - `NO_STEP`, `ABSENT`: the path leads nowhere, and the first step that does so names no component
///   of the root and no known addition, or one that is absent;
/// - `NO_TYPES`: the handle has no types;
/// - `UNNAMED`: no definition has the Name, or it is not UTF-8;
/// - `MEMORY`: an allocation failed.
///
/// Unless it is `OK` the buffer is as before.
#[unsafe(no_mangle)]
pub extern "C" fn oer_part(
    alloc: Global,
    types: &mut Handle,
    name: &[u8],
    octets: &[u8],
    path: &[u8],
    out: &mut [u8],
) -> Written
    // The part is in the buffer, or it is as before.
    ensures copies { ByName (types_of types.old.held.shared) name.now (λ T. IsCopied T octets.now path.now out.old out.new result) (IsUndone out.old out.new result) }
    // The types are those from before.
    ensures kept { types_of types.new.held.shared ≡ types_of types.old.held.shared }
{
    copied(find(alloc, types, name, octets, Way::Path(path)), out)
}

/// Writes the part of the Basic-OER encoding (X.696) at the front of the octets to which the names lead, as it stands in them, into the
/// buffer. Between two names stands a point. A name is the identifier of a component, an addition or an alternative, or the number of an
/// element: decimal, from 0, without leading zeros, below 2^64. The type is the one that the Name has. What follows the encoding is not
/// looked at; it begins after `octets` of them, wherever an encoding is at the front. The status is
///
/// - `OK`: the part, `written` octets, is in the buffer;
/// - `ROOM`: the buffer has room for fewer than these `written` octets;
/// - `NO_PATH`: a name is empty, as the whole text may be, or has another character than letters, digits and hyphens;
/// - `REJECTED`: no encoding is at the front, for the reason `why`, which was decided after `octets`
///   of them;
/// - `NO_STEP`: the type has no such name, or there is no such element;
/// - `ABSENT`: a component or a known addition is absent, or another alternative is chosen;
/// - `NO_TYPES`: the handle has no types;
/// - `UNNAMED`: no definition has the Name, or it is not UTF-8;
/// - `MEMORY`: an allocation failed.
///
/// Unless it is `OK` the buffer is as before.
#[unsafe(no_mangle)]
pub extern "C" fn oer_part_named(
    alloc: Global,
    types: &mut Handle,
    name: &[u8],
    octets: &[u8],
    names: &[u8],
    out: &mut [u8],
) -> Written
    // The part is in the buffer, or it is as before.
    ensures copies { ByName (types_of types.old.held.shared) name.now (λ T. IsCopiedByNames T octets.now names.now out.old out.new result) (IsUndone out.old out.new result) }
    // The types are those from before.
    ensures kept { types_of types.new.held.shared ≡ types_of types.old.held.shared }
{
    copied(find(alloc, types, name, octets, Way::Names(names)), out)
}
