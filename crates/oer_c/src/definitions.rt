//! Reading definitions, and freeing them.
ghost use Rattle.std.specs.Prelude.{◌≡◌, ◌≤◌, None, Some, IfErr, IfOk};
ghost use Rattle.std.specs.Str.{IsUtf8};
ghost use Rattle.oer_notation.specs.Grammar.{SpellsAll};
ghost use Rattle.oer_notation.specs.Views.{knowns};
ghost use Rattle.oer_notation.specs.Within.{heavy_in, parts_of};
ghost use Rattle.oer_c.specs.Definitions.{IsFault, IsNotUtf8, IsRead, IsReadWithin, IsRejected, IsRejectedWithin, answer};
ghost use Rattle.oer_c.specs.Sharing.{types_in, types_of};

use crate::handle::Handle;
use crate::reason;
use crate::shared::Shared;
use crate::status::{MEMORY, OK, REJECTED};
use oer_notation::{TextFault, TextWhy, Types, WithinFault, parse_types, parse_types_within};
use std::alloc::Global;

/// What reading definitions answers. It takes 16 octets: `status` at 0, `why` at 4 and `place` at 8.
#[repr(C)]
#[derive(Clone, Copy)]
pub struct Parsed {
    /// `OK`, `REJECTED` or `MEMORY`.
    pub status: u32,
    /// At `REJECTED` the number of the reason, 0 where the text is not UTF-8; else 0.
    pub why: u32,
    /// At `REJECTED` the byte of the text at which the token or type begins that shows the fault, or
    /// before which the longest front ends that is UTF-8; at `OK` the length of the text; else 0.
    pub place: u64,
}

const _: () = prove!(size_of::<Parsed>() == 16);

fn answer(status: u32, why: u32, place: u64) -> Parsed
    ensures { result ≡ answer status why place }
{
    Parsed { status, why, place }
}

// What a fault of the text comes to.
fn reject(fault: TextFault) -> Parsed
    ensures { IsFault fault result }
{
    match fault.why {
        TextWhy::Memory => answer(MEMORY, 0, 0),
        why => answer(REJECTED, reason::of_text(why), fault.at as u64),
    }
}

/// Types on the heap, for one handle.
pub(crate) fn boxed(alloc: Global, types: Types) -> Result<Box<Shared>, Parsed>
    ensures kept { IfOk result (λ shared. types_in shared.value ≡ types) }
    ensures memory { IfErr result (λ p. p ≡ answer 4 0 0) }
{
    let Ok(shared) = Shared::of(alloc, types) else {
        return Err(answer(MEMORY, 0, 0));
    };
    match Box::new(alloc, shared) {
        Ok(shared) => Ok(shared),
        Err(_) => Err(answer(MEMORY, 0, 0)),
    }
}

// The text, if it is UTF-8.
fn utf8(text: &[u8]) -> Result<&str, Parsed>
    ensures same { IfOk result (λ s. s.now ≡ text.now) }
    ensures is { IfOk result (λ s. IsUtf8 text.now) }
    ensures rejected { IfErr result (IsNotUtf8 text.now) }
{
    match std::str::from_utf8(text) {
        Ok(text) => Ok(text),
        Err(fault) => Err(answer(REJECTED, 0, fault.valid_up_to() as u64)),
    }
}

// The definitions of the text, on the heap.
fn read(alloc: Global, text: &[u8]) -> Result<Box<Shared>, Parsed>
    ensures spells { IfOk result (λ shared. SpellsAll (knowns (types_in shared.value)) text.now) }
    ensures rejected { IfErr result (IsRejected text.now) }
{
    match parse_types(alloc, utf8(text)?) {
        Ok(types) => boxed(alloc, types),
        Err(fault) => Err(reject(fault)),
    }
}

// The definitions of the text, on the heap, if their types have no more parts together, and the text stands for no
// more octets than these have room for.
fn read_within(alloc: Global, text: &[u8], parts: u64) -> Result<Box<Shared>, Parsed>
    ensures spells { IfOk result (λ shared. SpellsAll (knowns (types_in shared.value)) text.now) }
    ensures within { IfOk result (λ shared. parts_of (knowns (types_in shared.value)) ≤ parts) }
    ensures light { IfOk result (λ shared. heavy_in parts text.now ≡ None) }
    ensures rejected { IfErr result (IsRejectedWithin parts text.now) }
{
    match parse_types_within(alloc, utf8(text)?, parts) {
        Ok(types) => boxed(alloc, types),
        Err(WithinFault::Text(fault)) => Err(reject(fault)),
        Err(WithinFault::Parts(at)) => Err(answer(REJECTED, reason::TEXT_PARTS, at as u64)),
    }
}

/// Gives the handle these types, in place of those that it had.
pub(crate) fn keep(alloc: Global, types: &mut Handle, found: Box<Shared>)
    ensures { types_of types.new.held.shared ≡ Some (types_in found.value) }
{
    let _earlier = types.take(alloc);
    *types = Handle::of(found);
}

/// Reads the definitions of the text (NOTATION.md), one or more `Name ::= type`, in place of the
/// types that the handle had, as if it were freed before. The status is
///
/// - `OK`: the handle has the types that the text spells;
/// - `REJECTED`: the text is not UTF-8, and `place` octets are its longest front that is; or it spells
///   no well-formed types, for the reason `why` at `place`, the first one from the left;
/// - `MEMORY`: an allocation failed.
///
/// Unless it is `OK` the handle has the types from before.
#[unsafe(no_mangle)]
pub extern "C" fn oer_types_read(alloc: Global, types: &mut Handle, text: &[u8]) -> Parsed
    ensures { IsRead text.now (types_of types.old.held.shared) (types_of types.new.held.shared) result }
{
    match read(alloc, text) {
        Ok(found) => {
            keep(alloc, types, found);
            answer(OK, 0, text.len() as u64)
        }
        Err(rejected) => rejected,
    }
}

/// Reads the definitions of the text as [`oer_types_read`] does, if their types have at most `parts` parts
/// together, and it stands for at most 65,536 octets and 64 more for each of these (NOTATION.md). A short text may
/// spell many parts, and hold many octets, since a Name stands for a copy of its type. The status is that of
/// `oer_types_read`, or
///
/// - `REJECTED` with the reason 20: with the definition that begins at `place` the types have more parts, or the
///   text stands for more octets.
///
/// Unless it is `OK` the handle has the types from before.
#[unsafe(no_mangle)]
pub extern "C" fn oer_types_read_within(
    alloc: Global,
    types: &mut Handle,
    text: &[u8],
    parts: u64,
) -> Parsed
    ensures { IsReadWithin parts text.now (types_of types.old.held.shared) (types_of types.new.held.shared) result }
{
    match read_within(alloc, text, parts) {
        Ok(found) => {
            keep(alloc, types, found);
            answer(OK, 0, text.len() as u64)
        }
        Err(rejected) => rejected,
    }
}

/// Takes the types from the handle, if it has any, and frees them where no other handle has them; it
/// has none then. `oer_types_free` of the library is this, where its pointer is not NULL
/// (`bindings/c/free.c`).
#[unsafe(no_mangle)]
pub extern "C" fn oer_types_clear(alloc: Global, types: &mut Handle)
    ensures { types_of types.new.held.shared ≡ None }
{
    let _types = types.take(alloc);
}
