//! The reason that is told of octets which the type rejects, and what is said of them.
ghost use Rattle.std.specs.Prelude.{◌≡◌, IfOk};
ghost use Rattle.oer_types.specs.Schema.{the_type};
ghost use Rattle.oer_explain_cmd.specs.Told.{Says, is_cut, is_machine, is_nested, limited_why, read_why, told_by, told_why, why_of};

use oer_ends::nests_at;
use oer_ends_cmd::Origin;
use oer_explain::{check_why, octets_notes};
use oer_options::{Options, Task};
use oer_reader::read;
use oer_types::Schema;
use oer_units::{Metered, Why};
use std::alloc::{AllocError, Global};

// Why octets are rejected that `check` and `part` take, no more than the limit.
fn limited_why(schema: &Schema, limit: u64, octets: &[u8]) -> Option<Why>
    ensures { result ≡ limited_why limit (the_type schema.now) octets.now }
{
    if octets.len() as u64 > limit {
        return None;
    }
    check_why(schema, octets)
}

// Whether the machine failed.
fn is_machine(why: Why) -> bool
    ensures { result ≡ is_machine why }
{
    matches!(why, Why::Memory | Why::Device)
}

// Why octets are rejected that are read under the limit. It fails where an allocation does.
fn read_why(
    alloc: Global,
    schema: &Schema,
    limit: u64,
    octets: &[u8],
) -> Result<Option<Why>, AllocError>
    ensures { IfOk result (λ why. why ≡ read_why limit (the_type schema.now) octets.now) }
{
    let mut reader = Metered::new(octets);
    let fault = match read(alloc, schema, &mut reader, limit) {
        Ok(_) => return Ok(None),
        Err(fault) => fault,
    };
    if is_machine(fault.why) {
        return Err(AllocError);
    }
    Ok(Some(fault.why))
}

// Why the task rejects octets as it reads them, if it does.
fn why_of(
    alloc: Global,
    schema: &Schema,
    options: Options<'_>,
    octets: &[u8],
) -> Result<Option<Why>, AllocError>
    ensures { IfOk result (λ why. why ≡ why_of options.entry.task options.entry.limit (the_type schema.now) octets.now) }
{
    match options.task {
        Task::Check { .. } | Task::Part { .. } => Ok(limited_why(schema, options.limit, octets)),
        Task::Canon { .. } | Task::Show { .. } => read_why(alloc, schema, options.limit, octets),
        Task::Make { .. } => Ok(None),
    }
}

// Whether the reason may only be that there are more octets.
fn is_cut(is_whole: bool, why: Why) -> bool
    ensures { result ≡ is_cut is_whole why }
{
    match why {
        Why::End => !is_whole,
        _ => false,
    }
}

// Whether octets are told to nest too deep.
fn is_nested(
    alloc: Global,
    schema: &Schema,
    origin: Origin,
    octets: &[u8],
) -> Result<bool, AllocError>
    ensures { IfOk result (λ is. is ≡ is_nested origin (the_type schema.now) octets.now) }
{
    match origin {
        Origin::Notation => Ok(false),
        Origin::Modules => Ok(nests_at(alloc, schema, octets)?.is_some()),
    }
}

// The reason that is told.
fn told_by(
    alloc: Global,
    schema: &Schema,
    origin: Origin,
    is_whole: bool,
    octets: &[u8],
    why: Why,
) -> Result<Option<Why>, AllocError>
    ensures { IfOk result (λ told. told ≡ told_by origin is_whole (the_type schema.now) octets.now why) }
{
    let is_nested = is_nested(alloc, schema, origin, octets)?;
    if is_cut(is_whole, why) || is_nested {
        return Ok(None);
    }
    Ok(Some(why))
}

// The reason that is told of octets, if there is one.
fn told_why(
    alloc: Global,
    schema: &Schema,
    origin: Origin,
    options: Options<'_>,
    is_whole: bool,
    octets: &[u8],
) -> Result<Option<Why>, AllocError>
    ensures { IfOk result (λ told. told ≡ told_why origin options.entry is_whole (the_type schema.now) octets.now) }
{
    match why_of(alloc, schema, options, octets)? {
        Some(why) => told_by(alloc, schema, origin, is_whole, octets, why),
        None => Ok(None),
    }
}

/// What is said of octets that the task rejects as it reads them, by a type that is from there: their rows and what is wrong; nothing where it
/// doesn't. Where they aren't the whole of what it reads, nothing is said of an end. It fails where an allocation does.
pub fn told_notes(
    alloc: Global,
    schema: &Schema,
    origin: Origin,
    options: Options<'_>,
    is_whole: bool,
    octets: &[u8],
) -> Result<Vec<u8>, AllocError>
    ensures { IfOk result (λ notes. Says origin options.entry is_whole (the_type schema.now) octets.now notes.items) }
{
    let why = told_why(alloc, schema, origin, options, is_whole, octets)?;
    octets_notes(alloc, schema, octets, why)
}
