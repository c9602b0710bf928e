//! How it is told that octets nest deeper than a type is written out.
ghost use Rattle.std.specs.Prelude.{◌≡◌};
ghost use Rattle.oer_types.specs.Schema.{the_type};
ghost use Rattle.oer_ends_cmd.specs.Telling.{IsFaultTold, IsFaultToldBy};

use oer_cmd::Fault;
use oer_ends::nests_at;
use oer_types::Schema;
use std::alloc::Global;

/// Where a type is from.
#[derive(Clone, Copy, Debug, PartialEq, Eq)]
pub enum Origin {
    /// A text in our notation.
    Notation,
    /// Modules. If the type contains itself it is written out to a nesting, and octets that nest deeper are rejected as `Nesting`.
    Modules,
}

/// The fault as it is told of octets: `Nesting` in place of one that rejects them, if they are no more than the limit and nest deeper than
/// the type is written out; `Memory`, if an allocation fails; else the fault itself.
pub fn told<'a>(
    alloc: Global,
    schema: &Schema,
    limit: u64,
    octets: &[u8],
    fault: Fault<'a>,
) -> Fault<'a>
    ensures { IsFaultTold (the_type schema.now) limit octets.now fault.entry result }
{
    if fault.status() != 1 || octets.len() as u64 > limit {
        return fault;
    }
    match nests_at(alloc, schema, octets) {
        Ok(Some(taken)) => Fault::Nesting(taken),
        Ok(None) => fault,
        Err(_) => Fault::Memory,
    }
}

/// The fault as it is told of octets by a type that is from there: as `told` says of modules, and else as it is.
pub fn told_by<'a>(
    alloc: Global,
    schema: &Schema,
    origin: Origin,
    limit: u64,
    octets: &[u8],
    fault: Fault<'a>,
) -> Fault<'a>
    ensures { IsFaultToldBy origin (the_type schema.now) limit octets.now fault.entry result }
{
    match origin {
        Origin::Notation => fault,
        Origin::Modules => told(alloc, schema, limit, octets, fault),
    }
}
