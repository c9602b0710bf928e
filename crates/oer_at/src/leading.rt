//! What names lead to in a type, one after another.
ghost use Rattle.std.specs.Prelude.{◌≡◌, IfErr, MatchResult, Ok, length, map};
ghost use Rattle.oer_types.specs.Schema.{the_type};
ghost use Rattle.oer_at.specs.Hops.{hops_of};
ghost use Rattle.oer_at.specs.Names.{text_behind};
ghost use Rattle.oer_at.specs.Views.{IsFaultOf, IsWithin};

use crate::enter::enter;
use crate::hop::{Hop, NameFault};
use oer_types::Schema;
use std::alloc::Global;

/// Why there are no hops.
#[derive(Clone, Copy)]
pub enum HopsFault {
    /// An allocation failed.
    Memory,
    /// A name leads nowhere.
    Name(NameFault),
}

/// What the names lead to in the type, one after another. The first name that leads nowhere decides the error.
pub fn hops(alloc: Global, schema: &Schema, names: &[&str]) -> Result<Vec<Hop>, HopsFault>
    ensures exact { MatchResult result (λ hops. hops_of (the_type schema.now) (map text_behind names.now) ≡ Ok hops.items)
        (λ fault. IsFaultOf (hops_of (the_type schema.now) (map text_behind names.now)) fault) }
    ensures within { IfErr result (λ fault. IsWithin fault (length names.now)) }
{
    let mut hops = Vec::new(alloc);
    let mut shape = schema.shape();
    for (before, name) in names.iter().enumerate() {
        let entered = match enter(shape, name) {
            Ok(entered) => entered,
            Err(wanted) => return Err(HopsFault::Name(NameFault { before, wanted })),
        };
        if hops.push(entered.hop).is_err() {
            return Err(HopsFault::Memory);
        }
        shape = entered.shape;
    }
    Ok(hops)
}
