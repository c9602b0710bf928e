//! The fault with which a type rejects JSON.
ghost use Rattle.std.specs.Prelude.{◌≡◌, IfOk};
ghost use Rattle.serde_json.specs.View.{view};
ghost use Rattle.oer_types.specs.Schema.{the_type};
ghost use Rattle.oer_values.specs.ShapeView.{type_of};
ghost use Rattle.oer_json_places.specs.Faultless.{IsFaultless};
ghost use Rattle.oer_json_places.specs.Rejected.{fault_of, is_rejected, is_that, same_fault};

use oer_json::{JsonFault, from_json};
use oer_types::{Schema, Shape};
use serde_json::Value as Json;
use std::alloc::{AllocError, Global};

/// The fault with which the type rejects the JSON, if it does. It fails where an allocation does.
pub(crate) fn fault_of(
    alloc: Global,
    schema: &Schema,
    json: &Json,
) -> Result<Option<JsonFault>, AllocError>
    ensures { IfOk result (λ found. found ≡ fault_of (the_type schema.now) (view json.now)) }
{
    match from_json(alloc, schema, json) {
        Ok(_) => Ok(None),
        Err(JsonFault::Memory) => Err(AllocError),
        Err(fault) => Ok(Some(fault)),
    }
}

/// The type of a shape, in memory of its own. It fails where an allocation does.
pub(crate) fn schema_of(alloc: Global, shape: &Shape) -> Result<Schema, AllocError>
    requires { IsFaultless (type_of shape.now) }
    ensures { IfOk result (λ schema. the_type schema ≡ type_of shape.now) }
{
    match Schema::new(shape.clone_in(alloc)?) {
        Ok(schema) => Ok(schema),
        Err(_) => unreachable!(),
    }
}

fn is_same(one: JsonFault, other: JsonFault) -> bool
    ensures { result ≡ same_fault one other }
{
    one == other
}

fn is_that(fault: JsonFault, found: Option<JsonFault>) -> bool
    ensures { result ≡ is_that fault found }
{
    match found {
        Some(other) => is_same(fault, other),
        None => false,
    }
}

/// Whether the type rejects the JSON with this fault. It fails where an allocation does.
#[tactic(auto, unfolding(crate::specs::Rejected::is_rejected))]
pub(crate) fn is_rejected_by(
    alloc: Global,
    fault: JsonFault,
    schema: &Schema,
    json: &Json,
) -> Result<bool, AllocError>
    ensures { IfOk result (λ is. is ≡ is_rejected fault (the_type schema.now) (view json.now)) }
{
    let found = fault_of(alloc, schema, json)?;
    Ok(is_that(fault, found))
}

/// The same of the type of a shape.
pub(crate) fn is_rejected(
    alloc: Global,
    fault: JsonFault,
    shape: &Shape,
    json: &Json,
) -> Result<bool, AllocError>
    requires { IsFaultless (type_of shape.now) }
    ensures { IfOk result (λ is. is ≡ is_rejected fault (type_of shape.now) (view json.now)) }
{
    let schema = schema_of(alloc, shape)?;
    is_rejected_by(alloc, fault, &schema, json)
}
