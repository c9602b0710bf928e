//! The innermost part of JSON that is rejected.
ghost use Rattle.std.specs.Prelude.{◌≡◌, IfOk, option_map};
ghost use Rattle.serde_json.specs.View.{view};
ghost use Rattle.oer_model.specs.Limits.{max_depth};
ghost use Rattle.oer_types.specs.Schema.{the_type};
ghost use Rattle.oer_values.specs.ShapeView.{type_of};
ghost use Rattle.oer_json_places.specs.Faultless.{IsFaultless};
ghost use Rattle.oer_json_places.specs.Place.{down, place_of};
ghost use Rattle.oer_json_places.specs.Views.{spot_of};

use crate::fault::fault_of;
use crate::next::next;
use crate::part::{JsonPlace, Next, Trouble};
use oer_json::JsonFault;
use oer_types::{MAX_DEPTH, Schema, Shape};
use serde_json::Value as Json;
use std::alloc::{AllocError, Global};

// The innermost part of JSON that the type rejects with this fault.
fn innermost<'a>(
    alloc: Global,
    fault: JsonFault,
    shape: &'a Shape,
    json: &'a Json,
) -> Result<JsonPlace<'a>, AllocError>
    requires { IsFaultless (type_of shape.now) }
    ensures { IfOk result (λ place. spot_of place ≡ down max_depth fault (type_of shape.now) (view json.now)) }
{
    let mut path = Vec::new(alloc);
    let mut shape = shape;
    let mut json = json;
    for _level in 0..MAX_DEPTH {
        match next(alloc, fault, shape, json)? {
            Next::Into(part) => {
                path.push(part.step)?;
                shape = part.shape;
                json = part.json;
            }
            Next::Stop(trouble) => {
                return Ok(JsonPlace {
                    path,
                    fault,
                    shape,
                    json,
                    trouble,
                });
            }
        }
    }
    Ok(JsonPlace {
        path,
        fault,
        shape,
        json,
        trouble: Trouble::Itself,
    })
}

/// The innermost part of JSON that the type rejects, and what is wrong there; none where the JSON is accepted. The way leads to a part that its
/// own type rejects with the fault of the whole. It fails where an allocation does.
pub fn place_of<'a>(
    alloc: Global,
    schema: &'a Schema,
    json: &'a Json,
) -> Result<Option<JsonPlace<'a>>, AllocError>
    ensures { IfOk result (λ found. option_map spot_of found ≡ place_of (the_type schema.now) (view json.now)) }
{
    match fault_of(alloc, schema, json)? {
        Some(fault) => {
            let place = innermost(alloc, fault, schema.shape(), json)?;
            Ok(Some(place))
        }
        None => Ok(None),
    }
}
