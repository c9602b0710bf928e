//! Values from JSON.
ghost use Rattle.std.specs.Prelude.{◌≡◌, IfErr, IfOk, Ok, option_map};
ghost use Rattle.serde_json.specs.View.{items_view, members_view, view};
ghost use Rattle.oer_model.specs.AsnType.{no_alternatives, sequence, sequence_of};
ghost use Rattle.oer_model.specs.AsnValue.{AsnValue};
ghost use Rattle.oer_model.specs.Fits.{Fits};
ghost use Rattle.oer_types.specs.Schema.{the_type};
ghost use Rattle.oer_values.specs.ShapeView.{additions_of, fields_of, root_of, type_of};
ghost use Rattle.oer_values.specs.ValueView.{places_of, value_of, values_of};
ghost use Rattle.oer_json.specs.Answer.{IsSameOrMemory, Tries};
ghost use Rattle.oer_json.specs.Denotes.{IsJsonOf};
ghost use Rattle.oer_json.specs.Made.{made};
ghost use Rattle.oer_json.specs.Shapes.{IsChoice, IsExtensible};
ghost use Rattle.oer_json.specs.Take.{take, taken, take_additions as additions_taken, take_alternative as alternative_taken, take_fields as fields_taken, take_items as items_taken, take_place as place_taken};
ghost use Rattle.oer_json.specs.declared.fault.JsonFault.TheVariants.{Memory};

use crate::fault::JsonFault;
use crate::keys::{are_fields, are_keys, find};
use crate::parts::{items_in, may_be_absent, members_in, one_member, sized};
use crate::scan::{fitting, take_leaf};
use crate::unknown::{foreign_in, take_unknown};
use oer_types::{Addition, Alt, Field, Schema, Shape, Size, Value};
use serde_json::{Map, Value as Json};
use std::alloc::Global;

/// The value of the type that the JSON stands for (docs/JSON.md), which fits the type; or the first fault.
/// A fault other than `Memory` comes only where the JSON stands for no value that fits. What
/// `to_json` made of a value is taken as this value.
pub fn from_json(alloc: Global, schema: &Schema, json: &Json) -> Result<Value, JsonFault>
    ensures exact { IsSameOrMemory value_of result (taken (the_type schema.now) (view json.now)) }
    ensures fits { IfOk result (λ v. Fits (the_type schema.now) (value_of v)) }
    ensures takes { IfOk result (λ v. IsJsonOf (the_type schema.now) (value_of v) (view json.now)) }
    ensures refused { IfErr result (λ fault. (fault ≡ Memory → ⊥)
        → (v : AsnValue) → IsJsonOf (the_type schema.now) v (view json.now) → ⊥) }
    ensures again { (v : AsnValue) → Fits (the_type schema.now) v → view json.now ≡ made (the_type schema.now) v
        → IsSameOrMemory value_of result (Ok v) }
{
    take_fitting(schema.shape(), alloc, json)
}

/// The value of a type, if it fits.
#[tactic(auto, unfolding(crate::specs::Take::taken))]
fn take_fitting(shape: &Shape, alloc: Global, json: &Json) -> Result<Value, JsonFault>
    ensures { IsSameOrMemory value_of result (taken (type_of shape.now) (view json.now)) }
{
    let value = take_value(shape, alloc, json)?;
    fitting(shape, value)
}

/// The value of a type.
#[cycle(take)]
#[tactic(auto, using(crate::proofs::Levels::levels))]
fn take_value(shape: &Shape, alloc: Global, json: &Json) -> Result<Value, JsonFault>
    ensures { IsSameOrMemory value_of result (take (type_of shape.now) (view json.now)) }
{
    match shape {
        Shape::Sequence { root, additions } => match additions {
            None => take_sequence(root, alloc, json),
            Some(_) => take_extensible(shape, alloc, json),
        },
        Shape::SequenceOf { size, item } => take_list(item, alloc, *size, json),
        Shape::Choice { .. } => take_choice(shape, alloc, json),
        _ => take_leaf(shape, alloc, json),
    }
}

/// A SEQUENCE without an extension marker.
#[cycle(take)]
fn take_sequence(root: &[Field], alloc: Global, json: &Json) -> Result<Value, JsonFault>
    ensures { IsSameOrMemory value_of result (take (sequence (fields_of root.now)) (view json.now)) }
{
    let members = members_in(json)?;
    if !are_fields(members, root) {
        return Err(JsonFault::Name);
    }
    let root = take_fields(root, alloc, members)?;
    Ok(Value::Seq {
        root,
        added: Vec::new(alloc),
        unknown: Vec::new(alloc),
    })
}

/// A SEQUENCE with an extension marker.
#[cycle(take)]
fn take_extensible(shape: &Shape, alloc: Global, json: &Json) -> Result<Value, JsonFault>
    requires { IsExtensible shape.now }
    ensures { IsSameOrMemory value_of result (take (type_of shape.now) (view json.now)) }
{
    let Shape::Sequence { root, additions } = shape else {
        unreachable!()
    };
    let Some(additions) = additions else {
        unreachable!()
    };
    let members = members_in(json)?;
    if !are_keys(members, root, additions) {
        return Err(JsonFault::Name);
    }
    let root = take_fields(root, alloc, members)?;
    let added = take_additions(additions, alloc, members)?;
    let unknown = take_unknown(alloc, additions.len(), members)?;
    Ok(Value::Seq {
        root,
        added,
        unknown,
    })
}

/// The components of a root.
#[cycle(take)]
fn take_fields(
    fields: &[Field],
    alloc: Global,
    members: &Map<String, Json>,
) -> Result<Vec<Option<Value>>, JsonFault>
    ensures { IsSameOrMemory (λ v. places_of v.items) result
        (fields_taken (fields_of fields.now) (members_view members.now.entries)) }
{
    let mut places = Vec::new(alloc);
    for field in fields {
        let json = find(members, field.name.as_str());
        let place = take_place(&field.shape, alloc, may_be_absent(&field.need), json)?;
        places.push(place)?;
    }
    Ok(places)
}

/// The additions that the type knows.
#[cycle(take)]
fn take_additions(
    additions: &[Addition],
    alloc: Global,
    members: &Map<String, Json>,
) -> Result<Vec<Option<Value>>, JsonFault>
    ensures { IsSameOrMemory (λ v. places_of v.items) result
        (additions_taken (additions_of additions.now) (members_view members.now.entries)) }
{
    let mut places = Vec::new(alloc);
    for addition in additions {
        let json = find(members, addition.name.as_str());
        let place = take_place(&addition.shape, alloc, true, json)?;
        places.push(place)?;
    }
    Ok(places)
}

/// A component: its value where the object has its key.
#[cycle(take)]
fn take_place(
    shape: &Shape,
    alloc: Global,
    is_optional: bool,
    json: Option<&Json>,
) -> Result<Option<Value>, JsonFault>
    ensures { IsSameOrMemory (option_map value_of) result
        (place_taken is_optional (take (type_of shape.now)) (option_map (λ j. view j.now) json.entry)) }
{
    match json {
        Some(json) => {
            let value = take_value(shape, alloc, json)?;
            Ok(Some(value))
        }
        None => {
            if is_optional {
                Ok(None)
            } else {
                Err(JsonFault::Missing)
            }
        }
    }
}

/// A SEQUENCE OF.
#[cycle(take)]
fn take_list(item: &Shape, alloc: Global, size: Size, json: &Json) -> Result<Value, JsonFault>
    ensures { IsSameOrMemory value_of result (take (sequence_of size (type_of item.now)) (view json.now)) }
{
    let items = items_in(json)?;
    let values = take_items(item, alloc, items)?;
    sized(size, values)
}

/// A value for each item.
#[cycle(take)]
fn take_items(item: &Shape, alloc: Global, items: &[Json]) -> Result<Vec<Value>, JsonFault>
    ensures { IsSameOrMemory (λ v. values_of v.items) result
        (items_taken (take (type_of item.now)) (items_view items.now)) }
{
    let mut values = Vec::new(alloc);
    for json in items {
        let value = take_value(item, alloc, json)?;
        values.push(value)?;
    }
    Ok(values)
}

/// A CHOICE.
#[cycle(take)]
fn take_choice(shape: &Shape, alloc: Global, json: &Json) -> Result<Value, JsonFault>
    requires { IsChoice shape.now }
    ensures { IsSameOrMemory value_of result (take (type_of shape.now) (view json.now)) }
{
    let Shape::Choice { root, additions } = shape else {
        unreachable!()
    };
    let (key, json) = one_member(json)?;
    let found = take_alternative(root, alloc, key, json)?;
    match found {
        Some(value) => Ok(value),
        None => match additions {
            None => Err(JsonFault::Name),
            Some(additions) => {
                let found = take_alternative(additions, alloc, key, json)?;
                match found {
                    Some(value) => Ok(value),
                    None => foreign_in(shape, alloc, key, json),
                }
            }
        },
    }
}

/// The value of the first alternative that has the name, if one has it.
#[cycle(take)]
fn take_alternative(
    alts: &[Alt],
    alloc: Global,
    key: &str,
    json: &Json,
) -> Result<Option<Value>, JsonFault>
    ensures { Tries value_of result
        (λ otherwise. alternative_taken otherwise (root_of alts.now no_alternatives) key.now (view json.now)) }
{
    for alt in alts {
        if alt.name.as_str() == key {
            let value = take_value(&alt.shape, alloc, json)?;
            let value = Box::new(alloc, value)?;
            return Ok(Some(Value::Chosen {
                tag: alt.tag,
                value,
            }));
        }
    }
    Ok(None)
}
