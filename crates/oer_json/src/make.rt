//! Values as JSON.
ghost use Rattle.std.specs.Prelude.{◌≡◌, IfOk, OnOk, map, option_map};
ghost use Rattle.serde_json.specs.Data.{array};
ghost use Rattle.serde_json.specs.View.{members_view, view};
ghost use Rattle.oer_model.specs.AsnValue.{chosen, items, seq};
ghost use Rattle.oer_model.specs.Fits.{Fits};
ghost use Rattle.oer_types.specs.Schema.{the_type};
ghost use Rattle.oer_values.specs.ShapeView.{additions_of, fields_of, named_number, type_of};
ghost use Rattle.oer_values.specs.ValueView.{places_of, unknown_of, value_of, values_of};
ghost use Rattle.oer_json.specs.Keys.{tag_key};
ghost use Rattle.oer_json.specs.Made.{made, made_items, made_octets, named_numbers, one_member, put_additions as with_additions, put_fields as with_fields, put_unknown as with_unknown, with_place};

use crate::keys::{place_key, tag_key};
use crate::leaf::{arcs_json, bits_json, integer_json, item_json, octets_json, text_json};
use oer_types::{Addition, Field, Item, Schema, Shape, Unknown, Value, find_alternative};
use oer_units::Tag;
use serde_json::{Map, Value as Json};
use std::alloc::{AllocError, Global};

/// The JSON of a value of the type (docs/JSON.md). Fails if an allocation fails.
pub fn to_json(alloc: Global, schema: &Schema, value: &Value) -> Result<Json, AllocError>
    requires { Fits (the_type schema.now) (value_of value.now) }
    ensures { IfOk result (λ j. view j ≡ made (the_type schema.now) (value_of value.now)) }
{
    value_json(schema.shape(), alloc, value)
}

/// The JSON of a value; null where it holds others and is of another kind than the type.
#[cycle(make)]
#[tactic(auto, using(crate::proofs::Making::made_kinds))]
fn value_json(shape: &Shape, alloc: Global, value: &Value) -> Result<Json, AllocError>
    ensures { IfOk result (λ j. view j ≡ made (type_of shape.now) (value_of value.now)) }
{
    match value {
        Value::Bool(truth) => Ok(Json::Bool(*truth)),
        Value::Null => Ok(Json::Null),
        Value::Int(number) => integer_json(alloc, *number),
        Value::Enum(number) => item_json(alloc, items_of(shape), *number),
        Value::Bits(bits) => bits_json(alloc, bits),
        Value::Octets(octets) => octets_json(alloc, octets),
        Value::Text(text) => text_json(alloc, text.as_str()),
        Value::Oid(arcs) => arcs_json(alloc, arcs),
        Value::Seq {
            root,
            added,
            unknown,
        } => sequence_json(shape, alloc, root, added, unknown),
        Value::List(values) => list_json(shape, alloc, values),
        Value::Chosen { tag, value } => chosen_json(shape, alloc, *tag, value),
        Value::Foreign { tag, octets } => foreign_json(alloc, *tag, octets),
    }
}

/// The items of an ENUMERATED; another type has none.
#[tactic(auto, using(crate::proofs::Levels::levels))]
fn items_of(shape: &Shape) -> &[Item]
    ensures { map named_number result.now ≡ named_numbers (type_of shape.now) }
{
    match shape {
        Shape::Enumerated { items, .. } => items,
        _ => &[],
    }
}

/// The object of a SEQUENCE.
#[cycle(make)]
#[tactic(auto, using(crate::proofs::Levels::levels))]
fn sequence_json(
    shape: &Shape,
    alloc: Global,
    root: &[Option<Value>],
    added: &[Option<Value>],
    unknown: &[Unknown],
) -> Result<Json, AllocError>
    ensures { IfOk result (λ j. view j
        ≡ made (type_of shape.now) (seq (places_of root.now) (places_of added.now) (map unknown_of unknown.now))) }
{
    let Shape::Sequence {
        root: fields,
        additions,
    } = shape
    else {
        return Ok(Json::Null);
    };
    let mut members = Map::new(alloc);
    put_fields(fields, alloc, root, &mut members)?;
    match additions {
        None => Ok(Json::Object(members)),
        Some(additions) => {
            put_additions(additions, alloc, added, &mut members)?;
            put_unknown(alloc, unknown, &mut members)?;
            Ok(Json::Object(members))
        }
    }
}

/// Puts a member for each component that is there.
#[cycle(make)]
fn put_fields(
    fields: &[Field],
    alloc: Global,
    places: &[Option<Value>],
    members: &mut Map<String, Json>,
) -> Result<(), AllocError>
    ensures { OnOk result (members_view members.new.entries
        ≡ with_fields (fields_of fields.now) (places_of places.now) (members_view members.old.entries)) }
{
    let mut rest = places;
    for field in fields {
        let Some((place, more)) = rest.split_first() else {
            return Ok(());
        };
        put_place(&field.shape, alloc, field.name.as_str(), place, members)?;
        rest = more;
    }
    Ok(())
}

/// Puts a member for each addition that is there.
#[cycle(make)]
fn put_additions(
    additions: &[Addition],
    alloc: Global,
    places: &[Option<Value>],
    members: &mut Map<String, Json>,
) -> Result<(), AllocError>
    ensures { OnOk result (members_view members.new.entries
        ≡ with_additions (additions_of additions.now) (places_of places.now) (members_view members.old.entries)) }
{
    let mut rest = places;
    for addition in additions {
        let Some((place, more)) = rest.split_first() else {
            return Ok(());
        };
        put_place(
            &addition.shape,
            alloc,
            addition.name.as_str(),
            place,
            members,
        )?;
        rest = more;
    }
    Ok(())
}

/// Puts a member for a component, if it is there.
#[cycle(make)]
fn put_place(
    shape: &Shape,
    alloc: Global,
    name: &str,
    place: &Option<Value>,
    members: &mut Map<String, Json>,
) -> Result<(), AllocError>
    ensures { OnOk result (members_view members.new.entries
        ≡ with_place name.now (type_of shape.now) (option_map value_of place.now) (members_view members.old.entries)) }
{
    match place {
        None => Ok(()),
        Some(value) => {
            let json = value_json(shape, alloc, value)?;
            serde_json::put(members, alloc, name, json)
        }
    }
}

/// Puts a member for each addition that the type doesn't know.
fn put_unknown(
    alloc: Global,
    unknown: &[Unknown],
    members: &mut Map<String, Json>,
) -> Result<(), AllocError>
    ensures { OnOk result (members_view members.new.entries
        ≡ with_unknown (map unknown_of unknown.now) (members_view members.old.entries)) }
{
    for one in unknown {
        let key = place_key(alloc, one.place as usize)?;
        let json = octets_json(alloc, &one.octets)?;
        serde_json::put(members, alloc, key.as_str(), json)?;
    }
    Ok(())
}

/// The array of a SEQUENCE OF.
#[cycle(make)]
#[tactic(auto, using(crate::proofs::Levels::levels))]
fn list_json(shape: &Shape, alloc: Global, values: &[Value]) -> Result<Json, AllocError>
    ensures { IfOk result (λ j. view j ≡ made (type_of shape.now) (items (values_of values.now))) }
{
    let Shape::SequenceOf { item, .. } = shape else {
        return Ok(Json::Null);
    };
    items_json(item, alloc, values)
}

/// An item for each value.
#[cycle(make)]
fn items_json(item: &Shape, alloc: Global, values: &[Value]) -> Result<Json, AllocError>
    ensures { IfOk result (λ j. view j ≡ array (made_items (made (type_of item.now)) (values_of values.now))) }
{
    let mut items = Vec::with_capacity(alloc, values.len())?;
    for value in values {
        items.push(value_json(item, alloc, value)?)?;
    }
    Ok(Json::Array(items))
}

/// The object of the alternative that has the tag; null where none has it.
#[cycle(make)]
#[tactic(auto, using(crate::proofs::Levels::levels))]
fn chosen_json(shape: &Shape, alloc: Global, tag: Tag, value: &Value) -> Result<Json, AllocError>
    ensures { IfOk result (λ j. view j ≡ made (type_of shape.now) (chosen tag (value_of value.now))) }
{
    let Shape::Choice { root, additions } = shape else {
        return Ok(Json::Null);
    };
    let Some(alternative) = find_alternative(root, additions, tag) else {
        return Ok(Json::Null);
    };
    let json = value_json(&alternative.shape, alloc, value)?;
    object_json(alloc, alternative.name.as_str(), json)
}

/// An object with one member.
fn object_json(alloc: Global, name: &str, json: Json) -> Result<Json, AllocError>
    ensures { IfOk result (λ j. view j ≡ one_member name.now (view json)) }
{
    let mut members = Map::new(alloc);
    serde_json::put(&mut members, alloc, name, json)?;
    Ok(Json::Object(members))
}

/// The object of an alternative that the type doesn't know.
fn foreign_json(alloc: Global, tag: Tag, octets: &[u8]) -> Result<Json, AllocError>
    ensures { IfOk result (λ j. view j ≡ one_member (tag_key tag) (made_octets octets.now)) }
{
    let key = tag_key(alloc, tag)?;
    let json = octets_json(alloc, octets)?;
    object_json(alloc, key.as_str(), json)
}
