//! What is wrong with JSON that a type rejects: a part of it, or itself.
ghost use Rattle.std.specs.Prelude.{◌≡◌, IfOk, IfSome, option_map};
ghost use Rattle.serde_json.specs.Find.{as_array, as_object, get_member};
ghost use Rattle.serde_json.specs.View.{items_view, members_view, view};
ghost use Rattle.oer_model.specs.AsnType.{Alternatives};
ghost use Rattle.oer_model.specs.FitTest.{may_be_absent};
ghost use Rattle.oer_types.specs.Schema.{the_type};
ghost use Rattle.oer_values.specs.ShapeView.{additions_of, fields_of, later_of, need_of, root_of, sequence_with, type_of};
ghost use Rattle.oer_json.specs.Take.{one_member};
ghost use Rattle.oer_json_places.specs.Faultless.{AdditionsAreFaultless, AlternativesAreFaultless, FieldsAreFaultless, IsFaultless};
ghost use Rattle.oer_json_places.specs.Next.{additions_next, alternative_named, by_alternative, fields_next, in_choice, in_extensible, in_list, in_sequence, items_next, next, ok_of, or_else, or_stop, place_next};
ghost use Rattle.oer_json_places.specs.Views.{alternatives_with, next_of};

use crate::fault::{is_rejected, is_rejected_by, schema_of};
use crate::keys::{other_field, other_key};
use crate::part::{Next, Part, Step, Trouble};
use oer_json::JsonFault;
use oer_types::{Addition, Alt, Field, Need, Schema, Shape};
use serde_json::{Map, Value as Json};
use std::alloc::{AllocError, Global};

// The value at the key.
fn find<'a>(map: &'a Map<String, Json>, key: &str) -> Option<&'a Json>
    ensures { option_map (λ j. view j.now) result ≡ get_member key.now (members_view map.now.entries) }
{
    map.get(key)
}

// Whether the component may be absent.
fn may_be_absent(need: &Need) -> bool
    ensures { result ≡ may_be_absent (need_of need.now) }
{
    !matches!(need, Need::Must)
}

// A component or an addition, if it is at fault.
fn place_next<'a>(
    alloc: Global,
    fault: JsonFault,
    name: &'a str,
    is_optional: bool,
    shape: &'a Shape,
    json: Option<&'a Json>,
) -> Result<Option<Next<'a>>, AllocError>
    requires { IsFaultless (type_of shape.now) }
    ensures { IfOk result (λ found. option_map next_of found
        ≡ place_next fault name.now is_optional (type_of shape.now) (option_map (λ j. view j.now) json.entry)) }
{
    let Some(json) = json else {
        if is_optional || !matches!(fault, JsonFault::Missing) {
            return Ok(None);
        }
        return Ok(Some(Next::Stop(Trouble::MissingKey(name))));
    };
    if !is_rejected(alloc, fault, shape, json)? {
        return Ok(None);
    }
    let step = Step::Key(name);
    Ok(Some(Next::Into(Part { step, shape, json })))
}

// The first component that is at fault.
fn fields_next<'a>(
    alloc: Global,
    fault: JsonFault,
    fields: &'a [Field],
    members: &'a Map<String, Json>,
) -> Result<Option<Next<'a>>, AllocError>
    requires { FieldsAreFaultless (fields_of fields.now) }
    ensures { IfOk result (λ found. option_map next_of found
        ≡ fields_next fault (fields_of fields.now) (members_view members.now.entries)) }
{
    for field in fields {
        let name = field.name.as_str();
        let json = find(members, name);
        let is_optional = may_be_absent(&field.need);
        let found = place_next(alloc, fault, name, is_optional, &field.shape, json)?;
        if found.is_some() {
            return Ok(found);
        }
    }
    Ok(None)
}

// The first addition that is at fault.
fn additions_next<'a>(
    alloc: Global,
    fault: JsonFault,
    additions: &'a [Addition],
    members: &'a Map<String, Json>,
) -> Result<Option<Next<'a>>, AllocError>
    requires { AdditionsAreFaultless (additions_of additions.now) }
    ensures { IfOk result (λ found. option_map next_of found
        ≡ additions_next fault (additions_of additions.now) (members_view members.now.entries)) }
{
    for addition in additions {
        let name = addition.name.as_str();
        let json = find(members, name);
        let found = place_next(alloc, fault, name, true, &addition.shape, json)?;
        if found.is_some() {
            return Ok(found);
        }
    }
    Ok(None)
}

// What was found, or else the JSON itself.
fn or_stop<'a>(found: Option<Next<'a>>) -> Next<'a>
    ensures { next_of result ≡ or_stop (option_map next_of found.entry) }
{
    match found {
        Some(next) => next,
        None => Next::Stop(Trouble::Itself),
    }
}

// In a SEQUENCE without an extension marker.
fn in_sequence<'a>(
    alloc: Global,
    fault: JsonFault,
    root: &'a [Field],
    json: &'a Json,
) -> Result<Next<'a>, AllocError>
    requires { FieldsAreFaultless (fields_of root.now) }
    ensures { IfOk result (λ found. next_of found ≡ in_sequence fault (fields_of root.now) (as_object (view json.now))) }
{
    let Some(members) = json.as_object() else {
        return Ok(Next::Stop(Trouble::Itself));
    };
    if let Some(key) = other_field(members, root) {
        return Ok(Next::Stop(Trouble::UnknownKey(key)));
    }
    let found = fields_next(alloc, fault, root, members)?;
    Ok(or_stop(found))
}

// In a SEQUENCE with an extension marker.
fn in_extensible<'a>(
    alloc: Global,
    fault: JsonFault,
    root: &'a [Field],
    additions: &'a [Addition],
    json: &'a Json,
) -> Result<Next<'a>, AllocError>
    requires root { FieldsAreFaultless (fields_of root.now) }
    requires additions { AdditionsAreFaultless (additions_of additions.now) }
    ensures { IfOk result (λ found. next_of found
        ≡ in_extensible fault (fields_of root.now) (additions_of additions.now) (as_object (view json.now))) }
{
    let Some(members) = json.as_object() else {
        return Ok(Next::Stop(Trouble::Itself));
    };
    if let Some(key) = other_key(members, root, additions) {
        return Ok(Next::Stop(Trouble::UnknownKey(key)));
    }
    if let Some(found) = fields_next(alloc, fault, root, members)? {
        return Ok(found);
    }
    let found = additions_next(alloc, fault, additions, members)?;
    Ok(or_stop(found))
}

// The first item that is at fault.
fn items_next<'a>(
    alloc: Global,
    fault: JsonFault,
    shape: &'a Shape,
    schema: &Schema,
    items: &'a [Json],
) -> Result<Option<Next<'a>>, AllocError>
    requires { the_type schema.now ≡ type_of shape.now }
    ensures { IfOk result (λ found. option_map next_of found ≡ items_next fault (type_of shape.now) 0 (items_view items.now)) }
{
    for (index, json) in items.iter().enumerate() {
        if is_rejected_by(alloc, fault, schema, json)? {
            let step = Step::Element(index);
            return Ok(Some(Next::Into(Part { step, shape, json })));
        }
    }
    Ok(None)
}

// In a SEQUENCE OF.
fn in_list<'a>(
    alloc: Global,
    fault: JsonFault,
    item: &'a Shape,
    json: &'a Json,
) -> Result<Next<'a>, AllocError>
    requires { IsFaultless (type_of item.now) }
    ensures { IfOk result (λ found. next_of found ≡ in_list fault (type_of item.now) (as_array (view json.now))) }
{
    let Some(items) = json.as_array() else {
        return Ok(Next::Stop(Trouble::Itself));
    };
    let schema = schema_of(alloc, item)?;
    let found = items_next(alloc, fault, item, &schema, items)?;
    Ok(or_stop(found))
}

// The one member of an object.
fn one_member(json: &Json) -> Option<(&str, &Json)>
    ensures { option_map (λ p. (p.0.now, view p.1.now)) result ≡ ok_of (one_member (view json.now)) }
{
    let Some(members) = json.as_object() else {
        return None;
    };
    if members.len() != 1 {
        return None;
    }
    match members.first_key_value() {
        Some((key, json)) => Some((key.as_str(), json)),
        None => unreachable!(),
    }
}

// The type of the alternative with the name, among those of a root or after the extension marker.
fn alternative<'a>(alternatives: &'a [Alt], name: &str) -> Option<&'a Shape>
    ensures root { (after : Alternatives) → alternative_named (root_of alternatives.now after) name.now
        ≡ or_else (option_map (λ s. type_of s.now) result) (alternative_named after name.now) }
    ensures later { option_map (λ s. type_of s.now) result ≡ alternative_named (later_of alternatives.now) name.now }
{
    for alternative in alternatives {
        if alternative.name.as_str() == name {
            return Some(&alternative.shape);
        }
    }
    None
}

// The type of the alternative of a CHOICE with the name.
fn alternative_of<'a>(
    root: &'a [Alt],
    additions: &'a Option<Vec<Alt>>,
    name: &str,
) -> Option<&'a Shape>
    ensures { option_map (λ s. type_of s.now) result ≡ alternative_named (alternatives_with root.now additions.now) name.now }
{
    if let Some(shape) = alternative(root, name) {
        return Some(shape);
    }
    match additions {
        Some(additions) => alternative(additions, name),
        None => None,
    }
}

// In an alternative, whose type is this one where the key is the name of one.
fn by_alternative<'a>(
    alloc: Global,
    fault: JsonFault,
    key: &'a str,
    shape: Option<&'a Shape>,
    json: &'a Json,
) -> Result<Next<'a>, AllocError>
    requires { IfSome shape (λ s. IsFaultless (type_of s.now)) }
    ensures { IfOk result (λ found. next_of found
        ≡ by_alternative fault key.now (option_map (λ s. type_of s.now) shape.entry) (view json.now)) }
{
    let Some(shape) = shape else {
        if matches!(fault, JsonFault::Name) {
            return Ok(Next::Stop(Trouble::UnknownKey(key)));
        }
        return Ok(Next::Stop(Trouble::Itself));
    };
    if !is_rejected(alloc, fault, shape, json)? {
        return Ok(Next::Stop(Trouble::Itself));
    }
    let step = Step::Key(key);
    Ok(Next::Into(Part { step, shape, json }))
}

// In a CHOICE.
fn in_choice<'a>(
    alloc: Global,
    fault: JsonFault,
    root: &'a [Alt],
    additions: &'a Option<Vec<Alt>>,
    json: &'a Json,
) -> Result<Next<'a>, AllocError>
    requires { AlternativesAreFaultless (alternatives_with root.now additions.now) }
    ensures { IfOk result (λ found. next_of found
        ≡ in_choice fault (alternatives_with root.now additions.now) (ok_of (one_member (view json.now)))) }
{
    let Some((key, json)) = one_member(json) else {
        return Ok(Next::Stop(Trouble::Itself));
    };
    let shape = alternative_of(root, additions, key);
    by_alternative(alloc, fault, key, shape, json)
}

/// What is wrong with JSON that the type rejects with this fault, in the order in which faults count (docs/JSON.md, Errors). It fails where an
/// allocation does.
pub(crate) fn next<'a>(
    alloc: Global,
    fault: JsonFault,
    shape: &'a Shape,
    json: &'a Json,
) -> Result<Next<'a>, AllocError>
    requires { IsFaultless (type_of shape.now) }
    ensures { IfOk result (λ found. next_of found ≡ next fault (type_of shape.now) (view json.now)) }
{
    match shape {
        Shape::Sequence { root, additions } => match additions {
            Some(additions) => in_extensible(alloc, fault, root, additions, json),
            None => in_sequence(alloc, fault, root, json),
        },
        Shape::SequenceOf { item, .. } => in_list(alloc, fault, item, json),
        Shape::Choice { root, additions } => in_choice(alloc, fault, root, additions, json),
        _ => Ok(Next::Stop(Trouble::Itself)),
    }
}
