//! Parts that a type doesn't know, from JSON.
ghost use Rattle.std.specs.Prelude.{◌≡◌, map, option_map};
ghost use Rattle.serde_json.specs.View.{members_view, view};
ghost use Rattle.oer_values.specs.ShapeView.{type_of};
ghost use Rattle.oer_values.specs.ValueView.{unknown_of, value_of};
ghost use Rattle.oer_json.specs.Answer.{IsSameOrMemory};
ghost use Rattle.oer_json.specs.Take.{beyond_at, foreign_in, foreign_with, take_unknown, octets_at, unknown_at, unknown_from};

use crate::fault::JsonFault;
use crate::keys::{beyond_in, find, place_key, places_in, tag_digits};
use crate::scan::{fitting, octets_in};
use oer_literals::tag_number_of;
use oer_types::{Shape, Unknown, Value};
use oer_units::{Class, Tag};
use serde_json::{Map, Value as Json};
use std::alloc::Global;
use std::collections::BTreeSet;

/// The octets at a key.
fn octets_at(alloc: Global, json: Option<&Json>) -> Result<Vec<u8>, JsonFault>
    ensures { IsSameOrMemory (λ v. v.items) result (octets_at (option_map (λ j. view j.now) json.entry)) }
{
    match json {
        Some(json) => octets_in(alloc, json),
        None => Err(JsonFault::Kind),
    }
}

/// The addition at a place, of a type that knows so many.
#[tactic(auto, unfolding(crate::specs::Take::unknown_at))]
fn unknown_at(
    alloc: Global,
    known: usize,
    place: u16,
    json: Option<&Json>,
) -> Result<Unknown, JsonFault>
    ensures { IsSameOrMemory unknown_of result (unknown_at known place (option_map (λ j. view j.now) json.entry)) }
{
    let octets = octets_at(alloc, json)?;
    if (place as usize) < known {
        return Err(JsonFault::Misfit);
    }
    Ok(Unknown { place, octets })
}

/// The additions at the places.
fn unknown_from(
    alloc: Global,
    known: usize,
    places: &BTreeSet<u16>,
    members: &Map<String, Json>,
) -> Result<Vec<Unknown>, JsonFault>
    ensures { IsSameOrMemory (λ v. map unknown_of v.items) result
        (unknown_from known places.now.keys (members_view members.now.entries)) }
{
    let mut unknown = Vec::new(alloc);
    for place in places {
        let key = place_key(alloc, *place as usize)?;
        let one = unknown_at(alloc, known, *place, find(members, key.as_str()))?;
        unknown.push(one)?;
    }
    Ok(unknown)
}

/// The fault at a place from 65,536 on.
fn beyond_at(alloc: Global, json: Option<&Json>) -> Result<(), JsonFault>
    ensures { IsSameOrMemory (λ u. u) result (beyond_at (option_map (λ j. view j.now) json.entry)) }
{
    let octets = octets_at(alloc, json)?;
    drop(octets);
    Err(JsonFault::Range)
}

/// The additions that a type doesn't know, where it knows so many.
#[tactic(auto, unfolding(crate::specs::Take::take_unknown))]
pub(crate) fn take_unknown(
    alloc: Global,
    known: usize,
    members: &Map<String, Json>,
) -> Result<Vec<Unknown>, JsonFault>
    ensures { IsSameOrMemory (λ v. map unknown_of v.items) result
        (take_unknown known (members_view members.now.entries)) }
{
    let places = places_in(alloc, members)?;
    let unknown = unknown_from(alloc, known, &places, members)?;
    if let Some(key) = beyond_in(members) {
        beyond_at(alloc, find(members, key))?;
    }
    Ok(unknown)
}

/// The alternative of a tag that the type doesn't know.
#[tactic(auto, unfolding(crate::specs::Take::foreign_with))]
fn foreign_with(
    shape: &Shape,
    alloc: Global,
    class: Class,
    digits: &str,
    json: &Json,
) -> Result<Value, JsonFault>
    ensures { IsSameOrMemory value_of result (foreign_with (type_of shape.now) (class, digits.now) (view json.now)) }
{
    let octets = octets_in(alloc, json)?;
    let Some(number) = tag_number_of(digits) else {
        return Err(JsonFault::Range);
    };
    let tag = Tag { class, number };
    fitting(shape, Value::Foreign { tag, octets })
}

/// An alternative that the type doesn't know, by its key.
#[tactic(auto, unfolding(crate::specs::Take::foreign_in))]
pub(crate) fn foreign_in(
    shape: &Shape,
    alloc: Global,
    key: &str,
    json: &Json,
) -> Result<Value, JsonFault>
    ensures { IsSameOrMemory value_of result (foreign_in (type_of shape.now) key.now (view json.now)) }
{
    match tag_digits(key) {
        Some((class, digits)) => foreign_with(shape, alloc, class, digits, json),
        None => Err(JsonFault::Name),
    }
}
