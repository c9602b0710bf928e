//! The keys of objects.
ghost use Rattle.std.specs.Prelude.{◌≡◌, ◌<◌, [], IfErr, IfOk, None, Ok, is_some, option_map, string_bytes};
ghost use Rattle.serde_json.specs.Find.{get_member};
ghost use Rattle.serde_json.specs.View.{members_view, view};
ghost use Rattle.oer_values.specs.ShapeView.{additions_of, fields_of};
ghost use Rattle.oer_model.specs.WellFormed.{addition_names, field_names};
ghost use Rattle.oer_json.specs.Answer.{IsSameOrMemory};
ghost use Rattle.oer_json.specs.Keys.{all_pass, beyond_in, class_digits, class_letter, if_natural, high_key, is_among, is_smaller, keys_of, low_place, place_digits, place_key, places_in, smaller, tag_digits, tag_key};
ghost use Rattle.oer_json.specs.Take.{is_key};

use crate::fault::JsonFault;
use crate::texts::is_natural;
use oer_literals::place_of;
use oer_types::{Addition, Field};
use oer_units::{Class, Tag};
use serde_json::{Map, Value as Json};
use std::alloc::{AllocError, Global};
use std::collections::BTreeSet;

/// The key of an addition that the type doesn't know.
pub fn place_key(alloc: Global, place: usize) -> Result<String, AllocError>
    ensures { IfOk result (λ s. string_bytes s ≡ place_key place) }
{
    format!(in alloc; "#{place}")
}

fn class_letter(class: Class) -> char
    ensures value { result ≡ class_letter class }
    ensures small { result < 128 }
{
    match class {
        Class::Universal => 'u',
        Class::Application => 'a',
        Class::Context => 'c',
        Class::Private => 'p',
    }
}

/// The key of an alternative that the type doesn't know.
pub fn tag_key(alloc: Global, tag: Tag) -> Result<String, AllocError>
    ensures { IfOk result (λ s. string_bytes s ≡ tag_key tag) }
{
    let number = tag.number;
    let digits = format!(in alloc; "{number}")?;
    let mut key = String::new(alloc);
    key.push_str("#")?;
    key.push(class_letter(tag.class))?;
    key.push_str(digits.as_str())?;
    Ok(key)
}

/// The value at the key.
pub(crate) fn find<'j>(map: &'j Map<String, Json>, key: &str) -> Option<&'j Json>
    ensures { option_map (λ j. view j.now) result ≡ get_member key.now (members_view map.now.entries) }
{
    map.get(key)
}

/// The digits of a key that is `#` and a place.
fn place_digits(key: &str) -> Option<&str>
    ensures { option_map (λ s. s.now) result ≡ place_digits key.now }
{
    match key.strip_prefix('#') {
        Some(digits) => {
            if is_natural(digits.as_bytes()) {
                Some(digits)
            } else {
                None
            }
        }
        None => None,
    }
}

/// A letter for a class, and what follows it.
fn class_digits(text: &str) -> Option<(Class, &str)>
    ensures { option_map (λ p. (p.0, p.1.now)) result ≡ class_digits text.now }
{
    if let Some(digits) = text.strip_prefix('u') {
        return Some((Class::Universal, digits));
    }
    if let Some(digits) = text.strip_prefix('a') {
        return Some((Class::Application, digits));
    }
    if let Some(digits) = text.strip_prefix('c') {
        return Some((Class::Context, digits));
    }
    match text.strip_prefix('p') {
        Some(digits) => Some((Class::Private, digits)),
        None => None,
    }
}

/// The class and the digits, if these are a number.
fn if_natural(found: Option<(Class, &str)>) -> Option<(Class, &str)>
    ensures { option_map (λ p. (p.0, p.1.now)) result ≡ if_natural (option_map (λ p. (p.0, p.1.now)) found.entry) }
{
    match found {
        Some((class, digits)) => {
            if is_natural(digits.as_bytes()) {
                Some((class, digits))
            } else {
                None
            }
        }
        None => None,
    }
}

/// The class, and the digits of the number, of a key that is `#`, a letter and a number.
pub(crate) fn tag_digits(key: &str) -> Option<(Class, &str)>
    ensures { option_map (λ p. (p.0, p.1.now)) result ≡ tag_digits key.now }
{
    match key.strip_prefix('#') {
        Some(text) => if_natural(class_digits(text)),
        None => None,
    }
}

fn is_field(fields: &[Field], key: &str) -> bool
    ensures { result ≡ is_among (field_names (fields_of fields.now)) key.now }
{
    for field in fields {
        if field.name.as_str() == key {
            return true;
        }
    }
    false
}

fn is_addition(additions: &[Addition], key: &str) -> bool
    ensures { result ≡ is_among (addition_names (additions_of additions.now)) key.now }
{
    for addition in additions {
        if addition.name.as_str() == key {
            return true;
        }
    }
    false
}

/// Whether the key is that of a component or an addition, known or not.
fn is_key(root: &[Field], additions: &[Addition], key: &str) -> bool
    ensures { result ≡ is_key (field_names (fields_of root.now)) (addition_names (additions_of additions.now)) key.now }
{
    is_field(root, key) || is_addition(additions, key) || place_digits(key).is_some()
}

/// Whether each key is that of a component.
pub(crate) fn are_fields(map: &Map<String, Json>, fields: &[Field]) -> bool
    ensures { result ≡ all_pass (is_among (field_names (fields_of fields.now))) (keys_of (members_view map.now.entries)) }
{
    for key in map.keys() {
        if !is_field(fields, key.as_str()) {
            return false;
        }
    }
    true
}

/// Whether each key is that of a component or an addition, known or not.
pub(crate) fn are_keys(map: &Map<String, Json>, root: &[Field], additions: &[Addition]) -> bool
    ensures { result ≡ all_pass (is_key (field_names (fields_of root.now)) (addition_names (additions_of additions.now)))
        (keys_of (members_view map.now.entries)) }
{
    for key in map.keys() {
        if !is_key(root, additions, key.as_str()) {
            return false;
        }
    }
    true
}

/// The place of a key, where it is below 65,536.
#[tactic(auto, unfolding(crate::specs::Keys::low_place))]
fn low_place(key: &str) -> Option<u16>
    ensures { result ≡ low_place key.now }
{
    match place_digits(key) {
        Some(digits) => place_of(digits),
        None => None,
    }
}

/// The key, where it is that of a place from 65,536 on.
#[tactic(auto, unfolding(crate::specs::Keys::high_key))]
fn high_key(key: &str) -> Option<&str>
    ensures { option_map (λ s. s.now) result ≡ high_key key.now }
{
    match place_digits(key) {
        Some(digits) => match place_of(digits) {
            Some(_) => None,
            None => Some(key),
        },
        None => None,
    }
}

/// The places below 65,536 of the keys, in rising order.
pub(crate) fn places_in(alloc: Global, map: &Map<String, Json>) -> Result<BTreeSet<u16>, JsonFault>
    ensures { IsSameOrMemory (λ s. s.keys) result (Ok (places_in [] (keys_of (members_view map.now.entries)))) }
{
    let mut places = BTreeSet::new(alloc);
    for key in map.keys() {
        if let Some(place) = low_place(key.as_str()) {
            places.insert(place)?;
        }
    }
    Ok(places)
}

/// Whether the first key is that of the smaller place.
#[tactic(auto, unfolding(crate::specs::Keys::is_smaller))]
fn is_smaller(one: &str, other: &str) -> bool
    ensures { result ≡ is_smaller one.now other.now }
{
    one.len() < other.len() || one.len() == other.len() && one < other
}

/// The key of the smaller place.
fn smaller<'k>(found: Option<&'k str>, key: &'k str) -> &'k str
    ensures { result.now ≡ smaller (option_map (λ s. s.now) found.entry) key.now }
{
    match found {
        Some(least) => { if is_smaller(key, least) { key } else { least } }
        None => key,
    }
}

/// The key of the least place from 65,536 on.
pub(crate) fn beyond_in(map: &Map<String, Json>) -> Option<&str>
    ensures { option_map (λ s. s.now) result ≡ beyond_in None (keys_of (members_view map.now.entries)) }
{
    let mut found = None;
    for key in map.keys() {
        if let Some(high) = high_key(key.as_str()) {
            found = Some(smaller(found, high));
        }
    }
    found
}
