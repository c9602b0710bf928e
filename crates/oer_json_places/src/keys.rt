//! Keys that a type doesn't have.
ghost use Rattle.std.specs.Prelude.{◌≡◌, is_some, option_map};
ghost use Rattle.std.specs.Str.{all_ascii_digits};
ghost use Rattle.serde_json.specs.View.{members_view};
ghost use Rattle.oer_values.specs.ShapeView.{additions_of, fields_of};
ghost use Rattle.oer_model.specs.WellFormed.{addition_names, field_names};
ghost use Rattle.oer_json.specs.Keys.{is_among, keys_of, place_digits};
ghost use Rattle.oer_json.specs.Take.{is_key};
ghost use Rattle.oer_json.specs.Texts.{is_natural};
ghost use Rattle.oer_json_places.specs.Next.{first_other};

use oer_types::{Addition, Field};
use serde_json::{Map, Value as Json};

fn is_field(fields: &[Field], key: &str) -> bool
    ensures { result ≡ is_among (field_names (fields_of fields.now)) key.now }
{
    for field in fields {
        if field.name.as_str() == key {
            return true;
        }
    }
    false
}

fn is_addition(additions: &[Addition], key: &str) -> bool
    ensures { result ≡ is_among (addition_names (additions_of additions.now)) key.now }
{
    for addition in additions {
        if addition.name.as_str() == key {
            return true;
        }
    }
    false
}

fn are_digits(bytes: &[u8]) -> bool
    ensures { result ≡ all_ascii_digits bytes.now }
{
    for byte in bytes {
        if !byte.is_ascii_digit() {
            return false;
        }
    }
    true
}

// Whether these are decimal digits, of which the first is 0 only where it stands alone.
#[tactic(auto, unfolding(oer_json::specs::Texts::is_natural))]
fn is_natural(bytes: &[u8]) -> bool
    ensures { result ≡ is_natural bytes.now }
{
    if bytes.is_empty() || !are_digits(bytes) {
        return false;
    }
    bytes.len() == 1 || bytes[0] != b'0'
}

// Whether the key is `#` and a place.
fn is_place(key: &str) -> bool
    ensures { result ≡ is_some (place_digits key.now) }
{
    match key.strip_prefix('#') {
        Some(digits) => is_natural(digits.as_bytes()),
        None => false,
    }
}

// Whether the key is that of a component or an addition, known or not.
fn is_key(root: &[Field], additions: &[Addition], key: &str) -> bool
    ensures { result ≡ is_key (field_names (fields_of root.now)) (addition_names (additions_of additions.now)) key.now }
{
    is_field(root, key) || is_addition(additions, key) || is_place(key)
}

/// The first key that is none of a component.
pub(crate) fn other_field<'a>(map: &'a Map<String, Json>, fields: &[Field]) -> Option<&'a str>
    ensures { option_map (λ s. s.now) result
        ≡ first_other (is_among (field_names (fields_of fields.now))) (keys_of (members_view map.now.entries)) }
{
    for key in map.keys() {
        if !is_field(fields, key.as_str()) {
            return Some(key.as_str());
        }
    }
    None
}

/// The first key that is none of a component or an addition, known or not.
pub(crate) fn other_key<'a>(
    map: &'a Map<String, Json>,
    root: &[Field],
    additions: &[Addition],
) -> Option<&'a str>
    ensures { option_map (λ s. s.now) result
        ≡ first_other (is_key (field_names (fields_of root.now)) (addition_names (additions_of additions.now)))
        (keys_of (members_view map.now.entries)) }
{
    for key in map.keys() {
        if !is_key(root, additions, key.as_str()) {
            return Some(key.as_str());
        }
    }
    None
}
