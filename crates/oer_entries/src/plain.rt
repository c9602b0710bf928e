//! JSON without floats.
ghost use Rattle.std.specs.Prelude.{◌≡◌, false, true};
ghost use Rattle.serde_json.specs.View.{view};
ghost use Rattle.serde_json.specs.Written.{has_float};
ghost use Rattle.oer_model.specs.Fits.{Fits};
ghost use Rattle.oer_types.specs.Schema.{the_type};
ghost use Rattle.oer_values.specs.ValueView.{value_of};
ghost use Rattle.oer_entries.specs.Digits.{AreDigits, AreOctets};

use oer_json::to_json;
use oer_types::{Schema, Value};
use serde_json::Value as Json;
use std::alloc::{AllocError, Global};

// Whether the value is octets.
fn is_octets(value: &Value) -> bool
    ensures { result ≡ true → AreOctets (value_of value.now) }
{
    matches!(value, Value::Octets(_))
}

/// JSON of which no number is a float: its text is known.
#[derive(Drop)]
pub struct PlainJson {
    pub json: Json,
    /// Whether it is a string of hexadecimal digits, two for each octet, so that its text has none of
    /// them escaped.
    pub is_digits: bool,
    pub ghost plain: { has_float (view json) ≡ false },
    pub ghost digits: { is_digits ≡ true → ∥ AreDigits (view json) ∥₁ },
}

impl PlainJson {
    /// Null.
    pub(crate) fn null() -> PlainJson {
        PlainJson {
            json: Json::Null,
            is_digits: false,
        }
    }

    /// A number.
    pub(crate) fn number(number: i64) -> PlainJson {
        let json = Json::from(number);
        PlainJson {
            json,
            is_digits: false,
        }
    }

    /// A text.
    pub(crate) fn text(alloc: Global, text: &str) -> Result<PlainJson, AllocError> {
        let json = Json::try_from_str(alloc, text)?;
        Ok(PlainJson {
            json,
            is_digits: false,
        })
    }

    /// That of a value of the type.
    pub(crate) fn of(alloc: Global, schema: &Schema, value: &Value) -> Result<PlainJson, AllocError>
        requires { Fits (the_type schema.now) (value_of value.now) }
    {
        let json = to_json(alloc, schema, value)?;
        Ok(PlainJson {
            json,
            is_digits: is_octets(value),
        })
    }
}
