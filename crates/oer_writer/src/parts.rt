//! Parts of values, for the crate that checks octets.
ghost use Rattle.std.specs.Prelude.{◌↔◌, IsTrue};
ghost use Rattle.oer_model.specs.Constraints.{KeepsLimits};
ghost use Rattle.oer_model.specs.Fits.{Fits};
ghost use Rattle.oer_values.specs.ShapeView.{type_of};
ghost use Rattle.oer_model.specs.Strict.{IsCanonical};
ghost use Rattle.oer_values.specs.ValueView.{value_of};

use crate::put::put;
use oer_leaves::Comparison;
use oer_types::{Shape, Value, laws};

/// Whether the octets are the canonical octets (X.696, Canonical-OER) of a value that fits the
/// type. The type is a well-formed one or a part of one. It takes no memory.
pub fn equals(shape: &Shape, value: &Value, octets: &[u8]) -> bool
    requires limits { KeepsLimits (type_of shape.now) }
    requires fits { Fits (type_of shape.now) (value_of value.now) }
    ensures { IsTrue result ↔ IsCanonical (type_of shape.now) (value_of value.now) octets.now }
{
    laws::computed_octets();
    let mut comparison = Comparison::new(octets);
    put(shape, value, 0, &mut comparison).is_ok() && comparison.is_same()
}
