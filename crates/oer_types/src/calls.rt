//! Values of a well-formed type.
ghost use Rattle.std.specs.Prelude.{◌≡◌, ◌↔◌, IfOk, IsTrue};
ghost use Rattle.oer_model.specs.Filling.{filled as spec_filled};
ghost use Rattle.oer_model.specs.Fits.{Fits};
ghost use Rattle.oer_types.specs.Schema.{the_type};
ghost use Rattle.oer_values.specs.ValueView.{value_of};

use crate::schema::Schema;
use oer_values::{Value, fill_in, fits_shape, same_filled_at};
use std::alloc::{AllocError, Global};

/// Whether the value is one of the type: of its kind, within its bounds and sizes, with a place for
/// each component and addition, and every part fitting its own type.
pub fn fits(schema: &Schema, value: &Value) -> bool
    ensures { IsTrue result ↔ Fits (the_type schema.now) (value_of value.now) }
{
    fits_shape(schema.shape(), value)
}

/// Whether both values of the type are the same after defaults are filled in, at every depth.
pub fn same_filled(schema: &Schema, one: &Value, other: &Value) -> bool
    ensures { IsTrue result
        ↔ spec_filled (the_type schema.now) (value_of one.now) ≡ spec_filled (the_type schema.now) (value_of other.now) }
{
    same_filled_at(schema.shape(), one, other)
}

/// The value of the type with the default in the place of every absent root component that has one,
/// at every depth, inside defaults too. Fails if an allocation fails.
pub fn filled(alloc: Global, schema: &Schema, value: &Value) -> Result<Value, AllocError>
    ensures { IfOk result (λ v. value_of v ≡ spec_filled (the_type schema.now) (value_of value.now)) }
{
    fill_in(schema.shape(), alloc, value)
}
