//! The smallest value of a type, and a full one.
ghost use Rattle.std.specs.Prelude.{◌≡◌, ◌≤◌, IfErr, IfOk};
ghost use Rattle.oer_model.specs.Fits.{Fits};
ghost use Rattle.oer_skeleton.specs.Skeleton.{skeleton as spec_skeleton};
ghost use Rattle.oer_skeleton.specs.Weight.{Refuses, max_weight, weight};
ghost use Rattle.oer_skeleton.specs.declared.parts.Parts.TheVariants.{All, Needed};
ghost use Rattle.oer_types.specs.Schema.{the_type};
ghost use Rattle.oer_values.specs.ValueView.{value_of};

use crate::fault::SkeletonFault;
use crate::parts::Parts;
use crate::skeleton::skeleton;
use crate::weight::{MAX_WEIGHT, weigh};
use oer_types::Schema;
use oer_values::Value;
use std::alloc::Global;

/// The value of the type that has these parts: `smallest` and `full` say what it is.
///
/// # Errors
/// TooLong exactly where it would have more than 65,536 parts, and Memory if an allocation fails.
pub fn with_parts(alloc: Global, schema: &Schema, parts: Parts) -> Result<Value, SkeletonFault>
    ensures made { IfOk result (λ v. value_of v ≡ spec_skeleton parts (the_type schema.now)) }
    ensures fits { IfOk result (λ v. Fits (the_type schema.now) (value_of v)) }
    ensures most { IfOk result (λ v. weight parts (the_type schema.now) ≤ max_weight) }
    ensures refused { IfErr result (λ fault. Refuses fault (weight parts (the_type schema.now))) }
{
    if weigh(schema.shape(), parts, MAX_WEIGHT).is_none() {
        return Err(SkeletonFault::TooLong);
    }
    Ok(skeleton(schema.shape(), alloc, parts)?)
}

/// The smallest value of the type: each number as near to 0 as its bounds allow, the first item of an
/// ENUMERATED, strings and lists as short as they may be, of zeros, the object identifier 0.0, no
/// component that may be absent, and the first alternative of a CHOICE. Where modules wrote out a type
/// that contains itself, it is the first alternative by which the value ends before the nesting does.
///
/// # Errors
/// TooLong exactly where it would have more than 65,536 parts, and Memory if an allocation fails.
pub fn smallest(alloc: Global, schema: &Schema) -> Result<Value, SkeletonFault>
    ensures made { IfOk result (λ v. value_of v ≡ spec_skeleton Needed (the_type schema.now)) }
    ensures fits { IfOk result (λ v. Fits (the_type schema.now) (value_of v)) }
    ensures most { IfOk result (λ v. weight Needed (the_type schema.now) ≤ max_weight) }
    ensures refused { IfErr result (λ fault. Refuses fault (weight Needed (the_type schema.now))) }
{
    with_parts(alloc, schema, Parts::Needed)
}

/// The same with every optional component, every default, every addition that the type knows, and an
/// element in each list that may have one. What only the end of a nesting could be is left out.
///
/// # Errors
/// Those of `smallest`.
pub fn full(alloc: Global, schema: &Schema) -> Result<Value, SkeletonFault>
    ensures made { IfOk result (λ v. value_of v ≡ spec_skeleton All (the_type schema.now)) }
    ensures fits { IfOk result (λ v. Fits (the_type schema.now) (value_of v)) }
    ensures most { IfOk result (λ v. weight All (the_type schema.now) ≤ max_weight) }
    ensures refused { IfErr result (λ fault. Refuses fault (weight All (the_type schema.now))) }
{
    with_parts(alloc, schema, Parts::All)
}
