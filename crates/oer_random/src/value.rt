//! A made-up value of a type.
ghost use Rattle.std.specs.Prelude.{◌≡◌, ◌≤◌, IfErr, IfOk};
ghost use Rattle.oer_model.specs.Fits.{Fits};
ghost use Rattle.oer_random.specs.Drawn.{random_value};
ghost use Rattle.oer_random.specs.Weight.{random_weight};
ghost use Rattle.oer_skeleton.specs.Weight.{Refuses, max_weight};
ghost use Rattle.oer_types.specs.Schema.{the_type};
ghost use Rattle.oer_values.specs.ValueView.{value_of};

use crate::drawn::drawn;
use crate::weight::weigh;
use crate::words::word;
use oer_skeleton::{MAX_WEIGHT, SkeletonFault};
use oer_types::Schema;
use oer_values::Value;
use std::alloc::Global;

/// How many elements a list may have above the least; one fewer in each list within it.
const MOST_ROOM: u8 = 3;

/// The value of the type that the seed gives: the same on every machine, and for most seeds another one.
/// Numbers are anywhere within their bounds, and often at one; an ENUMERATED has any item, a CHOICE any
/// alternative, also one after the extension marker; a component that may be absent is there or not; one
/// with a default is absent, has the default, or another value. Strings have up to 8 characters, octets
/// or bits more than the least, a list up to 3 elements, and one fewer in each list within it. Where
/// modules wrote out a type that contains itself, the value ends before the nesting does if it can.
///
/// # Errors
/// TooLong exactly where it would have more than 65,536 parts, and Memory if an allocation fails.
pub fn random(alloc: Global, schema: &Schema, seed: u64) -> Result<Value, SkeletonFault>
    ensures made { IfOk result (λ v. value_of v ≡ random_value seed (the_type schema.now)) }
    ensures fits { IfOk result (λ v. Fits (the_type schema.now) (value_of v)) }
    ensures most { IfOk result (λ v. random_weight seed (the_type schema.now) ≤ max_weight) }
    ensures refused { IfErr result (λ fault. Refuses fault (random_weight seed (the_type schema.now))) }
{
    let seed = word(seed);
    if weigh(schema.shape(), MOST_ROOM, seed, MAX_WEIGHT).is_none() {
        return Err(SkeletonFault::TooLong);
    }
    Ok(drawn(schema.shape(), alloc, MOST_ROOM, seed)?)
}
