//! Types of ASN.1, their values, and what encodes them. A `Schema` is a well-formed type. Shapes and
//! values are those of `oer_values`, sizes, errors and laws those of `oer_model`: here all are under
//! one name.
#![tactic(auto)]

mod calls;
mod counting;
mod depth;
mod name;
mod order;
mod rule;
mod schema;
mod widths;

pub use calls::{filled, fits, same_filled};
pub use counting::parts_left;
pub use depth::is_within_depth;
pub use oer_model::{SchemaFault, Size, laws};
pub use oer_values::{
    Addition, Alphabet, Alt, Bits, Field, Form, Item, Need, Shape, Unknown, Value, are_characters,
    are_last_zero, bit_of, contains_number, contains_tag, find_alternative, fits_shape,
    is_in_range, is_same_tag, may_be_unused, octets_needed, optional, same_filled_at, spare_bits,
    with_tag,
};
pub use rule::has_any_fault_here;
pub use schema::{ADDITION_PLACES, MAX_DEPTH, MAX_PARTS, Schema};
