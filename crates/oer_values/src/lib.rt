//! Shapes and values as data: copied, compared, held against each other and filled with defaults. A
//! shape needn't be a well-formed type here; `oer_types` has `Schema`, which is.
#![tactic(auto)]

mod alphabet;
mod bits;
mod copy;
mod defaults;
mod fill;
mod fit;
mod form;
mod octet_bits;
mod shape;
mod tag;
mod value;

pub use alphabet::{Alphabet, are_characters};
pub use bits::Bits;
pub use defaults::fill_in;
pub use fill::same_filled_at;
pub use fit::{contains_number, fits_shape, is_in_range};
pub use form::Form;
pub use octet_bits::{are_last_zero, bit_of, may_be_unused, octets_needed, spare_bits};
pub use shape::{Addition, Alt, Field, Item, Need, Shape, known_additions, known_later, optional};
pub use tag::{contains_tag, find_alternative, is_same_tag, with_tag};
pub use value::{Unknown, Value};
