//! What reads the units and the parts of an encoding one after another, for the crates that take its
//! parts (`oer_parts`) and that list its rows (`oer_rows`).

pub use crate::bit_strings::{Map, addition_map, preamble};
pub use crate::bits::Bits;
pub use crate::cursor::Cursor;
pub use crate::leaf::check_leaf;
pub use crate::lengths::{Counted, octets_between, sized_length_at};
pub use crate::numbers::sized_quantity_at;
pub use crate::parts::{check_unknown, presence};
pub use crate::stop::Stop;
pub use crate::units::{group_at, tag_at};
pub use crate::value::{check_additions, check_elements, check_fields, check_shape};
