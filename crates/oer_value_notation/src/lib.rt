//! What the notation of types has in its small parts: a cursor over tokens, numbers, sizes and bounds,
//! words, and values after DEFAULT. `oer_notation` reads types with them.
#![tactic(auto)]

mod cursor;
mod fault;
mod number;
mod value;
mod word;

pub use cursor::Cursor;
pub use fault::{TextFault, TextWhy};
pub use number::{
    Bounds, read_bounds, read_bracketed_size, read_item_number, read_list_size, read_tag_number,
};
pub use value::{digit_bits, inside, octets_in, read_need, text_in};
pub use word::{TypeWord, is_name, type_word};
