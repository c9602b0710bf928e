//! Units of the octet encoding rules: lengths, numbers, tags and object identifiers, over any
//! reader and any writer.
#![tactic(auto)]

mod bound;
mod fault;
pub mod laws;
mod reading;
mod stream;
mod tagging;
mod twos;
mod width;
mod window;
mod writing;

pub use fault::{ReadFault, SinkFault, Why};
pub use reading::{
    class, enumerated, length, octet, octets, octets_into, signed_counted, signed_fixed, signed_of,
    subidentifier, tag, unsigned_counted, unsigned_fixed, unsigned_of,
};
pub use stream::{Lent, Metered, Sink, Source};
pub use tagging::{Class, Tag};
pub use width::Width;
pub use window::{Outer, Window};
pub use writing::{
    enumerated_len, length_len, put_enumerated, put_length, put_octets, put_signed_counted,
    put_signed_fixed, put_subidentifier, put_tag, put_unsigned_counted, put_unsigned_fixed,
    signed_counted_len, subidentifier_len, tag_len, unsigned_counted_len,
};
