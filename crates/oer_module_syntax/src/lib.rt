//! The syntax of ASN.1 modules (X.680): from tokens to a tree.
#![tactic(auto)]

mod cursor;
mod fault;
pub mod laws;
mod look;
mod modules;
mod range;
mod tree;
mod types;
mod word;

pub use cursor::Cursor;
pub use fault::{Fault, Sought, Why};
pub use look::{after, is_at_small_step, is_small, names_value};
pub use modules::{Header, read_modules};
pub use range::{
    Extent, Pair, ends_span, pairs_len, take_constraints, take_exception, take_group, take_span,
    take_value,
};
pub use tree::{
    Assignment, Body, Element, Exports, Import, Mode, Module, Need, Symbol, Tags, TypeSyntax,
    Versions,
};
pub use types::{Form, read_type};
pub use word::{
    Builtin, Keyword, builtin_of, is_identifier, is_reference, is_reserved, is_useful_class,
    keyword_of,
};
