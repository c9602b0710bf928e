//! The calls for C, which `include/oer.h` declares: types are read once and kept in a handle, and by
//! them octets are checked, rewritten, taken apart, shown as JSON and made from it.
#![tactic(auto)]

mod buffer;
mod canon;
mod check;
mod definitions;
mod explain;
mod find;
mod handle;
mod held;
mod make;
mod many;
mod modules;
mod names;
mod naming;
mod nesting;
mod part;
mod part_at;
mod path;
mod raw_box;
mod reason;
mod share;
mod shared;
mod show;
mod status;
mod version;
mod whole;
