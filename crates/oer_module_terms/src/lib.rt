//! The terms of ASN.1 modules (X.680): constraints, values, items and actual parameters, from tokens to trees.
#![tactic(auto)]

mod constraint;
mod item;
mod look;
mod parameter;
mod tree;
mod value;

pub use constraint::{Mark, read_constraint, read_constraints};
pub use item::{Numbering, read_enumeration, read_items};
pub use parameter::read_parameters;
pub use tree::{
    Amount, Atom, Bound, Constraint, Elements, Enumeration, Extension, Fixed, General, Item,
    Member, More, Narrowing, Simple, Value,
};
pub use value::read_value;
