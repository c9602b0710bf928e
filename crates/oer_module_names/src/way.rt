//! Steps from one module to the next.
use crate::error::{Found, Place};

/// A module in which a Name is looked for, and the place that asks for it.
#[derive(Clone, Copy)]
pub struct Way {
    pub module: usize,
    pub place: Place,
}

/// What a Name is in one module.
#[derive(Clone, Copy)]
pub enum Step {
    /// It is assigned there.
    Here(Found),
    /// It is imported.
    On(Way),
}
