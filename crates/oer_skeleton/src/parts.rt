//! Which parts of a type a skeleton has.

/// Which parts of a type a skeleton has.
#[derive(Clone, Copy, Debug, PartialEq, Eq)]
pub enum Parts {
    /// Those that must be there.
    Needed,
    /// Optional components and additions that are known as well, and an element of a list that may be
    /// empty.
    All,
}
