//! Steps from an encoding to its parts.

/// A step from an encoding to a part of it, counted from 0.
#[derive(Clone, Copy, Debug, PartialEq, Eq)]
pub enum Step {
    /// A component of the root of a SEQUENCE, by its place in the root, whether those before it are
    /// there or not.
    Component(usize),
    /// An addition of a SEQUENCE, known or not, by its place after the extension marker: the content
    /// of its open type (X.696, 30).
    Addition(usize),
    /// An element of a SEQUENCE OF.
    Item(usize),
    /// The alternative of a CHOICE: what follows the tag, and of an alternative after the extension
    /// marker the content of its open type.
    Chosen,
}
