//! What names lead to.

use oer_parts::Step;
use oer_units::Tag;

/// What a name leads to in an encoding.
#[derive(Clone, Copy)]
pub enum Hop {
    /// A component, an addition or an element.
    Part(Step),
    /// The alternative with this tag, if it is the one chosen.
    Alternative(Tag),
}

/// What a name has to be.
#[derive(Clone, Copy)]
pub enum Wanted {
    /// That of a component of a SEQUENCE, or of an addition.
    Component,
    /// That of an alternative of a CHOICE.
    Alternative,
    /// The number of an element of a SEQUENCE OF.
    Element,
    /// Nothing: the type has no parts.
    Nothing,
}

/// Which name leads nowhere.
#[derive(Clone, Copy)]
pub struct NameFault {
    /// How many names are before it.
    pub before: usize,
    /// What it has to be.
    pub wanted: Wanted,
}
