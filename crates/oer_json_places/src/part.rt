//! Parts of JSON.

use oer_json::JsonFault;
use oer_types::Shape;
use serde_json::Value as Json;

/// A step to a part of JSON.
#[derive(Clone, Copy)]
pub enum Step<'a> {
    /// To the member of an object with this key.
    Key(&'a str),
    /// To the element of an array with this number, counted from 0.
    Element(usize),
}

/// What is wrong with a part of JSON.
#[derive(Clone, Copy)]
pub enum Trouble<'a> {
    /// It is an object with this key, which the type doesn't have.
    UnknownKey(&'a str),
    /// It is an object without the key of this component, which must be present.
    MissingKey(&'a str),
    /// The part as it stands, by its fault.
    Itself,
}

/// A part of JSON that its type rejects.
#[derive(Drop)]
pub struct JsonPlace<'a> {
    /// The way to the part, from the whole on.
    pub path: Vec<Step<'a>>,
    /// The fault with which it is rejected, as is the whole.
    pub fault: JsonFault,
    /// Its type.
    pub shape: &'a Shape,
    /// The part.
    pub json: &'a Json,
    /// What is wrong there.
    pub trouble: Trouble<'a>,
}

/// A part one step away.
#[derive(Clone, Copy)]
pub(crate) struct Part<'a> {
    pub step: Step<'a>,
    pub shape: &'a Shape,
    pub json: &'a Json,
}

/// What is wrong with JSON that is rejected.
#[derive(Clone, Copy)]
pub(crate) enum Next<'a> {
    /// A part of it, that is rejected with the same fault.
    Into(Part<'a>),
    /// Itself.
    Stop(Trouble<'a>),
}
