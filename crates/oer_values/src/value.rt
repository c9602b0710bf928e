//! Values of ASN.1.
ghost use Rattle.std.specs.Prelude.{◌≡◌, ◌↔◌, IsTrue, IfOk, map, option_map};
ghost use Rattle.oer_values.specs.ValueView.{value_of, values_of, places_of, unknown_of};

use crate::bits::Bits;
use oer_units::Tag;
use std::alloc::{AllocError, Global};

/// A value of some type.
#[derive(Drop)]
pub enum Value {
    Bool(bool),
    Null,
    Int(i128),
    /// The number of an item, or of none where the type is extensible.
    Enum(i64),
    Bits(Bits),
    Octets(Vec<u8>),
    /// A character string of any kind.
    Text(String),
    /// The arcs of an object identifier.
    Oid(Vec<u128>),
    /// A place for each component of the root, one for each addition that the type knows, and the
    /// additions that it doesn't know. `None` is a component that is absent.
    Seq {
        root: Vec<Option<Value>>,
        added: Vec<Option<Value>>,
        unknown: Vec<Unknown>,
    },
    List(Vec<Value>),
    /// The alternative with the tag.
    Chosen {
        tag: Tag,
        value: Box<Value>,
    },
    /// An alternative that the type doesn't know, and the octets of its open type.
    Foreign {
        tag: Tag,
        octets: Vec<u8>,
    },
}

/// An addition that the type doesn't know.
#[derive(Drop)]
pub struct Unknown {
    /// Counted from 0 over all additions.
    pub place: u16,
    /// The octets of its open type.
    pub octets: Vec<u8>,
}

impl Value {
    /// Whether both are the same value as they stand: an absent component with a DEFAULT differs
    /// from one that is there.
    pub fn same(&self, other: &Value) -> bool
        ensures { IsTrue result ↔ value_of self.now ≡ value_of other.now }
    {
        same(self, other)
    }

    /// The same value, in memory of its own. Fails if an allocation fails.
    pub fn clone_in(&self, alloc: Global) -> Result<Value, AllocError>
        ensures { IfOk result (λ v. value_of v ≡ value_of self.now) }
    {
        copy(alloc, self)
    }
}

#[cycle(same)]
#[tactic(auto, using(crate::proofs::Values::values))]
pub(crate) fn same(one: &Value, other: &Value) -> bool
    ensures { IsTrue result ↔ value_of one.now ≡ value_of other.now }
{
    match (one, other) {
        (Value::Bool(a), Value::Bool(b)) => *a == *b,
        (Value::Null, Value::Null) => true,
        (Value::Int(a), Value::Int(b)) => *a == *b,
        (Value::Enum(a), Value::Enum(b)) => *a == *b,
        (Value::Bits(a), Value::Bits(b)) => a.same(b),
        (Value::Octets(a), Value::Octets(b)) => *a == *b,
        (Value::Text(a), Value::Text(b)) => *a == *b,
        (Value::Oid(a), Value::Oid(b)) => *a == *b,
        (
            Value::Seq {
                root: root_a,
                added: added_a,
                unknown: unknown_a,
            },
            Value::Seq {
                root: root_b,
                added: added_b,
                unknown: unknown_b,
            },
        ) => {
            same_places(root_a, root_b)
                && same_places(added_a, added_b)
                && same_unknown(unknown_a, unknown_b)
        }
        (Value::List(a), Value::List(b)) => same_values(a, b),
        (Value::Chosen { tag: s, value: a }, Value::Chosen { tag: t, value: b }) => {
            *s == *t && same(a, b)
        }
        (Value::Foreign { tag: s, octets: a }, Value::Foreign { tag: t, octets: b }) => {
            *s == *t && *a == *b
        }
        _ => false,
    }
}

#[cycle(same)]
fn same_values(ones: &[Value], others: &[Value]) -> bool
    ensures { IsTrue result ↔ values_of ones.now ≡ values_of others.now }
{
    let mut rest = others;
    for one in ones {
        let Some((other, more)) = rest.split_first() else {
            return false;
        };
        if !same(one, other) {
            return false;
        }
        rest = more;
    }
    rest.is_empty()
}

#[cycle(same)]
pub(crate) fn same_places(ones: &[Option<Value>], others: &[Option<Value>]) -> bool
    ensures { IsTrue result ↔ places_of ones.now ≡ places_of others.now }
{
    let mut rest = others;
    for one in ones {
        let Some((other, more)) = rest.split_first() else {
            return false;
        };
        match (one, other) {
            (None, None) => {}
            (Some(one), Some(other)) if same(one, other) => {}
            _ => return false,
        }
        rest = more;
    }
    rest.is_empty()
}

pub(crate) fn same_unknown(ones: &[Unknown], others: &[Unknown]) -> bool
    ensures { IsTrue result ↔ map unknown_of ones.now ≡ map unknown_of others.now }
{
    let mut rest = others;
    for one in ones {
        let Some((other, more)) = rest.split_first() else {
            return false;
        };
        if !one.same(other) {
            return false;
        }
        rest = more;
    }
    rest.is_empty()
}

impl Unknown {
    fn same(&self, other: &Unknown) -> bool
        ensures { IsTrue result ↔ unknown_of self.now ≡ unknown_of other.now }
    {
        self.place == other.place && self.octets == other.octets
    }
}

#[cycle(copy)]
#[tactic(auto, using(crate::proofs::Values::values))]
pub(crate) fn copy(alloc: Global, value: &Value) -> Result<Value, AllocError>
    ensures { IfOk result (λ v. value_of v ≡ value_of value.now) }
{
    match value {
        Value::Bool(b) => Ok(Value::Bool(*b)),
        Value::Null => Ok(Value::Null),
        Value::Int(n) => Ok(Value::Int(*n)),
        Value::Enum(n) => Ok(Value::Enum(*n)),
        Value::Bits(bits) => Ok(Value::Bits(bits.clone_in(alloc)?)),
        Value::Octets(octets) => Ok(Value::Octets(Vec::from_slice(alloc, octets)?)),
        Value::Text(text) => Ok(Value::Text(String::from_str(alloc, text.as_str())?)),
        Value::Oid(arcs) => Ok(Value::Oid(Vec::from_slice(alloc, arcs)?)),
        Value::Seq {
            root,
            added,
            unknown,
        } => Ok(Value::Seq {
            root: copy_places(alloc, root)?,
            added: copy_places(alloc, added)?,
            unknown: copy_unknown(alloc, unknown)?,
        }),
        Value::List(values) => Ok(Value::List(copy_values(alloc, values)?)),
        Value::Chosen { tag, value } => Ok(Value::Chosen {
            tag: *tag,
            value: Box::new(alloc, copy(alloc, value)?)?,
        }),
        Value::Foreign { tag, octets } => Ok(Value::Foreign {
            tag: *tag,
            octets: Vec::from_slice(alloc, octets)?,
        }),
    }
}

#[cycle(copy)]
fn copy_values(alloc: Global, values: &[Value]) -> Result<Vec<Value>, AllocError>
    ensures { IfOk result (λ v. values_of v.items ≡ values_of values.now) }
{
    let mut copies = Vec::with_capacity(alloc, values.len())?;
    for value in values {
        copies.push(copy(alloc, value)?)?;
    }
    Ok(copies)
}

#[cycle(copy)]
pub(crate) fn copy_places(
    alloc: Global,
    places: &[Option<Value>],
) -> Result<Vec<Option<Value>>, AllocError>
    ensures { IfOk result (λ v. places_of v.items ≡ places_of places.now) }
{
    let mut copies = Vec::with_capacity(alloc, places.len())?;
    for place in places {
        let copied = match place {
            None => None,
            Some(value) => Some(copy(alloc, value)?),
        };
        copies.push(copied)?;
    }
    Ok(copies)
}

pub(crate) fn copy_place(alloc: Global, place: &Option<Value>) -> Result<Option<Value>, AllocError>
    ensures { IfOk result (λ p. option_map value_of p ≡ option_map value_of place.now) }
{
    match place {
        None => Ok(None),
        Some(value) => Ok(Some(copy(alloc, value)?)),
    }
}

pub(crate) fn copy_unknown(alloc: Global, unknown: &[Unknown]) -> Result<Vec<Unknown>, AllocError>
    ensures { IfOk result (λ v. map unknown_of v.items ≡ map unknown_of unknown.now) }
{
    let mut copies = Vec::with_capacity(alloc, unknown.len())?;
    for one in unknown {
        copies.push(Unknown {
            place: one.place,
            octets: Vec::from_slice(alloc, &one.octets)?,
        })?;
    }
    Ok(copies)
}
