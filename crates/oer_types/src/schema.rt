//! Well-formed types.
ghost use Rattle.oer_model.specs.AtMostOne.{IsWellFormed-prop};
ghost use Rattle.oer_values.specs.ShapeView.{type_of};
ghost use Rattle.oer_model.specs.WellFormed.{IsWellFormed};

use crate::counting::parts_left;
use crate::depth::is_within_depth;
use crate::rule::{Sought, is_somewhere};
use oer_model::SchemaFault;
use oer_values::Shape;

/// How many levels of types a type may have. The innermost type counts, as does the outermost.
pub const MAX_DEPTH: u8 = 32;

/// How many parts a type may have: each type in it, itself included, and each item of an
/// ENUMERATED.
pub const MAX_PARTS: u16 = 4096;

/// How many places the additions of a SEQUENCE may have: from 0 to 65,535.
pub const ADDITION_PLACES: usize = 65_536;

/// A well-formed type: a shape of which no fault holds.
#[derive(Drop)]
pub struct Schema {
    shape: Shape,
    pub ghost well_formed: { IsWellFormed (type_of shape) } by { IsWellFormed-prop (type_of shape) },
}

impl Schema {
    ghost use Rattle.std.specs.Prelude.{◌≡◌, MatchResult, false};
    ghost use Rattle.oer_model.specs.Constraints.{KeepsLimits};
    ghost use Rattle.oer_model.specs.Fits.{DefaultsFit};
    ghost use Rattle.oer_types.specs.AnyFault.{any_fault};
    ghost use Rattle.oer_types.specs.Schema.{shape_of};
    ghost use Rattle.oer_model.specs.WellFormed.{IsFirstFault};

    /// The type, exactly where no fault holds of the shape. Else the fault of least number that
    /// holds anywhere in it, and the shape. It looks no deeper than 32 levels and counts no further
    /// than 4,096 parts, and doesn't allocate.
    pub fn new(shape: Shape) -> Result<Schema, (SchemaFault, Shape)>
        ensures { MatchResult result (λ schema. (shape_of schema ≡ shape) × IsWellFormed (type_of shape))
            (λ refused. IsFirstFault (type_of shape) refused.0 × (refused.1 ≡ shape)) }
    {
        match first_fault(&shape) {
            Some(fault) => Err((fault, shape)),
            None => Ok(Schema { shape }),
        }
    }

    /// The type of a shape in which no type has a fault of its own after the first two, as
    /// `has_any_fault_here` finds of each. The result is that of `new`, but only the depth and the
    /// parts are looked at.
    pub fn of_sound(shape: Shape) -> Result<Schema, (SchemaFault, Shape)>
        requires { any_fault (type_of shape) ≡ false }
        ensures { MatchResult result (λ schema. (shape_of schema ≡ shape) × IsWellFormed (type_of shape))
            (λ refused. IsFirstFault (type_of shape) refused.0 × (refused.1 ≡ shape)) }
    {
        match fault_of_sound(&shape) {
            Some(fault) => Err((fault, shape)),
            None => Ok(Schema { shape }),
        }
    }

    /// The shape, which is well-formed.
    pub fn shape(&self) -> &Shape
        ensures same { result.now ≡ shape_of self.now }
        ensures well_formed { IsWellFormed (type_of result.now) }
        ensures limits { KeepsLimits (type_of result.now) }
        ensures defaults { DefaultsFit (type_of result.now) }
    {
        &self.shape
    }

    /// The shape.
    pub fn into_shape(self) -> Shape
        ensures { result ≡ shape_of self }
    {
        self.shape
    }
}

ghost use Rattle.std.specs.Prelude.{◌≡◌, MatchOption, None, Some, false, true};
ghost use Rattle.oer_model.specs.FaultTest.{first_fault as spec_first_fault, first_in, has_fault, later_faults, somewhere};
ghost use Rattle.oer_model.specs.Widths.{HasWidths};
ghost use Rattle.oer_types.specs.AnyFault.{any_fault, any_here, repeat_faults, spelling_faults, value_faults};
ghost use Rattle.oer_model.specs.declared.fault.SchemaFault.TheVariants.{TooManyParts};

/// Whether the type has more parts than it may have. Where it hasn't, its numbers are known.
fn has_too_many_parts(shape: &Shape) -> bool
    ensures many { result ≡ has_fault TooManyParts (type_of shape.now) }
    ensures widths { result ≡ false → HasWidths (type_of shape.now) }
{
    match parts_left(shape, MAX_PARTS) {
        Some(_) => false,
        None => true,
    }
}

/// The first two faults, which are of the whole type.
fn fault_of_whole(shape: &Shape) -> Option<SchemaFault>
    ensures first { MatchOption result
        (spec_first_fault (type_of shape.now) ≡ first_in (type_of shape.now) later_faults)
        (λ fault. spec_first_fault (type_of shape.now) ≡ Some fault) }
    ensures widths { result ≡ None → HasWidths (type_of shape.now) }
{
    if !is_within_depth(shape, MAX_DEPTH) {
        return Some(SchemaFault::TooDeep);
    }
    if has_too_many_parts(shape) {
        return Some(SchemaFault::TooManyParts);
    }
    None
}

/// The fault of least number.
fn first_fault(shape: &Shape) -> Option<SchemaFault>
    ensures first { result ≡ spec_first_fault (type_of shape.now) }
    ensures widths { result ≡ None → HasWidths (type_of shape.now) }
{
    match fault_of_whole(shape) {
        Some(fault) => Some(fault),
        None => later_fault(shape),
    }
}

/// The fault of least number of a type that has none after the first two.
#[tactic(auto, using(crate::proofs::AnyFault::none_later))]
fn fault_of_sound(shape: &Shape) -> Option<SchemaFault>
    requires { any_fault (type_of shape.now) ≡ false }
    ensures first { result ≡ spec_first_fault (type_of shape.now) }
    ensures widths { result ≡ None → HasWidths (type_of shape.now) }
{
    fault_of_whole(shape)
}

/// The fault of least number after the first two. What takes most is looked for last: names are compared
/// where the rest of each type is in order, values where the names are.
fn later_fault(shape: &Shape) -> Option<SchemaFault>
    ensures { result ≡ first_in (type_of shape.now) later_faults }
{
    if is_somewhere(Sought::Spelling, shape) {
        return Some(spelling_fault(shape));
    }
    if is_somewhere(Sought::Repeats, shape) {
        return Some(repeat_fault(shape));
    }
    if is_somewhere(Sought::Values, shape) {
        return Some(value_fault(shape));
    }
    None
}

/// Which of these faults is the least, where there is one.
#[tactic(auto, using(crate::proofs::AnyFault::last_spelling))]
fn spelling_fault(shape: &Shape) -> SchemaFault
    requires { somewhere (any_here spelling_faults) (type_of shape.now) ≡ true }
    ensures { Some result ≡ first_in (type_of shape.now) spelling_faults }
{
    if is_somewhere(Sought::One(SchemaFault::BoundOrder), shape) {
        return SchemaFault::BoundOrder;
    }
    if is_somewhere(Sought::One(SchemaFault::SizeOrder), shape) {
        return SchemaFault::SizeOrder;
    }
    SchemaFault::BadName
}

/// Which of these faults is the least, where there is one.
#[tactic(auto, using(crate::proofs::AnyFault::last_repeat))]
fn repeat_fault(shape: &Shape) -> SchemaFault
    requires { somewhere (any_here repeat_faults) (type_of shape.now) ≡ true }
    ensures { Some result ≡ first_in (type_of shape.now) repeat_faults }
{
    if is_somewhere(Sought::One(SchemaFault::RepeatedName), shape) {
        return SchemaFault::RepeatedName;
    }
    if is_somewhere(Sought::One(SchemaFault::NoItems), shape) {
        return SchemaFault::NoItems;
    }
    if is_somewhere(Sought::One(SchemaFault::RepeatedNumber), shape) {
        return SchemaFault::RepeatedNumber;
    }
    SchemaFault::RepeatedTag
}

/// Which of these faults is the least, where there is one.
#[tactic(auto, using(crate::proofs::AnyFault::last_value))]
fn value_fault(shape: &Shape) -> SchemaFault
    requires { somewhere (any_here value_faults) (type_of shape.now) ≡ true }
    ensures { Some result ≡ first_in (type_of shape.now) value_faults }
{
    if is_somewhere(Sought::One(SchemaFault::DefaultMisfit), shape) {
        return SchemaFault::DefaultMisfit;
    }
    SchemaFault::EmptyElement
}
