//! What the numbers of a set are.
ghost use Rattle.std.specs.Prelude.{◌≡◌, ◌<◌, ℕ, IfOk};
ghost use Rattle.oer_module_lexer.specs.Token.{spots_of};
ghost use Rattle.oer_module_values.specs.Views.{type_in};
ghost use Rattle.oer_module_limits.specs.Errors.{seen};
ghost use Rattle.oer_module_limits.specs.Sets.{has_size, measure_of, own};
ghost use Rattle.oer_module_limits.specs.Views.{IsMeasureWithin, measure_seen};

use crate::error::{Error, Why};
use oer_module_lexer::Spot;
use oer_module_names::Place;
use oer_module_syntax::{Builtin, TypeSyntax};
use oer_module_values::{TypeIn, place_of};

/// What the numbers of a set are.
#[derive(Clone, Copy)]
pub enum Measure<'m, 's, 't> {
    /// Those of an INTEGER, which governs them, or those behind SIZE.
    Number(Option<TypeIn<'m, 's, 't>>),
    /// The sizes of values.
    Size,
}

/// Whether the values of such a type have sizes (X.680, 51.1).
fn has_size(builtin: Builtin) -> bool
    ensures { result ≡ has_size builtin }
{
    matches!(
        builtin,
        Builtin::BitString
            | Builtin::OctetString
            | Builtin::CharacterString
            | Builtin::BmpString
            | Builtin::GeneralString
            | Builtin::GraphicString
            | Builtin::Ia5String
            | Builtin::Iso646String
            | Builtin::NumericString
            | Builtin::PrintableString
            | Builtin::TeletexString
            | Builtin::T61String
            | Builtin::UniversalString
            | Builtin::Utf8String
            | Builtin::VideotexString
            | Builtin::VisibleString
            | Builtin::ObjectDescriptor
    )
}

/// What is measured where a reference to a type stands.
pub fn measure_of<'m, 's, 't>(
    measure: Measure<'_, 's, 't>,
    of: TypeIn<'m, 's, 't>,
) -> Measure<'m, 's, 't>
    ensures value { measure_seen result ≡ measure_of (measure_seen measure.entry) (type_in of.entry) }
    ensures within { (n : ℕ) → of.entry.«module» < n → IsMeasureWithin n result }
{
    match measure {
        Measure::Number(_) => Measure::Number(Some(of)),
        Measure::Size => Measure::Size,
    }
}

/// A type's own constraints, and what they measure.
#[tactic(auto, using(oer_module_syntax::proofs::Trees::trees))]
pub fn own<'m, 's, 't>(
    measure: Measure<'_, 's, 't>,
    of: TypeIn<'m, 's, 't>,
) -> Result<(Measure<'m, 's, 't>, &'s [Spot<'t>]), Error<'t>>
    ensures value { seen (λ x. (measure_seen x.0, spots_of x.1.now)) result ≡ own (measure_seen measure.entry) (type_in of.entry) }
    ensures within { (n : ℕ) → of.entry.«module» < n → IfOk result (λ x. IsMeasureWithin n x.0) }
{
    match (measure, of.syntax) {
        (
            Measure::Number(_),
            TypeSyntax::Plain {
                builtin: Builtin::Integer,
                constraints,
                ..
            },
        ) => Ok((Measure::Number(Some(of)), constraints)),
        (
            Measure::Size,
            TypeSyntax::Plain {
                builtin,
                constraints,
                ..
            },
        ) if has_size(*builtin) => Ok((Measure::Size, constraints)),
        (
            Measure::Size,
            TypeSyntax::ListOf {
                sized: true,
                size,
                ..
            },
        ) => { Ok((Measure::Number(None), size)) }
        (Measure::Size, TypeSyntax::ListOf { size, .. }) => Ok((Measure::Size, size)),
        _ => Err(Error {
            place: Place {
                module: of.module,
                at: place_of(of.syntax),
            },
            why: Why::Inapplicable,
        }),
    }
}
