//! What holds of a type holds of its parts. These functions do nothing; their contracts say so.
ghost use Rattle.oer_model.specs.Constraints.{AdditionsKeepLimits, AlternativesKeepLimits, FieldsKeepLimits, KeepsLimits};
ghost use Rattle.oer_model.specs.Fits.{AdditionDefaultsFit, AlternativeDefaultsFit, DefaultFits, DefaultsFit, FieldDefaultsFit, Fits};
ghost use Rattle.oer_values.specs.ShapeView.{additions_of, fields_of, later_of, need_of, type_of};
ghost use Rattle.oer_checker.specs.Facts.{IsOne};

use oer_types::{Addition, Alt, Field};

/// A component of a root.
pub(crate) fn field_fits(fields: &[Field], field: &Field)
    requires one { IsOne fields.now field.now }
    requires limits { FieldsKeepLimits (fields_of fields.now) }
    requires defaults { FieldDefaultsFit (fields_of fields.now) }
    ensures limits { KeepsLimits (type_of field.now.shape) }
    ensures defaults { DefaultsFit (type_of field.now.shape) }
    ensures fits { DefaultFits (need_of field.now.need) (Fits (type_of field.now.shape)) }
{}

/// An addition.
pub(crate) fn addition_fits(additions: &[Addition], addition: &Addition)
    requires one { IsOne additions.now addition.now }
    requires limits { AdditionsKeepLimits (additions_of additions.now) }
    requires defaults { AdditionDefaultsFit (additions_of additions.now) }
    ensures limits { KeepsLimits (type_of addition.now.shape) }
    ensures defaults { DefaultsFit (type_of addition.now.shape) }
{}

/// An alternative after an extension marker.
pub(crate) fn later_fits(alternatives: &[Alt], alternative: &Alt)
    requires one { IsOne alternatives.now alternative.now }
    requires limits { AlternativesKeepLimits (later_of alternatives.now) }
    requires defaults { AlternativeDefaultsFit (later_of alternatives.now) }
    ensures limits { KeepsLimits (type_of alternative.now.shape) }
    ensures defaults { DefaultsFit (type_of alternative.now.shape) }
{}
