//! Types without parts.
ghost use Rattle.std.specs.Prelude.{◌≡◌};
ghost use Rattle.oer_model.specs.Checking.{check_value};
ghost use Rattle.oer_values.specs.ShapeView.{type_of};
ghost use Rattle.oer_checker.specs.Facts.{IsLeaf};
ghost use Rattle.oer_checker.specs.Places.{outcome, place_of, same};

use crate::bit_strings::check_bit_string;
use crate::cursor::Cursor;
use crate::numbers::{check_boolean, check_enumerated, check_integer};
use crate::stop::Stop;
use crate::strings::{check_object_id, check_octet_string, check_text, check_utf8};
use oer_types::{Alphabet, Shape};

/// The encoding of a value of a type without parts, and whether it is canonical.
#[tactic(auto, using(crate::proofs::Shapes::shapes))]
#[inline(always)]
pub fn check_leaf(shape: &Shape, at: &mut Cursor) -> Result<bool, Stop>
    requires { IsLeaf (type_of shape.now) }
    ensures { outcome same result at.new ≡ check_value (type_of shape.now) (place_of at.old) }
{
    match shape {
        Shape::Boolean => check_boolean(at),
        Shape::Null => Ok(true),
        Shape::Integer { low, high } => check_integer(*low, *high, at),
        Shape::Enumerated { items, extensible } => check_enumerated(items, *extensible, at),
        Shape::BitString(size) => check_bit_string(size, at),
        Shape::OctetString(size) => check_octet_string(size, at),
        Shape::ObjectId => check_object_id(at),
        Shape::Ia5(size) => check_text(Alphabet::Ia5, size, at),
        Shape::Visible(size) => check_text(Alphabet::Visible, size, at),
        Shape::Numeric(size) => check_text(Alphabet::Numeric, size, at),
        Shape::Printable(size) => check_text(Alphabet::Printable, size, at),
        Shape::Utf8(size) => check_utf8(size, at),
        Shape::SequenceOf { .. } => unreachable!(),
        Shape::Sequence { .. } => unreachable!(),
        Shape::Choice { .. } => unreachable!(),
    }
}
