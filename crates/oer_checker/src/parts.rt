//! What surrounds the parts of a value: presence, defaults, and parts that the type doesn't
//! know.
ghost use Rattle.std.specs.Prelude.{◌≡◌, drop};
ghost use Rattle.oer_model.specs.Checking.{check_unknown as unknown_checked};
ghost use Rattle.oer_model.specs.Constraints.{KeepsLimits};
ghost use Rattle.oer_model.specs.Fits.{DefaultFits, Fits};
ghost use Rattle.oer_values.specs.ShapeView.{need_of, type_of};
ghost use Rattle.oer_checker.specs.BitView.{IsWhole, bits_in};
ghost use Rattle.oer_checker.specs.Places.{outcome, place_of, same};
ghost use Rattle.oer_model.specs.SharedSteps.{bits_left, is_there};
ghost use Rattle.oer_checker.specs.Steps.{is_default as is_default_in};

use crate::bits::Bits;
use crate::cursor::Cursor;
use crate::lengths::check_octets;
use crate::stop::Stop;
use oer_types::{Field, Need, laws};
use oer_writer::parts::equals;

/// Whether a component is there, and the bits of those after it.
pub fn presence<'a>(need: &Need, bits: Bits<'a>) -> (bool, Bits<'a>)
    ensures there { result.0 ≡ is_there (need_of need.now) (bits_in bits.entry) }
    ensures left { bits_in result.1 ≡ bits_left (need_of need.now) (bits_in bits.entry) }
{
    match need {
        Need::Must => (true, bits),
        Need::May => (bits.first(), bits.later()),
        Need::Default(_) => (bits.first(), bits.later()),
    }
}

/// Whether the octets are the canonical octets of the component's default.
pub(crate) fn is_default(field: &Field, octets: &[u8]) -> bool
    requires limits { KeepsLimits (type_of field.now.shape) }
    requires fits { DefaultFits (need_of field.now.need) (Fits (type_of field.now.shape)) }
    ensures { result ≡ is_default_in (need_of field.now.need) (type_of field.now.shape) octets.now }
{
    laws::computed_octets();
    match &field.need {
        Need::Must | Need::May => false,
        Need::Default(value) => equals(&field.shape, value, octets),
    }
}

/// The additions that the type doesn't know, of which there are `known`: each as the octets of its
/// open type (X.696, 30).
pub fn check_unknown<'a>(bits: Bits<'a>, known: usize, at: &mut Cursor) -> Result<bool, Stop>
    requires { IsWhole bits }
    ensures { outcome same result at.new ≡ unknown_checked (drop known (bits_in bits.entry)) (place_of at.old) }
{
    let mut is_canonical = true;
    for index in known as u64..bits.to {
        if !bits.bit(index) {
            continue;
        }
        let is_addition = check_octets(at)?;
        is_canonical = is_canonical && is_addition;
    }
    Ok(is_canonical)
}
