//! Lists of BOOLEANs, of an octet each.
ghost use Rattle.std.specs.Prelude.{◌≡◌};
ghost use Rattle.oer_model.specs.AsnType.{boolean};
ghost use Rattle.oer_model.specs.Checking.{check_times, check_value};
ghost use Rattle.oer_checker.specs.Places.{outcome, place_of, same};

use crate::cursor::Cursor;
use crate::numbers::check_boolean;
use crate::stop::Stop;

/// So many BOOLEANs.
pub(crate) fn check_booleans(count: u64, at: &mut Cursor) -> Result<bool, Stop>
    ensures { outcome same result at.new ≡ check_times count (check_value boolean) (place_of at.old) }
{
    let mut is_canonical = true;
    for turn in 0..count {
        let is_element = check_boolean(at)?;
        is_canonical = is_canonical && is_element;
    }
    Ok(is_canonical)
}
