//! Lists of BOOLEANs, of an octet each.
ghost use Rattle.std.specs.Prelude.{◌≡◌, ◌++◌, if◌then◌else◌, length, map};
ghost use Rattle.oer_units.specs.Reader.{times};
ghost use Rattle.oer_units.specs.Reads.{state};
ghost use Rattle.oer_model.specs.AsnType.{boolean};
ghost use Rattle.oer_model.specs.Reading.{read_value};
ghost use Rattle.oer_values.specs.ValueView.{value_of};
ghost use Rattle.oer_model.specs.Fits.{listed};
ghost use Rattle.oer_leaves.specs.Parts.{values_octets};
ghost use Rattle.oer_decoder.specs.Octets.{gathered};
ghost use Rattle.oer_decoder.specs.Recoding.{ReadsOne};
ghost use Rattle.oer_decoder.specs.Stops.{ReadsAs};

use crate::gathering::append;
use crate::numbers::truth;
use crate::octets::Octets;
use crate::stop::Stop;
use oer_types::Value;
use oer_units::{Source, Why, Window};
use std::alloc::Global;

/// So many BOOLEANs. Memory grows with those that came.
pub(crate) fn read_booleans<R: Source>(
    alloc: Global,
    count: u64,
    w: &mut Window<R>,
) -> Result<Vec<Value>, Stop>
    ensures { ReadsAs (times count (read_value boolean)) (state R.loan R.remaining R.failed w.old)
        (λ v. map value_of v.items) result (state R.loan R.remaining R.failed w.new) }
{
    let mut values = Vec::new(alloc);
    for i in 0..count {
        let is_true = truth(w)?;
        if values.push(Value::Bool(is_true)).is_err() {
            return Err(Stop { why: Why::Memory });
        }
    }
    Ok(values)
}

// The octet of a BOOLEAN (X.696, 9).
fn canonical_octet(is_true: bool) -> u8
    ensures { result ≡ (if is_true then 255 else 0) }
{
    if is_true { 255 } else { 0 }
}

/// Recodes so many BOOLEANs.
pub(crate) fn recode_booleans<R: Source>(
    count: u64,
    out: &mut Octets,
    w: &mut Window<R>,
) -> Result<(), Stop>
    ensures { ReadsOne (times count (read_value boolean)) (state R.loan R.remaining R.failed w.old) result
        (state R.loan R.remaining R.failed w.new) (λ _ vs. (length vs ≡ count) × (gathered out.new ≡ gathered out.old ++ values_octets boolean (listed vs))) }
{
    for i in 0..count {
        let is_true = truth(w)?;
        append(&[canonical_octet(is_true)], out)?;
    }
    Ok(())
}
