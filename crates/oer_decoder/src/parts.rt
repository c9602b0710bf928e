//! What surrounds the parts of a value: presence, tags, numbers of elements, and parts that the
//! type doesn't know.
ghost use Rattle.std.specs.Prelude.{◌≡◌, ◌≤◌, IfOk, MatchResult, drop, length, map};
ghost use Rattle.oer_units.specs.declared.fault.Why.TheVariants.{Memory};
ghost use Rattle.oer_units.specs.Reads.{state};
ghost use Rattle.oer_model.specs.Bits.{first_bit, later_bits};
ghost use Rattle.oer_model.specs.Fits.{all_absent};
ghost use Rattle.oer_model.specs.Limits.{addition_places};
ghost use Rattle.oer_model.specs.Reading.{read_unknown as unknown_read};
ghost use Rattle.oer_values.specs.ShapeView.{additions_of, need_of};
ghost use Rattle.oer_values.specs.ValueView.{places_of, unknown_of, value_of};
ghost use Rattle.oer_decoder.specs.Choices.{foreign_at};
ghost use Rattle.oer_model.specs.SharedSteps.{bits_left, is_there};
ghost use Rattle.oer_decoder.specs.Places.{count_at};
ghost use Rattle.oer_decoder.specs.Stops.{ReadsAs, same};

use crate::stop::Stop;
use crate::strings::counted_octets;
use oer_types::{Addition, Need, Size, Unknown, Value};
use oer_units::{Source, Tag, Why, Window, unsigned_counted};
use std::alloc::{AllocError, Global};
use std::mem;

/// The first bit, false where there is none.
pub(crate) fn first(bits: &[bool]) -> bool
    ensures { result ≡ first_bit bits.now }
{
    match bits {
        [bit, ..] => *bit,
        [] => false,
    }
}

/// The bits after the first.
pub(crate) fn after(bits: &[bool]) -> &[bool]
    ensures { result.now ≡ later_bits bits.now }
{
    match bits {
        [_, rest @ ..] => rest,
        [] => bits,
    }
}

/// Whether a component is there, and the bits of those after it.
pub(crate) fn presence<'a>(need: &Need, bits: &'a [bool]) -> (bool, &'a [bool])
    ensures there { result.0 ≡ is_there (need_of need.now) bits.now }
    ensures left { result.1.now ≡ bits_left (need_of need.now) bits.now }
{
    match need {
        Need::Must => (true, bits),
        Need::May => (first(bits), after(bits)),
        Need::Default(_) => (first(bits), after(bits)),
    }
}

/// How many elements follow (X.696, 17): a quantity that is not above what is left, and that the
/// size allows.
pub(crate) fn count<R: Source>(size: Size, w: &mut Window<R>) -> Result<u64, Stop>
    ensures { ReadsAs (count_at size) (state R.loan R.remaining R.failed w.old) same result
        (state R.loan R.remaining R.failed w.new) }
{
    let quantity = unsigned_counted(w)?;
    let count = w.allow(quantity.unsigned_abs())?;
    if !size.allows(u128::from(count)) {
        return Err(Stop { why: Why::Size });
    }
    Ok(count)
}

/// A place without a value for each addition.
#[inline(always)]
pub(crate) fn absent_places(
    alloc: Global,
    additions: &[Addition],
) -> Result<Vec<Option<Value>>, AllocError>
    ensures { IfOk result (λ v. places_of v.items ≡ all_absent (additions_of additions.now)) }
{
    let mut places = Vec::with_capacity(alloc, additions.len())?;
    for addition in additions {
        places.push_reserved(None);
    }
    Ok(places)
}

/// The additions from the place on that the type doesn't know, each as the octets of its open type
/// (X.696, 30).
pub(crate) fn read_unknown<R: Source>(
    alloc: Global,
    bits: &[bool],
    known: usize,
    w: &mut Window<R>,
) -> Result<Vec<Unknown>, Stop>
    requires { length bits.now ≤ addition_places }
    ensures { ReadsAs (unknown_read known (drop known bits.now)) (state R.loan R.remaining R.failed w.old)
        (λ v. map unknown_of v.items) result (state R.loan R.remaining R.failed w.new) }
{
    let mut unknown = Vec::new(alloc);
    for place in known..bits.len() {
        if !bits[place] {
            continue;
        }
        let octets = counted_octets(alloc, w)?;
        let addition = Unknown {
            place: place as u16,
            octets,
        };
        if unknown.push(addition).is_err() {
            return Err(Stop { why: Why::Memory });
        }
    }
    Ok(unknown)
}

/// Puts a value into a place that holds NULL. What was there is not dropped: NULL owns no memory, and
/// to find out what to drop costs as much as to read a short value.
#[inline(always)]
pub(crate) fn set(place: &mut Value, value: Value)
    requires { place.old ≡ Value.Null }
    ensures { place.new ≡ value }
{
    mem::forget(mem::replace(place, value));
}

/// A place for a value in memory of its own, which holds NULL.
pub(crate) fn own_place(alloc: Global) -> Result<Box<Value>, Stop>
    ensures { MatchResult result (λ place. place.value ≡ Value.Null) (λ e. e.why ≡ Memory) }
{
    match Box::new(alloc, Value::Null) {
        Ok(place) => Ok(place),
        Err(_) => Err(Stop { why: Why::Memory }),
    }
}

/// Reads an alternative that the type doesn't know into `value`, as the octets of its open type (X.696,
/// 20).
pub(crate) fn set_foreign<R: Source>(
    alloc: Global,
    tag: Tag,
    value: &mut Value,
    w: &mut Window<R>,
) -> Result<(), Stop>
    requires { value.old ≡ Value.Null }
    ensures { ReadsAs (foreign_at tag) (state R.loan R.remaining R.failed w.old) (λ _. value_of value.new) result
        (state R.loan R.remaining R.failed w.new) }
{
    let octets = counted_octets(alloc, w)?;
    set(value, Value::Foreign { tag, octets });
    Ok(())
}
