//! The range of an INTEGER, and that of sizes.
ghost use Rattle.std.specs.Prelude.{◌≡◌, ◌<◌, length, map};
ghost use Rattle.oer_module_bounds.specs.Sets.{constraint_of, span_of};
ghost use Rattle.oer_module_names.specs.Views.{modules_in};
ghost use Rattle.oer_module_values.specs.Views.{meaning_of, type_in};
ghost use Rattle.oer_module_limits.specs.Errors.{Gives};
ghost use Rattle.oer_module_limits.specs.Limits.{integer_range, is_fixed, is_from, is_to, range_of, same_form, same_octets, same_sizes, serially, signed_octets, size_limits, size_range, type_place, unsigned_octets};
ghost use Rattle.oer_module_limits.specs.Views.{IsMeasureWithin, IsWithin, measure_seen};

use crate::error::{Error, Why};
use crate::measure::Measure;
use crate::sets::constraints_of;
use oer_module_bounds::{Constraint, Range, effective_range, loose_effective_range};
use oer_module_names::{Names, Place};
use oer_module_values::{Meaning, TypeIn, place_of, resolve};
use std::alloc::Global;

/// How many levels of sets may nest.
const LEVELS: u8 = 255;

fn is_from(least: i128, low: Option<i128>) -> bool
    ensures { result ≡ is_from least low }
{
    match low {
        Some(low) => least <= low,
        None => false,
    }
}

fn is_to(greatest: i128, high: Option<i128>) -> bool
    ensures { result ≡ is_to greatest high }
{
    match high {
        Some(high) => high <= greatest,
        None => false,
    }
}

/// In how many octets a number is that has no sign; 0 for as many as it takes.
fn unsigned_octets(high: Option<i128>) -> u8
    ensures { result ≡ unsigned_octets high }
{
    if is_to(255, high) {
        return 1;
    }
    if is_to(65535, high) {
        return 2;
    }
    if is_to(4294967295, high) {
        return 4;
    }
    if is_to(18446744073709551615, high) {
        return 8;
    }
    0
}

/// In how many octets a number with a sign is; 0 for as many as it takes.
fn signed_octets(low: Option<i128>, high: Option<i128>) -> u8
    ensures { result ≡ signed_octets low high }
{
    if is_from(-128, low) && is_to(127, high) {
        return 1;
    }
    if is_from(-32768, low) && is_to(32767, high) {
        return 2;
    }
    if is_from(-2147483648, low) && is_to(2147483647, high) {
        return 4;
    }
    if is_from(-9223372036854775808, low) && is_to(9223372036854775807, high) {
        return 8;
    }
    0
}

/// Whether numbers have the same octets under two ranges (X.696, 10).
fn same_form(one: Range, other: Range) -> bool
    ensures { result ≡ same_form (span_of one) (span_of other) }
{
    if is_from(0, one.low()) {
        return is_from(0, other.low())
            && unsigned_octets(one.high()) == unsigned_octets(other.high());
    }
    !is_from(0, other.low())
        && signed_octets(one.low(), one.high()) == signed_octets(other.low(), other.high())
}

/// Whether there is one size alone.
fn is_fixed(low: Option<i128>, high: Option<i128>) -> bool
    ensures { result ≡ is_fixed low high }
{
    match (low, high) {
        (_, None) => false,
        (None, Some(high)) => high == 0,
        (Some(low), Some(high)) => low == high,
    }
}

/// Whether values have the same octets under two ranges of their sizes (X.696, 13, 14, 17 and 27).
fn same_sizes(one: Range, other: Range) -> bool
    ensures { result ≡ same_sizes (span_of one) (span_of other) }
{
    if is_fixed(one.low(), one.high()) {
        return is_fixed(other.low(), other.high());
    }
    !is_fixed(other.low(), other.high())
}

/// Takes the extension marker from each constraint that another follows (X.680, 50.8).
fn apply_serially(constraints: &mut [Constraint])
    ensures { map constraint_of constraints.new ≡ serially (map constraint_of constraints.old) }
{
    let followed = constraints.len().saturating_sub(1);
    for at in 0..followed {
        constraints[at].extensible = false;
    }
}

fn type_place(of: TypeIn<'_, '_, '_>) -> Place
    ensures { result ≡ type_place (type_in of.entry) }
{
    Place {
        module: of.module,
        at: place_of(of.syntax),
    }
}

/// Whether values have the same octets under two ranges of what is measured.
fn same_octets(measure: Measure<'_, '_, '_>, one: Range, other: Range) -> bool
    ensures { result ≡ same_octets (measure_seen measure.entry) (span_of one) (span_of other) }
{
    match measure {
        Measure::Number(_) => same_form(one, other),
        Measure::Size => same_sizes(one, other),
    }
}

/// The range of what is measured, of what the type at `place` stands for.
#[tactic(auto, unfolding(crate::specs::Limits::range_of))]
fn range_of<'m, 's, 't>(
    alloc: Global,
    names: &Names<'m, 's, 't>,
    measure: Measure<'m, 's, 't>,
    place: Place,
    meaning: &Meaning<'m, 's, 't>,
) -> Result<Range, Error<'t>>
    requires measure { IsMeasureWithin (length (modules_in names.now)) measure }
    requires meaning { IsWithin (modules_in names.now) meaning.now }
    ensures { Gives span_of result (range_of (modules_in names.now) (measure_seen measure.entry) place (meaning_of meaning.now)) }
{
    let mut constraints = constraints_of(alloc, names, LEVELS, measure, meaning)?;
    let widest = loose_effective_range(&constraints);
    apply_serially(&mut constraints);
    let Some(range) = effective_range(alloc, &constraints)? else {
        return Err(Error {
            place,
            why: Why::Empty,
        });
    };
    match widest {
        Some(widest) if same_octets(measure, range, widest) => Ok(range),
        _ => Err(Error {
            place,
            why: Why::Differs,
        }),
    }
}

/// The range of the numbers that an INTEGER allows for which the type at `place` stands (X.680, 49 to 51): of all
/// constraints on the way together. An absent end is no bound. A constraint with an extension marker bounds nothing (X.696,
/// 8.2), unless another follows: then it bounds as if it had none (X.680, 50.8). A general one bounds nothing. A marker behind
/// SIZE is the constraint's.
///
/// # Errors
/// Unresolved, where a name stands for nothing, tokens can't be read, or an allocation failed. Inapplicable, if the type is none, or at
/// elements that an INTEGER hasn't: SIZE, FROM, PATTERN, SETTINGS and WITH COMPONENTS (X.680, 51.1). NotANumber and TooLarge at a
/// value, OpenEnd at `<` beside MIN or MAX. TooDeep, Contained and ValueSet at what isn't read. Then Empty, if no number is
/// allowed. Then Differs, if the sign or the width of the octets (X.696, 10) depends on whether EXCEPT bounds, or whether
/// constraints do that have a marker and are followed, which other readers ignore: `(0..10, ...) (0..5)` has the range
/// 0..5, and `(0..10, ...) (0..70000)` is refused. Both are told of at `place`.
pub fn integer_range<'m, 's, 't>(
    alloc: Global,
    names: &Names<'m, 's, 't>,
    place: Place,
    meaning: &Meaning<'m, 's, 't>,
) -> Result<Range, Error<'t>>
    requires { IsWithin (modules_in names.now) meaning.now }
    ensures { Gives span_of result (integer_range (modules_in names.now) place (meaning_of meaning.now)) }
{
    range_of(alloc, names, Measure::Number(None), place, meaning)
}

/// The range of the sizes that a string, a SEQUENCE OF or a SET OF allows for which the type at `place` stands (X.680,
/// 51.5). An absent lower end is 0, an absent upper one no bound. What is not about sizes bounds nothing, and takes
/// nothing away behind EXCEPT.
///
/// # Errors
/// Those of `integer_range`, in the same order. Inapplicable, if the values of the type have no sizes, or at a range of
/// texts. Differs, if it depends on the same that there is one size alone (X.696, 13, 14, 17 and 27). Differs too, before
/// Empty, at a constraint in which SIZE with a marker stands beside other elements: whether the whole has a marker isn't
/// read.
pub fn size_range<'m, 's, 't>(
    alloc: Global,
    names: &Names<'m, 's, 't>,
    place: Place,
    meaning: &Meaning<'m, 's, 't>,
) -> Result<Range, Error<'t>>
    requires { IsWithin (modules_in names.now) meaning.now }
    ensures { Gives span_of result (size_range (modules_in names.now) place (meaning_of meaning.now)) }
{
    range_of(alloc, names, Measure::Size, place, meaning)
}

/// The range of the sizes of a type.
///
/// # Errors
/// Unresolved, where a name stands for nothing. Then those of `size_range`, at the type.
#[tactic(auto, unfolding(crate::specs::Limits::size_limits))]
pub fn size_limits<'m, 's, 't>(
    alloc: Global,
    names: &Names<'m, 's, 't>,
    of: TypeIn<'m, 's, 't>,
) -> Result<Range, Error<'t>>
    requires { of.«module» < length (modules_in names.now) }
    ensures { Gives span_of result (size_limits (modules_in names.now) (type_in of.entry)) }
{
    let meaning = resolve(alloc, names, of)?;
    size_range(alloc, names, type_place(of), &meaning)
}
