//! Readers of one unit each.
ghost use Rattle.std.specs.Prelude.{◌≡◌, ◌≤◌, ◌<◌, ◌-◌, ◌+◌, ◌*◌, ◌/◌, ◌^◌, false, drop, take, length, IfOk, OnOk, vec_len};
ghost use Rattle.oer_units.specs.Reader.{group};
ghost use Rattle.oer_units.specs.Numbers.{natural, signed, unsigned};
ghost use Rattle.oer_units.specs.Reading.{octet as octet_at, counted_length, counted_number, number as number_read, is_int128, is_int64, enumerated as enumerated_at, subidentifier as subidentifier_at, long_number, class_of, tag as tag_at};
ghost use Rattle.oer_units.specs.Fixed.{group_as, unsigned_fixed_at, signed_fixed_at};
ghost use Rattle.oer_units.specs.ReadingSteps.{long_length_at, digit as digit_of, size_after, twos_of_octets, IsOfForm, digits_within, base128_within};
ghost use Rattle.oer_units.specs.Reads.{Reads, Keeps, TakesNoMemory, seen, state, bound_of, left_of};

use crate::fault::{ReadFault, Why};
use crate::stream::Source;
use crate::tagging::{Class, Tag};
use crate::twos::Twos;
use crate::width::Width;
use crate::window::Window;
use std::alloc::{AllocError, Global};

/// The next octet.
pub fn octet<R: Source>(w: &mut Window<R>) -> Result<u8, ReadFault>
    ensures bound { Keeps (bound_of w.old) (bound_of w.new) }
    ensures memory { TakesNoMemory result }
    ensures one { OnOk result ((bound_of w.new).taken ≡ (bound_of w.old).taken + 1) }
    ensures reads { Reads octet_at (state R.loan R.remaining R.failed w.old) result
        (state R.loan R.remaining R.failed w.new) }
{
    w.allow(1)?;
    w.next()
}

// How many octets room is made for at once: at least, and at most.
const LEAST_ROOM: usize = 256;

const MOST_ROOM: usize = 2048;

// Makes room for some octets more, up to `most`: as many as there are, between these two numbers.
fn grow(octets: &mut Vec<u8>, most: usize) -> Result<(), AllocError>
    requires some { 0 < most }
    requires fits { vec_len octets.old + most < 2 ^ 64 }
    ensures more { OnOk result (vec_len octets.old < vec_len octets.new) }
    ensures most { OnOk result (vec_len octets.new ≤ vec_len octets.old + most) }
    ensures front { OnOk result (take (vec_len octets.old) octets.new.items ≡ octets.old.items) }
{
    let len = octets.len();
    let room = len.max(LEAST_ROOM).min(MOST_ROOM).min(most);
    octets.resize(len + room, 0)
}

// Fills the vector from this place on with the next octets.
fn fill_from<R: Source>(w: &mut Window<R>, octets: &mut Vec<u8>, at: usize) -> Result<(), ReadFault>
    requires within { at ≤ vec_len octets.old }
    requires room { vec_len octets.old - at ≤ left_of (bound_of w.old) }
    ensures bound { Keeps (bound_of w.old) (bound_of w.new) }
    ensures count { OnOk result ((bound_of w.new).taken ≡ (bound_of w.old).taken + (vec_len octets.old - at)) }
    ensures len { vec_len octets.new ≡ vec_len octets.old }
    ensures front { take at octets.new.items ≡ take at octets.old.items }
    ensures reads { Reads (group (vec_len octets.old - at)) (state R.loan R.remaining R.failed w.old)
        (seen (λ _. drop at octets.new.items) result) (state R.loan R.remaining R.failed w.new) }
{
    w.fill_all(&mut octets[at..])
}

/// The next `n` octets. Memory grows with what has come, so a number of octets that never come costs
/// nothing. It returns `Memory` if an allocation fails; no other reader of a unit allocates.
pub fn octets<R: Source>(alloc: Global, w: &mut Window<R>, n: u64) -> Result<Vec<u8>, ReadFault>
    ensures bound { Keeps (bound_of w.old) (bound_of w.new) }
    ensures count { IfOk result (λ v. vec_len v ≡ n) }
    ensures reads { Reads (group n) (state R.loan R.remaining R.failed w.old) (seen (λ v. v.items) result)
        (state R.loan R.remaining R.failed w.new) }
{
    w.allow(n as u128)?;
    let count = n as usize;
    let mut octets = Vec::new(alloc);
    while octets.len() < count {
        let at = octets.len();
        if grow(&mut octets, count - at).is_err() {
            return Err(w.fault(Why::Memory));
        }
        fill_from(w, &mut octets, at)?;
    }
    Ok(octets)
}

/// The next octets, as many as `into` holds. If it fails, it may be filled in part. Nothing is
/// allocated.
pub fn octets_into<R: Source>(w: &mut Window<R>, into: &mut [u8]) -> Result<(), ReadFault>
    ensures bound { Keeps (bound_of w.old) (bound_of w.new) }
    ensures memory { TakesNoMemory result }
    ensures reads { Reads (group (length into.old)) (state R.loan R.remaining R.failed w.old)
        (seen (λ _. into.new) result) (state R.loan R.remaining R.failed w.new) }
{
    w.allow(into.len() as u128)?;
    w.fill_all(into)
}

/// The number for which at most eight octets stand, the first being the most significant (X.696, 10.3).
pub fn unsigned_of(octets: &[u8]) -> u64
    requires { length octets.now ≤ 8 }
    ensures { result ≡ unsigned octets.now }
{
    let mut number = 0;
    for octet in octets {
        number = number * 256 + *octet as u64;
    }
    number
}

// What an octet adds to the size of a number: below 0 its complement.
fn digit(is_below: bool, octet: u8) -> u8
    ensures { result ≡ digit_of is_below octet }
{
    if is_below { 255 - octet } else { octet }
}

// The size of a number that goes on from `value` in a few octets.
fn few_of(octets: &[u8], is_below: bool, value: u64) -> u64
    requires few { length octets.now < 8 }
    requires value { value < 256 }
    ensures value { result ≡ size_after is_below value octets.now }
    ensures room { result + 1 ≤ (value + 1) * 256 ^ length octets.now }
{
    let mut size = value;
    for octet in octets {
        size = size * 256 + digit(is_below, *octet) as u64;
    }
    size
}

/// The number for which one to eight octets stand in two's complement, the first being the most
/// significant (X.696, 10.4).
pub fn signed_of(octets: &[u8]) -> i64
    requires some { 1 ≤ length octets.now }
    requires few { length octets.now ≤ 8 }
    ensures { result ≡ signed octets.now }
{
    let first = octets[0];
    let is_below = first >= 128;
    let start = digit(is_below, first) as u64;
    let size = few_of(&octets[1..], is_below, start) as u128;
    let number = Twos { is_below, size };
    number.narrow()
}

// The size of a number that goes on from `value` in these octets; `u128::MAX` for a greater one.
fn size_of(octets: &[u8], is_below: bool, value: u128) -> u128
    ensures value { result ≡ size_after is_below value octets.now }
    ensures room { result + 1 ≤ (value + 1) * 256 ^ length octets.now }
{
    if octets.len() < 8 && value < 256 {
        return few_of(octets, is_below, value as u64) as u128;
    }
    let mut size = value;
    for octet in octets {
        let more = digit(is_below, *octet) as u128;
        size = size.saturating_mul(256).saturating_add(more);
    }
    size
}

// How many octets of a number are read at once.
const AT_ONCE: usize = 16;

// The size of a number that goes on from `value` in a few octets, which are read at once.
fn short_size_from<R: Source>(
    w: &mut Window<R>,
    count: usize,
    is_below: bool,
    value: u128,
) -> Result<u128, ReadFault>
    requires few { count ≤ 16 }
    requires room { count ≤ left_of (bound_of w.old) }
    ensures bound { Keeps (bound_of w.old) (bound_of w.new) }
    ensures memory { TakesNoMemory result }
    ensures size { IfOk result (λ n. n + 1 ≤ (value + 1) * 256 ^ count) }
    ensures reads { Reads (group_as count (size_after is_below value)) (state R.loan R.remaining R.failed w.old) result
        (state R.loan R.remaining R.failed w.new) }
{
    let mut buffer = [0u8; AT_ONCE];
    let octets = &mut buffer[..count];
    w.fill_all(octets)?;
    Ok(size_of(octets, is_below, value))
}

// The size of a number that goes on from `value` in `count` octets; `u128::MAX` for a greater one.
fn size_from<R: Source>(
    w: &mut Window<R>,
    count: u64,
    is_below: bool,
    value: u128,
) -> Result<u128, ReadFault>
    requires { count ≤ left_of (bound_of w.old) }
    ensures bound { Keeps (bound_of w.old) (bound_of w.new) }
    ensures memory { TakesNoMemory result }
    ensures size { IfOk result (λ n. n + 1 ≤ (value + 1) * 256 ^ count) }
    ensures reads { Reads (group_as count (size_after is_below value)) (state R.loan R.remaining R.failed w.old) result
        (state R.loan R.remaining R.failed w.new) }
{
    if count <= AT_ONCE as u64 {
        return short_size_from(w, count as usize, is_below, value);
    }
    let mut size = value;
    for _step in 0..count {
        let octet = w.next()?;
        let more = digit(is_below, octet) as u128;
        size = size.saturating_mul(256).saturating_add(more);
    }
    Ok(size)
}

// The number for which the next `count` octets stand; `u128::MAX` for a greater one.
fn number<R: Source>(w: &mut Window<R>, count: u64) -> Result<u128, ReadFault>
    ensures bound { Keeps (bound_of w.old) (bound_of w.new) }
    ensures memory { TakesNoMemory result }
    ensures size { IfOk result (λ n. n < 256 ^ count) }
    ensures reads { Reads (group_as count (size_after false 0)) (state R.loan R.remaining R.failed w.old) result
        (state R.loan R.remaining R.failed w.new) }
{
    w.allow(count as u128)?;
    size_from(w, count, false, 0)
}

// The number for which the next `count` octets stand in two's complement.
fn twos<R: Source>(w: &mut Window<R>, count: u64) -> Result<Twos, ReadFault>
    requires { 1 ≤ count }
    ensures bound { Keeps (bound_of w.old) (bound_of w.new) }
    ensures memory { TakesNoMemory result }
    ensures size { IfOk result (λ t. t.size + 1 ≤ 128 * 256 ^ (count - 1)) }
    ensures reads { Reads (group_as count twos_of_octets) (state R.loan R.remaining R.failed w.old) result
        (state R.loan R.remaining R.failed w.new) }
{
    w.allow(count as u128)?;
    let first = w.next()?;
    let is_below = first >= 128;
    let start = digit(is_below, first) as u128;
    let size = size_from(w, count - 1, is_below, start)?;
    Ok(Twos { is_below, size })
}

// The length for which the next `count` octets stand.
fn long_length<R: Source>(w: &mut Window<R>, count: u64) -> Result<u64, ReadFault>
    ensures bound { Keeps (bound_of w.old) (bound_of w.new) }
    ensures memory { TakesNoMemory result }
    ensures room { IfOk result (λ n. n ≤ left_of (bound_of w.new)) }
    ensures reads { Reads (long_length_at count) (state R.loan R.remaining R.failed w.old) result
        (state R.loan R.remaining R.failed w.new) }
{
    let length = number(w, count)?;
    w.allow(length)
}

/// A length determinant (X.696, 8.6): the length, in octets or elements, which is not above what is
/// left after it. A first octet `80` is rejected with `LengthForm`, and a length above what is
/// left with `Window` in an open type and with `Limit` outside one.
pub fn length<R: Source>(w: &mut Window<R>) -> Result<u64, ReadFault>
    ensures bound { Keeps (bound_of w.old) (bound_of w.new) }
    ensures memory { TakesNoMemory result }
    ensures room { IfOk result (λ n. n ≤ left_of (bound_of w.new)) }
    ensures reads { Reads counted_length (state R.loan R.remaining R.failed w.old) result
        (state R.loan R.remaining R.failed w.new) }
{
    let first = octet(w)?;
    if first < 128 {
        w.allow(first as u128)
    } else if first == 0x80 {
        Err(w.fault(Why::LengthForm))
    } else {
        long_length(w, (first - 128) as u64)
    }
}

// How many octets a number of fixed size has at most.
const MOST_FIXED: usize = 8;

/// An unsigned number of fixed size (X.696, 10.3).
pub fn unsigned_fixed<R: Source>(w: &mut Window<R>, width: Width) -> Result<u64, ReadFault>
    ensures bound { Keeps (bound_of w.old) (bound_of w.new) }
    ensures memory { TakesNoMemory result }
    ensures reads { Reads (unsigned_fixed_at width) (state R.loan R.remaining R.failed w.old) result
        (state R.loan R.remaining R.failed w.new) }
{
    let mut buffer = [0u8; MOST_FIXED];
    let octets = &mut buffer[..width.octets()];
    octets_into(w, octets)?;
    Ok(unsigned_of(octets))
}

/// A number of fixed size in two's complement (X.696, 10.4).
pub fn signed_fixed<R: Source>(w: &mut Window<R>, width: Width) -> Result<i64, ReadFault>
    ensures bound { Keeps (bound_of w.old) (bound_of w.new) }
    ensures memory { TakesNoMemory result }
    ensures reads { Reads (signed_fixed_at width) (state R.loan R.remaining R.failed w.old) result
        (state R.loan R.remaining R.failed w.new) }
{
    let mut buffer = [0u8; MOST_FIXED];
    let octets = &mut buffer[..width.octets()];
    octets_into(w, octets)?;
    Ok(signed_of(octets))
}

/// An unsigned number after its count of octets (X.696, 10.3), with any number of zeros in front. A
/// count of 0 is rejected with `EmptyNumber`, and a number from 2^127 on with `IntegerRange`.
pub fn unsigned_counted<R: Source>(w: &mut Window<R>) -> Result<i128, ReadFault>
    ensures bound { Keeps (bound_of w.old) (bound_of w.new) }
    ensures memory { TakesNoMemory result }
    ensures reads { Reads (counted_number natural is_int128) (state R.loan R.remaining R.failed w.old) result
        (state R.loan R.remaining R.failed w.new) }
{
    let count = length(w)?;
    if count == 0 {
        return Err(w.fault(Why::EmptyNumber));
    }
    let value = number(w, count)?;
    if value <= i128::MAX as u128 {
        Ok(value as i128)
    } else {
        Err(w.fault(Why::IntegerRange))
    }
}

/// A number in two's complement after its count of octets (X.696, 10.4), with any number of sign octets
/// in front. A count of 0 is rejected with `EmptyNumber`, and a number outside 128 bits with
/// `IntegerRange`.
pub fn signed_counted<R: Source>(w: &mut Window<R>) -> Result<i128, ReadFault>
    ensures bound { Keeps (bound_of w.old) (bound_of w.new) }
    ensures memory { TakesNoMemory result }
    ensures reads { Reads (counted_number signed is_int128) (state R.loan R.remaining R.failed w.old) result
        (state R.loan R.remaining R.failed w.new) }
{
    let count = length(w)?;
    if count == 0 {
        return Err(w.fault(Why::EmptyNumber));
    }
    let number = twos(w, count)?;
    if number.size <= i128::MAX as u128 {
        Ok(number.wide())
    } else {
        Err(w.fault(Why::IntegerRange))
    }
}

// The number of an enumeration for which the next `count` octets stand.
fn long_enumerated<R: Source>(w: &mut Window<R>, count: u64) -> Result<i64, ReadFault>
    requires { 1 ≤ count }
    ensures bound { Keeps (bound_of w.old) (bound_of w.new) }
    ensures memory { TakesNoMemory result }
    ensures reads { Reads (number_read Why.EnumForm signed is_int64 count) (state R.loan R.remaining R.failed w.old) result
        (state R.loan R.remaining R.failed w.new) }
{
    let number = twos(w, count)?;
    if number.size <= i64::MAX as u128 {
        Ok(number.narrow())
    } else {
        Err(w.fault(Why::EnumForm))
    }
}

/// The number of an ENUMERATED (X.696, 11), in either form and with any number of sign octets in front.
/// A first octet `80`, and a number outside 64 bits, are rejected with `EnumForm`.
pub fn enumerated<R: Source>(w: &mut Window<R>) -> Result<i64, ReadFault>
    ensures bound { Keeps (bound_of w.old) (bound_of w.new) }
    ensures memory { TakesNoMemory result }
    ensures reads { Reads enumerated_at (state R.loan R.remaining R.failed w.old) result
        (state R.loan R.remaining R.failed w.new) }
{
    let first = octet(w)?;
    if first < 128 {
        Ok(first as i64)
    } else if first == 128 {
        Err(w.fault(Why::EnumForm))
    } else {
        long_enumerated(w, (first - 128) as u64)
    }
}

// The number that goes on from `high` in base 128, in `count` octets at most. Where it would go on
// from more than `most`, or its last octet is not its last, it is refused for this reason.
fn more_digits<R: Source>(
    w: &mut Window<R>,
    count: u64,
    high: u128,
    most: u128,
    why: Why,
) -> Result<u128, ReadFault>
    requires most { most < 2 ^ 121 }
    requires why { IsOfForm why }
    ensures bound { Keeps (bound_of w.old) (bound_of w.new) }
    ensures memory { TakesNoMemory result }
    ensures fits { IfOk result (λ n. n < (most + 1) * 128) }
    ensures reads { Reads (digits_within why ((most + 1) * 128) count high) (state R.loan R.remaining R.failed w.old)
        (seen (λ n. (n, (bound_of w.new).taken - (bound_of w.old).taken)) result) (state R.loan R.remaining R.failed w.new) }
{
    let mut number = high;
    for _step in 0..count {
        let octet = octet(w)?;
        if number > most {
            return Err(w.fault(why));
        }
        number = number * 128 + (octet % 128) as u128;
        if octet < 128 {
            return Ok(number);
        }
    }
    Err(w.fault(why))
}

// A leading digit 0, which no number has.
const LEADING_ZERO: u8 = 128;

// A number in base 128 without a leading zero digit, in `count` octets at most.
fn base128<R: Source>(
    w: &mut Window<R>,
    count: u64,
    most: u128,
    why: Why,
) -> Result<u128, ReadFault>
    requires some { 1 ≤ count }
    requires most { most < 2 ^ 121 }
    requires why { IsOfForm why }
    ensures bound { Keeps (bound_of w.old) (bound_of w.new) }
    ensures memory { TakesNoMemory result }
    ensures fits { IfOk result (λ n. n < (most + 1) * 128) }
    ensures reads { Reads (base128_within why ((most + 1) * 128) count) (state R.loan R.remaining R.failed w.old)
        (seen (λ n. (n, (bound_of w.new).taken - (bound_of w.old).taken)) result) (state R.loan R.remaining R.failed w.new) }
{
    let first = octet(w)?;
    if first < 128 {
        Ok(first as u128)
    } else if first == LEADING_ZERO {
        Err(w.fault(why))
    } else {
        more_digits(w, count - 1, (first - 128) as u128, most, why)
    }
}

/// A subidentifier (X.690, 8.19.2), read from `content` octets at most, below 2^128. It fails with
/// `ObjectId` at a first octet `80`, at the octet with which the number passes 2^128 - 1, and at the
/// last of the `content` octets where that has bit 8 set. (The number and how many octets it took are
/// what the reader on lists gives.)
pub fn subidentifier<R: Source>(w: &mut Window<R>, content: u64) -> Result<u128, ReadFault>
    requires some { 1 ≤ content }
    requires room { content ≤ left_of (bound_of w.old) }
    ensures bound { Keeps (bound_of w.old) (bound_of w.new) }
    ensures memory { TakesNoMemory result }
    ensures reads { Reads (subidentifier_at content) (state R.loan R.remaining R.failed w.old)
        (seen (λ n. (n, (bound_of w.new).taken - (bound_of w.old).taken)) result) (state R.loan R.remaining R.failed w.new) }
{
    base128(w, content, (1 << 121) - 1, Why::ObjectId)
}

// The number of a tag that stands after its first octet.
fn tag_number<R: Source>(w: &mut Window<R>) -> Result<u32, ReadFault>
    ensures bound { Keeps (bound_of w.old) (bound_of w.new) }
    ensures memory { TakesNoMemory result }
    ensures reads { Reads long_number (state R.loan R.remaining R.failed w.old) result
        (state R.loan R.remaining R.failed w.new) }
{
    let number = base128(w, 6, (1 << 25) - 1, Why::TagForm)?;
    if number < 63 {
        Err(w.fault(Why::TagForm))
    } else {
        Ok(number as u32)
    }
}

/// The class that bits 8 and 7 of a tag's first octet tell (X.696, 8.7.2).
pub fn class(first: u8) -> Class
    ensures { result ≡ class_of (first / 64) }
{
    match first / 64 {
        0 => Class::Universal,
        1 => Class::Application,
        2 => Class::Context,
        _ => Class::Private,
    }
}

/// A tag (X.696, 8.7.2). It fails with `TagForm` at a first further octet whose bits 7 to 1 are all
/// zero, at the octet that ends a number below 63, and at the octet with which the number passes
/// 2^32 - 1.
pub fn tag<R: Source>(w: &mut Window<R>) -> Result<Tag, ReadFault>
    ensures bound { Keeps (bound_of w.old) (bound_of w.new) }
    ensures memory { TakesNoMemory result }
    ensures reads { Reads tag_at (state R.loan R.remaining R.failed w.old) result
        (state R.loan R.remaining R.failed w.new) }
{
    let first = octet(w)?;
    let class = class(first);
    if first % 64 < 63 {
        return Ok(Tag {
            class,
            number: (first % 64) as u32,
        });
    }
    let number = tag_number(w)?;
    Ok(Tag { class, number })
}
