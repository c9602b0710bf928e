//! OCTET STRING, character strings and OBJECT IDENTIFIER.
ghost use Rattle.std.specs.Prelude.{◌≡◌, ◌≤◌, MatchOption, OnOk, false, length, true};
ghost use Rattle.std.specs.Str.{chars, is_utf8};
ghost use Rattle.oer_units.specs.Least.{counted};
ghost use Rattle.oer_units.specs.Reading.{counted_octets};
ghost use Rattle.oer_model.specs.AsnType.{object_id, octet_string, restricted_string, utf8_string};
ghost use Rattle.oer_model.specs.Canonical.{string_octets};
ghost use Rattle.oer_model.specs.Checking.{check_subidentifiers as subidentifiers_checked, check_value, is_least, judged};
ghost use Rattle.oer_model.specs.Constraints.{fixed as fixed_size};
ghost use Rattle.oer_model.specs.Reading.{read_octets};
ghost use Rattle.oer_values.specs.AlphabetView.{alphabet_of};
ghost use Rattle.oer_checker.specs.Places.{outcome, place_of, same};
ghost use Rattle.oer_checker.specs.Steps.{between};

use crate::cursor::Cursor;
use crate::lengths::{counted_len, octets_between, sized_length_at};
use crate::stop::Stop;
use crate::units::{group_at, length_at, subidentifier_at};
use oer_types::{Alphabet, Size, are_characters};
use oer_units::Why;

// Whether what stands from one cursor to another is as long as so many octets after their length in
// its least form.
fn is_counted<'a>(from: Cursor<'a>, to: Cursor<'a>, octets: &[u8]) -> bool
    ensures { result ≡ is_least counted octets.now (between (place_of from.entry) (place_of to.entry)) }
{
    octets_between(from, to).len() as u128 == counted_len(octets.len() as u64)
}

// Octets, and whether the length before them is in its least form.
#[derive(Clone, Copy)]
struct Group<'a> {
    octets: &'a [u8],
    is_least: bool,
}

// A length, and so many octets; whether the length is in its least form.
fn counted_at<'a>(at: &mut Cursor<'a>) -> Result<Group<'a>, Stop>
    ensures { outcome (λ y. (y.octets.now, y.is_least)) result at.new ≡ judged (is_least counted) counted_octets (place_of at.old) }
{
    let start = *at;
    let count = length_at(at)?;
    let octets = group_at(at, count)?;
    let is_least = is_counted(start, *at, octets);
    Ok(Group { octets, is_least })
}

// As many octets as the one size says, or else as a length says that the size allows; whether the
// length is in its least form.
fn sized_octets<'a>(size: &Size, at: &mut Cursor<'a>) -> Result<Group<'a>, Stop>
    ensures { outcome (λ y. (y.octets.now, y.is_least)) result at.new ≡ judged (is_least (string_octets (fixed_size size.now))) (read_octets (fixed_size size.now) size.now) (place_of at.old) }
{
    if let Some(count) = size.fixed() {
        let octets = group_at(at, count)?;
        return Ok(Group {
            octets,
            is_least: true,
        });
    }
    let start = *at;
    let count = length_at(at)?;
    if !size.allows(u128::from(count)) {
        return Err(Stop { why: Why::Size });
    }
    let octets = group_at(at, count)?;
    let is_least = is_counted(start, *at, octets);
    Ok(Group { octets, is_least })
}

/// An OCTET STRING (X.696, 14).
pub(crate) fn check_octet_string(size: &Size, at: &mut Cursor) -> Result<bool, Stop>
    ensures { outcome same result at.new ≡ check_value (octet_string size.now) (place_of at.old) }
{
    let group = sized_octets(size, at)?;
    Ok(group.is_least)
}

/// A character string with one octet for each character (X.696, 27).
pub(crate) fn check_text(kind: Alphabet, size: &Size, at: &mut Cursor) -> Result<bool, Stop>
    ensures { outcome same result at.new ≡ check_value (restricted_string (alphabet_of kind) size.now) (place_of at.old) }
{
    let group = sized_octets(size, at)?;
    if !are_characters(kind, group.octets) {
        return Err(Stop {
            why: Why::Character,
        });
    }
    Ok(group.is_least)
}

/// A UTF8String (X.696, 27). Its size counts characters.
pub(crate) fn check_utf8(size: &Size, at: &mut Cursor) -> Result<bool, Stop>
    ensures { outcome same result at.new ≡ check_value (utf8_string size.now) (place_of at.old) }
{
    let group = counted_at(at)?;
    let Some(count) = characters_in(group.octets) else {
        return Err(Stop {
            why: Why::Character,
        });
    };
    if !size.allows(u128::from(count)) {
        return Err(Stop { why: Why::Size });
    }
    Ok(group.is_least)
}

// How many characters the octets are, where they are UTF-8.
fn characters_in(octets: &[u8]) -> Option<u64>
    ensures { MatchOption result (is_utf8 octets.now ≡ false)
        (λ count. (is_utf8 octets.now ≡ true) × (count ≡ length (chars octets.now))) }
{
    match std::str::from_utf8(octets) {
        Ok(text) => Some(characters_of(text)),
        Err(_) => None,
    }
}

fn characters_of(text: &str) -> u64
    ensures text { is_utf8 text.now ≡ true }
    ensures count { result ≡ length (chars text.now) }
{
    text.chars().count() as u64
}

/// An OBJECT IDENTIFIER (X.696, 21; X.690, 8.19).
pub(crate) fn check_object_id(at: &mut Cursor) -> Result<bool, Stop>
    ensures { outcome same result at.new ≡ check_value object_id (place_of at.old) }
{
    let counted = sized_length_at(at)?;
    if counted.count == 0 {
        return Err(Stop { why: Why::ObjectId });
    }
    let are_canonical = check_subidentifiers(counted.count, at)?;
    Ok(counted.is_least && are_canonical)
}

// The subidentifiers in so many octets.
fn check_subidentifiers(content: u64, at: &mut Cursor) -> Result<bool, Stop>
    requires { content ≤ at.old.left }
    ensures { outcome same result at.new ≡ subidentifiers_checked content content (place_of at.old) }
{
    let mut left = content;
    for turn in 0..content {
        if left == 0 {
            return Ok(true);
        }
        let taken = subidentifier_at(at, left)?;
        left = left.saturating_sub(taken);
    }
    Ok(true)
}
