//! What is said of octets that a type rejects: their rows, and what is wrong.
ghost use Rattle.std.specs.Prelude.{◌≡◌, IfOk, IfSome, None, is_some, option_map, string_bytes};
ghost use Rattle.oer_types.specs.Schema.{the_type};
ghost use Rattle.oer_entries.specs.Places.{IsPlace, is_rejected};
ghost use Rattle.oer_explain.specs.Octets.{AreRowsSaid, IsRows, IsSaid, SaysChecked, SaysOf, check_why, indented, is_limit, margin, place_lines, spot_of};
ghost use Rattle.oer_explain.specs.OctetsWords.{octets_line};

use crate::json_path::at_line;
use crate::octets_words::octets_line;
use oer_entries::Place;
use oer_layout::print_lines;
use oer_reader::check;
use oer_types::Schema;
use oer_units::Why;
use std::alloc::{AllocError, Global};

// How many characters a line of the rows has at most.
const WIDTH: u64 = 100;

fn margin(is_start: bool) -> &'static str
    ensures { result.now ≡ margin is_start }
{
    if is_start { "  " } else { "" }
}

// Lines, each behind two spaces.
fn indented(alloc: Global, lines: &[u8]) -> Result<Vec<u8>, AllocError>
    ensures { IfOk result (λ text. text.items ≡ indented lines.now) }
{
    let mut text = Vec::new(alloc);
    let mut is_start = true;
    for octet in lines {
        text.extend_from_slice(margin(is_start).as_bytes())?;
        text.push(*octet)?;
        is_start = *octet == b'\n';
    }
    Ok(text)
}

// Whether the octets would pass the limit, so that they have no rows up to there.
fn is_limit(why: Why) -> bool
    ensures { result ≡ is_limit why }
{
    matches!(why, Why::Limit)
}

// The line alone.
fn limit_notes(alloc: Global, why: Why) -> Result<Vec<u8>, AllocError>
    ensures { IfOk result (λ notes. notes.items ≡ octets_line why None) }
{
    let line = octets_line(alloc, why, None)?;
    let mut notes = Vec::new(alloc);
    notes.extend_from_slice(line.as_bytes())?;
    Ok(notes)
}

// The rows, and the part that was being read when the octets were rejected.
fn rows_of<'s>(
    alloc: Global,
    schema: &'s Schema,
    octets: &'s [u8],
) -> Result<(Vec<u8>, Option<Place<'s>>), AllocError>
    ensures rows { IfOk result (λ found. IsRows (the_type schema.now) octets.now found.0.items) }
    ensures place { IfOk result (λ found. IfSome found.1 (IsPlace (the_type schema.now))) }
    ensures rejected { IfOk result (λ found. is_some found.1 ≡ is_rejected (the_type schema.now) octets.now) }
{
    let mut lines = Vec::new(alloc);
    let place = match print_lines(alloc, schema, octets, WIDTH, &mut lines) {
        Ok(place) => place,
        Err(_) => return Err(AllocError),
    };
    let rows = indented(alloc, lines.as_slice())?;
    Ok((rows, place))
}

// The line of the place, and the one of what is wrong there.
fn place_lines(alloc: Global, why: Why, place: Option<Place<'_>>) -> Result<String, AllocError>
    ensures { IfOk result (λ lines. string_bytes lines ≡ place_lines why (option_map spot_of place.entry)) }
{
    match place {
        Some(place) => {
            let at = at_line(alloc, place.names.as_str())?;
            let line = octets_line(alloc, why, place.shape)?;
            format!(in alloc; "{at}{line}")
        }
        None => octets_line(alloc, why, None),
    }
}

// The rows of octets that are rejected for this reason, and what is wrong.
fn rows_notes(
    alloc: Global,
    schema: &Schema,
    octets: &[u8],
    why: Why,
) -> Result<Vec<u8>, AllocError>
    ensures { IfOk result (λ notes. AreRowsSaid why (the_type schema.now) octets.now notes.items) }
{
    let (rows, place) = rows_of(alloc, schema, octets)?;
    let lines = place_lines(alloc, why, place)?;
    let mut notes = rows;
    notes.extend_from_slice(lines.as_bytes())?;
    Ok(notes)
}

// What is said of octets that are rejected for this reason.
fn why_notes(alloc: Global, schema: &Schema, octets: &[u8], why: Why) -> Result<Vec<u8>, AllocError>
    ensures { IfOk result (λ notes. IsSaid (is_limit why) why (the_type schema.now) octets.now notes.items) }
{
    if is_limit(why) {
        return limit_notes(alloc, why);
    }
    rows_notes(alloc, schema, octets, why)
}

/// What is said of octets that the type rejects for this reason: their rows, the part that was being read, and what is wrong with it; nothing
/// without a reason. It fails where an allocation does.
pub fn octets_notes(
    alloc: Global,
    schema: &Schema,
    octets: &[u8],
    why: Option<Why>,
) -> Result<Vec<u8>, AllocError>
    ensures { IfOk result (λ notes. SaysOf (the_type schema.now) octets.now why notes.items) }
{
    match why {
        Some(why) => why_notes(alloc, schema, octets, why),
        None => Ok(Vec::new(alloc)),
    }
}

/// Why `check` rejects the octets; none where it doesn't.
pub fn check_why(schema: &Schema, octets: &[u8]) -> Option<Why>
    ensures { result ≡ check_why (the_type schema.now) octets.now }
{
    match check(schema, octets) {
        Ok(_) => None,
        Err(fault) => Some(fault.why),
    }
}

/// What is said of octets that `check` rejects, as `octets_notes` does; nothing where it accepts them. It fails where an allocation does.
pub fn check_notes(alloc: Global, schema: &Schema, octets: &[u8]) -> Result<Vec<u8>, AllocError>
    ensures { IfOk result (λ notes. SaysChecked (the_type schema.now) octets.now notes.items) }
{
    octets_notes(alloc, schema, octets, check_why(schema, octets))
}
