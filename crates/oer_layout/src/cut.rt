//! Texts for which a column has no room.
ghost use Rattle.std.specs.Prelude.{◌≡◌, IfOk, string_bytes};
ghost use Rattle.oer_layout.specs.Layout.{beside_mark, cut_names, cut_value, kept_of, left_out, names_left};

use crate::columns::digits_of;
use oer_places::{push_first, push_last};
use std::alloc::{AllocError, Global};
use std::fmt::Write as _;

// How many characters stand beside the mark of what is left out, which is as long as that of `most`.
fn beside_mark(room: usize, most: usize) -> usize
    ensures { result ≡ beside_mark room most }
{
    room.saturating_sub(digits_of(most)).saturating_sub(3)
}

// How many characters of names are left out.
fn names_left(names: &str, room: usize) -> usize
    ensures { result ≡ names_left room names.now }
{
    let count = names.len();
    count.saturating_sub(beside_mark(room, count))
}

/// Names of which only so many characters have room: the last, after the number of those left out.
pub(crate) fn cut_names(alloc: Global, names: &str, room: usize) -> Result<String, AllocError>
    ensures { IfOk result (λ text. string_bytes text ≡ cut_names room names.now) }
{
    let left = names_left(names, room);
    let mut text = format!(in alloc; "+{left}..")?;
    push_last(&mut text, names, left)?;
    Ok(text)
}

// How many characters of a value are kept beside the mark. Digits are kept in whole octets, behind the
// quotation mark.
fn kept_of(is_digits: bool, value: &str, room: usize) -> usize
    ensures { result ≡ kept_of is_digits room value.now }
{
    let kept = beside_mark(room, value.len());
    if is_digits && kept % 2 == 0 {
        return kept.saturating_sub(1);
    }
    kept
}

// How many octets of a value are left out where so many are shown. The quotation mark at the end is none
// of them.
fn left_out(is_digits: bool, value: &str, shown: usize) -> usize
    ensures { result ≡ left_out is_digits value.now shown }
{
    let left = value.len().saturating_sub(shown);
    let left = if value.starts_with('"') {
        left.saturating_sub(1)
    } else {
        left
    };
    if is_digits { left / 2 } else { left }
}

/// A value of which only so many characters have room: the first, and how many octets are left out.
pub(crate) fn cut_value(
    alloc: Global,
    is_digits: bool,
    value: &str,
    room: usize,
) -> Result<String, AllocError>
    ensures { IfOk result (λ text. string_bytes text ≡ cut_value is_digits room value.now) }
{
    let mut text = String::new(alloc);
    push_first(&mut text, value, kept_of(is_digits, value, room))?;
    let left = left_out(is_digits, value, text.len());
    text.push_str("..+")?;
    write!(text, "{left}")?;
    Ok(text)
}
