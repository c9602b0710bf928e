//! OCTET STRING, character strings and OBJECT IDENTIFIER.
ghost use Rattle.std.specs.Prelude.{◌≡◌, ◌≤◌, ◌-◌, ◌+◌, IfOk, MatchOption, false, true, length, string_bytes};
ghost use Rattle.std.specs.Str.{chars, is_utf8};
ghost use Rattle.oer_units.specs.Reading.{counted_octets as counted_octets_at, arcs_of as the_arcs, subidentifiers as subidentifiers_at};
ghost use Rattle.oer_units.specs.Reads.{bound_of, left_of, state};
ghost use Rattle.oer_model.specs.AsnType.{octet_string as octet_string_type, object_id as object_id_type, restricted_string, utf8_string};
ghost use Rattle.oer_model.specs.Constraints.{fixed as fixed_size};
ghost use Rattle.oer_model.specs.Reading.{read_octets, read_value};
ghost use Rattle.oer_values.specs.ValueView.{value_of};
ghost use Rattle.oer_values.specs.AlphabetView.{alphabet_of};
ghost use Rattle.oer_decoder.specs.Stops.{ReadsAs};

use crate::parts::set;
use crate::stop::Stop;
use oer_types::{Alphabet, Size, Value, are_characters};
use oer_units::{Source, Why, Window, length, octets, subidentifier};
use std::alloc::{AllocError, Global};

/// A length, and that many octets.
pub(crate) fn counted_octets<R: Source>(alloc: Global, w: &mut Window<R>) -> Result<Vec<u8>, Stop>
    ensures { ReadsAs counted_octets_at (state R.loan R.remaining R.failed w.old) (λ v. v.items) result
        (state R.loan R.remaining R.failed w.new) }
{
    let count = length(w)?;
    Ok(octets(alloc, w, count)?)
}

// As many octets as the one size says, or else as a length says that the size allows.
fn sized_octets<R: Source>(alloc: Global, size: &Size, w: &mut Window<R>) -> Result<Vec<u8>, Stop>
    ensures { ReadsAs (read_octets (fixed_size size.now) size.now) (state R.loan R.remaining R.failed w.old) (λ v. v.items) result
        (state R.loan R.remaining R.failed w.new) }
{
    if let Some(count) = size.fixed() {
        return Ok(octets(alloc, w, count)?);
    }
    let count = length(w)?;
    if !size.allows(u128::from(count)) {
        return Err(Stop { why: Why::Size });
    }
    Ok(octets(alloc, w, count)?)
}

/// Reads an OCTET STRING (X.696, 14) into `value`.
pub(crate) fn read_octet_string<R: Source>(
    alloc: Global,
    size: &Size,
    value: &mut Value,
    w: &mut Window<R>,
) -> Result<(), Stop>
    requires { value.old ≡ Value.Null }
    ensures { ReadsAs (read_value (octet_string_type size.now)) (state R.loan R.remaining R.failed w.old) (λ _. value_of value.new) result
        (state R.loan R.remaining R.failed w.new) }
{
    let octets = sized_octets(alloc, size, w)?;
    set(value, Value::Octets(octets));
    Ok(())
}

/// Reads a character string with one octet for each character (X.696, 27) into `value`.
pub(crate) fn read_text<R: Source>(
    alloc: Global,
    kind: Alphabet,
    size: &Size,
    value: &mut Value,
    w: &mut Window<R>,
) -> Result<(), Stop>
    requires { value.old ≡ Value.Null }
    ensures { ReadsAs (read_value (restricted_string (alphabet_of kind) size.now)) (state R.loan R.remaining R.failed w.old)
        (λ _. value_of value.new) result (state R.loan R.remaining R.failed w.new) }
{
    let octets = sized_octets(alloc, size, w)?;
    if !are_characters(kind, &octets) {
        return Err(Stop {
            why: Why::Character,
        });
    }
    let Some(text) = decoded(octets) else {
        return Err(Stop {
            why: Why::Character,
        });
    };
    set(value, Value::Text(text));
    Ok(())
}

/// Reads a UTF8String (X.696, 27) into `value`. Its size counts characters.
pub(crate) fn read_utf8<R: Source>(
    alloc: Global,
    size: &Size,
    value: &mut Value,
    w: &mut Window<R>,
) -> Result<(), Stop>
    requires { value.old ≡ Value.Null }
    ensures { ReadsAs (read_value (utf8_string size.now)) (state R.loan R.remaining R.failed w.old) (λ _. value_of value.new) result
        (state R.loan R.remaining R.failed w.new) }
{
    let octets = counted_octets(alloc, w)?;
    let Some(text) = decoded(octets) else {
        return Err(Stop {
            why: Why::Character,
        });
    };
    if !size.allows(u128::from(characters_in(text.as_str()))) {
        return Err(Stop { why: Why::Size });
    }
    set(value, Value::Text(text));
    Ok(())
}

// The octets as text, where they are UTF-8.
fn decoded(octets: Vec<u8>) -> Option<String>
    ensures { MatchOption result (is_utf8 octets.items ≡ false)
        (λ t. (is_utf8 octets.items ≡ true) × (string_bytes t ≡ octets.items)) }
{
    match String::from_utf8(octets) {
        Ok(text) => Some(text),
        Err(_) => None,
    }
}

fn characters_in(text: &str) -> u64
    ensures { result ≡ length (chars text.now) }
{
    text.chars().count() as u64
}

/// Reads an OBJECT IDENTIFIER (X.696, 21; X.690, 8.19) into `value`: its arcs.
pub(crate) fn read_object_id<R: Source>(
    alloc: Global,
    value: &mut Value,
    w: &mut Window<R>,
) -> Result<(), Stop>
    requires { value.old ≡ Value.Null }
    ensures { ReadsAs (read_value object_id_type) (state R.loan R.remaining R.failed w.old) (λ _. value_of value.new) result
        (state R.loan R.remaining R.failed w.new) }
{
    let content = length(w)?;
    if content == 0 {
        return Err(Stop { why: Why::ObjectId });
    }
    let numbers = subidentifiers(alloc, content, w)?;
    let Ok(arcs) = arcs_of(alloc, &numbers) else {
        return Err(Stop { why: Why::Memory });
    };
    set(value, Value::Oid(arcs));
    Ok(())
}

// The subidentifiers in so many octets.
fn subidentifiers<R: Source>(
    alloc: Global,
    content: u64,
    w: &mut Window<R>,
) -> Result<Vec<u128>, Stop>
    requires { content ≤ left_of (bound_of w.old) }
    ensures { ReadsAs (subidentifiers_at content content) (state R.loan R.remaining R.failed w.old) (λ v. v.items) result
        (state R.loan R.remaining R.failed w.new) }
{
    let mut numbers = Vec::new(alloc);
    let end = w.taken() + content;
    for turn in 0..content {
        if end <= w.taken() {
            return Ok(numbers);
        }
        let number = subidentifier(w, end - w.taken())?;
        if numbers.push(number).is_err() {
            return Err(Stop { why: Why::Memory });
        }
    }
    Ok(numbers)
}

// The arcs: the first subidentifier holds two of them.
fn arcs_of(alloc: Global, numbers: &[u128]) -> Result<Vec<u128>, AllocError>
    ensures { IfOk result (λ v. v.items ≡ the_arcs numbers.now) }
{
    let mut arcs = Vec::new(alloc);
    if let [first, rest @ ..] = numbers {
        let root = (*first / 40).min(2);
        arcs.push(root)?;
        arcs.push(*first - 40 * root)?;
        arcs.extend_from_slice(rest)?;
    }
    Ok(arcs)
}
