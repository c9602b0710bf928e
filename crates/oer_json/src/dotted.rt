//! Numbers with points between them.
ghost use Rattle.std.specs.Prelude.{◌≡◌, []};
ghost use Rattle.oer_json.specs.Answer.{IsSameOrMemory};
ghost use Rattle.oer_json.specs.Take.{dotted_in, number_in, numbers_in, several_in};
ghost use Rattle.oer_json.specs.Texts.{all_natural, parts};

use crate::fault::JsonFault;
use crate::texts::is_natural;
use oer_literals::arc_of;
use std::alloc::Global;

/// Whether what stands between the points are numbers.
fn all_natural(text: &str) -> bool
    ensures { result ≡ all_natural (parts [] text.now) }
{
    let mut rest = text;
    'parts: while let Some((part, after)) = rest.split_once('.') {
        if !is_natural(part.as_bytes()) {
            return false;
        }
        rest = after;
    }
    is_natural(rest.as_bytes())
}

/// The numbers between the points.
fn numbers_in(alloc: Global, text: &str) -> Result<Vec<u128>, JsonFault>
    ensures { IsSameOrMemory (λ v. v.items) result (numbers_in (parts [] text.now)) }
{
    let mut numbers = Vec::new(alloc);
    let mut rest = text;
    'parts: while let Some((part, after)) = rest.split_once('.') {
        let number = number_in(part)?;
        numbers.push(number)?;
        rest = after;
    }
    let number = number_in(rest)?;
    numbers.push(number)?;
    Ok(numbers)
}

fn number_in(digits: &str) -> Result<u128, JsonFault>
    ensures { IsSameOrMemory (λ n. n) result (number_in digits.now) }
{
    match arc_of(digits) {
        Some(number) => Ok(number),
        None => Err(JsonFault::Range),
    }
}

/// The numbers between the points, if all are numbers.
fn several_in(alloc: Global, text: &str) -> Result<Vec<u128>, JsonFault>
    ensures { IsSameOrMemory (λ v. v.items) result (several_in text.now) }
{
    if !all_natural(text) {
        return Err(JsonFault::Kind);
    }
    numbers_in(alloc, text)
}

/// Two numbers or more, with points between them.
pub(crate) fn dotted_in(alloc: Global, text: &str) -> Result<Vec<u128>, JsonFault>
    ensures { IsSameOrMemory (λ v. v.items) result (dotted_in text.now) }
{
    match text.split_once('.') {
        None => Err(JsonFault::Kind),
        Some(_) => several_in(alloc, text),
    }
}
