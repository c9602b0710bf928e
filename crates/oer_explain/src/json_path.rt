//! The way to a part of JSON, as it is printed.
ghost use Rattle.std.specs.Prelude.{◌≡◌, IfOk, string_bytes};
ghost use Rattle.oer_places.specs.Quoting.{rest_shown};
ghost use Rattle.oer_json_places.specs.Views.{hop_of, hops_of, spot_of, wrong_of};
ghost use Rattle.oer_explain.specs.JsonPath.{at_line, hop_text, is_word, key_text, last_text, path_text, place_line};

use oer_json_places::{JsonPlace, Step, Trouble};
use oer_places::{count_of, push_first, visible_text, word_length};
use std::alloc::{AllocError, Global};

// How many characters of a key are printed.
const MOST_SHOWN: usize = 40;

fn is_word(key: &str) -> bool
    ensures { result ≡ is_word key.now }
{
    !key.is_empty() && word_length(key.as_bytes()) == key.len()
}

// The first characters of a key, and a mark if there are more.
fn shown(alloc: Global, key: &str) -> Result<String, AllocError>
    ensures { IfOk result (λ shown. string_bytes shown ≡ rest_shown key.now) }
{
    let mut first = String::new(alloc);
    push_first(&mut first, key, MOST_SHOWN)?;
    let mut shown = visible_text(alloc, first)?;
    if count_of(key) > MOST_SHOWN {
        shown.push_str("..")?;
    }
    Ok(shown)
}

fn key_text(alloc: Global, key: &str) -> Result<String, AllocError>
    ensures { IfOk result (λ text. string_bytes text ≡ key_text key.now) }
{
    let shown = shown(alloc, key)?;
    if is_word(key) {
        return format!(in alloc; ".{shown}");
    }
    format!(in alloc; ".\"{shown}\"")
}

fn step_text(alloc: Global, step: Step<'_>) -> Result<String, AllocError>
    ensures { IfOk result (λ text. string_bytes text ≡ hop_text (hop_of step.entry)) }
{
    match step {
        Step::Key(key) => key_text(alloc, key),
        Step::Element(number) => format!(in alloc; "[{number}]"),
    }
}

fn path_text(alloc: Global, path: &[Step<'_>]) -> Result<String, AllocError>
    ensures { IfOk result (λ text. string_bytes text ≡ path_text (hops_of path.now)) }
{
    let mut text = String::new(alloc);
    for step in path {
        text.push_str(step_text(alloc, *step)?.as_str())?;
    }
    Ok(text)
}

fn last_text(alloc: Global, trouble: Trouble<'_>) -> Result<String, AllocError>
    ensures { IfOk result (λ text. string_bytes text ≡ last_text (wrong_of trouble.entry)) }
{
    match trouble {
        Trouble::UnknownKey(key) => key_text(alloc, key),
        Trouble::MissingKey(_) | Trouble::Itself => Ok(String::new(alloc)),
    }
}

/// The line that tells the way to a part. It fails where an allocation does.
pub(crate) fn at_line(alloc: Global, path: &str) -> Result<String, AllocError>
    ensures { IfOk result (λ line. string_bytes line ≡ at_line path.now) }
{
    if path.is_empty() {
        return String::from_str(alloc, "  at the whole:\n");
    }
    format!(in alloc; "  at {path}:\n")
}

/// The line that tells the place. It fails where an allocation does.
pub(crate) fn json_place_line(alloc: Global, place: &JsonPlace<'_>) -> Result<String, AllocError>
    ensures { IfOk result (λ line. string_bytes line ≡ place_line (spot_of place.now)) }
{
    let mut path = path_text(alloc, place.path.as_slice())?;
    path.push_str(last_text(alloc, place.trouble)?.as_str())?;
    at_line(alloc, path.as_str())
}
