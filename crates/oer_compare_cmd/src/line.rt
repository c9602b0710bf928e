//! The line on two types.
ghost use Rattle.std.specs.Prelude.{◌≡◌, ◌++◌, [], IfOk, OnOk, map, string_bytes};
ghost use Rattle.oer_cmd.specs.Ending.{refusal_line};
ghost use Rattle.oer_compare.specs.Views.{part_of, seen};
ghost use Rattle.oer_compare_cmd.specs.Line.{aspect_text as spec_aspect_text, differs, joined, located_text as spec_located_text, name_text, place_text as spec_place_text, pointed, step_text};

use oer_compare::{Aspect, Difference, Part};
use std::alloc::{AllocError, Global};
use std::fmt::Write;

// Appends a point, where the text isn't empty.
fn push_point(text: &mut String) -> Result<(), AllocError>
    ensures { OnOk result (string_bytes text.new ≡ pointed (string_bytes text.old)) }
{
    if text.is_empty() {
        return Ok(());
    }
    text.push_str(".")
}

fn push_step(text: &mut String, part: Part<'_>) -> Result<(), AllocError>
    ensures { OnOk result (string_bytes text.new ≡ pointed (string_bytes text.old) ++ step_text (part_of part.entry)) }
{
    push_point(text)?;
    match part {
        Part::Component { index, .. } => write!(text, "c{index}"),
        Part::Addition { index, .. } => write!(text, "a{index}"),
        Part::Element => text.push_str("i0"),
        Part::Alternative { .. } => text.push_str("v"),
    }
}

fn push_name(text: &mut String, part: Part<'_>) -> Result<(), AllocError>
    ensures { OnOk result (string_bytes text.new ≡ pointed (string_bytes text.old) ++ name_text (part_of part.entry)) }
{
    push_point(text)?;
    match part {
        Part::Component { name, .. } => text.push_str(name),
        Part::Addition { name, .. } => text.push_str(name),
        Part::Element => text.push_str("0"),
        Part::Alternative { name } => text.push_str(name),
    }
}

// The path, in the spelling of `oer part`.
fn steps(alloc: Global, path: &[Part<'_>]) -> Result<String, AllocError>
    ensures { IfOk result (λ text. string_bytes text ≡ joined step_text [] (map part_of path.now)) }
{
    let mut text = String::new(alloc);
    for part in path {
        push_step(&mut text, *part)?;
    }
    Ok(text)
}

// The names of the parts.
fn names(alloc: Global, path: &[Part<'_>]) -> Result<String, AllocError>
    ensures { IfOk result (λ text. string_bytes text ≡ joined name_text [] (map part_of path.now)) }
{
    let mut text = String::new(alloc);
    for part in path {
        push_name(&mut text, *part)?;
    }
    Ok(text)
}

// The path and the names of a part.
fn located_text(alloc: Global, path: &[Part<'_>]) -> Result<String, AllocError>
    ensures { IfOk result (λ text. string_bytes text ≡ spec_located_text (map part_of path.now)) }
{
    let steps = steps(alloc, path)?;
    let names = names(alloc, path)?;
    format!(in alloc; " at {steps} ({names})")
}

// Nothing of the whole.
fn place_text(alloc: Global, path: &[Part<'_>]) -> Result<String, AllocError>
    ensures { IfOk result (λ text. string_bytes text ≡ spec_place_text (map part_of path.now)) }
{
    match path {
        [] => Ok(String::new(alloc)),
        [_, ..] => located_text(alloc, path),
    }
}

fn aspect_text(aspect: Aspect) -> &'static str
    ensures { result.now ≡ spec_aspect_text aspect }
{
    match aspect {
        Aspect::Kind => "another type",
        Aspect::Marker => "an extension marker in one of them",
        Aspect::Bounds => "other bounds",
        Aspect::Size => "another size",
        Aspect::Items => "other items",
        Aspect::Name => "another name",
        Aspect::Tagging => "another tag",
        Aspect::Presence => "another OPTIONAL or DEFAULT",
        Aspect::Missing => "missing in the second",
        Aspect::Extra => "only in the second",
    }
}

/// The line on standard error, where the second type doesn't only add to the first.
pub(crate) fn difference_line(
    alloc: Global,
    difference: &Difference<'_>,
) -> Result<String, AllocError>
    ensures { IfOk result (λ line. string_bytes line ≡ refusal_line (differs (seen difference.now)).text) }
{
    let place = place_text(alloc, &difference.path)?;
    let aspect = aspect_text(difference.aspect);
    format!(in alloc; "oer: differs{place}: {aspect}\n")
}
