//! The subcommand `compare`.
ghost use Rattle.std.specs.Prelude.{◌≡◌, ◌≤◌, IfOk, IfSome, MatchResult, None, is_some, map, string_bytes};
ghost use Rattle.std.specs.Io.KnownBytes.{Keeps};
ghost use Rattle.oer_cmd.specs.Answer.{expected_type};
ghost use Rattle.oer_cmd.specs.Expected.{Meets, refusal, value};
ghost use Rattle.oer_cmd.specs.Types.{texts_at};
ghost use Rattle.oer_options.specs.Words.{behind};
ghost use Rattle.oer_types.specs.Schema.{the_type};
ghost use Rattle.oer_values.specs.ShapeView.{type_of};
ghost use Rattle.oer_compare.specs.Views.{seen};
ghost use Rattle.oer_compare_cmd.specs.Ending.{Ends, EndsIn, TellsOf, compare_answer, named_answer, other_answer, other_texts, refusal_of};
ghost use Rattle.oer_compare_cmd.specs.Line.{compare_of, verdict_text};
ghost use Rattle.oer_compare_cmd.specs.Words.{asks_compare as spec_asks};

use crate::asked::{Asked, parsed};
use crate::line::difference_line;
use crate::misuse::Misuse;
use oer_cmd::type_text::{TypeText, definitions, named_type, one_type, type_text};
use oer_cmd::{Fault, print_line, put_all, refused, report};
use oer_compare::{Difference, compare};
use oer_types::Schema;
use oer_values::Shape;
use std::alloc::{AllocError, Global};
use std::io::Write;

// The line where the second type only adds to the first.
fn verdict(alloc: Global, is_same: bool) -> Result<String, AllocError>
    ensures { IfOk result (λ line. string_bytes line ≡ verdict_text is_same) }
{
    String::from_str(alloc, if is_same { "same" } else { "extends" })
}

// Tells of the difference. The status.
fn tell<E: Write>(alloc: Global, difference: &Difference<'_>, errors: &mut E) -> u8
    ensures ends { TellsOf (seen difference.now) result (E.contents errors.old) (E.contents errors.new) }
    ensures most { result ≤ 3 }
{
    match difference_line(alloc, difference) {
        Ok(line) => {
            put_all(line.as_bytes(), errors);
            1
        }
        Err(_) => report(alloc, Fault::Memory, errors),
    }
}

// Prints the line for a type that only adds. The status.
fn print_verdict<W: Write, E: Write>(
    alloc: Global,
    is_same: bool,
    output: &mut W,
    errors: &mut E,
) -> u8
    ensures ends { EndsIn (value (verdict_text is_same)) result
        (W.contents output.old) (W.contents output.new) (E.contents errors.old) (E.contents errors.new) }
    ensures most { result ≤ 3 }
{
    let Ok(line) = verdict(alloc, is_same) else {
        return report(alloc, Fault::Memory, errors);
    };
    match print_line(line, output) {
        Ok(()) => 0,
        Err(fault) => report(alloc, fault, errors),
    }
}

/// Prints `same` where the types are the same, or `extends` where the second one only adds to the first;
/// else the line of the first difference is on `errors`. Returns the status of the program.
pub fn compare_types<W: Write, E: Write>(
    alloc: Global,
    old: &Shape,
    new: &Shape,
    output: &mut W,
    errors: &mut E,
) -> u8
    ensures ends { EndsIn (compare_of (type_of old.now) (type_of new.now)) result
        (W.contents output.old) (W.contents output.new) (E.contents errors.old) (E.contents errors.new) }
    ensures most { result ≤ 3 }
{
    let Ok(found) = compare(alloc, old, new) else {
        return report(alloc, Fault::Memory, errors);
    };
    if let Some(difference) = found {
        return tell(alloc, &difference, errors);
    }
    let Ok(back) = compare(alloc, new, old) else {
        return report(alloc, Fault::Memory, errors);
    };
    print_verdict(alloc, back.is_none(), output, errors)
}

// A copy of the type's shape.
fn copied<'a>(alloc: Global, schema: &Schema) -> Result<Shape, Fault<'a>>
    ensures { Meets type_of (value (the_type schema.now)) result }
{
    match schema.shape().clone_in(alloc) {
        Ok(shape) => Ok(shape),
        Err(_) => Err(Fault::Memory),
    }
}

// The type that the Name has among the definitions.
fn named_shape<'a>(alloc: Global, types: &str, name: &'a str) -> Result<Shape, Fault<'a>>
    ensures { Meets type_of (expected_type (texts_at (TypeText.Named types.entry name.entry))) result }
{
    let types = definitions(alloc, types)?;
    copied(alloc, named_type(&types, name)?)
}

// The type that stands there.
fn shape_at<'a>(alloc: Global, text: TypeText<'a>) -> Result<Shape, Fault<'a>>
    ensures { Meets type_of (expected_type (texts_at text.entry)) result }
{
    match text {
        TypeText::One(text) => copied(alloc, &one_type(alloc, text)?),
        TypeText::Named { types, name } => named_shape(alloc, types, name),
    }
}

// Where the second type stands, beside the first.
fn other_text<'a>(text: TypeText<'a>, asked: Asked<'a>) -> Result<TypeText<'a>, Misuse>
    ensures { MatchResult result (λ other. other_texts (texts_at text.entry) (behind asked.entry.with) (behind asked.entry.with_types) ≡ value (texts_at other))
        (λ misuse. other_texts (texts_at text.entry) (behind asked.entry.with) (behind asked.entry.with_types) ≡ refusal (refusal_of misuse)) }
{
    let Some(with) = asked.with else {
        return Err(Misuse::NoWith);
    };
    match (text, asked.with_types) {
        (TypeText::One(_), None) => Ok(TypeText::One(with)),
        (TypeText::One(_), Some(_)) => Err(Misuse::NoTypes),
        (TypeText::Named { types, .. }, None) => Ok(TypeText::Named { types, name: with }),
        (TypeText::Named { .. }, Some(types)) => Ok(TypeText::Named { types, name: with }),
    }
}

// Compares the type with the one that stands there. The status.
fn run_other<W: Write, E: Write>(
    alloc: Global,
    old: &Shape,
    text: TypeText<'_>,
    output: &mut W,
    errors: &mut E,
) -> u8
    ensures ends { EndsIn (named_answer (type_of old.now) (texts_at text.entry)) result
        (W.contents output.old) (W.contents output.new) (E.contents errors.old) (E.contents errors.new) }
    ensures most { result ≤ 3 }
{
    match shape_at(alloc, text) {
        Ok(new) => compare_types(alloc, old, &new, output, errors),
        Err(fault) => report(alloc, fault, errors),
    }
}

// The same where the options say where the second type stands.
fn run_with<W: Write, E: Write>(
    alloc: Global,
    old: &Shape,
    text: TypeText<'_>,
    asked: Asked<'_>,
    output: &mut W,
    errors: &mut E,
) -> u8
    ensures ends { EndsIn (other_answer (texts_at text.entry) (behind asked.entry.with) (behind asked.entry.with_types) (type_of old.now)) result
        (W.contents output.old) (W.contents output.new) (E.contents errors.old) (E.contents errors.new) }
    ensures most { result ≤ 3 }
{
    match other_text(text, asked) {
        Ok(other) => run_other(alloc, old, other, output, errors),
        Err(misuse) => {
            put_all(misuse.line().as_bytes(), errors);
            2
        }
    }
}

// The same where the first type stands there.
fn run_of<W: Write, E: Write>(
    alloc: Global,
    text: TypeText<'_>,
    asked: Asked<'_>,
    output: &mut W,
    errors: &mut E,
) -> u8
    ensures ends { EndsIn (compare_answer (texts_at text.entry) (behind asked.entry.with) (behind asked.entry.with_types)) result
        (W.contents output.old) (W.contents output.new) (E.contents errors.old) (E.contents errors.new) }
    ensures most { result ≤ 3 }
{
    match shape_at(alloc, text) {
        Ok(old) => run_with(alloc, &old, text, asked, output, errors),
        Err(fault) => report(alloc, fault, errors),
    }
}

// Does what the words say. The status.
fn run_words<W: Write, E: Write>(
    alloc: Global,
    words: &[String],
    output: &mut W,
    errors: &mut E,
) -> u8
    ensures ends { Ends (map string_bytes words.now) result
        (W.contents output.old) (W.contents output.new) (E.contents errors.old) (E.contents errors.new) }
    ensures most { result ≤ 3 }
{
    let asked = match parsed(alloc, words) {
        Ok(asked) => asked,
        Err(error) => return refused(alloc, &error, output, errors),
    };
    match type_text(asked.options) {
        Ok(text) => run_of(alloc, text, asked, output, errors),
        Err(fault) => report(alloc, fault, errors),
    }
}

/// Whether the words, the program's name first, ask for the subcommand `compare`.
pub fn asks_compare(words: &[String]) -> bool
    ensures { result ≡ spec_asks (map string_bytes words.now) }
{
    match words {
        [_, word, ..] => word.as_str() == "compare",
        _ => false,
    }
}

/// Runs the subcommand `compare`, if the words ask for it: they are the arguments, the program's name
/// first. Returns the status of the program then, and none where they ask for something else: nothing is
/// written there. The first type is that of `--type`, or the one of `--types` that `--name` names; the second
/// one is that of `--with`.
pub fn run_compare<W: Write, E: Write>(
    alloc: Global,
    words: &[String],
    output: &mut W,
    errors: &mut E,
) -> Option<u8>
    ensures asks { is_some result ≡ spec_asks (map string_bytes words.now) }
    ensures passes { result ≡ None
        → Keeps (W.contents output.old) (W.contents output.new) × Keeps (E.contents errors.old) (E.contents errors.new) }
    // The status, and what stands on the output and the errors, is what plain functions of the words say, unless memory ran
    // out or a device failed.
    ensures exact { IfSome result (λ status. Ends (map string_bytes words.now) status
        (W.contents output.old) (W.contents output.new) (E.contents errors.old) (E.contents errors.new)) }
    ensures statuses { IfSome result (λ status. status ≤ 3) }
{
    if !asks_compare(words) {
        return None;
    }
    Some(run_words(alloc, words, output, errors))
}
