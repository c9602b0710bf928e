//! The subcommand `example`.
ghost use Rattle.std.specs.Prelude.{◌≡◌, ◌≤◌, IfSome, None, false, is_some, map, string_bytes};
ghost use Rattle.std.specs.Io.KnownBytes.{Keeps};
ghost use Rattle.oer_types.specs.Schema.{the_type};
ghost use Rattle.oer_cmd.specs.Types.{reads_types, texts_at};
ghost use Rattle.oer_cmd.specs.Ending.{refusal_line};
ghost use Rattle.oer_cmd.specs.Faults.{AppendsFront};
ghost use Rattle.oer_example_cmd.specs.Ending.{Ends, EndsFor, EndsIn, both_wanted, example_answer, example_of, named_answer};
ghost use Rattle.oer_example_cmd.specs.Words.{asks_example as spec_asks};

use crate::asked::parsed;
use crate::line::wanted_line;
use crate::wanted::{Wanted, wanted_of};
use oer_cmd::type_text::{TypeText, definitions, named_type, one_type, type_text, types_on_input};
use oer_cmd::{Fault, print_line, put_all, refused, report};
use oer_skeleton::SkeletonFault;
use oer_types::Schema;
use std::alloc::Global;
use std::io::{Read, Write};

// Prints the line for the type. The status.
fn print_example<W: Write, E: Write>(
    alloc: Global,
    schema: &Schema,
    wanted: Wanted,
    output: &mut W,
    errors: &mut E,
) -> u8
    ensures ends { EndsIn (example_of wanted (the_type schema.now)) result
        (W.contents output.old) (W.contents output.new) (E.contents errors.old) (E.contents errors.new) }
    ensures most { result ≤ 3 }
{
    let line = match wanted_line(alloc, schema, wanted) {
        Ok(line) => line,
        Err(SkeletonFault::Memory) => return report(alloc, Fault::Memory, errors),
        Err(SkeletonFault::TooLong) => {
            put_all(b"oer: the value has more than 65536 parts\n", errors);
            return 2;
        }
    };
    match print_line(line, output) {
        Ok(()) => 0,
        Err(fault) => report(alloc, fault, errors),
    }
}

// The same for the type that the text spells.
fn run_one<W: Write, E: Write>(
    alloc: Global,
    text: &str,
    wanted: Wanted,
    output: &mut W,
    errors: &mut E,
) -> u8
    ensures ends { EndsIn (named_answer wanted (texts_at (TypeText.One text.entry))) result
        (W.contents output.old) (W.contents output.new) (E.contents errors.old) (E.contents errors.new) }
    ensures most { result ≤ 3 }
{
    match one_type(alloc, text) {
        Ok(schema) => print_example(alloc, &schema, wanted, output, errors),
        Err(fault) => report(alloc, fault, errors),
    }
}

// The same for the type that the Name has among the definitions.
fn run_named<W: Write, E: Write>(
    alloc: Global,
    types: &str,
    name: &str,
    wanted: Wanted,
    output: &mut W,
    errors: &mut E,
) -> u8
    ensures ends { EndsIn (named_answer wanted (texts_at (TypeText.Named types.entry name.entry))) result
        (W.contents output.old) (W.contents output.new) (E.contents errors.old) (E.contents errors.new) }
    ensures most { result ≤ 3 }
{
    let types = match definitions(alloc, types) {
        Ok(types) => types,
        Err(fault) => return report(alloc, fault, errors),
    };
    match named_type(&types, name) {
        Ok(schema) => print_example(alloc, schema, wanted, output, errors),
        Err(fault) => report(alloc, fault, errors),
    }
}

// The same where the text of the definitions may be that on the input.
fn run_types<R: Read, W: Write, E: Write>(
    alloc: Global,
    types: &str,
    name: &str,
    wanted: Wanted,
    input: &mut R,
    output: &mut W,
    errors: &mut E,
) -> u8
    ensures ends { EndsIn (example_answer wanted (texts_at (TypeText.Named types.entry name.entry)) (R.remaining input.old)) result
        (W.contents output.old) (W.contents output.new) (E.contents errors.old) (E.contents errors.new) }
    ensures untouched { reads_types (texts_at (TypeText.Named types.entry name.entry)) ≡ false → input.new ≡ input.old }
    ensures most { result ≤ 3 }
{
    if types != "-" {
        return run_named(alloc, types, name, wanted, output, errors);
    }
    match types_on_input(alloc, Some(""), input) {
        Ok(text) => run_named(alloc, text.as_str(), name, wanted, output, errors),
        Err(fault) => report(alloc, fault, errors),
    }
}

// The same where the words say where the type stands.
fn run_of<R: Read, W: Write, E: Write>(
    alloc: Global,
    text: TypeText<'_>,
    wanted: Wanted,
    input: &mut R,
    output: &mut W,
    errors: &mut E,
) -> u8
    ensures ends { EndsIn (example_answer wanted (texts_at text.entry) (R.remaining input.old)) result
        (W.contents output.old) (W.contents output.new) (E.contents errors.old) (E.contents errors.new) }
    ensures untouched { reads_types (texts_at text.entry) ≡ false → input.new ≡ input.old }
    ensures most { result ≤ 3 }
{
    match text {
        TypeText::One(text) => run_one(alloc, text, wanted, output, errors),
        TypeText::Named { types, name } => {
            run_types(alloc, types, name, wanted, input, output, errors)
        }
    }
}

// Says that a value with all parts isn't made up. The status.
fn refuse_both<E: Write>(errors: &mut E) -> u8
    ensures two { result ≡ 2 }
    ensures said { AppendsFront (E.contents errors.old) (E.contents errors.new) (refusal_line both_wanted.text) }
{
    put_all(b"oer: one of --random and --full\n", errors);
    2
}

// Does what the words say. The status.
fn run_words<R: Read, W: Write, E: Write>(
    alloc: Global,
    words: &[String],
    input: &mut R,
    output: &mut W,
    errors: &mut E,
) -> u8
    ensures ends { Ends (map string_bytes words.now) (R.remaining input.old) result
        (W.contents output.old) (W.contents output.new) (E.contents errors.old) (E.contents errors.new) }
    ensures most { result ≤ 3 }
{
    let asked = match parsed(alloc, words) {
        Ok(asked) => asked,
        Err(error) => return refused(alloc, &error, output, errors),
    };
    let Some(wanted) = wanted_of(asked.parts, asked.seed) else {
        return refuse_both(errors);
    };
    match type_text(asked.options) {
        Ok(text) => run_of(alloc, text, wanted, input, output, errors),
        Err(fault) => report(alloc, fault, errors),
    }
}

/// Runs the subcommand `example` for this type: `words` are the arguments, the program's name first and
/// `example` next; those on types count for nothing. Returns the status of the program.
pub fn run_example_for<W: Write, E: Write>(
    alloc: Global,
    schema: &Schema,
    words: &[String],
    output: &mut W,
    errors: &mut E,
) -> u8
    ensures exact { EndsFor (the_type schema.now) (map string_bytes words.now) result
        (W.contents output.old) (W.contents output.new) (E.contents errors.old) (E.contents errors.new) }
    ensures statuses { result ≤ 3 }
{
    let asked = match parsed(alloc, words) {
        Ok(asked) => asked,
        Err(error) => return refused(alloc, &error, output, errors),
    };
    match wanted_of(asked.parts, asked.seed) {
        Some(wanted) => print_example(alloc, schema, wanted, output, errors),
        None => refuse_both(errors),
    }
}

/// Whether the words, the program's name first, ask for the subcommand `example`.
pub fn asks_example(words: &[String]) -> bool
    ensures { result ≡ spec_asks (map string_bytes words.now) }
{
    match words {
        [_, word, ..] => word.as_str() == "example",
        _ => false,
    }
}

/// Runs the subcommand `example`, if the words ask for it: they are the arguments, the program's name
/// first. Returns the status of the program then, and none where they ask for something else: nothing is
/// read or written there. The type is that of `--type`, or the one of `--types` that `--name` names.
pub fn run_example<R: Read, W: Write, E: Write>(
    alloc: Global,
    words: &[String],
    input: &mut R,
    output: &mut W,
    errors: &mut E,
) -> Option<u8>
    ensures asks { is_some result ≡ spec_asks (map string_bytes words.now) }
    ensures passes { result ≡ None → (input.new ≡ input.old)
        × Keeps (W.contents output.old) (W.contents output.new) × Keeps (E.contents errors.old) (E.contents errors.new) }
    // The status, and what stands on the output and the errors, is what plain functions of the words and the octets say,
    // unless memory ran out or a device failed.
    ensures exact { IfSome result (λ status. Ends (map string_bytes words.now) (R.remaining input.old) status
        (W.contents output.old) (W.contents output.new) (E.contents errors.old) (E.contents errors.new)) }
    ensures statuses { IfSome result (λ status. status ≤ 3) }
{
    if !asks_example(words) {
        return None;
    }
    Some(run_words(alloc, words, input, output, errors))
}
