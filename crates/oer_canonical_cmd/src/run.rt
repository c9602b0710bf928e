//! The command with `--canonical`.
ghost use Rattle.std.specs.Prelude.{◌≡◌, ◌≢◌, ◌≤◌, List, None, false, map, string_bytes};
ghost use Rattle.clap.specs.Words.{Text};
ghost use Rattle.oer_model.specs.Parts.{Step};
ghost use Rattle.oer_types.specs.Schema.{the_type};
ghost use Rattle.oer_options.specs.Words.{path_text, source_text, texts_of};
ghost use Rattle.oer_cmd.specs.Answer.{IsPathOf, expected_answer};
ghost use Rattle.oer_cmd.specs.Expected.{Expected, Meets};
ghost use Rattle.oer_cmd.specs.Types.{reads_types};
ghost use Rattle.oer_ends_cmd.specs.Telling.{modules_answer};
ghost use Rattle.oer_canonical_cmd.specs.Ending.{Ends, EndsFor, IsEnded};
ghost use Rattle.oer_canonical_cmd.specs.Strict.{strict};

use crate::strict::strictly;
use oer_cmd::{Fault, answer, print_line, refused, report};
use oer_ends_cmd::line_given;
use oer_options::{Options, parsed};
use oer_types::Schema;
use std::alloc::Global;
use std::io::{Read, Write};

// The line that the options ask for, unless it says that the octets aren't canonical.
fn strict_answer<'a, R: Read>(
    alloc: Global,
    options: Options<'a>,
    input: &mut R,
) -> Result<String, Fault<'a>>
    ensures exact { (path : Expected (List Step)) → IsPathOf (path_text options.entry.task) path
        → Meets string_bytes (strict (expected_answer options.entry path (R.remaining input.old))) result }
    ensures untouched { source_text options.entry.task ≢ None → reads_types (texts_of options.entry) ≡ false
        → input.new ≡ input.old }
{
    match answer(alloc, options, input) {
        Ok(line) => strictly(line),
        Err(fault) => Err(fault),
    }
}

// The same for values of a type of modules.
fn strict_answer_for<'a, R: Read>(
    alloc: Global,
    schema: &Schema,
    options: Options<'a>,
    input: &mut R,
) -> Result<String, Fault<'a>>
    ensures exact { (path : Expected (List Step)) → IsPathOf (path_text options.entry.task) path
        → Meets string_bytes (strict (modules_answer options.entry.task (the_type schema.now) options.entry.limit path (R.remaining input.old))) result }
    ensures untouched { source_text options.entry.task ≢ None → input.new ≡ input.old }
{
    match line_given(alloc, schema, options, input) {
        Ok(line) => strictly(line),
        Err(fault) => Err(fault),
    }
}

// Prints the line, or tells of the fault. The status.
fn finish<W: Write, E: Write>(
    alloc: Global,
    line: Result<String, Fault<'_>>,
    output: &mut W,
    errors: &mut E,
) -> u8
    ensures ended { (expected : Expected Text) → Meets string_bytes expected line.entry → IsEnded expected result
        record { output = W.contents output.old; output' = W.contents output.new; errors = E.contents errors.old; errors' = E.contents errors.new } }
    ensures statuses { result ≤ 3 }
{
    match line {
        Ok(line) => match print_line(line, output) {
            Ok(()) => 0,
            Err(fault) => report(alloc, fault, errors),
        },
        Err(fault) => report(alloc, fault, errors),
    }
}

/// Runs `check --canonical` for the type that the words name: `words` are the arguments without that word, the program's name first. It
/// prints what `check` does for the canonical octets of a value with nothing behind them, and other octets are an error, with status 1.
/// Returns the status of the program.
pub fn run_canonical<R: Read, W: Write, E: Write>(
    alloc: Global,
    words: &[String],
    input: &mut R,
    output: &mut W,
    errors: &mut E,
) -> u8
    ensures exact { Ends (map string_bytes words.now) (R.remaining input.old) (input.new ≡ input.old) result
        (W.contents output.old) (W.contents output.new) (E.contents errors.old) (E.contents errors.new) }
    ensures statuses { result ≤ 3 }
{
    let options = match parsed(alloc, words) {
        Ok(options) => options,
        Err(error) => return refused(alloc, &error, output, errors),
    };
    let line = strict_answer(alloc, options, input);
    finish(alloc, line, output, errors)
}

/// Runs `check --canonical` for a type of modules, as `run_canonical` does for the type that the words name; those on types count for
/// nothing.
pub fn run_canonical_for<R: Read, W: Write, E: Write>(
    alloc: Global,
    schema: &Schema,
    words: &[String],
    input: &mut R,
    output: &mut W,
    errors: &mut E,
) -> u8
    ensures exact { EndsFor (the_type schema.now) (map string_bytes words.now) (R.remaining input.old) (input.new ≡ input.old) result
        (W.contents output.old) (W.contents output.new) (E.contents errors.old) (E.contents errors.new) }
    ensures statuses { result ≤ 3 }
{
    let options = match parsed(alloc, words) {
        Ok(options) => options,
        Err(error) => return refused(alloc, &error, output, errors),
    };
    let line = strict_answer_for(alloc, schema, options, input);
    finish(alloc, line, output, errors)
}
