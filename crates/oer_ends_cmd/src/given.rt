//! The command for a type of modules.
ghost use Rattle.std.specs.Prelude.{◌≡◌, ◌≢◌, ◌≤◌, List, None, Some, IfOk, IfSome, false, map, string_bytes, true};
ghost use Rattle.std.specs.Io.KnownBytes.{Keeps};
ghost use Rattle.clap.specs.Words.{takes};
ghost use Rattle.oer_model.specs.Parts.{Step};
ghost use Rattle.oer_types.specs.Schema.{the_type};
ghost use Rattle.oer_options.specs.Words.{oer, path_text, source_text};
ghost use Rattle.oer_cmd.specs.Answer.{IsPathOf, limited_octets, task_answer};
ghost use Rattle.oer_cmd.specs.Expected.{Expected, Meets};
ghost use Rattle.oer_cmd.specs.Run.{IsLineOf, NoLineAskedFor, PrintsFor};
ghost use Rattle.oer_cmd.specs.Taking.{TakesFrom};
ghost use Rattle.oer_ends.specs.Ends.{has_end};
ghost use Rattle.oer_ends_cmd.specs.Ending.{EndsForModules, EndsNested};
ghost use Rattle.oer_ends_cmd.specs.Telling.{answer_in_hand, modules_answer, nested_answer, told_answer};

use crate::telling::told;
use oer_cmd::{Fault, all_octets, line_of, print_line, refused, report, spelt};
use oer_ends::has_end;
use oer_options::{Options, Task, parsed};
use oer_types::Schema;
use std::alloc::Global;
use std::io::{Read, Write};

// The line of a task for octets in hand.
fn line_in_hand<'a>(
    alloc: Global,
    schema: &Schema,
    options: Options<'a>,
    octets: &[u8],
) -> Result<String, Fault<'a>>
    ensures line { IfOk result (λ line. IsLineOf options.entry.task (Some octets.now)
        (the_type schema.now) options.entry.limit (string_bytes line)) }
    ensures exact { (path : Expected (List Step)) → IsPathOf (path_text options.entry.task) path
        → Meets string_bytes (told_answer (the_type schema.now) options.entry.limit octets.now
        (task_answer options.entry.task (the_type schema.now) options.entry.limit path (Some octets.now))) result }
{
    let mut reader = octets;
    match line_of(alloc, schema, options, &mut reader) {
        Ok(line) => Ok(line),
        Err(fault) => Err(told(alloc, schema, options.limit, octets, fault)),
    }
}

// The line of a task for the octets that the input has left, all of them, within the limit.
fn line_of_input<'a, R: Read>(
    alloc: Global,
    schema: &Schema,
    options: Options<'a>,
    input: &mut R,
) -> Result<String, Fault<'a>>
    ensures line { IfOk result (λ line. IfSome (R.remaining input.old) (λ b. IsLineOf options.entry.task (Some b)
        (the_type schema.now) options.entry.limit (string_bytes line))) }
    ensures exact { (path : Expected (List Step)) → IsPathOf (path_text options.entry.task) path
        → Meets string_bytes (answer_in_hand options.entry.task (the_type schema.now) options.entry.limit path
        (limited_octets options.entry.limit None (R.remaining input.old))) result }
{
    let octets = all_octets(alloc, None, input, options.limit)?;
    line_in_hand(alloc, schema, options, octets.as_slice())
}

// The line of a task for a type that has an end.
fn nested_line<'a, R: Read>(
    alloc: Global,
    schema: &Schema,
    options: Options<'a>,
    input: &mut R,
) -> Result<String, Fault<'a>>
    ensures line { IfOk result (λ line. IsLineOf options.entry.task (R.remaining input.old)
        (the_type schema.now) options.entry.limit (string_bytes line)) }
    ensures exact { (path : Expected (List Step)) → IsPathOf (path_text options.entry.task) path
        → Meets string_bytes (nested_answer options.entry.task (the_type schema.now) options.entry.limit path (R.remaining input.old)) result }
    ensures untouched { source_text options.entry.task ≢ None → input.new ≡ input.old }
{
    if let Task::Make { .. } = options.task {
        return line_of(alloc, schema, options, input);
    }
    match spelt(alloc, options.task.source())? {
        Some(octets) => line_in_hand(alloc, schema, options, octets.as_slice()),
        None => line_of_input(alloc, schema, options, input),
    }
}

/// The line of the task for values of a type of modules, from the octets or the JSON of the options, else from the input. The error says why
/// there is none: where the type has an end, `Nesting` if octets get there, and then all that the input has left is read first.
pub fn line_given<'a, R: Read>(
    alloc: Global,
    schema: &Schema,
    options: Options<'a>,
    input: &mut R,
) -> Result<String, Fault<'a>>
    ensures exact { (path : Expected (List Step)) → IsPathOf (path_text options.entry.task) path
        → Meets string_bytes (modules_answer options.entry.task (the_type schema.now) options.entry.limit path (R.remaining input.old)) result }
    ensures untouched { source_text options.entry.task ≢ None → input.new ≡ input.old }
{
    if has_end(schema.shape()) {
        nested_line(alloc, schema, options, input)
    } else {
        line_of(alloc, schema, options, input)
    }
}

#[tactic(auto, using(oer_cmd::proofs::Lines::answers_words_for))]
// Runs the command for a type that has an end.
fn run_nested<R: Read, W: Write, E: Write>(
    alloc: Global,
    schema: &Schema,
    words: &[String],
    input: &mut R,
    output: &mut W,
    errors: &mut E,
) -> u8
    ensures quiet { 1 ≤ result → result ≤ 2
        → Keeps (W.contents output.old) (W.contents output.new) }
    ensures prints { takes oer (map string_bytes words.now) ≡ true → result ≡ 0
        → PrintsFor (the_type schema.now) (map string_bytes words.now) (R.remaining input.old)
        (W.contents output.old) (W.contents output.new) (E.contents errors.old) (E.contents errors.new) }
    ensures statuses { result ≤ 3 }
    ensures exact { EndsNested (the_type schema.now) (map string_bytes words.now) (R.remaining input.old) (input.new ≡ input.old) result
        (W.contents output.old) (W.contents output.new) (E.contents errors.old) (E.contents errors.new) }
{
    let options = match parsed(alloc, words) {
        Ok(options) => options,
        Err(error) => return refused(alloc, &error, output, errors),
    };
    let line = match nested_line(alloc, schema, options, input) {
        Ok(line) => line,
        Err(fault) => return report(alloc, fault, errors),
    };
    match print_line(line, output) {
        Ok(()) => 0,
        Err(fault) => report(alloc, fault, errors),
    }
}

/// Runs the command for values of a type of modules, as `oer_cmd::run_for` does for one that is given: `words` are the arguments, the
/// program's name first, without any on types. Returns the status of the program. Where the type has an end, since it is written out to a
/// nesting, octets that nest deeper are rejected as `Nesting`; to tell that, all that the input has left is read first, within the limit.
pub fn run_for<R: Read, W: Write, E: Write>(
    alloc: Global,
    schema: &Schema,
    words: &[String],
    input: &mut R,
    output: &mut W,
    errors: &mut E,
) -> u8
    ensures quiet { 1 ≤ result → result ≤ 2
        → Keeps (W.contents output.old) (W.contents output.new) }
    ensures prints { takes oer (map string_bytes words.now) ≡ true → result ≡ 0
        → PrintsFor (the_type schema.now) (map string_bytes words.now) (R.remaining input.old)
        (W.contents output.old) (W.contents output.new) (E.contents errors.old) (E.contents errors.new) }
    // By a type without an end it refuses only where there is no answer, and how much of the input is taken is what `oer_cmd` says.
    ensures refuses { has_end (the_type schema.now) ≡ false → takes oer (map string_bytes words.now) ≡ true → 1 ≤ result → result ≤ 2
        → NoLineAskedFor (the_type schema.now) (map string_bytes words.now) (R.remaining input.old) }
    ensures takes { has_end (the_type schema.now) ≡ false
        → TakesFrom (the_type schema.now) (map string_bytes words.now) (input.new ≡ input.old) result
        (R.remaining input.old) (R.remaining input.new) }
    ensures statuses { result ≤ 3 }
    // The status, and what stands on the output and the errors, is what plain functions of the type, the words and the octets
    // say, unless memory ran out or a device failed.
    ensures exact { EndsForModules (the_type schema.now) (map string_bytes words.now) (R.remaining input.old) (input.new ≡ input.old) result
        (W.contents output.old) (W.contents output.new) (E.contents errors.old) (E.contents errors.new) }
{
    if has_end(schema.shape()) {
        run_nested(alloc, schema, words, input, output, errors)
    } else {
        oer_cmd::run_for(alloc, schema, words, input, output, errors)
    }
}
