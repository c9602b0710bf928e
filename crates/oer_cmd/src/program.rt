//! The command.
ghost use Rattle.std.specs.Prelude.{◌≡◌, ◌≢◌, ◌≤◌, ◌⊎◌, List, [], ◌∷◌, ◌++◌, None, false, true, map, IfErr, IfOk, IsOkAnd, string_bytes};
ghost use Rattle.std.specs.Io.KnownBytes.{Appends, Keeps};
ghost use Rattle.clap.specs.Words.{Text, kind_of, takes};
ghost use Rattle.clap.specs.declared.error.kind.ErrorKind.TheVariants.{DisplayHelp, DisplayVersion, OutOfMemory};
ghost use Rattle.oer_model.specs.Parts.{Step};
ghost use Rattle.oer_types.specs.Schema.{the_type};
ghost use Rattle.oer_options.specs.Words.{kind, oer, path_text, source_text, texts_of};
ghost use Rattle.oer_cmd.specs.Answer.{IsPathOf, answer_of, expected_answer, expected_type, given_answer, task_answer};
ghost use Rattle.oer_cmd.specs.Ending.{Ends, IsEnd, streams};
ghost use Rattle.oer_cmd.specs.Expected.{Expected, Meets, value};
ghost use Rattle.oer_cmd.specs.Faults.{AppendsFront, Printed, Reports, status_of};
ghost use Rattle.oer_cmd.specs.Run.{IsLineFor, IsLineGiven, IsLineOf, NoLineAsked, Prints};
ghost use Rattle.oer_cmd.specs.Taking.{GivesIfAsked, GivesTask, TakesBy, TakesFor, TakesInput, status_after};
ghost use Rattle.oer_cmd.specs.Types.{SpelledBy, reads_types, texts_at};
ghost use Rattle.oer_cmd.specs.declared.type_text.TypeText.TheVariants.{Named, One};

use crate::fault::{Fault, error_line};
use crate::task::{line_given, line_read};
use crate::type_text::{TypeText, definitions, named_type, one_type, type_text, types_on_input};
use clap::error::ErrorKind;
use oer_options::{Options, parsed};
use oer_text::laws::what_is_spelled_is_parsed;
use oer_types::Schema;
use oer_units::Metered;
use std::alloc::{AllocError, Global};
use std::io::{Read, Write};

#[tactic(auto, using(crate::proofs::Asking::unasked, crate::proofs::Answered::line_read))]
/// The line of the task for values of the type, from the octets or the JSON of the options, else from the input. The error says why
/// there is none.
pub fn line_of<'a, R: Read>(
    alloc: Global,
    schema: &Schema,
    options: Options<'a>,
    input: &mut R,
) -> Result<String, Fault<'a>>
    ensures line { IfOk result (λ line. IsLineOf options.entry.task (R.remaining input.old)
        (the_type schema.now) options.entry.limit (string_bytes line)) }
    ensures exact { (path : Expected (List Step)) → IsPathOf (path_text options.entry.task) path
        → Meets string_bytes (task_answer options.entry.task (the_type schema.now) options.entry.limit path (R.remaining input.old)) result }
    ensures untouched { source_text options.entry.task ≢ None → input.new ≡ input.old }
    ensures takes { (path : Expected (List Step)) → IsPathOf (path_text options.entry.task) path
        → GivesIfAsked (value (the_type schema.now)) (source_text options.entry.task) path (input.new ≡ input.old)
        (λ T. GivesTask (kind options.entry.task) T options.entry.limit (status_after result) (R.remaining input.old) (R.remaining input.new)) }
{
    let task = options.task;
    match task.source() {
        Some(text) => line_given(alloc, schema, task, text, options.limit),
        None => line_read(alloc, schema, task, options.limit, input),
    }
}

#[tactic(auto, using(crate::proofs::Asking::lost, crate::proofs::Meeting::stops))]
// The line for the type that the text spells.
fn line_of_one<'a, R: Read>(
    alloc: Global,
    text: &'a str,
    options: Options<'a>,
    input: &mut R,
) -> Result<String, Fault<'a>>
    ensures line { IfOk result (λ line. IsLineFor (SpelledBy (texts_at (One text.entry))) options.entry.task
        options.entry.limit (R.remaining input.old) (string_bytes line)) }
    ensures exact { (path : Expected (List Step)) → IsPathOf (path_text options.entry.task) path
        → Meets string_bytes (answer_of (texts_at (One text.entry)) options.entry.task options.entry.limit path (R.remaining input.old)) result }
    ensures untouched { source_text options.entry.task ≢ None → input.new ≡ input.old }
    ensures takes { (path : Expected (List Step)) → IsPathOf (path_text options.entry.task) path
        → GivesIfAsked (expected_type (texts_at (One text.entry))) (source_text options.entry.task) path (input.new ≡ input.old)
        (λ T. GivesTask (kind options.entry.task) T options.entry.limit (status_after result) (R.remaining input.old) (R.remaining input.new)) }
{
    let schema = one_type(alloc, text)?;
    line_of(alloc, &schema, options, input)
}

#[tactic(auto, using(crate::proofs::Asking::lost, crate::proofs::Meeting::stops_twice))]
// The line for the type that the Name has among the definitions that the text spells.
fn line_of_named<'a, R: Read>(
    alloc: Global,
    types: &str,
    name: &'a str,
    options: Options<'a>,
    input: &mut R,
) -> Result<String, Fault<'a>>
    ensures line { IfOk result (λ line. IsLineFor (SpelledBy (texts_at (Named types.entry name.entry))) options.entry.task
        options.entry.limit (R.remaining input.old) (string_bytes line)) }
    ensures exact { (path : Expected (List Step)) → IsPathOf (path_text options.entry.task) path
        → Meets string_bytes (answer_of (texts_at (Named types.entry name.entry)) options.entry.task options.entry.limit path (R.remaining input.old)) result }
    ensures untouched { source_text options.entry.task ≢ None → input.new ≡ input.old }
    ensures takes { (path : Expected (List Step)) → IsPathOf (path_text options.entry.task) path
        → GivesIfAsked (expected_type (texts_at (Named types.entry name.entry))) (source_text options.entry.task) path (input.new ≡ input.old)
        (λ T. GivesTask (kind options.entry.task) T options.entry.limit (status_after result) (R.remaining input.old) (R.remaining input.new)) }
{
    let types = definitions(alloc, types)?;
    let schema = named_type(&types, name)?;
    line_of(alloc, schema, options, input)
}

// The line for the type that the Name has among the definitions of `--types`, of which `-` says that the
// input has them.
fn line_of_types<'a, R: Read>(
    alloc: Global,
    types: &'a str,
    name: &'a str,
    options: Options<'a>,
    input: &mut R,
) -> Result<String, Fault<'a>>
    ensures line { IfOk result (λ line. IsLineGiven (texts_at (Named types.entry name.entry)) options.entry.task
        options.entry.limit (R.remaining input.old) (string_bytes line)) }
    ensures exact { (path : Expected (List Step)) → IsPathOf (path_text options.entry.task) path
        → Meets string_bytes (given_answer (texts_at (Named types.entry name.entry)) options.entry.task options.entry.limit path (R.remaining input.old)) result }
    ensures untouched { source_text options.entry.task ≢ None → reads_types (texts_at (Named types.entry name.entry)) ≡ false
        → input.new ≡ input.old }
    ensures takes { TakesBy (texts_at (Named types.entry name.entry)) options.entry.task options.entry.limit
        (input.new ≡ input.old) (status_after result) (R.remaining input.old) (R.remaining input.new) }
{
    if types != "-" {
        return line_of_named(alloc, types, name, options, input);
    }
    let text = types_on_input(alloc, options.task.source(), input)?;
    line_of_named(alloc, text.as_str(), name, options, input)
}

/// The line that the options ask for. The error says why there is none.
pub fn answer<'a, R: Read>(
    alloc: Global,
    options: Options<'a>,
    input: &mut R,
) -> Result<String, Fault<'a>>
    ensures line { IfOk result (λ line. IsLineGiven (texts_of options.entry) options.entry.task
        options.entry.limit (R.remaining input.old) (string_bytes line)) }
    ensures exact { (path : Expected (List Step)) → IsPathOf (path_text options.entry.task) path
        → Meets string_bytes (expected_answer options.entry path (R.remaining input.old)) result }
    ensures untouched { source_text options.entry.task ≢ None → reads_types (texts_of options.entry) ≡ false
        → input.new ≡ input.old }
    ensures takes { TakesFor options.entry (input.new ≡ input.old) (status_after result)
        (R.remaining input.old) (R.remaining input.new) }
{
    match type_text(options)? {
        TypeText::One(text) => line_of_one(alloc, text, options, input),
        TypeText::Named { types, name } => line_of_types(alloc, types, name, options, input),
    }
}

/// Writes the octets as `Metered::put` does: in one call, which goes on with the rest where a call took
/// only some; a call that fails, by an error (an interruption too) or by taking none, isn't tried again.
/// Returns whether the writer took all of them.
pub fn put_all<W: Write>(octets: &[u8], w: &mut W) -> bool
    ensures whole { result ≡ true → Appends (W.contents w.old) (W.contents w.new) octets.now }
    ensures front { AppendsFront (W.contents w.old) (W.contents w.new) octets.now }
{
    Metered::new(w).put(octets).is_ok()
}

/// Writes the line and its line feed in one call, and flushes. It fails with `Memory`, with nothing written, or with `Output`.
pub fn print_line<'a, W: Write>(mut line: String, output: &mut W) -> Result<(), Fault<'a>>
    ensures printed { Printed (string_bytes line) (W.contents output.old) (W.contents output.new) result }
    ensures fails { IfErr result (λ fault. status_of fault ≡ 3) }
{
    if line.push('\n').is_err() {
        return Err(Fault::Memory);
    }
    if !put_all(line.as_bytes(), output) {
        return Err(Fault::Output);
    }
    if output.flush().is_err() {
        return Err(Fault::Output);
    }
    Ok(())
}

/// Writes the line of the fault in one call, and returns the status. If memory for the line is
/// refused, it is that of `Memory`. A failure to write it is ignored.
pub fn report<E: Write>(alloc: Global, fault: Fault<'_>, errors: &mut E) -> u8
    ensures line { Reports fault.entry result (E.contents errors.old) (E.contents errors.new) }
    ensures status { result ≤ 2 → result ≡ status_of fault.entry }
    ensures fails { 1 ≤ result }
    ensures most { result ≤ 3 }
    ensures failed { status_of fault.entry ≡ 3 → result ≡ 3 }
{
    match error_line(alloc, fault) {
        Ok(line) => {
            put_all(line.as_bytes(), errors);
            fault.status()
        }
        Err(_) => {
            put_all(b"oer: out of memory\n", errors);
            Fault::Memory.status()
        }
    }
}

#[tactic(auto, using(crate::proofs::Endings::broken_end, crate::proofs::Endings::keeps_same, crate::proofs::Endings::printed_end, crate::proofs::Endings::refused_end))]
/// Prints the line of an answer, or says why there is none. Returns the status.
pub(crate) fn conclude<W: Write, E: Write>(
    alloc: Global,
    answer: Result<String, Fault<'_>>,
    output: &mut W,
    errors: &mut E,
) -> u8
    ensures status { result ≤ 2 → result ≡ status_after answer.entry }
    ensures most { result ≤ 3 }
    ensures quiet { 1 ≤ result → result ≤ 2 → Keeps (W.contents output.old) (W.contents output.new) }
    ensures prints { result ≡ 0 → IsOkAnd answer.entry (λ line.
        Appends (W.contents output.old) (W.contents output.new) (string_bytes line ++ 10 ∷ []) × Keeps (E.contents errors.old) (E.contents errors.new)) }
    ensures exact { (expected : Expected Text) → Meets string_bytes expected answer.entry
        → IsEnd expected result (streams (W.contents output.old) (W.contents output.new) (E.contents errors.old) (E.contents errors.new)) }
{
    let line = match answer {
        Ok(line) => line,
        Err(fault) => return report(alloc, fault, errors),
    };
    match print_line(line, output) {
        Ok(()) => 0,
        Err(fault) => report(alloc, fault, errors),
    }
}

// What is said where `clap` takes no words: its text. Where it doesn't know one of them, this may be the
// argument to an option, since it takes each word that begins with a hyphen for an option: a line says how
// such an argument is given.
fn refusal_text(alloc: Global, error: &clap::Error) -> Result<String, AllocError> {
    if error.kind() == ErrorKind::UnknownArgument {
        return format!(in alloc;
            "{error}\nAn argument to an option that begins with - needs =, as --types=\"$(cat FILE)\".\n"
        );
    }
    format!(in alloc; "{error}")
}

/// Writes in one call what is said where `clap` takes no words: help to the output with status 0, and all
/// else to the errors with status 2. Where memory was refused, or the output fails, it writes the line of
/// that fault. Returns the status.
pub fn refused<W: Write, E: Write>(
    alloc: Global,
    error: &clap::Error,
    output: &mut W,
    errors: &mut E,
) -> u8
    ensures memory { kind_of error.now ≡ OutOfMemory → result ≡ 3 }
    ensures quiet { 1 ≤ result → result ≤ 2
        → Keeps (W.contents output.old) (W.contents output.new) }
    ensures most { result ≤ 3 }
    // Only help and the version have status 0, and then nothing is on the errors.
    ensures shows { result ≡ 0 → (kind_of error.now ≡ DisplayHelp) ⊎ (kind_of error.now ≡ DisplayVersion) }
    ensures alone { result ≡ 0 → Keeps (E.contents errors.old) (E.contents errors.new) }
    // The line where memory was refused, and where the output failed.
    ensures kept { kind_of error.now ≡ OutOfMemory → Keeps (W.contents output.old) (W.contents output.new) }
    ensures line { kind_of error.now ≡ OutOfMemory
        → Reports Fault.Memory 3 (E.contents errors.old) (E.contents errors.new) }
    ensures failed { result ≡ 3 → (Reports Fault.Memory 3 (E.contents errors.old) (E.contents errors.new))
        ⊎ (Reports Fault.Output 3 (E.contents errors.old) (E.contents errors.new)) }
    ensures words { 1 ≤ result → result ≤ 2 → result ≡ 2 }
{
    if error.kind() == ErrorKind::OutOfMemory {
        return report(alloc, Fault::Memory, errors);
    }
    let Ok(text) = refusal_text(alloc, error) else {
        return report(alloc, Fault::Memory, errors);
    };
    if error.use_stderr() {
        put_all(text.as_bytes(), errors);
        return 2;
    }
    if !put_all(text.as_bytes(), output) || output.flush().is_err() {
        return report(alloc, Fault::Output, errors);
    }
    0
}

/// Runs the command: `words` are the arguments, the program's name first. Returns the status of the program.
pub fn run<R: Read, W: Write, E: Write>(
    alloc: Global,
    words: &[String],
    input: &mut R,
    output: &mut W,
    errors: &mut E,
) -> u8
    ensures quiet { 1 ≤ result → result ≤ 2
        → Keeps (W.contents output.old) (W.contents output.new) }
    ensures prints { takes oer (map string_bytes words.now) ≡ true → result ≡ 0
        → Prints (map string_bytes words.now) (R.remaining input.old)
        (W.contents output.old) (W.contents output.new)
        (E.contents errors.old) (E.contents errors.new) }
    // It refuses only where there is no answer.
    ensures refuses { takes oer (map string_bytes words.now) ≡ true → 1 ≤ result → result ≤ 2
        → NoLineAsked (map string_bytes words.now) (R.remaining input.old) }
    ensures statuses { result ≤ 3 }
    // The status, and what stands on the output and the errors, is what plain functions of the words and
    // the octets say, unless memory ran out or a device failed. Input that isn't needed is untouched.
    ensures exact { Ends (map string_bytes words.now) (R.remaining input.old) (input.new ≡ input.old) result
        (W.contents output.old) (W.contents output.new) (E.contents errors.old) (E.contents errors.new) }
    // How much of the input is taken. Where an error comes before the octets, or these are given, it is
    // untouched.
    ensures takes { TakesInput (map string_bytes words.now) (input.new ≡ input.old) result
        (R.remaining input.old) (R.remaining input.new) }
{
    let options = match parsed(alloc, words) {
        Ok(options) => options,
        Err(error) => return refused(alloc, &error, output, errors),
    };
    // The laws of the notation: where the answer is a refusal there is no line, of no type that the texts name.
    what_is_spelled_is_parsed();
    conclude(alloc, answer(alloc, options, input), output, errors)
}
