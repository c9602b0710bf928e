//! The command with `--explain`.
ghost use Rattle.std.specs.Prelude.{◌≡◌, ◌≢◌, ◌≤◌, Some, None, IfErr, IfOk, IfSome, List, ℕ, map, string_bytes, false};
ghost use Rattle.oer_checker.specs.Check.{most};
ghost use Rattle.oer_types.specs.Schema.{the_type};
ghost use Rattle.oer_cmd.specs.Octets.{IsTooLong};
ghost use Rattle.oer_explain_cmd.specs.Adding.{is_held};
ghost use Rattle.oer_explain_cmd.specs.Ending.{EndsWithout, EndsWithoutFor, Explains, ExplainsFor, Holds, HoldsFor, IsHeld, Looks, LooksFor};

use crate::adding::{Command, is_held};
use crate::holding::{add_held, add_held_for, holds_all, holds_all_for};
use crate::looking::{looks_first, reads_octets};
use crate::saying::{add_front, add_front_for, explain, explain_for};
use oer_at_cmd::{run_at, run_at_for};
use oer_canonical_cmd::{run_canonical, run_canonical_for};
use oer_cmd::{Fault, all_octets, refused, report, run};
use oer_ends_cmd::run_for;
use oer_options::{Options, parsed};
use oer_places::ready;
use oer_types::Schema;
use std::alloc::Global;
use std::io::{BufRead, Read, Write};

// Runs the command without the option. The status.
fn run_without<R: Read, W: Write, E: Write>(
    alloc: Global,
    command: Command<'_>,
    words: &[String],
    input: &mut R,
    output: &mut W,
    errors: &mut E,
) -> u8
    ensures ends { EndsWithout command.entry (map string_bytes words.now) (R.remaining input.old) (input.new ≡ input.old) result
        (W.contents output.old) (W.contents output.new) (E.contents errors.old) (E.contents errors.new) }
    ensures statuses { result ≤ 3 }
{
    match command {
        Command::Usual => run(alloc, words, input, output, errors),
        Command::Canonical => run_canonical(alloc, words, input, output, errors),
        Command::At(names) => run_at(alloc, names, words, input, output, errors),
    }
}

// The text of definitions, where the command reads it from the input: all that this has left. It fails as the command does.
fn held_types<'a, R: Read>(
    alloc: Global,
    command: Command<'_>,
    options: Options<'a>,
    input: &mut R,
) -> Result<Option<Vec<u8>>, Fault<'a>>
    ensures held { IfOk result (IsHeld (is_held command.entry options.entry) (R.remaining input.old) (input.new ≡ input.old)) }
    ensures lost { IfErr result (IsTooLong most None (R.remaining input.old)) }
{
    if !is_held(command, options) {
        return Ok(None);
    }
    match all_octets(alloc, None, input, u64::MAX) {
        Ok(octets) => Ok(Some(octets)),
        Err(fault) => Err(fault),
    }
}

// Looks at the input, runs the command, and explains its error. The status.
fn run_looking<R: BufRead, W: Write, E: Write>(
    alloc: Global,
    command: Command<'_>,
    words: &[String],
    options: Options<'_>,
    input: &mut R,
    output: &mut W,
    errors: &mut E,
) -> u8
    ensures looks { Looks command.entry (map string_bytes words.now) options.entry (R.remaining input.old) result
        (W.contents output.old) (W.contents output.new) (E.contents errors.old) (E.contents errors.new) }
    ensures statuses { result ≤ 3 }
{
    let front = ready(alloc, input);
    let status = run_without(alloc, command, words, input, output, errors);
    add_front(alloc, status, options, front, errors);
    status
}

// Reads all of the input, runs the command on it, and explains its error. The status.
fn run_holding<R: Read, W: Write, E: Write>(
    alloc: Global,
    command: Command<'_>,
    words: &[String],
    options: Options<'_>,
    input: &mut R,
    output: &mut W,
    errors: &mut E,
) -> u8
    ensures holds { Holds command.entry (map string_bytes words.now) options.entry (R.remaining input.old) result
        (W.contents output.old) (W.contents output.new) (E.contents errors.old) (E.contents errors.new) }
    ensures statuses { result ≤ 3 }
{
    let octets = match all_octets(alloc, None, input, options.limit) {
        Ok(octets) => octets,
        Err(fault) => return report(alloc, fault, errors),
    };
    let mut reader = octets.as_slice();
    let status = run_without(alloc, command, words, &mut reader, output, errors);
    add_held(alloc, status, options, octets.as_slice(), errors);
    status
}

/// Runs the command and explains its error: `words` are the arguments without `--explain`, and without the option that the command stands
/// for, the program's name first. The text of definitions that the command reads from the input is held meanwhile, and so is JSON, and octets
/// that it reads whole; where it comes to read others from there, the input is looked at first. Returns the status of the program, which is that of the command.
pub fn run_explained<R: BufRead, W: Write, E: Write>(
    alloc: Global,
    command: Command<'_>,
    words: &[String],
    input: &mut R,
    output: &mut W,
    errors: &mut E,
) -> u8
    ensures exact { Explains command.entry (map string_bytes words.now) (R.remaining input.old) (input.new ≡ input.old) result
        (W.contents output.old) (W.contents output.new) (E.contents errors.old) (E.contents errors.new) }
    ensures statuses { result ≤ 3 }
{
    let options = match parsed(alloc, words) {
        Ok(options) => options,
        Err(error) => return refused(alloc, &error, output, errors),
    };
    if looks_first(alloc, command, options) {
        return run_looking(alloc, command, words, options, input, output, errors);
    }
    if holds_all(alloc, command, options) {
        return run_holding(alloc, command, words, options, input, output, errors);
    }
    let held = match held_types(alloc, command, options, input) {
        Ok(held) => held,
        Err(fault) => return report(alloc, fault, errors),
    };
    let Some(octets) = held else {
        let status = run_without(alloc, command, words, input, output, errors);
        explain(alloc, status, command, options, None, errors);
        return status;
    };
    let mut reader = octets.as_slice();
    let status = run_without(alloc, command, words, &mut reader, output, errors);
    explain(
        alloc,
        status,
        command,
        options,
        Some(octets.as_slice()),
        errors,
    );
    status
}

// Runs the command without the option, by a type of modules. The status.
fn run_without_for<R: Read, W: Write, E: Write>(
    alloc: Global,
    command: Command<'_>,
    schema: &Schema,
    words: &[String],
    input: &mut R,
    output: &mut W,
    errors: &mut E,
) -> u8
    ensures ends { EndsWithoutFor command.entry (the_type schema.now) (map string_bytes words.now) (R.remaining input.old) (input.new ≡ input.old) result
        (W.contents output.old) (W.contents output.new) (E.contents errors.old) (E.contents errors.new) }
    ensures statuses { result ≤ 3 }
{
    match command {
        Command::Usual => run_for(alloc, schema, words, input, output, errors),
        Command::Canonical => run_canonical_for(alloc, schema, words, input, output, errors),
        Command::At(names) => run_at_for(alloc, schema, names, words, input, output, errors),
    }
}

// Looks at the input and runs the command by a type of modules, as `run_looking` does. The status.
fn run_looking_for<R: BufRead, W: Write, E: Write>(
    alloc: Global,
    command: Command<'_>,
    schema: &Schema,
    words: &[String],
    options: Options<'_>,
    input: &mut R,
    output: &mut W,
    errors: &mut E,
) -> u8
    ensures looks { LooksFor command.entry (the_type schema.now) (map string_bytes words.now) options.entry (R.remaining input.old) result
        (W.contents output.old) (W.contents output.new) (E.contents errors.old) (E.contents errors.new) }
    ensures statuses { result ≤ 3 }
{
    let front = ready(alloc, input);
    let status = run_without_for(alloc, command, schema, words, input, output, errors);
    add_front_for(alloc, status, schema, options, front, errors);
    status
}

// Reads all of the input, and runs the command on it by a type of modules, as `run_holding` does. The status.
fn run_holding_for<R: Read, W: Write, E: Write>(
    alloc: Global,
    command: Command<'_>,
    schema: &Schema,
    words: &[String],
    options: Options<'_>,
    input: &mut R,
    output: &mut W,
    errors: &mut E,
) -> u8
    ensures holds { HoldsFor command.entry (the_type schema.now) (map string_bytes words.now) options.entry (R.remaining input.old) result
        (W.contents output.old) (W.contents output.new) (E.contents errors.old) (E.contents errors.new) }
    ensures statuses { result ≤ 3 }
{
    let octets = match all_octets(alloc, None, input, options.limit) {
        Ok(octets) => octets,
        Err(fault) => return report(alloc, fault, errors),
    };
    let mut reader = octets.as_slice();
    let status = run_without_for(alloc, command, schema, words, &mut reader, output, errors);
    add_held_for(alloc, status, schema, options, octets.as_slice(), errors);
    status
}

/// Runs the command for a type of modules and explains its error, as `run_explained` does for the type that the words name; those on types
/// count for nothing.
pub fn run_explained_for<R: BufRead, W: Write, E: Write>(
    alloc: Global,
    command: Command<'_>,
    schema: &Schema,
    words: &[String],
    input: &mut R,
    output: &mut W,
    errors: &mut E,
) -> u8
    ensures exact { ExplainsFor command.entry (the_type schema.now) (map string_bytes words.now) (R.remaining input.old) (input.new ≡ input.old) result
        (W.contents output.old) (W.contents output.new) (E.contents errors.old) (E.contents errors.new) }
    ensures statuses { result ≤ 3 }
{
    let options = match parsed(alloc, words) {
        Ok(options) => options,
        Err(error) => return refused(alloc, &error, output, errors),
    };
    if holds_all_for(alloc, command, schema, options.task) {
        return run_holding_for(
            alloc, command, schema, words, options, input, output, errors,
        );
    }
    if reads_octets(command, options.task) {
        return run_looking_for(
            alloc, command, schema, words, options, input, output, errors,
        );
    }
    let status = run_without_for(alloc, command, schema, words, input, output, errors);
    explain_for(alloc, status, command, schema, options, errors);
    status
}
