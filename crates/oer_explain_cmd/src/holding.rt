//! JSON or octets on the input, all of which the command reads, and which are held while it runs.
ghost use Rattle.std.specs.Prelude.{◌≡◌, ℕ, IfOk, false, string_bytes, true};
ghost use Rattle.oer_types.specs.Schema.{the_type};
ghost use Rattle.oer_options.specs.Words.{texts_of};
ghost use Rattle.oer_explain.specs.Json.{json_notes};
ghost use Rattle.oer_explain_cmd.specs.Adding.{Adds};
ghost use Rattle.oer_explain_cmd.specs.Holding.{AddsHeld, AddsHeldFor, HoldsAll, HoldsAllFor, read_notes, reads_all, reads_all_for, takes_all};

use crate::adding::{Command, is_rejection};
use crate::leading::{leads, leads_by};
use crate::looking::{is_accepted, reads_octets};
use crate::saying::{add_octets, add_octets_for};
use oer_cmd::put_all;
use oer_ends::has_end;
use oer_explain::{json_notes, type_json_notes, types_json_notes};
use oer_options::{Options, Task};
use oer_types::Schema;
use std::alloc::{AllocError, Global};
use std::io::Write;

// Whether the task takes JSON from the input, or all octets before it looks at them.
fn takes_all(task: Task<'_>) -> bool
    ensures { result ≡ takes_all task.entry }
{
    matches!(task, Task::Make { json: None } | Task::Check { hex: None })
}

// Whether the command does, where its type is accepted. `part` comes to read octets only by its path or names.
fn reads_all(command: Command<'_>, task: Task<'_>) -> bool
    ensures { result ≡ reads_all command.entry task.entry }
{
    match command {
        Command::Usual | Command::Canonical => takes_all(task),
        Command::At(_) => false,
    }
}

// Whether the command does by a type of modules.
fn reads_all_for(command: Command<'_>, schema: &Schema, task: Task<'_>) -> bool
    ensures { result ≡ reads_all_for command.entry (the_type schema.now) task.entry }
{
    reads_all(command, task) || (reads_octets(command, task) && has_end(schema.shape()))
}

// Whether the command comes to read all of the input.
fn holds(alloc: Global, command: Command<'_>, options: Options<'_>) -> Result<bool, AllocError>
    ensures { IfOk result (λ holds. holds ≡ true → HoldsAll command.entry options.entry) }
{
    if reads_all(command, options.task) {
        return is_accepted(alloc, options);
    }
    leads_by(alloc, command, options)
}

/// Whether the input may be read before the command runs, and be held: it comes to read all of it. Not so if memory to find out is refused.
pub fn holds_all(alloc: Global, command: Command<'_>, options: Options<'_>) -> bool
    ensures { result ≡ true → HoldsAll command.entry options.entry }
{
    holds(alloc, command, options).unwrap_or(false)
}

/// The same by a type of modules.
pub fn holds_all_for(alloc: Global, command: Command<'_>, schema: &Schema, task: Task<'_>) -> bool
    ensures held { result ≡ true → HoldsAllFor command.entry (the_type schema.now) task.entry }
    ensures others { result ≡ false → reads_all_for command.entry (the_type schema.now) task.entry ≡ false }
{
    reads_all_for(command, schema, task) || leads(alloc, command, schema, task).unwrap_or(false)
}

// What is added to the error of a command where the input had this JSON.
fn read_notes(alloc: Global, options: Options<'_>, octets: &[u8]) -> Result<String, AllocError>
    ensures { IfOk result (λ notes. (at : ℕ) × (string_bytes notes ≡ read_notes at (texts_of options.entry) octets.now)) }
{
    match (options.type_text, options.types, options.name) {
        (Some(text), None, None) => type_json_notes(alloc, text, octets),
        (None, Some(types), Some(name)) => types_json_notes(alloc, types.as_bytes(), name, octets),
        _ => Ok(String::new(alloc)),
    }
}

// Writes what is added to the error of a command that ended with this status, and whose input had this JSON, as `add` does.
fn add_read<E: Write>(
    alloc: Global,
    status: u8,
    options: Options<'_>,
    octets: &[u8],
    errors: &mut E,
)
    ensures { (at : ℕ) × Adds (read_notes at (texts_of options.entry) octets.now) status (E.contents errors.old) (E.contents errors.new) }
{
    if !is_rejection(status) {
        return;
    }
    if let Ok(notes) = read_notes(alloc, options, octets) {
        put_all(notes.as_bytes(), errors);
    }
}

// The same by a type of modules.
fn add_read_for<E: Write>(alloc: Global, status: u8, schema: &Schema, octets: &[u8], errors: &mut E)
    ensures { (at : ℕ) × Adds (json_notes at (the_type schema.now) octets.now) status (E.contents errors.old) (E.contents errors.new) }
{
    if !is_rejection(status) {
        return;
    }
    if let Ok(notes) = json_notes(alloc, schema, octets) {
        put_all(notes.as_bytes(), errors);
    }
}

/// Writes what is added to the error of a command that ended with this status, and whose input had these octets, or this JSON, all of it, as `add`
/// does.
pub fn add_held<E: Write>(
    alloc: Global,
    status: u8,
    options: Options<'_>,
    octets: &[u8],
    errors: &mut E,
)
    ensures { AddsHeld options.entry.task options.entry octets.now status (E.contents errors.old) (E.contents errors.new) }
{
    match options.task {
        Task::Make { .. } => add_read(alloc, status, options, octets, errors),
        _ => add_octets(alloc, status, options, true, octets, errors),
    }
}

/// The same by a type of modules.
pub fn add_held_for<E: Write>(
    alloc: Global,
    status: u8,
    schema: &Schema,
    options: Options<'_>,
    octets: &[u8],
    errors: &mut E,
)
    ensures { AddsHeldFor options.entry.task (the_type schema.now) options.entry octets.now status (E.contents errors.old) (E.contents errors.new) }
{
    match options.task {
        Task::Make { .. } => add_read_for(alloc, status, schema, octets, errors),
        _ => add_octets_for(alloc, status, schema, options, true, octets, errors),
    }
}
