//! Whether `part` comes to read octets from the input: `--path` spells a path, or the names of `--at` lead to a part of the type.
ghost use Rattle.std.specs.Prelude.{◌≡◌, IfOk, None, true};
ghost use Rattle.oer_types.specs.Schema.{the_type};
ghost use Rattle.oer_cmd.specs.Answer.{HasPath};
ghost use Rattle.oer_options.specs.Words.{behind, texts_of};
ghost use Rattle.oer_explain_cmd.specs.Found.{type_by};
ghost use Rattle.oer_explain_cmd.specs.Leading.{HasHops, Leads, LeadsBy};

use crate::adding::Command;
use crate::found::found_by;
use oer_at::{HopsFault, hops, names_in};
use oer_options::{Options, Task};
use oer_parts::{PathFault, read_path};
use oer_types::Schema;
use std::alloc::{AllocError, Global};

// Whether the text of `--path` spells a path, or there is none.
fn has_path(alloc: Global, path: Option<&str>) -> Result<bool, AllocError>
    ensures { IfOk result (λ has. has ≡ true → HasPath (behind path.entry)) }
{
    let Some(text) = path else {
        return Ok(true);
    };
    match read_path(alloc, text) {
        Ok(_) => Ok(true),
        Err(PathFault::Memory) => Err(AllocError),
        Err(PathFault::Form) => Ok(false),
    }
}

// Whether the names lead to a part of the type.
fn has_hops(alloc: Global, schema: &Schema, names: &str) -> Result<bool, AllocError>
    ensures { IfOk result (λ has. has ≡ true → HasHops (the_type schema.now) names.now) }
{
    let names = names_in(alloc, names)?;
    match hops(alloc, schema, &names) {
        Ok(_) => Ok(true),
        Err(HopsFault::Memory) => Err(AllocError),
        Err(HopsFault::Name(_)) => Ok(false),
    }
}

/// Whether the command is `part`, and comes to read octets from the input by this type. It fails where an allocation does.
pub fn leads(
    alloc: Global,
    command: Command<'_>,
    schema: &Schema,
    task: Task<'_>,
) -> Result<bool, AllocError>
    ensures { IfOk result (λ leads. leads ≡ true → Leads command.entry (the_type schema.now) task.entry) }
{
    match (command, task) {
        (Command::Usual, Task::Part { hex: None, path }) => has_path(alloc, path),
        (
            Command::At(names),
            Task::Part {
                hex: None,
                path: None,
            },
        ) => has_hops(alloc, schema, names),
        _ => Ok(false),
    }
}

/// The same by the type that the options name.
pub fn leads_by(
    alloc: Global,
    command: Command<'_>,
    options: Options<'_>,
) -> Result<bool, AllocError>
    ensures { IfOk result (λ leads. leads ≡ true → LeadsBy command.entry (type_by (texts_of options.entry) None) options.entry.task) }
{
    if !matches!(options.task, Task::Part { hex: None, .. }) {
        return Ok(false);
    }
    let found = found_by(alloc, options, None)?;
    match found.schema() {
        Some(schema) => leads(alloc, command, schema, options.task),
        None => Ok(false),
    }
}
