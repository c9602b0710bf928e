//! Octets on the input, which is looked at before the command runs.
ghost use Rattle.std.specs.Prelude.{◌≡◌, IfOk, true};
ghost use Rattle.oer_options.specs.Words.{texts_of};
ghost use Rattle.oer_explain_cmd.specs.Looking.{is_accepted, looks_first, reads_octets, takes_octets};

use crate::adding::Command;
use oer_explain::{defines, is_type};
use oer_options::{Options, Task};
use std::alloc::{AllocError, Global};

// Whether the task reads a value from the input.
fn takes_octets(task: Task<'_>) -> bool
    ensures { result ≡ takes_octets task.entry }
{
    match task {
        Task::Show { hex, .. } | Task::Canon { hex } => hex.is_none(),
        Task::Check { .. } | Task::Make { .. } | Task::Part { .. } => false,
    }
}

/// Whether the command does, where its type is accepted. Of `part` nothing is said.
pub fn reads_octets(command: Command<'_>, task: Task<'_>) -> bool
    ensures { result ≡ reads_octets command.entry task.entry }
{
    match command {
        Command::Usual | Command::Canonical => takes_octets(task),
        Command::At(_) => false,
    }
}

/// Whether the options name a type, in a text that is accepted. It fails where an allocation does.
pub fn is_accepted(alloc: Global, options: Options<'_>) -> Result<bool, AllocError>
    ensures { IfOk result (λ found. found ≡ is_accepted (texts_of options.entry)) }
{
    match (options.type_text, options.types, options.name) {
        (Some(text), None, None) => is_type(alloc, text),
        (None, Some(types), Some(name)) => defines(alloc, types.as_bytes(), name),
        _ => Ok(false),
    }
}

/// Whether the input may be looked at before the command runs: it comes to read octets from there. Not so if memory to find out is refused.
pub fn looks_first(alloc: Global, command: Command<'_>, options: Options<'_>) -> bool
    ensures { result ≡ true → looks_first command.entry options.entry ≡ true }
{
    if !reads_octets(command, options.task) {
        return false;
    }
    match is_accepted(alloc, options) {
        Ok(is_accepted) => is_accepted,
        Err(_) => false,
    }
}
