//! What is added to the error of a command.
ghost use Rattle.std.specs.Prelude.{◌≡◌, IfOk, List, None, Some, ℕ, option_map, string_bytes};
ghost use Rattle.oer_types.specs.Schema.{the_type};
ghost use Rattle.oer_options.specs.Words.{behind, texts_of};
ghost use Rattle.oer_cmd.specs.Types.{reads_types};
ghost use Rattle.oer_explain_cmd.specs.Adding.{Adds, asks, is_held, is_rejection, is_silent, items_behind, json_within, named_notes, notes_of, one_notes, own_notes, source_notes};

use oer_cmd::put_all;
use oer_explain::{
    defines, digits_notes, json_notes, type_json_notes, type_notes, types_json_notes, types_notes,
};
use oer_options::{Options, Task};
use oer_types::Schema;
use std::alloc::{AllocError, Global};
use std::io::Write;

/// The command that is explained.
#[derive(Clone, Copy)]
pub enum Command<'a> {
    /// That of the words.
    Usual,
    /// `check --canonical`.
    Canonical,
    /// `part --at` with these names.
    At(&'a str),
}

impl Command<'_> {
    // Whether the task is one of the command, so that it looks at the type.
    fn asks(self, task: Task<'_>) -> bool
        ensures { result ≡ asks self.entry task.entry }
    {
        match self {
            Command::Usual | Command::Canonical => true,
            Command::At(_) => matches!(task, Task::Part { path: None, .. }),
        }
    }
}

// Whether the text of the definitions is read from the input, by the options on types.
fn reads_types(options: Options<'_>) -> bool
    ensures { result ≡ reads_types (texts_of options.entry) }
{
    match (options.type_text, options.types, options.name) {
        (None, Some(types), Some(_)) => types == "-",
        _ => false,
    }
}

/// Whether the command reads the text of definitions from the input.
pub fn is_held(command: Command<'_>, options: Options<'_>) -> bool
    ensures { result ≡ is_held command.entry options.entry }
{
    command.asks(options.task) && reads_types(options) && options.task.source().is_some()
}

// The JSON of the options, unless it is longer than the limit.
fn json_within(options: Options<'_>) -> Option<&str>
    ensures { option_map (λ s. s.now) result ≡ json_within options.entry }
{
    match options.task {
        Task::Make { json: Some(text) } if text.len() as u64 <= options.limit => Some(text),
        _ => None,
    }
}

// What is added where the octets of the options are rejected by themselves.
fn source_notes(alloc: Global, task: Task<'_>) -> Result<String, AllocError>
    ensures { IfOk result (λ notes. string_bytes notes ≡ source_notes task.entry) }
{
    if let Task::Make { .. } = task {
        return Ok(String::new(alloc));
    }
    match task.source() {
        Some(digits) => digits_notes(alloc, digits),
        None => Ok(String::new(alloc)),
    }
}

// What is added to the error of a command by the text of one type.
fn one_notes(alloc: Global, text: &str, options: Options<'_>) -> Result<String, AllocError>
    ensures { IfOk result (λ notes. (at : ℕ) × (string_bytes notes ≡ one_notes at text.now options.entry)) }
{
    let notes = type_notes(alloc, text)?;
    if !notes.is_empty() {
        return Ok(notes);
    }
    match json_within(options) {
        Some(json) => type_json_notes(alloc, text, json.as_bytes()),
        None => source_notes(alloc, options.task),
    }
}

// What is added to the error of a command by the type that the Name has among the definitions of this text.
fn named_notes(
    alloc: Global,
    octets: &[u8],
    name: &str,
    options: Options<'_>,
) -> Result<String, AllocError>
    ensures { IfOk result (λ notes. (at : ℕ) × (string_bytes notes ≡ named_notes at octets.now name.now options.entry)) }
{
    let notes = types_notes(alloc, octets)?;
    if !notes.is_empty() || !defines(alloc, octets, name)? {
        return Ok(notes);
    }
    match json_within(options) {
        Some(json) => types_json_notes(alloc, octets, name, json.as_bytes()),
        None => source_notes(alloc, options.task),
    }
}

// Whether nothing is said: the command doesn't look at the type, or has to read its text, and none was held.
fn is_silent(command: Command<'_>, options: Options<'_>, held: Option<&[u8]>) -> bool
    ensures { result ≡ is_silent command.entry options.entry (items_behind held.entry) }
{
    !command.asks(options.task) || (reads_types(options) && held.is_none())
}

// What is added to the error of a command with these options, where this text of definitions was held.
fn notes_of(
    alloc: Global,
    command: Command<'_>,
    options: Options<'_>,
    held: Option<&[u8]>,
) -> Result<String, AllocError>
    ensures { IfOk result (λ notes. (at : ℕ) × (string_bytes notes ≡ notes_of at command.entry options.entry (items_behind held.entry))) }
{
    if is_silent(command, options, held) {
        return Ok(String::new(alloc));
    }
    match (options.type_text, options.types, options.name) {
        (Some(text), None, None) => one_notes(alloc, text, options),
        (None, Some(types), Some(name)) => match held {
            Some(octets) => named_notes(alloc, octets, name, options),
            None => named_notes(alloc, types.as_bytes(), name, options),
        },
        _ => Ok(String::new(alloc)),
    }
}

// What is added to the error of a command with these options by a type of modules.
fn own_notes(
    alloc: Global,
    command: Command<'_>,
    schema: &Schema,
    options: Options<'_>,
) -> Result<String, AllocError>
    ensures { IfOk result (λ notes. (at : ℕ) × (string_bytes notes ≡ own_notes at command.entry (the_type schema.now) options.entry)) }
{
    if !command.asks(options.task) {
        return Ok(String::new(alloc));
    }
    match json_within(options) {
        Some(json) => json_notes(alloc, schema, json.as_bytes()),
        None => source_notes(alloc, options.task),
    }
}

/// Whether the status is that of an error that isn't the machine's.
pub fn is_rejection(status: u8) -> bool
    ensures { result ≡ is_rejection status }
{
    status > 0 && status < 3
}

/// Writes what is added to the error of a command that ended with this status, in one call: nothing on another status than 1 and 2, or if
/// memory for it is refused. A failure to write it is ignored.
pub fn add<E: Write>(
    alloc: Global,
    status: u8,
    command: Command<'_>,
    options: Options<'_>,
    held: Option<&[u8]>,
    errors: &mut E,
)
    ensures { (at : ℕ) × Adds (notes_of at command.entry options.entry (items_behind held.entry)) status
        (E.contents errors.old) (E.contents errors.new) }
{
    if !is_rejection(status) {
        return;
    }
    if let Ok(notes) = notes_of(alloc, command, options, held) {
        put_all(notes.as_bytes(), errors);
    }
}

/// Writes what is added by a type of modules, as `add` does.
pub fn add_for<E: Write>(
    alloc: Global,
    status: u8,
    command: Command<'_>,
    schema: &Schema,
    options: Options<'_>,
    errors: &mut E,
)
    ensures { (at : ℕ) × Adds (own_notes at command.entry (the_type schema.now) options.entry) status
        (E.contents errors.old) (E.contents errors.new) }
{
    if !is_rejection(status) {
        return;
    }
    if let Ok(notes) = own_notes(alloc, command, schema, options) {
        put_all(notes.as_bytes(), errors);
    }
}
