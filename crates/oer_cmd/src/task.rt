//! The line of a task.
ghost use Rattle.std.specs.Prelude.{◌≡◌, ℕ, List, Option, Some, None, IfOk, string_bytes};
ghost use Rattle.oer_model.specs.Parts.{Step};
ghost use Rattle.oer_types.specs.Schema.{the_type};
ghost use Rattle.oer_options.specs.Words.{kind, path_text, source_text};
ghost use Rattle.oer_cmd.specs.Answer.{HasNoPath, HasPath, IsPathOf, task_answer};
ghost use Rattle.oer_cmd.specs.Expected.{Expected, Says, SaysOf, stop};
ghost use Rattle.oer_cmd.specs.Taking.{GivesTask, status_after};

use crate::check::{check_digits, check_input};
use crate::fault::Fault;
use crate::make::{made_of_input, made_of_text};
use crate::part::{part_of_digits, part_of_input};
use crate::value::{Form, value_of_digits, value_of_input};
use oer_options::Task;
use oer_types::Schema;
use std::alloc::Global;
use std::io::Read;

/// The line of a task whose octets or JSON are given, by the text.
pub fn line_given<'a>(
    alloc: Global,
    schema: &Schema,
    task: Task<'_>,
    text: &str,
    limit: u64,
) -> Result<String, Fault<'a>>
    requires { source_text task ≡ Some text.now }
    ensures exact { (path : Expected (List Step)) → IsPathOf (path_text task.entry) path
        → Says string_bytes (task_answer task.entry (the_type schema.now) limit path None) result }
    ensures spells { IfOk result (λ line. HasPath (path_text task.entry)) }
{
    match task {
        Task::Show { style, .. } => {
            value_of_digits(alloc, schema, Form::Json(style), text, limit)
        }
        Task::Canon { .. } => value_of_digits(alloc, schema, Form::Octets, text, limit),
        Task::Check { .. } => check_digits(alloc, schema, text, limit),
        Task::Make { .. } => made_of_text(alloc, schema, text, limit),
        Task::Part { path, .. } => part_of_digits(alloc, schema, text, path, limit),
    }
}

/// The line of a task whose octets or JSON the input has.
pub fn line_read<'a, R: Read>(
    alloc: Global,
    schema: &Schema,
    task: Task<'_>,
    limit: u64,
    input: &mut R,
) -> Result<String, Fault<'a>>
    requires { source_text task ≡ None }
    ensures exact { (path : Expected (List Step)) → IsPathOf (path_text task.entry) path
        → (b : List ℕ) → R.remaining input.old ≡ Some b
        → SaysOf string_bytes b (task_answer task.entry (the_type schema.now) limit path (Some b)) result }
    ensures spells { IfOk result (λ line. HasPath (path_text task.entry)) }
    ensures takes { HasPath (path_text task.entry)
        → GivesTask (kind task.entry) (the_type schema.now) limit (status_after result) (R.remaining input.old) (R.remaining input.new) }
    ensures pathless { HasNoPath (path_text task.entry) → (input.new ≡ input.old) × Says string_bytes (stop Fault.Path) result }
{
    match task {
        Task::Show { style, .. } => {
            value_of_input(alloc, schema, Form::Json(style), input, limit)
        }
        Task::Canon { .. } => value_of_input(alloc, schema, Form::Octets, input, limit),
        Task::Check { .. } => check_input(alloc, schema, limit, input),
        Task::Make { .. } => made_of_input(alloc, schema, limit, input),
        Task::Part { path, .. } => part_of_input(alloc, schema, path, limit, input),
    }
}
