//! The answer to the message on a line.
ghost use Rattle.std.specs.Prelude.{◌≤◌, List, IfOk, string_bytes};
ghost use Rattle.oer_model.specs.Parts.{Step};
ghost use Rattle.oer_types.specs.Schema.{the_type};
ghost use Rattle.oer_cmd.specs.Answer.{IsPathOf};
ghost use Rattle.oer_cmd.specs.Expected.{Expected, Meets};
ghost use Rattle.oer_lines_cmd.specs.Answers.{Answered, to_line};
ghost use Rattle.oer_lines_cmd.specs.Tasks.{answer_told, path_of};

use crate::answer::{put_answer, told_line};
use crate::failure::Failure;
use crate::reading::is_message;
use crate::task::Asked;
use crate::way::Place;
use oer_cmd::{Fault, spelt};
use oer_types::Schema;
use std::alloc::Global;
use std::io::Write;
use std::str;

// The line of the task for the message that these digits spell; or the fault, as it is told.
fn line_of_digits<'a>(
    alloc: Global,
    schema: &Schema,
    asked: Asked<'a>,
    digits: &str,
) -> Result<String, Fault<'a>>
    ensures { (path : Expected (List Step)) → IsPathOf (path_of asked.entry.task) path → Meets string_bytes
        (answer_told asked.entry.tells_nesting asked.entry.task (the_type schema.now) asked.entry.limit path digits.now) result }
{
    match spelt(alloc, Some(digits)) {
        Ok(Some(octets)) => told_line(alloc, schema, asked, octets.as_slice()),
        Ok(None) => unreachable!(),
        Err(fault) => Err(fault),
    }
}

// The same of a line, which may be no text.
fn line_of_message<'a>(
    alloc: Global,
    schema: &Schema,
    asked: Asked<'a>,
    line: &[u8],
) -> Result<String, Fault<'a>>
    ensures { (path : Expected (List Step)) → IsPathOf (path_of asked.entry.task) path → Meets string_bytes
        (answer_told asked.entry.tells_nesting asked.entry.task (the_type schema.now) asked.entry.limit path line.now) result }
{
    match str::from_utf8(line) {
        Ok(digits) => line_of_digits(alloc, schema, asked, digits),
        Err(_) => Err(Fault::Hex),
    }
}

/// Writes the answer to the message on the line of this number, if one is there: its line to the output, which is flushed, and where it
/// is rejected what is said of that, to the errors too. Returns the status.
///
/// # Errors
/// Output, if the output fails; Memory, if an allocation does.
pub fn answer_line<W: Write, E: Write>(
    alloc: Global,
    schema: &Schema,
    asked: Asked<'_>,
    number: u64,
    line: &[u8],
    output: &mut W,
    errors: &mut E,
) -> Result<u8, Failure>
    ensures exact { (path : Expected (List Step)) → IsPathOf (path_of asked.entry.task) path
        → Answered (to_line (answer_told asked.entry.tells_nesting asked.entry.task (the_type schema.now) asked.entry.limit path) number line.now) result
        record { output = W.contents output.old; output' = W.contents output.new; errors = E.contents errors.old; errors' = E.contents errors.new } }
    ensures statuses { IfOk result (λ status. status ≤ 2) }
{
    if !is_message(line) {
        return Ok(0);
    }
    let answer = line_of_message(alloc, schema, asked, line);
    put_answer(alloc, Place::Line(number), answer, output, errors)
}
