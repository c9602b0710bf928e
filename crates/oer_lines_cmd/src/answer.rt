//! The answer to one message.
ghost use Rattle.std.specs.Prelude.{◌≡◌, ◌≤◌, ◌∷◌, ◌++◌, [], List, IfOk, string_bytes};
ghost use Rattle.oer_model.specs.Parts.{Step};
ghost use Rattle.oer_types.specs.Schema.{the_type};
ghost use Rattle.oer_cmd.specs.Answer.{IsPathOf};
ghost use Rattle.oer_cmd.specs.Expected.{Expected, Meets};
ghost use Rattle.oer_lines_cmd.specs.Answers.{rejected_text, rejection_at};
ghost use Rattle.oer_lines_cmd.specs.Answering.{Put, Puts, Rejected, refusal_by};
ghost use Rattle.oer_lines_cmd.specs.Tasks.{octets_answer, octets_told, path_of};

use crate::failure::Failure;
use crate::rejection::Rejection;
use crate::task::Asked;
use crate::way::Place;
use oer_cmd::{Fault, line_of, print_line, put_all};
use oer_ends_cmd::told;
use oer_types::Schema;
use std::alloc::{AllocError, Global};
use std::io::Write;

// The line of the task for a message of these octets.
fn octets_line<'a>(
    alloc: Global,
    schema: &Schema,
    asked: Asked<'a>,
    octets: &[u8],
) -> Result<String, Fault<'a>>
    ensures { (path : Expected (List Step)) → IsPathOf (path_of asked.entry.task) path
        → Meets string_bytes (octets_answer asked.entry.task (the_type schema.now) asked.entry.limit path octets.now) result }
{
    let mut reader = octets;
    line_of(alloc, schema, asked.on_input(), &mut reader)
}

/// The line of the task for a message of these octets; or the fault, as it is told.
pub fn told_line<'a>(
    alloc: Global,
    schema: &Schema,
    asked: Asked<'a>,
    octets: &[u8],
) -> Result<String, Fault<'a>>
    ensures { (path : Expected (List Step)) → IsPathOf (path_of asked.entry.task) path → Meets string_bytes
        (octets_told asked.entry.tells_nesting asked.entry.task (the_type schema.now) asked.entry.limit path octets.now) result }
{
    let fault = match octets_line(alloc, schema, asked, octets) {
        Ok(line) => return Ok(line),
        Err(fault) => fault,
    };
    if !asked.tells_nesting {
        return Err(fault);
    }
    Err(told(alloc, schema, asked.limit, octets, fault))
}

// Writes the line and its line feed in one call, and flushes.
fn put_line<W: Write>(line: String, output: &mut W) -> Result<(), Failure>
    ensures { Put (string_bytes line ++ 10 ∷ []) (W.contents output.old) (W.contents output.new) result }
{
    match print_line(line, output) {
        Ok(()) => Ok(()),
        Err(Fault::Memory) => Err(Failure::Memory),
        Err(_) => Err(Failure::Output),
    }
}

// What stands on the output in place of a line.
fn rejected_line(alloc: Global, why: Rejection<'_>) -> Result<String, AllocError>
    ensures { IfOk result (λ line. string_bytes line ≡ rejected_text (refusal_by why.entry).text) }
{
    format!(in alloc; "! {why}")
}

// What stands on the errors, with its line feed.
fn rejection_at(alloc: Global, place: Place, why: Rejection<'_>) -> Result<String, AllocError>
    ensures { IfOk result (λ line. string_bytes line ≡ rejection_at place (refusal_by why.entry).text) }
{
    format!(in alloc; "oer: {place}: {why}\n")
}

/// Writes that the message of this place is rejected, to the output and then to the errors, whose failure is ignored. The status.
///
/// # Errors
/// Output, if the output fails; Memory, if an allocation does.
pub fn reject<W: Write, E: Write>(
    alloc: Global,
    place: Place,
    why: Rejection<'_>,
    output: &mut W,
    errors: &mut E,
) -> Result<u8, Failure>
    ensures { Rejected place (refusal_by why.entry) result (W.contents output.old) (W.contents output.new)
        (E.contents errors.old) (E.contents errors.new) }
{
    let Ok(line) = rejected_line(alloc, why) else {
        return Err(Failure::Memory);
    };
    if let Err(failure) = put_line(line, output) {
        return Err(failure);
    }
    let Ok(line) = rejection_at(alloc, place, why) else {
        return Err(Failure::Memory);
    };
    put_all(line.as_bytes(), errors);
    Ok(why.status())
}

/// Writes the answer to the message of this place: its line to the output, which is flushed, and where it is rejected what is said of
/// that, to the errors too. Returns the status.
///
/// # Errors
/// Output, if the output fails; Memory, if an allocation does; and how the machine failed, if the answer tells that it did.
pub fn put_answer<W: Write, E: Write>(
    alloc: Global,
    place: Place,
    answer: Result<String, Fault<'_>>,
    output: &mut W,
    errors: &mut E,
) -> Result<u8, Failure>
    ensures exact { Puts place answer.entry result
        record { output = W.contents output.old; output' = W.contents output.new; errors = E.contents errors.old; errors' = E.contents errors.new } }
    ensures statuses { IfOk result (λ status. status ≤ 2) }
{
    let fault = match answer {
        Ok(line) => {
            return match put_line(line, output) {
                Ok(()) => Ok(0),
                Err(failure) => Err(failure),
            };
        }
        Err(fault) => fault,
    };
    match Failure::of(fault) {
        Some(failure) => Err(failure),
        None => reject(alloc, place, Rejection::Told(fault), output, errors),
    }
}
