//! The answer to a message behind its length.
ghost use Rattle.std.specs.Prelude.{◌≤◌, List, Err, IfOk, String, string_bytes};
ghost use Rattle.std.specs.Global.{Global};
ghost use Rattle.oer_model.specs.Parts.{Step};
ghost use Rattle.oer_types.specs.Schema.{the_type};
ghost use Rattle.oer_cmd.specs.Answer.{IsPathOf};
ghost use Rattle.oer_cmd.specs.Expected.{Expected, Meets};
ghost use Rattle.oer_lines_cmd.specs.Answers.{Answered, to_taken};
ghost use Rattle.oer_lines_cmd.specs.Tasks.{long_answer, octets_told, path_of};

use crate::answer::{put_answer, reject, told_line};
use crate::failure::Failure;
use crate::frames::Taken;
use crate::rejection::Rejection;
use crate::task::{Asked, LineTask};
use crate::way::Place;
use oer_cmd::Fault;
use oer_parts::{PathFault, read_path};
use oer_types::Schema;
use std::alloc::Global;
use std::io::Write;

/// Why a message longer than the limit is rejected. The path is looked at first.
pub fn long_fault<'a>(alloc: Global, asked: Asked<'a>) -> Fault<'a>
    ensures { (path : Expected (List Step)) → IsPathOf (path_of asked.entry.task) path
        → Meets {X = String Global} string_bytes (long_answer asked.entry.task asked.entry.limit path) (Err result) }
{
    let LineTask::Part { path } = asked.task else {
        return Fault::Longer(asked.limit);
    };
    let Some(text) = path else {
        return Fault::Longer(asked.limit);
    };
    let fault = match read_path(alloc, text) {
        Ok(_) => return Fault::Longer(asked.limit),
        Err(fault) => fault,
    };
    match fault {
        PathFault::Memory => Fault::Memory,
        PathFault::Form => Fault::Path,
    }
}

/// Writes the answer to the message of this number, if there is one, where this was taken, and these are its octets if it is whole: its
/// line to the output, which is flushed, and where it is rejected what is said of that, to the errors too. Returns the status.
///
/// # Errors
/// Output, if the output fails; Memory, if an allocation does.
pub fn answer_frame<W: Write, E: Write>(
    alloc: Global,
    schema: &Schema,
    asked: Asked<'_>,
    number: u64,
    taken: Taken,
    octets: &[u8],
    output: &mut W,
    errors: &mut E,
) -> Result<u8, Failure>
    ensures exact { (path : Expected (List Step)) → IsPathOf (path_of asked.entry.task) path
        → Answered (to_taken (octets_told asked.entry.tells_nesting asked.entry.task (the_type schema.now) asked.entry.limit path)
        (long_answer asked.entry.task asked.entry.limit path) number taken octets.now) result
        record { output = W.contents output.old; output' = W.contents output.new; errors = E.contents errors.old; errors' = E.contents errors.new } }
    ensures statuses { IfOk result (λ status. status ≤ 2) }
{
    let place = Place::Message(number);
    match taken {
        Taken::End => Ok(0),
        Taken::Whole => {
            let answer = told_line(alloc, schema, asked, octets);
            put_answer(alloc, place, answer, output, errors)
        }
        Taken::Long => put_answer(alloc, place, Err(long_fault(alloc, asked)), output, errors),
        Taken::Cut(there) => reject(alloc, place, Rejection::Cut(there), output, errors),
    }
}
