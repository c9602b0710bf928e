//! The answer to a message that stands right behind the one before it.
ghost use Rattle.std.specs.Prelude.{◌≡◌, ◌≤◌, ◌∷◌, [], List, IfOk, length, string_bytes};
ghost use Rattle.oer_model.specs.Parts.{Step};
ghost use Rattle.oer_types.specs.Schema.{the_type};
ghost use Rattle.oer_cmd.specs.Answer.{IsPathOf};
ghost use Rattle.oer_cmd.specs.Expected.{Expected, Meets};
ghost use Rattle.oer_lines_cmd.specs.Answers.{Answered, to_piece};
ghost use Rattle.oer_lines_cmd.specs.Reading.{count_of, piece_of};
ghost use Rattle.oer_lines_cmd.specs.Stream.{piece_answer, reads_first};
ghost use Rattle.oer_lines_cmd.specs.Tasks.{path_of};

use crate::answer::{put_answer, told_line};
use crate::failure::Failure;
use crate::frame::long_fault;
use crate::pieces::Piece;
use crate::task::{Asked, LineTask};
use crate::way::Place;
use oer_cmd::Fault;
use oer_types::Schema;
use std::alloc::Global;
use std::io::Write;

// Whether a run reads all octets before it looks at them.
fn reads_first(asked: Asked<'_>) -> bool
    ensures { result ≡ reads_first asked.entry.tells_nesting asked.entry.task }
{
    match asked.task {
        LineTask::Show { .. } | LineTask::Canon => asked.tells_nesting,
        LineTask::Check | LineTask::Part { .. } => true,
    }
}

// The line of the task for what stands at the front of these octets; or the fault, as it is told.
fn piece_line<'a>(
    alloc: Global,
    schema: &Schema,
    asked: Asked<'a>,
    piece: Piece,
    octets: &[u8],
) -> Result<String, Fault<'a>>
    requires { count_of piece ≤ length octets.now }
    ensures { (path : Expected (List Step)) → IsPathOf (path_of asked.entry.task) path → Meets string_bytes
        (piece_answer asked.entry.tells_nesting asked.entry.task (the_type schema.now) asked.entry.limit path (piece_of octets.now piece)) result }
{
    match piece {
        Piece::Message(count) => told_line(alloc, schema, asked, &octets[..count]),
        Piece::Rejected(count) => told_line(alloc, schema, asked, &octets[..count]),
        Piece::Long(count) => {
            if reads_first(asked) {
                return Err(long_fault(alloc, asked));
            }
            told_line(alloc, schema, asked, &octets[..count])
        }
    }
}

/// Writes the answer to the message of this number, which is this piece at the front of the octets: its line to the output, which is
/// flushed, and where it is rejected what is said of that, to the errors too. Returns the status.
///
/// # Errors
/// Output, if the output fails; Memory, if an allocation does.
pub fn answer_piece<W: Write, E: Write>(
    alloc: Global,
    schema: &Schema,
    asked: Asked<'_>,
    number: u64,
    piece: Piece,
    octets: &[u8],
    output: &mut W,
    errors: &mut E,
) -> Result<u8, Failure>
    requires { count_of piece ≤ length octets.now }
    ensures exact { (path : Expected (List Step)) → IsPathOf (path_of asked.entry.task) path
        → Answered (to_piece (piece_answer asked.entry.tells_nesting asked.entry.task (the_type schema.now) asked.entry.limit path) number
        (piece_of octets.now piece)) result
        record { output = W.contents output.old; output' = W.contents output.new; errors = E.contents errors.old; errors' = E.contents errors.new } }
    ensures statuses { IfOk result (λ status. status ≤ 2) }
{
    let answer = piece_line(alloc, schema, asked, piece, octets);
    put_answer(alloc, Place::Message(number), answer, output, errors)
}
