//! The answers to all messages.
ghost use Rattle.std.specs.Prelude.{◌≡◌, ◌≤◌, List, ℕ, IfOk, IfSome, max};
ghost use Rattle.oer_units.specs.Width.{octets_of_width};
ghost use Rattle.oer_model.specs.Parts.{Step};
ghost use Rattle.oer_types.specs.Schema.{the_type};
ghost use Rattle.oer_cmd.specs.Answer.{IsPathOf};
ghost use Rattle.oer_cmd.specs.Expected.{Expected};
ghost use Rattle.oer_lines_cmd.specs.Answers.{AnsweredAll, answers, framed_answers, line_answers, stream_answers};
ghost use Rattle.oer_lines_cmd.specs.Ending.{Runs};
ghost use Rattle.oer_lines_cmd.specs.Frames.{is_last};
ghost use Rattle.oer_lines_cmd.specs.Tasks.{path_of};

use crate::ahead::Ahead;
use crate::failure::Failure;
use crate::frame::answer_frame;
use crate::frames::{Taken, take_frame};
use crate::line::answer_line;
use crate::piece::answer_piece;
use crate::pieces::{Piece, take_piece};
use crate::reading::take_line;
use crate::task::Asked;
use crate::way::Way;
use oer_cmd::report;
use oer_types::Schema;
use oer_units::Width;
use std::alloc::Global;
use std::io::{BufRead, Read, Write};

// The worse of two statuses.
fn worse(a: u8, b: u8) -> u8
    ensures { result ≡ max a b }
{
    if a < b { b } else { a }
}

// Answers the messages on all lines of the input, each before the next line is read. The worst status.
fn answer_lines<R: BufRead, W: Write, E: Write>(
    alloc: Global,
    schema: &Schema,
    asked: Asked<'_>,
    input: &mut R,
    output: &mut W,
    errors: &mut E,
) -> Result<u8, Failure>
    ensures exact { (octets : List ℕ) × IfSome (R.remaining input.old) (λ xs. xs ≡ octets)
        × ((path : Expected (List Step)) → IsPathOf (path_of asked.entry.task) path
        → AnsweredAll (line_answers asked.entry.tells_nesting asked.entry.task (the_type schema.now) asked.entry.limit path octets) result
        record { output = W.contents output.old; output' = W.contents output.new; errors = E.contents errors.old; errors' = E.contents errors.new }) }
    ensures statuses { IfOk result (λ status. status ≤ 2) }
{
    let mut line = Vec::new(alloc);
    let mut worst = 0;
    for number in 1..u64::MAX {
        let is_ended = take_line(input, &mut line)?;
        let status = answer_line(alloc, schema, asked, number, &line, output, errors)?;
        worst = worse(worst, status);
        if !is_ended {
            return Ok(worst);
        }
    }
    Err(Failure::Input)
}

// Whether nothing can follow on the input.
fn is_last(taken: Taken) -> bool
    ensures { result ≡ is_last taken }
{
    match taken {
        Taken::End | Taken::Cut(_) => true,
        Taken::Whole | Taken::Long => false,
    }
}

// Answers all messages of the input that stand behind their lengths, each before the next length is read. The worst status.
fn answer_frames<R: Read, W: Write, E: Write>(
    alloc: Global,
    schema: &Schema,
    asked: Asked<'_>,
    width: Width,
    input: &mut R,
    output: &mut W,
    errors: &mut E,
) -> Result<u8, Failure>
    ensures exact { (octets : List ℕ) × IfSome (R.remaining input.old) (λ xs. xs ≡ octets)
        × ((path : Expected (List Step)) → IsPathOf (path_of asked.entry.task) path
        → AnsweredAll (framed_answers (octets_of_width width) asked.entry.tells_nesting asked.entry.task (the_type schema.now) asked.entry.limit path octets)
        result record { output = W.contents output.old; output' = W.contents output.new; errors = E.contents errors.old; errors' = E.contents errors.new }) }
    ensures statuses { IfOk result (λ status. status ≤ 2) }
{
    let mut octets = Vec::new(alloc);
    let mut worst = 0;
    for number in 1..u64::MAX {
        let taken = take_frame(input, width, asked.limit, &mut octets)?;
        let status = answer_frame(alloc, schema, asked, number, taken, &octets, output, errors)?;
        worst = worse(worst, status);
        if is_last(taken) {
            return Ok(worst);
        }
    }
    Err(Failure::Input)
}

// Answers all messages of the input that stand right behind one another, each when its octets are there. The worst status.
fn answer_stream<R: Read, W: Write, E: Write>(
    alloc: Global,
    schema: &Schema,
    asked: Asked<'_>,
    input: &mut R,
    output: &mut W,
    errors: &mut E,
) -> Result<u8, Failure>
    ensures exact { (octets : List ℕ) × IfSome (R.remaining input.old) (λ xs. xs ≡ octets)
        × ((path : Expected (List Step)) → IsPathOf (path_of asked.entry.task) path
        → AnsweredAll (stream_answers asked.entry.tells_nesting asked.entry.task (the_type schema.now) asked.entry.limit path octets) result
        record { output = W.contents output.old; output' = W.contents output.new; errors = E.contents errors.old; errors' = E.contents errors.new }) }
    ensures statuses { IfOk result (λ status. status ≤ 2) }
{
    let mut ahead = Ahead::new(alloc);
    let mut worst = 0;
    for number in 1..u64::MAX {
        let Some(piece) = take_piece(alloc, schema, asked.limit, input, &mut ahead)? else {
            return Ok(worst);
        };
        let octets = ahead.octets();
        let status = answer_piece(alloc, schema, asked, number, piece, octets, output, errors)?;
        worst = worse(worst, status);
        let Piece::Message(count) = piece else {
            return Ok(worst);
        };
        ahead.pass(count);
    }
    Err(Failure::Input)
}

// Answers all messages of the input, each before the next one is read. The worst status.
fn answer_all<R: BufRead, W: Write, E: Write>(
    alloc: Global,
    schema: &Schema,
    asked: Asked<'_>,
    input: &mut R,
    output: &mut W,
    errors: &mut E,
) -> Result<u8, Failure>
    ensures exact { (octets : List ℕ) × IfSome (R.remaining input.old) (λ xs. xs ≡ octets)
        × ((path : Expected (List Step)) → IsPathOf (path_of asked.entry.task) path
        → AnsweredAll (answers asked.entry.way asked.entry.tells_nesting asked.entry.task (the_type schema.now) asked.entry.limit path octets) result
        record { output = W.contents output.old; output' = W.contents output.new; errors = E.contents errors.old; errors' = E.contents errors.new }) }
    ensures statuses { IfOk result (λ status. status ≤ 2) }
{
    match asked.way {
        Way::Lines => answer_lines(alloc, schema, asked, input, output, errors),
        Way::Framed(width) => answer_frames(alloc, schema, asked, width, input, output, errors),
        Way::Stream => answer_stream(alloc, schema, asked, input, output, errors),
    }
}

/// Answers all messages of the input: a line for each on the output, before the next one is read, and on the errors one for each that is
/// rejected. The status is the worst of them; or 3 where the machine failed, of which the errors tell.
pub fn run_all<R: BufRead, W: Write, E: Write>(
    alloc: Global,
    schema: &Schema,
    asked: Asked<'_>,
    input: &mut R,
    output: &mut W,
    errors: &mut E,
) -> u8
    ensures runs { Runs asked.entry.way asked.entry.tells_nesting asked.entry.task (the_type schema.now) asked.entry.limit (R.remaining input.old) result
        record { output = W.contents output.old; output' = W.contents output.new; errors = E.contents errors.old; errors' = E.contents errors.new } }
    ensures statuses { result ≤ 3 }
{
    match answer_all(alloc, schema, asked, input, output, errors) {
        Ok(status) => status,
        Err(failure) => report(alloc, failure.fault(), errors),
    }
}
