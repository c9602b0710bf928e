//! What is said of octets that the type of the options rejects.
ghost use Rattle.std.specs.Prelude.{◌≡◌, ◌++◌, false, true, IfOk, None, ℕ};
ghost use Rattle.hex.specs.Hex.{decode_of};
ghost use Rattle.oer_types.specs.Schema.{the_type};
ghost use Rattle.oer_options.specs.Words.{texts_of};
ghost use Rattle.oer_ends_cmd.specs.declared.telling.Origin.TheVariants.{Modules};
ghost use Rattle.oer_explain_cmd.specs.Adding.{items_behind, notes_of, own_notes};
ghost use Rattle.oer_explain_cmd.specs.Found.{ok_in, type_by};
ghost use Rattle.oer_explain_cmd.specs.Told.{Says};
ghost use Rattle.oer_explain_cmd.specs.Saying.{AddsGiven, AddsIf, AddsNotes, AddsSaid, HintsAt, SaysBy, SaysIf, given_octets, hint_of, items_in};

use crate::adding::{Command, add, add_for};
use crate::found::found_by;
use crate::told::told_notes;
use hex::FromHexError;
use oer_cmd::put_all;
use oer_ends_cmd::Origin;
use oer_options::{Options, Task};
use oer_places::seems_digits;
use oer_types::Schema;
use std::alloc::{AllocError, Global};
use std::io::Write;

// The status where octets are rejected, after all that the arguments say was accepted.
const OCTETS: u8 = 1;

// By the type that the options name, where this text of definitions was held; nothing where there is none.
fn octets_said(
    alloc: Global,
    options: Options<'_>,
    held: Option<&[u8]>,
    is_whole: bool,
    octets: &[u8],
) -> Result<Vec<u8>, AllocError>
    ensures { IfOk result (λ notes. SaysBy options.entry is_whole (type_by (texts_of options.entry) (items_behind held.entry)) octets.now notes.items) }
{
    let found = found_by(alloc, options, held)?;
    match found.schema() {
        Some(schema) => told_notes(alloc, schema, Origin::Notation, options, is_whole, octets),
        None => Ok(Vec::new(alloc)),
    }
}

// The octets that digits spell, if they spell some.
fn decoded(alloc: Global, digits: &str) -> Result<Option<Vec<u8>>, AllocError>
    ensures { IfOk result (λ octets. items_in octets ≡ ok_in (decode_of digits.now)) }
{
    match hex::decode(alloc, digits) {
        Ok(octets) => Ok(Some(octets)),
        Err(FromHexError::OutOfMemory) => Err(AllocError),
        Err(_) => Ok(None),
    }
}

// The octets of the options, if there are some.
fn given_octets(alloc: Global, task: Task<'_>) -> Result<Option<Vec<u8>>, AllocError>
    ensures { IfOk result (λ octets. items_in octets ≡ given_octets task.entry) }
{
    if let Task::Make { .. } = task {
        return Ok(None);
    }
    match task.source() {
        Some(digits) => decoded(alloc, digits),
        None => Ok(None),
    }
}

// What is said of the octets of the options.
fn given_said(
    alloc: Global,
    options: Options<'_>,
    held: Option<&[u8]>,
) -> Result<Vec<u8>, AllocError>
    ensures { IfOk result (λ notes. SaysIf (SaysBy options.entry true (type_by (texts_of options.entry) (items_behind held.entry)))
        (given_octets options.entry.task) notes.items) }
{
    match given_octets(alloc, options.task)? {
        Some(octets) => octets_said(alloc, options, held, true, octets.as_slice()),
        None => Ok(Vec::new(alloc)),
    }
}

// The same by a type of modules.
fn given_said_for(
    alloc: Global,
    schema: &Schema,
    options: Options<'_>,
) -> Result<Vec<u8>, AllocError>
    ensures { IfOk result (λ notes. SaysIf (Says Modules options.entry true (the_type schema.now)) (given_octets options.entry.task) notes.items) }
{
    match given_octets(alloc, options.task)? {
        Some(octets) => {
            told_notes(
                alloc,
                schema,
                Origin::Modules,
                options,
                true,
                octets.as_slice(),
            )
        }
        None => Ok(Vec::new(alloc)),
    }
}

// Writes what is said of octets behind the error of a command that ended with this status, in one call.
fn put_notes<E: Write>(status: u8, notes: &[u8], errors: &mut E)
    ensures { AddsNotes notes.now status (E.contents errors.old) (E.contents errors.new) }
{
    if status == OCTETS {
        put_all(notes, errors);
    }
}

/// Writes behind the error of a command what is added to it, as `add` does, and what is said of the octets of the options, in a call each. A
/// failure to write it is ignored.
pub fn explain<E: Write>(
    alloc: Global,
    status: u8,
    command: Command<'_>,
    options: Options<'_>,
    held: Option<&[u8]>,
    errors: &mut E,
)
    ensures { (at : ℕ) × AddsGiven (notes_of at command.entry options.entry (items_behind held.entry))
        (SaysBy options.entry true (type_by (texts_of options.entry) (items_behind held.entry))) options.entry status
        (E.contents errors.old) (E.contents errors.new) }
{
    add(alloc, status, command, options, held, errors);
    match given_said(alloc, options, held) {
        Ok(notes) => put_notes(status, notes.as_slice(), errors),
        Err(_) => {}
    }
}

/// The same by a type of modules.
pub fn explain_for<E: Write>(
    alloc: Global,
    status: u8,
    command: Command<'_>,
    schema: &Schema,
    options: Options<'_>,
    errors: &mut E,
)
    ensures { (at : ℕ) × AddsGiven (own_notes at command.entry (the_type schema.now) options.entry)
        (Says Modules options.entry true (the_type schema.now)) options.entry status (E.contents errors.old) (E.contents errors.new) }
{
    add_for(alloc, status, command, schema, options, errors);
    match given_said_for(alloc, schema, options) {
        Ok(notes) => put_notes(status, notes.as_slice(), errors),
        Err(_) => {}
    }
}

// What is said of octets that look like digits.
fn hint_of(octets: &[u8]) -> &'static str
    ensures { result.now ≡ hint_of octets.now }
{
    if seems_digits(octets) {
        return "  These octets look like hexadecimal digits. --in hex reads digits.\n";
    }
    ""
}

// What is said of octets, and the hint behind it.
fn hinting(said: Vec<u8>, octets: &[u8]) -> Result<Vec<u8>, AllocError>
    ensures { IfOk result (λ notes. notes.items ≡ said.items ++ hint_of octets.now) }
{
    let mut notes = said;
    notes.extend_from_slice(hint_of(octets).as_bytes())?;
    Ok(notes)
}

// What is said of octets of the input, by the type of the options.
fn read_said(
    alloc: Global,
    options: Options<'_>,
    is_whole: bool,
    octets: &[u8],
) -> Result<Vec<u8>, AllocError>
    ensures { IfOk result (λ notes. HintsAt (SaysBy options.entry is_whole (type_by (texts_of options.entry) None)) octets.now notes.items) }
{
    let said = octets_said(alloc, options, None, is_whole, octets)?;
    hinting(said, octets)
}

// The same by a type of modules.
fn read_said_for(
    alloc: Global,
    schema: &Schema,
    options: Options<'_>,
    is_whole: bool,
    octets: &[u8],
) -> Result<Vec<u8>, AllocError>
    ensures { IfOk result (λ notes. HintsAt (Says Modules options.entry is_whole (the_type schema.now)) octets.now notes.items) }
{
    let said = told_notes(alloc, schema, Origin::Modules, options, is_whole, octets)?;
    hinting(said, octets)
}

/// Writes behind the error of a command what is said of the octets of the input, and that they look like digits, if they do, in one call.
/// `is_whole` says whether they are all that the command reads. A failure to write it is ignored.
pub fn add_octets<E: Write>(
    alloc: Global,
    status: u8,
    options: Options<'_>,
    is_whole: bool,
    octets: &[u8],
    errors: &mut E,
)
    ensures { AddsSaid (HintsAt (SaysBy options.entry is_whole (type_by (texts_of options.entry) None)) octets.now) status
        (E.contents errors.old) (E.contents errors.new) }
{
    match read_said(alloc, options, is_whole, octets) {
        Ok(notes) => put_notes(status, notes.as_slice(), errors),
        Err(_) => {}
    }
}

/// The same by a type of modules.
pub fn add_octets_for<E: Write>(
    alloc: Global,
    status: u8,
    schema: &Schema,
    options: Options<'_>,
    is_whole: bool,
    octets: &[u8],
    errors: &mut E,
)
    ensures { AddsSaid (HintsAt (Says Modules options.entry is_whole (the_type schema.now)) octets.now) status
        (E.contents errors.old) (E.contents errors.new) }
{
    match read_said_for(alloc, schema, options, is_whole, octets) {
        Ok(notes) => put_notes(status, notes.as_slice(), errors),
        Err(_) => {}
    }
}

/// The same of the front of the input, if there is a copy of it; else nothing.
pub fn add_front<E: Write>(
    alloc: Global,
    status: u8,
    options: Options<'_>,
    front: Option<Vec<u8>>,
    errors: &mut E,
)
    ensures { AddsIf (HintsAt (SaysBy options.entry false (type_by (texts_of options.entry) None))) (items_in front) status
        (E.contents errors.old) (E.contents errors.new) }
{
    match front {
        Some(octets) => add_octets(alloc, status, options, false, octets.as_slice(), errors),
        None => {}
    }
}

/// The same by a type of modules.
pub fn add_front_for<E: Write>(
    alloc: Global,
    status: u8,
    schema: &Schema,
    options: Options<'_>,
    front: Option<Vec<u8>>,
    errors: &mut E,
)
    ensures { AddsIf (HintsAt (Says Modules options.entry false (the_type schema.now))) (items_in front) status
        (E.contents errors.old) (E.contents errors.new) }
{
    match front {
        Some(octets) => {
            add_octets_for(
                alloc,
                status,
                schema,
                options,
                false,
                octets.as_slice(),
                errors,
            )
        }
        None => {}
    }
}
