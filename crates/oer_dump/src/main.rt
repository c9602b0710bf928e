//! The program `oer-dump`: what each octet of an encoding is.
#![tactic(auto)]

mod pipe;

use crate::pipe::{Errors, Output};
use oer_cmd::{NoStart, stop};
use oer_dump_cmd::{run, run_for, usual_width};
use oer_input_cmd::{Given, Program, input_given};
use oer_module_cmd::type_given;
use oer_module_options::Command;
use std::alloc::Global;
use std::cell::Cell;
use std::env::{self, Env};
use std::io::{BufReader, ErrorKind, IsTerminal, Read, Write};
use std::process::ExitCode;

// How many characters a line may have if the arguments don't say. COLUMNS is asked for a terminal alone;
// without one there is no bound.
fn width_of<R: Env + Alloc>(rt: &R, is_terminal: bool) -> u64 {
    if !is_terminal {
        return usual_width(false, None);
    }
    match env::var(rt, "COLUMNS") {
        Ok(text) => usual_width(true, Some(text.as_str())),
        Err(_) => usual_width(true, None),
    }
}

// Does what the arguments ask for. The status.
fn answer<R: Read, W: Write, E: Write>(
    alloc: Global,
    words: &[String],
    width: u64,
    input: &mut R,
    output: &mut W,
    errors: &mut E,
) -> u8 {
    match type_given(alloc, Command::Dump, words, input, errors) {
        Ok(Some(given)) => run_for(
            alloc,
            &given.schema,
            given.words.as_slice(),
            width,
            input,
            output,
            errors,
        ),
        Ok(None) => run(alloc, words, width, input, output, errors),
        Err(status) => status,
    }
}

// The same where standard input may have digits, or base64.
fn answer_all<R: Read, W: Write, E: Write>(
    alloc: Global,
    words: &[String],
    width: u64,
    input: &mut R,
    output: &mut W,
    errors: &mut E,
) -> u8 {
    let given = match input_given(alloc, Program::Dump, words, input, errors) {
        Ok(Some(given)) => given,
        Ok(None) => return answer(alloc, words, width, input, output, errors),
        Err(status) => return status,
    };
    let Given { octets, words } = given;
    let words = words.as_slice();
    match octets {
        Some(octets) => answer(alloc, words, width, &mut octets.as_slice(), output, errors),
        None => answer(alloc, words, width, input, output, errors),
    }
}

fn main(rt: HostRuntime) -> ExitCode {
    let alloc = rt.alloc();
    let mut errors = rt.stderr();
    let words = match env::args(&rt) {
        Ok(words) => words,
        Err(error) if error.kind() == ErrorKind::InvalidData => {
            return ExitCode::from(stop(NoStart::NoText, &mut errors));
        }
        Err(_) => return ExitCode::from(stop(NoStart::NoMemory, &mut errors)),
    };
    let Ok(words) = words.collect::<Vec<String>>(alloc) else {
        return ExitCode::from(stop(NoStart::NoMemory, &mut errors));
    };
    let Ok(mut input) = BufReader::new(alloc, rt.reader()) else {
        return ExitCode::from(stop(NoStart::NoMemory, &mut errors));
    };
    let is_terminal = rt.stdout().is_terminal();
    let is_closed = Cell::new(false);
    let status = answer_all(
        alloc,
        words.as_slice(),
        width_of(&rt, is_terminal),
        &mut input,
        &mut Output::new(rt.stdout(), &is_closed),
        &mut Errors::new(errors, &is_closed),
    );
    ExitCode::from(status)
}
