//! The program `oer`: values and their octets at the command line.
#![tactic(auto)]

use oer_at_cmd::{Asked, at_asked, run_at, run_at_for};
use oer_canonical_cmd::{canonical_asked, run_canonical, run_canonical_for};
use oer_cmd::{NoStart, run, stop};
use oer_compare_cmd::run_compare;
use oer_ends_cmd::run_for;
use oer_example_cmd::{asks_example, run_example, run_example_for};
use oer_explain_cmd::{Command as Explained, explain_asked, run_explained, run_explained_for};
use oer_input_cmd::{Given, Program, input_given};
use oer_lines_cmd::{Way, framed_asked, lines_asked, run_many, run_many_for, stream_asked};
use oer_module_cmd::type_given;
use oer_module_options::Command;
use oer_types_cmd::run_types;
use std::alloc::Global;
use std::env;
use std::io::{BufRead, BufReader, ErrorKind, Read, Write};
use std::process::ExitCode;

// The arguments, the program's name first.
fn arguments(rt: &HostRuntime) -> Result<Vec<String>, NoStart> {
    let words = match env::args(rt) {
        Ok(words) => words,
        Err(error) if error.kind() == ErrorKind::InvalidData => return Err(NoStart::NoText),
        Err(_) => return Err(NoStart::NoMemory),
    };
    match words.collect::<Vec<String>>(rt.alloc()) {
        Ok(words) => Ok(words),
        Err(_) => Err(NoStart::NoMemory),
    }
}

// Does what the arguments ask for with one message, or with JSON. The status.
fn answer_one<R: Read, W: Write, E: Write>(
    alloc: Global,
    words: &[String],
    input: &mut R,
    output: &mut W,
    errors: &mut E,
) -> u8 {
    match type_given(alloc, Command::Oer, words, input, errors) {
        Ok(Some(given)) => run_for(
            alloc,
            &given.schema,
            given.words.as_slice(),
            input,
            output,
            errors,
        ),
        Ok(None) => run(alloc, words, input, output, errors),
        Err(status) => status,
    }
}

// Does what the arguments ask for with many messages. The status.
fn answer_many<R: BufRead, W: Write, E: Write>(
    alloc: Global,
    way: Way,
    words: &[String],
    input: &mut R,
    output: &mut W,
    errors: &mut E,
) -> u8 {
    match type_given(alloc, Command::Oer, words, input, errors) {
        Ok(Some(given)) => run_many_for(
            alloc,
            way,
            &given.schema,
            given.words.as_slice(),
            input,
            output,
            errors,
        ),
        Ok(None) => run_many(alloc, way, words, input, output, errors),
        Err(status) => status,
    }
}

// Says whether one message is the canonical octets of a value. The status.
fn answer_canonical<R: Read, W: Write, E: Write>(
    alloc: Global,
    words: &[String],
    input: &mut R,
    output: &mut W,
    errors: &mut E,
) -> u8 {
    match type_given(alloc, Command::Oer, words, input, errors) {
        Ok(Some(given)) => run_canonical_for(
            alloc,
            &given.schema,
            given.words.as_slice(),
            input,
            output,
            errors,
        ),
        Ok(None) => run_canonical(alloc, words, input, output, errors),
        Err(status) => status,
    }
}

// Prints the part to which names lead in one message. The status.
fn answer_at<R: Read, W: Write, E: Write>(
    alloc: Global,
    asked: &Asked<'_>,
    input: &mut R,
    output: &mut W,
    errors: &mut E,
) -> u8 {
    let names = asked.names;
    let words = asked.words.as_slice();
    match type_given(alloc, Command::Oer, words, input, errors) {
        Ok(Some(given)) => run_at_for(
            alloc,
            &given.schema,
            names,
            given.words.as_slice(),
            input,
            output,
            errors,
        ),
        Ok(None) => run_at(alloc, names, words, input, output, errors),
        Err(status) => status,
    }
}

// Prints a value of a type to begin with. The status.
fn answer_example<R: Read, W: Write, E: Write>(
    alloc: Global,
    words: &[String],
    input: &mut R,
    output: &mut W,
    errors: &mut E,
) -> u8 {
    let given = match type_given(alloc, Command::Oer, words, input, errors) {
        Ok(given) => given,
        Err(status) => return status,
    };
    if let Some(given) = given {
        let words = given.words.as_slice();
        return run_example_for(alloc, &given.schema, words, output, errors);
    }
    match run_example(alloc, words, input, output, errors) {
        Some(status) => status,
        None => run(alloc, words, input, output, errors),
    }
}

// How many messages stand on the input, and the words without the option that says so.
#[derive(Drop)]
struct Many {
    way: Way,
    words: Vec<String>,
}

// Which of these options stands among the words, if one does.
fn many_asked<E: Write>(
    alloc: Global,
    words: &[String],
    errors: &mut E,
) -> Result<Option<Many>, u8> {
    if let Some(words) = stream_asked(alloc, words, errors)? {
        return Ok(Some(Many {
            way: Way::Stream,
            words,
        }));
    }
    if let Some(framed) = framed_asked(alloc, words, errors)? {
        return Ok(Some(Many {
            way: Way::Framed(framed.width),
            words: framed.words,
        }));
    }
    match lines_asked(alloc, words, errors)? {
        Some(words) => Ok(Some(Many {
            way: Way::Lines,
            words,
        })),
        None => Ok(None),
    }
}

// Runs the command by the type that the arguments give, and explains an error. The status.
fn explain<R: BufRead, W: Write, E: Write>(
    alloc: Global,
    command: Explained<'_>,
    words: &[String],
    input: &mut R,
    output: &mut W,
    errors: &mut E,
) -> u8 {
    match type_given(alloc, Command::Oer, words, input, errors) {
        Ok(Some(given)) => run_explained_for(
            alloc,
            command,
            &given.schema,
            given.words.as_slice(),
            input,
            output,
            errors,
        ),
        Ok(None) => run_explained(alloc, command, words, input, output, errors),
        Err(status) => status,
    }
}

// Does what the arguments ask for with one message, or with JSON, and explains an error. The status.
fn answer_explained<R: BufRead, W: Write, E: Write>(
    alloc: Global,
    words: &[String],
    input: &mut R,
    output: &mut W,
    errors: &mut E,
) -> u8 {
    match canonical_asked(alloc, words, errors) {
        Ok(Some(words)) => {
            let words = words.as_slice();
            return explain(alloc, Explained::Canonical, words, input, output, errors);
        }
        Ok(None) => {}
        Err(status) => return status,
    }
    match at_asked(alloc, words, errors) {
        Ok(Some(asked)) => {
            let command = Explained::At(asked.names);
            let words = asked.words.as_slice();
            explain(alloc, command, words, input, output, errors)
        }
        Ok(None) => explain(alloc, Explained::Usual, words, input, output, errors),
        Err(status) => status,
    }
}

// Does what the arguments ask for without any of these options. The status.
fn answer_rest<R: Read, W: Write, E: Write>(
    alloc: Global,
    words: &[String],
    input: &mut R,
    output: &mut W,
    errors: &mut E,
) -> u8 {
    if let Some(status) = run_types(alloc, words, input, output, errors) {
        return status;
    }
    if let Some(status) = run_compare(alloc, words, output, errors) {
        return status;
    }
    if asks_example(words) {
        return answer_example(alloc, words, input, output, errors);
    }
    answer_one(alloc, words, input, output, errors)
}

// Does what the arguments, without `--in`, ask for. The status.
fn answer<R: BufRead, W: Write, E: Write>(
    alloc: Global,
    words: &[String],
    input: &mut R,
    output: &mut W,
    errors: &mut E,
) -> u8 {
    match explain_asked(alloc, words, errors) {
        Ok(Some(words)) => return answer_explained(alloc, words.as_slice(), input, output, errors),
        Ok(None) => {}
        Err(status) => return status,
    }
    match canonical_asked(alloc, words, errors) {
        Ok(Some(words)) => return answer_canonical(alloc, words.as_slice(), input, output, errors),
        Ok(None) => {}
        Err(status) => return status,
    }
    match at_asked(alloc, words, errors) {
        Ok(Some(asked)) => return answer_at(alloc, &asked, input, output, errors),
        Ok(None) => {}
        Err(status) => return status,
    }
    match many_asked(alloc, words, errors) {
        Ok(Some(many)) => {
            return answer_many(
                alloc,
                many.way,
                many.words.as_slice(),
                input,
                output,
                errors,
            );
        }
        Ok(None) => {}
        Err(status) => return status,
    }
    answer_rest(alloc, words, input, output, errors)
}

// Does what the arguments ask for. The status.
fn answer_all<R: BufRead, W: Write, E: Write>(
    alloc: Global,
    words: &[String],
    input: &mut R,
    output: &mut W,
    errors: &mut E,
) -> u8 {
    let given = match input_given(alloc, Program::Oer, words, input, errors) {
        Ok(Some(given)) => given,
        Ok(None) => return answer(alloc, words, input, output, errors),
        Err(status) => return status,
    };
    let Given { octets, words } = given;
    let words = words.as_slice();
    match octets {
        Some(octets) => answer(alloc, words, &mut octets.as_slice(), output, errors),
        None => answer(alloc, words, input, output, errors),
    }
}

fn main(rt: HostRuntime) -> ExitCode {
    let alloc = rt.alloc();
    let mut errors = rt.stderr();
    let words = match arguments(&rt) {
        Ok(words) => words,
        Err(why) => return ExitCode::from(stop(why, &mut errors)),
    };
    let Ok(mut input) = BufReader::new(alloc, rt.reader()) else {
        return ExitCode::from(stop(NoStart::NoMemory, &mut errors));
    };
    let status = answer_all(
        alloc,
        words.as_slice(),
        &mut input,
        &mut rt.stdout(),
        &mut errors,
    );
    ExitCode::from(status)
}
