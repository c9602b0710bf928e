//! Why no octets are taken.
ghost use Rattle.std.specs.Prelude.{◌≡◌, ◌≤◌, IfOk, Some, string_bytes};
ghost use Rattle.oer_input_cmd.specs.Errors.{Reports, error_by, line_of, status_of, text_of};
ghost use Rattle.oer_input_cmd.specs.declared.error.Error.TheVariants as raw;

use oer_input::Fault;
use oer_words::put;
use std::alloc::{AllocError, Global};
use std::fmt;
use std::io::Write;

/// Why no octets are taken. It displays as what stands after `oer: ` in the line on standard error.
#[derive(Clone, Copy)]
pub enum Error {
    /// `--in` is the last word, and its value isn't there.
    NoValue,
    /// `--in` is given twice.
    Twice,
    /// The value of `--in` is none that it takes.
    Coding,
    /// `--in` with a subcommand that takes no octets.
    Command,
    /// `--in` beside `--hex`.
    Hex,
    /// `--in` beside `--lines`.
    Lines,
    /// `--in` beside `--framed`.
    Framed,
    /// Standard input spells no octets.
    Text(Fault),
    /// A read of standard input failed.
    Input,
    /// An allocation failed.
    Memory,
}

impl Error {
    /// The status of the program: 2 where the words or the text are at fault, 3 where the machine fails.
    fn status(self) -> u8
        ensures { result ≡ status_of self }
    {
        match self {
            Error::NoValue
            | Error::Twice
            | Error::Coding
            | Error::Command
            | Error::Hex
            | Error::Lines
            | Error::Framed
            | Error::Text(_) => 2,
            Error::Input | Error::Memory => 3,
        }
    }
}

impl fmt::Display for Error {
    ghost output = { λ error. Some (text_of error) };

    fn fmt<W: fmt::Write>(&self, f: &mut fmt::Formatter<W>) -> fmt::Result {
        match self {
            Error::NoValue => f.write_str("--in needs a value"),
            Error::Twice => f.write_str("--in is given twice"),
            Error::Coding => f.write_str("--in takes hex, raw or base64"),
            Error::Command => f.write_str("--in needs canon, show, check or part"),
            Error::Hex => f.write_str("--in reads standard input, not --hex"),
            Error::Lines => f.write_str("one of --in and --lines"),
            Error::Framed => f.write_str("one of --in and --framed"),
            Error::Text(fault) => write!(f, "input: {fault}"),
            Error::Input => f.write_str("input failed"),
            Error::Memory => f.write_str("out of memory"),
        }
    }
}

impl From<AllocError> for Error {
    ghost from_gives = { λ _ r. r ≡ raw.Memory };

    fn from(_: AllocError) -> Error {
        Error::Memory
    }
}

impl From<Fault> for Error {
    ghost from_gives = { λ fault r. r ≡ error_by fault };

    fn from(fault: Fault) -> Error {
        match fault {
            Fault::Memory => Error::Memory,
            _ => Error::Text(fault),
        }
    }
}

// The line on standard error, with its line feed.
fn error_line(alloc: Global, error: Error) -> Result<String, AllocError>
    ensures { IfOk result (λ line. string_bytes line ≡ line_of error) }
{
    format!(in alloc; "oer: {error}\n")
}

/// Writes the line of the error in one call, and returns the status of the program. If memory for the line is refused, it
/// is that of `Memory`. A failure to write it is ignored.
pub fn report<E: Write>(alloc: Global, error: Error, errors: &mut E) -> u8
    ensures line { Reports error result (E.contents errors.old) (E.contents errors.new) }
    ensures least { 2 ≤ result }
    ensures most { result ≤ 3 }
{
    match error_line(alloc, error) {
        Ok(line) => {
            put(line.as_str(), errors);
            error.status()
        }
        Err(_) => {
            put("oer: out of memory\n", errors);
            3
        }
    }
}
