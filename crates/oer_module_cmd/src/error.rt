//! Why the words ask for no type.
ghost use Rattle.std.specs.Prelude.{◌≡◌, ◌≤◌, IfOk, Some, string_bytes};
ghost use Rattle.oer_module_cmd.specs.Errors.{AppendsFront, IsByNone, IsByRefusal, Reports, error_of, line_of, status_of, text_of};
ghost use Rattle.oer_module_cmd.specs.declared.error.Error.TheVariants as raw;

use oer_module_text::Why;
use oer_modules::{NoType, Refusal};
use oer_units::Metered;
use std::alloc::{AllocError, Global};
use std::fmt;
use std::io::Write;

/// Why the words ask for no type. It displays as what stands after `oer: ` in the line on standard error.
#[derive(Clone, Copy)]
pub enum Error<'a> {
    /// The options are at fault.
    Options(oer_module_options::Error<'a>),
    /// Standard input isn't UTF-8.
    NotText,
    /// The modules give no type of the Name.
    Modules(NoType<'a>),
    /// A read of standard input failed.
    Input,
    /// An allocation failed.
    Memory,
}

impl Error<'_> {
    /// The status of the program: 2 where the words are at fault, 3 where the machine fails.
    fn status(self) -> u8
        ensures status { result ≡ status_of (error_of self.entry) }
        ensures least { 2 ≤ result }
        ensures most { result ≤ 3 }
    {
        match self {
            Error::Options(_) | Error::NotText | Error::Modules(_) => 2,
            Error::Input | Error::Memory => 3,
        }
    }
}

impl fmt::Display for Error<'_> {
    ghost output = { λ error. Some (text_of (error_of error)) };

    fn fmt<W: fmt::Write>(&self, f: &mut fmt::Formatter<W>) -> fmt::Result {
        match self {
            Error::Options(error) => write!(f, "{error}"),
            Error::NotText => f.write_str("modules: not UTF-8"),
            Error::Modules(none) => write!(f, "modules: {none}"),
            Error::Input => f.write_str("input failed"),
            Error::Memory => f.write_str("out of memory"),
        }
    }
}

impl<'a> From<oer_module_options::Error<'a>> for Error<'a> {
    ghost from_gives = { λ e r. r ≡ raw.Options e };

    fn from(error: oer_module_options::Error<'a>) -> Error<'a> {
        Error::Options(error)
    }
}

impl<'a> From<Refusal<'a>> for Error<'a> {
    ghost from_gives = { λ refusal r. IsByRefusal refusal r };

    fn from(refusal: Refusal<'a>) -> Error<'a> {
        match refusal.why {
            Why::Unresolved(oer_module_values::Why::Unread(oer_module_syntax::Why::Memory)) => {
                Error::Memory
            }
            _ => Error::Modules(NoType::Refused(refusal)),
        }
    }
}

impl<'a> From<NoType<'a>> for Error<'a> {
    ghost from_gives = { λ none r. IsByNone none r };

    fn from(none: NoType<'a>) -> Error<'a> {
        match none {
            NoType::Refused(refusal) => Error::from(refusal),
            NoType::Rejected(_) => Error::Modules(none),
        }
    }
}

impl<'a> From<AllocError> for Error<'a> {
    ghost from_gives = { λ _ r. r ≡ raw.Memory };

    fn from(_: AllocError) -> Error<'a> {
        Error::Memory
    }
}

// The line on standard error, with its line feed.
fn error_line(alloc: Global, error: Error<'_>) -> Result<String, AllocError>
    ensures { IfOk result (λ line. string_bytes line ≡ line_of (error_of error.entry)) }
{
    format!(in alloc; "oer: {error}\n")
}

fn put<E: Write>(line: &str, errors: &mut E)
    ensures { AppendsFront (E.contents errors.old) (E.contents errors.new) line.now }
{
    let _is_whole = Metered::new(errors).put(line.as_bytes()).is_ok();
}

/// Writes the line of the error in one call, and returns the status of the program. If memory for the line is refused, it
/// is that of `Memory`. A failure to write it is ignored.
pub fn report<E: Write>(alloc: Global, error: Error<'_>, errors: &mut E) -> u8
    ensures line { Reports (error_of error.entry) result (E.contents errors.old) (E.contents errors.new) }
    ensures least { 2 ≤ result }
    ensures most { result ≤ 3 }
{
    match error_line(alloc, error) {
        Ok(line) => {
            put(line.as_str(), errors);
            error.status()
        }
        Err(_) => {
            put("oer: out of memory\n", errors);
            3
        }
    }
}
