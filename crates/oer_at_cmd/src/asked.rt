//! Whether the words of a command line ask for a part by names.
ghost use Rattle.std.specs.Prelude.{◌≡◌, map, option_map, string_bytes};
ghost use Rattle.oer_words.specs.Rejected.{EndsAsked};
ghost use Rattle.oer_words.specs.Words.{behind, result_map};
ghost use Rattle.oer_at_cmd.specs.Asking.{asked_of, at_asked, hex_of};

use crate::misuse::Misuse;
use oer_options::Task;
use oer_words::{Given, asks_many, option_asked, reject};
use std::alloc::Global;
use std::io::Write;

/// What `--at` asks for.
#[derive(Drop)]
pub struct Asked<'a> {
    /// The text of the names.
    pub names: &'a str,
    /// The words without `--at` and its value, the program's name first.
    pub words: Vec<String>,
}

/// What `--at` asks for, where it stands among the words before a word `--`; none where it doesn't.
///
/// # Errors
/// An error is told of in one line on `errors`, and its status is returned: 2 where `--at` has no value, is given twice, or stands beside
/// `--lines` or `--framed`; 3 where an allocation failed.
pub fn at_asked<'a, E: Write>(
    alloc: Global,
    words: &'a [String],
    errors: &mut E,
) -> Result<Option<Asked<'a>>, u8>
    ensures { EndsAsked (option_map asked_of) result (at_asked (map string_bytes words.entry.now))
        (E.contents errors.old) (E.contents errors.new) }
{
    let Given { value, words } = match option_asked(alloc, "--at", words, errors) {
        Ok(Some(given)) => given,
        Ok(None) => return Ok(None),
        Err(status) => return Err(status),
    };
    if asks_many(&words) {
        let line = "oer: --at takes one message, without --lines and --framed\n";
        return Err(reject(line, errors));
    }
    Ok(Some(Asked {
        names: value,
        words,
    }))
}

/// The text of `--hex` of the task, which has to be `part` without `--path`.
pub fn hex_of<'a>(task: Task<'a>) -> Result<Option<&'a str>, Misuse>
    ensures { result_map behind result ≡ hex_of task.entry }
{
    match task {
        Task::Part { hex, path: None } => Ok(hex),
        Task::Part { .. } => Err(Misuse::Path),
        _ => Err(Misuse::Subcommand),
    }
}
