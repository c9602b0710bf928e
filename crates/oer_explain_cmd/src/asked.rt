//! Whether the words of a command line ask for an explanation.
ghost use Rattle.std.specs.Prelude.{◌≡◌, map, option_map, string_bytes};
ghost use Rattle.oer_words.specs.Rejected.{EndsAsked};
ghost use Rattle.oer_words.specs.Words.{behind, words_of};
ghost use Rattle.oer_explain_cmd.specs.Scan.{explain_asked, misuse_in};

use oer_words::{asks_for, asks_many, asks_octets, flag_asked, has_flag, reject};
use std::alloc::Global;
use std::io::Write;

// The line that says why `--explain` is rejected beside these words, if it is.
fn misuse_in(words: &[String]) -> Option<&'static str>
    ensures { behind result ≡ misuse_in (map string_bytes words.now) }
{
    if !(asks_octets(words) || asks_for(words, "make")) {
        return Some("oer: --explain needs canon, show, check, part or make\n");
    }
    if asks_many(words) || has_flag(words, "--stream") {
        return Some("oer: --explain takes one message, without --lines, --framed and --stream\n");
    }
    None
}

/// The words without `--explain`, the program's name first, where it stands among them before a word `--`; none where it doesn't.
///
/// # Errors
/// An error is told of in one line on `errors`, and its status is returned: 2 where `--explain` is given twice, where the first word without
/// it is no subcommand of one message or of JSON, or where `--lines`, `--framed` or `--stream` is given, too; 3 where an allocation failed.
pub fn explain_asked<E: Write>(
    alloc: Global,
    words: &[String],
    errors: &mut E,
) -> Result<Option<Vec<String>>, u8>
    ensures { EndsAsked (option_map words_of) result (explain_asked (map string_bytes words.now))
        (E.contents errors.old) (E.contents errors.new) }
{
    let words = match flag_asked(alloc, "--explain", words, errors) {
        Ok(Some(words)) => words,
        answer => return answer,
    };
    match misuse_in(&words) {
        Some(line) => Err(reject(line, errors)),
        None => Ok(Some(words)),
    }
}
