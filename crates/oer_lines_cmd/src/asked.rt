//! Whether the words of a command line ask for a message on each line, or for messages right behind one another.
ghost use Rattle.std.specs.Prelude.{◌≡◌, map, option_map, string_bytes};
ghost use Rattle.oer_words.specs.Rejected.{EndsAsked};
ghost use Rattle.oer_words.specs.Words.{behind, words_of};
ghost use Rattle.oer_lines_cmd.specs.Scan.{lines_asked, lines_misuse, stream_asked, stream_misuse};

use crate::misuse::Misuse;
use crate::way::Word;
use oer_words::{asks_many, asks_octets, flag_asked, reject};
use std::alloc::Global;
use std::io::Write;

// The line that says why `--lines` is rejected beside these words, if it is.
fn lines_misuse(words: &[String]) -> Option<&'static str>
    ensures { behind result ≡ lines_misuse (map string_bytes words.now) }
{
    if asks_octets(words) {
        return None;
    }
    Some(Misuse::Subcommand(Word::Lines).line())
}

/// The words without `--lines`, the program's name first, where it stands among them before a word `--`; none where it doesn't.
///
/// # Errors
/// An error is told of in one line on `errors`, and its status is returned: 2 where `--lines` is given twice, or where the first word
/// without it is none of `canon`, `show`, `check` and `part`; 3 where an allocation failed.
pub fn lines_asked<E: Write>(
    alloc: Global,
    words: &[String],
    errors: &mut E,
) -> Result<Option<Vec<String>>, u8>
    ensures { EndsAsked (option_map words_of) result (lines_asked (map string_bytes words.now))
        (E.contents errors.old) (E.contents errors.new) }
{
    let words = match flag_asked(alloc, "--lines", words, errors) {
        Ok(Some(words)) => words,
        answer => return answer,
    };
    match lines_misuse(&words) {
        Some(line) => Err(reject(line, errors)),
        None => Ok(Some(words)),
    }
}

// The line that says why `--stream` is rejected beside these words, if it is.
fn stream_misuse(words: &[String]) -> Option<&'static str>
    ensures { behind result ≡ stream_misuse (map string_bytes words.now) }
{
    if asks_many(words) {
        return Some("oer: one of --stream, --framed and --lines\n");
    }
    if !asks_octets(words) {
        return Some(Misuse::Subcommand(Word::Stream).line());
    }
    None
}

/// The words without `--stream`, the program's name first, where it stands among them before a word `--`; none where it doesn't.
///
/// # Errors
/// An error is told of in one line on `errors`, and its status is returned: 2 where `--stream` is given twice, or stands beside `--lines`
/// or `--framed`, or where the first word without it is none of `canon`, `show`, `check` and `part`; 3 where an allocation failed.
pub fn stream_asked<E: Write>(
    alloc: Global,
    words: &[String],
    errors: &mut E,
) -> Result<Option<Vec<String>>, u8>
    ensures { EndsAsked (option_map words_of) result (stream_asked (map string_bytes words.now))
        (E.contents errors.old) (E.contents errors.new) }
{
    let words = match flag_asked(alloc, "--stream", words, errors) {
        Ok(Some(words)) => words,
        answer => return answer,
    };
    match stream_misuse(&words) {
        Some(line) => Err(reject(line, errors)),
        None => Ok(Some(words)),
    }
}
