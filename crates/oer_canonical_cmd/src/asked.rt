//! Whether the words of a command line ask for canonical octets alone.
ghost use Rattle.std.specs.Prelude.{◌≡◌, map, option_map, string_bytes};
ghost use Rattle.oer_words.specs.Rejected.{EndsAsked};
ghost use Rattle.oer_words.specs.Words.{behind, words_of};
ghost use Rattle.oer_canonical_cmd.specs.Scan.{canonical_asked, misuse_in};

use oer_words::{asks_for, asks_many, flag_asked, reject};
use std::alloc::Global;
use std::io::Write;

// The line that says why `--canonical` is rejected beside these words, if it is.
fn misuse_in(words: &[String]) -> Option<&'static str>
    ensures { behind result ≡ misuse_in (map string_bytes words.now) }
{
    if !asks_for(words, "check") {
        return Some("oer: --canonical needs check\n");
    }
    if asks_many(words) {
        return Some("oer: --canonical takes one message, without --lines and --framed\n");
    }
    None
}

/// The words without `--canonical`, the program's name first, where it stands among them before a word `--`; none where it doesn't.
///
/// # Errors
/// An error is told of in one line on `errors`, and its status is returned: 2 where `--canonical` is given twice, where the first word
/// without it isn't `check`, or where `--lines` or `--framed` is given, too; 3 where an allocation failed.
pub fn canonical_asked<E: Write>(
    alloc: Global,
    words: &[String],
    errors: &mut E,
) -> Result<Option<Vec<String>>, u8>
    ensures { EndsAsked (option_map words_of) result (canonical_asked (map string_bytes words.now))
        (E.contents errors.old) (E.contents errors.new) }
{
    let words = match flag_asked(alloc, "--canonical", words, errors) {
        Ok(Some(words)) => words,
        answer => return answer,
    };
    match misuse_in(&words) {
        Some(line) => Err(reject(line, errors)),
        None => Ok(Some(words)),
    }
}
