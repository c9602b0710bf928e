//! Whether the words of a command line ask for messages behind their lengths.
ghost use Rattle.std.specs.Prelude.{◌≡◌, map, option_map, string_bytes};
ghost use Rattle.oer_words.specs.Rejected.{EndsAsked, with_line};
ghost use Rattle.oer_lines_cmd.specs.Asking.{by_width, framed_asked, framed_of, width_of};

use crate::misuse::Misuse;
use crate::way::Word;
use oer_units::Width;
use oer_words::{Given, asks_octets, has_flag, option_asked, reject};
use std::alloc::Global;
use std::io::Write;

/// What `--framed` asks for.
#[derive(Drop)]
pub struct Framed {
    /// How many octets the length of a message has.
    pub width: Width,
    /// The words without it and its value, the program's name first.
    pub words: Vec<String>,
}

// How many octets a length has, by the value of `--framed`.
fn width_of(value: &str) -> Option<Width>
    ensures { result ≡ width_of value.now }
{
    if value == "1" {
        return Some(Width::One);
    }
    if value == "2" {
        return Some(Width::Two);
    }
    if value == "4" {
        return Some(Width::Four);
    }
    if value == "8" {
        return Some(Width::Eight);
    }
    None
}

// How many octets a length has, by this value of `--framed` beside these words; or the line that says why it is rejected.
fn width_by(words: &[String], value: &str) -> Result<Width, &'static str>
    ensures { with_line result ≡ by_width (map string_bytes words.now) (width_of value.now) }
{
    let Some(width) = width_of(value) else {
        return Err("oer: --framed takes 1, 2, 4 or 8\n");
    };
    if has_flag(words, "--lines") {
        return Err("oer: one of --framed and --lines\n");
    }
    if !asks_octets(words) {
        return Err(Misuse::Subcommand(Word::Framed).line());
    }
    Ok(width)
}

/// What `--framed` asks for, where it stands among the words before a word `--`; none where it doesn't.
///
/// # Errors
/// An error is told of in one line on `errors`, and its status is returned: 2 where `--framed` has no value, is given twice, has a value
/// that is none of 1, 2, 4 and 8, or stands beside `--lines`, or where the first word without it is none of `canon`, `show`, `check` and
/// `part`; 3 where an allocation failed.
pub fn framed_asked<E: Write>(
    alloc: Global,
    words: &[String],
    errors: &mut E,
) -> Result<Option<Framed>, u8>
    ensures { EndsAsked (option_map framed_of) result (framed_asked (map string_bytes words.now))
        (E.contents errors.old) (E.contents errors.new) }
{
    let Given { value, words } = match option_asked(alloc, "--framed", words, errors) {
        Ok(Some(given)) => given,
        Ok(None) => return Ok(None),
        Err(status) => return Err(status),
    };
    match width_by(&words, value) {
        Ok(width) => Ok(Some(Framed { width, words })),
        Err(line) => Err(reject(line, errors)),
    }
}
