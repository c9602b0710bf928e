//! An option with a value, taken out of the words of a command line.
ghost use Rattle.std.specs.Prelude.{◌≡◌, ◌∷◌, IfOk, map, option_map, string_bytes};
ghost use Rattle.oer_words.specs.Rejected.{EndsAsked};
ghost use Rattle.oer_words.specs.Scan.{scan_of, text_behind};
ghost use Rattle.oer_words.specs.Setting.{given_of, option_asked, setting_in, setting_of, without_option};
ghost use Rattle.oer_words.specs.Words.{words_of};

use crate::rejection::{out_of_memory, reject_option};
use crate::scan::{Next, Scan, scanned};
use std::alloc::{AllocError, Global};
use std::io::Write;

/// What became of an option with a value.
#[derive(Drop)]
pub enum Setting<'a> {
    /// It isn't among the words.
    Missing,
    /// It is the last word, and its value isn't there.
    NoValue,
    /// It stands among the words twice or more.
    Twice,
    /// It stands among them once: its value, and the other words, the program's name first.
    Once { value: &'a str, words: Vec<String> },
}

// The program's name, and the words that stay.
fn kept_words(alloc: Global, program: &str, kept: &[&str]) -> Result<Vec<String>, AllocError>
    ensures { IfOk result (λ words. words_of words ≡ program.now ∷ map text_behind kept.now) }
{
    let mut words = Vec::new(alloc);
    words.push(String::from_str(alloc, program)?)?;
    for word in kept {
        words.push(String::from_str(alloc, word)?)?;
    }
    Ok(words)
}

// What became of the option, behind the program's name.
fn setting_in<'a>(alloc: Global, program: &str, scan: &Scan<'a>) -> Result<Setting<'a>, AllocError>
    ensures { IfOk result (λ found. setting_of found ≡ setting_in program.now (scan_of scan.now)) }
{
    if let Next::Value = scan.next {
        return Ok(Setting::NoValue);
    }
    match scan.values.as_slice() {
        [] => Ok(Setting::Missing),
        [value] => Ok(Setting::Once {
            value,
            words: kept_words(alloc, program, &scan.kept)?,
        }),
        _ => Ok(Setting::Twice),
    }
}

/// Takes an option with a value, as `--at`, out of the words. Its value is what stands behind its `=`, or else the next word, whatever
/// that is. Fails if an allocation does.
pub fn without_option<'a>(
    alloc: Global,
    option: &str,
    words: &'a [String],
) -> Result<Setting<'a>, AllocError>
    ensures { IfOk result (λ found. setting_of found ≡ without_option option.now (map string_bytes words.entry.now)) }
{
    let Some((program, rest)) = words.split_first() else {
        return Ok(Setting::Missing);
    };
    let scan = scanned(alloc, option, rest)?;
    setting_in(alloc, program.as_str(), &scan)
}

/// An option that was taken out of the words.
#[derive(Drop)]
pub struct Given<'a> {
    pub value: &'a str,
    /// The other words, the program's name first.
    pub words: Vec<String>,
}

/// An option with a value, as `without_option` takes it out of the words; none where it isn't among them.
///
/// # Errors
/// An error is told of in one line on `errors`, and its status is returned: 2 where the option has no value, or is given twice; 3 where an
/// allocation failed.
#[tactic(auto, unfolding(crate::specs::Setting::option_asked))]
pub fn option_asked<'a, E: Write>(
    alloc: Global,
    option: &str,
    words: &'a [String],
    errors: &mut E,
) -> Result<Option<Given<'a>>, u8>
    ensures ends { EndsAsked (option_map given_of) result (option_asked option.now (map string_bytes words.entry.now))
        (E.contents errors.old) (E.contents errors.new) }
    ensures quiet { IfOk result (λ _. errors.new ≡ errors.old) }
{
    match without_option(alloc, option, words) {
        Ok(Setting::Missing) => Ok(None),
        Ok(Setting::NoValue) => Err(reject_option(alloc, option, "needs a value", errors)),
        Ok(Setting::Twice) => Err(reject_option(alloc, option, "is given twice", errors)),
        Ok(Setting::Once { value, words }) => Ok(Some(Given { value, words })),
        Err(_) => Err(out_of_memory(errors)),
    }
}
