//! A flag, taken out of the words of a command line.
ghost use Rattle.std.specs.Prelude.{◌≡◌, ◌∷◌, ◌≤◌, IfOk, length, map, option_map, string_bytes};
ghost use Rattle.oer_words.specs.Flag.{flag_asked, flag_of, others, without_flag};
ghost use Rattle.oer_words.specs.Rejected.{EndsAsked};
ghost use Rattle.oer_words.specs.Words.{times, words_of};

use crate::rejection::{out_of_memory, reject_option};
use std::alloc::{AllocError, Global};
use std::io::Write;

/// What became of a flag.
#[derive(Drop)]
enum Flag {
    /// It isn't among the words.
    Missing,
    /// It stands among them twice or more.
    Twice,
    /// It stands among them once: the others, the program's name first.
    Once(Vec<String>),
}

/// How often a flag stands before a word `--`.
pub(crate) fn times(flag: &str, words: &[String]) -> usize
    ensures count { result ≡ times flag.now (map string_bytes words.now) }
    ensures most { result ≤ length words.now }
{
    let mut times = 0;
    for word in words {
        if word.as_str() == "--" {
            return times;
        }
        if word.as_str() == flag {
            times += 1;
        }
    }
    times
}

// The program's name, and the words without the flag.
fn others(
    alloc: Global,
    flag: &str,
    program: &str,
    words: &[String],
) -> Result<Vec<String>, AllocError>
    ensures { IfOk result (λ kept. words_of kept ≡ program.now ∷ others flag.now (map string_bytes words.now)) }
{
    let mut kept = Vec::new(alloc);
    kept.push(String::from_str(alloc, program)?)?;
    let mut is_option = true;
    for word in words {
        let word = word.as_str();
        if word == "--" {
            is_option = false;
        }
        if !is_option || word != flag {
            kept.push(String::from_str(alloc, word)?)?;
        }
    }
    Ok(kept)
}

// Takes a flag out of the words. Fails if an allocation does.
fn without_flag(alloc: Global, flag: &str, words: &[String]) -> Result<Flag, AllocError>
    ensures { IfOk result (λ found. flag_of found ≡ without_flag flag.now (map string_bytes words.now)) }
{
    let Some((program, rest)) = words.split_first() else {
        return Ok(Flag::Missing);
    };
    match times(flag, rest) {
        0 => Ok(Flag::Missing),
        1 => Ok(Flag::Once(others(alloc, flag, program.as_str(), rest)?)),
        _ => Ok(Flag::Twice),
    }
}

/// The words without a flag, as `--lines`, the program's name first, where it stands among them before a word `--`; none where it doesn't.
///
/// # Errors
/// An error is told of in one line on `errors`, and its status is returned: 2 where the flag is given twice; 3 where an allocation failed.
#[tactic(auto, unfolding(crate::specs::Flag::flag_asked))]
pub fn flag_asked<E: Write>(
    alloc: Global,
    flag: &str,
    words: &[String],
    errors: &mut E,
) -> Result<Option<Vec<String>>, u8>
    ensures ends { EndsAsked (option_map words_of) result (flag_asked flag.now (map string_bytes words.now))
        (E.contents errors.old) (E.contents errors.new) }
    ensures quiet { IfOk result (λ _. errors.new ≡ errors.old) }
{
    match without_flag(alloc, flag, words) {
        Ok(Flag::Missing) => Ok(None),
        Ok(Flag::Twice) => Err(reject_option(alloc, flag, "is given twice", errors)),
        Ok(Flag::Once(words)) => Ok(Some(words)),
        Err(_) => Err(out_of_memory(errors)),
    }
}
