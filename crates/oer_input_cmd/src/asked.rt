//! What `--in` asks for.
ghost use Rattle.std.specs.Prelude.{◌≡◌, map, option_map, string_bytes};
ghost use Rattle.oer_words.specs.Setting.{setting_of};
ghost use Rattle.oer_words.specs.Words.{result_map};
ghost use Rattle.oer_input_cmd.specs.Asked.{asked_by, asked_of, coding_in, coding_of, takes_octets};

use crate::error::Error;
use oer_input::Coding;
use oer_words::{Setting, asks_octets, has_flag, has_option};

/// The program that the words are given to.
#[derive(Clone, Copy, Debug, PartialEq, Eq)]
pub enum Program {
    /// `oer`, whose first word is a subcommand.
    Oer,
    /// `oer-dump`, which has none.
    Dump,
}

/// What `--in` asks for.
#[derive(Drop)]
pub struct Asked {
    /// How the octets are written.
    pub coding: Coding,
    /// The words without `--in` and its value, the program's name first.
    pub words: Vec<String>,
}

fn coding_of(value: &str) -> Option<Coding>
    ensures { result ≡ coding_of value.now }
{
    if value == "raw" {
        return Some(Coding::Raw);
    }
    if value == "hex" {
        return Some(Coding::Hex);
    }
    if value == "base64" {
        return Some(Coding::Base64);
    }
    None
}

// Whether the program takes octets, with these words.
fn takes_octets(program: Program, words: &[String]) -> bool
    ensures { result ≡ takes_octets program (map string_bytes words.now) }
{
    match program {
        Program::Dump => true,
        Program::Oer => asks_octets(words),
    }
}

// How the octets are written, by this value of `--in` beside these words.
fn coding_in(program: Program, words: &[String], value: &str) -> Result<Coding, Error>
    ensures { result ≡ coding_in program (map string_bytes words.now) value.now }
{
    let Some(coding) = coding_of(value) else {
        return Err(Error::Coding);
    };
    if !takes_octets(program, words) {
        return Err(Error::Command);
    }
    if has_option(words, "--hex") {
        return Err(Error::Hex);
    }
    if has_flag(words, "--lines") {
        return Err(Error::Lines);
    }
    if has_option(words, "--framed") {
        return Err(Error::Framed);
    }
    Ok(coding)
}

/// What is asked for, by what became of `--in`; none where it isn't among the words.
///
/// # Errors
/// The first of: NoValue, if `--in` is the last word; Twice; Coding, if its value is none that it takes; Command, if the first
/// word that stays is no subcommand that takes octets; Hex, if `--hex` stays; Lines, if `--lines` does; Framed, if `--framed`
/// does.
pub fn asked_by(program: Program, found: Setting<'_>) -> Result<Option<Asked>, Error>
    ensures { result_map (option_map asked_of) result ≡ asked_by program (setting_of found.entry) }
{
    match found {
        Setting::Missing => Ok(None),
        Setting::NoValue => Err(Error::NoValue),
        Setting::Twice => Err(Error::Twice),
        Setting::Once { value, words } => match coding_in(program, &words, value) {
            Ok(coding) => Ok(Some(Asked { coding, words })),
            Err(error) => Err(error),
        },
    }
}
