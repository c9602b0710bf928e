//! What the words of a command line say, before a word `--`.
ghost use Rattle.std.specs.Prelude.{◌≡◌, map, string_bytes};
ghost use Rattle.oer_words.specs.Words.{asks_for, asks_many, asks_octets, has_flag, has_option, is_option, stands};

use crate::flag::times;
use crate::scan::value_of;

/// Whether the flag stands among the words.
pub fn has_flag(words: &[String], flag: &str) -> bool
    ensures { result ≡ has_flag flag.now (map string_bytes words.now) }
{
    match words.split_first() {
        Some((_, rest)) => times(flag, rest) > 0,
        None => false,
    }
}

// Whether the word is the option, alone or with `=` and a value.
fn is_option(word: &str, option: &str) -> bool
    ensures { result ≡ is_option option.now word.now }
{
    word == option || value_of(word, option).is_some()
}

// Whether the option stands among words behind the program's name.
fn stands(option: &str, words: &[String]) -> bool
    ensures { result ≡ stands option.now (map string_bytes words.now) }
{
    for word in words {
        let word = word.as_str();
        if word == "--" {
            return false;
        }
        if is_option(word, option) {
            return true;
        }
    }
    false
}

/// Whether the option stands among the words, alone or with `=` and a value.
pub fn has_option(words: &[String], option: &str) -> bool
    ensures { result ≡ has_option option.now (map string_bytes words.now) }
{
    match words.split_first() {
        Some((_, rest)) => stands(option, rest),
        None => false,
    }
}

/// Whether the words ask for many messages, on lines or behind their lengths.
pub fn asks_many(words: &[String]) -> bool
    ensures { result ≡ asks_many (map string_bytes words.now) }
{
    has_flag(words, "--lines") || has_option(words, "--framed")
}

/// Whether the subcommand, which is the word behind the program's name, is this one.
pub fn asks_for(words: &[String], name: &str) -> bool
    ensures { result ≡ asks_for name.now (map string_bytes words.now) }
{
    match words.get(1) {
        Some(word) => word.as_str() == name,
        None => false,
    }
}

/// Whether the subcommand is one that takes octets.
pub fn asks_octets(words: &[String]) -> bool
    ensures { result ≡ asks_octets (map string_bytes words.now) }
{
    asks_for(words, "canon")
        || asks_for(words, "show")
        || asks_for(words, "check")
        || asks_for(words, "part")
}
