//! The words of a command line, read one after the other for an option with a value.
ghost use Rattle.std.specs.Prelude.{◌≡◌, IfOk, OnOk, map, string_bytes};
ghost use Rattle.oer_words.specs.Scan.{at_option, found_of, found_seen, keep, scan_of, scanned, start, step};
ghost use Rattle.oer_words.specs.Words.{behind, value_behind, value_of};

use std::alloc::{AllocError, Global};

/// What a word is where an option may stand.
#[derive(Clone, Copy)]
pub enum Found<'a> {
    /// `--`, behind which no option stands.
    Rest,
    /// The option: the next word is its value.
    Alone,
    /// The option, `=` and its value.
    WithValue(&'a str),
    /// Another one.
    Other,
}

/// Where the next word stands.
#[derive(Clone, Copy)]
pub enum Next {
    /// Where an option may stand.
    Option,
    /// Behind the option: it is its value.
    Value,
    /// Behind `--`, where no option stands.
    Rest,
}

/// The words so far: the values of the option, in their order, and what stays.
#[derive(Drop)]
pub struct Scan<'a> {
    pub next: Next,
    pub values: Vec<&'a str>,
    pub kept: Vec<&'a str>,
}

// What stands in a word behind this, where the word begins with it.
fn value_behind<'a>(word: &'a str, front: &str) -> Option<&'a str>
    ensures { behind result ≡ value_behind word.entry.now front.now }
{
    word.strip_prefix(front)
}

/// The value of the option, where the word is the option with `=` and a value.
pub(crate) fn value_of<'a>(word: &'a str, option: &str) -> Option<&'a str>
    ensures { behind result ≡ value_of word.entry.now option.now }
{
    match value_behind(word, option) {
        Some(rest) => value_behind(rest, "="),
        None => None,
    }
}

// What this word is.
#[tactic(auto, unfolding(crate::specs::Scan::found_of))]
fn found_of<'a>(option: &str, word: &'a str) -> Found<'a>
    ensures { found_seen result ≡ found_of option.now word.entry.now }
{
    if word == "--" {
        return Found::Rest;
    }
    if word == option {
        return Found::Alone;
    }
    match value_of(word, option) {
        Some(value) => Found::WithValue(value),
        None => Found::Other,
    }
}

impl<'a> Scan<'a> {
    fn new(alloc: Global) -> Self
        ensures { scan_of result ≡ start }
    {
        Scan {
            next: Next::Option,
            values: Vec::new(alloc),
            kept: Vec::new(alloc),
        }
    }

    fn keep(&mut self, word: &'a str) -> Result<(), AllocError>
        ensures { OnOk result (scan_of self.new ≡ keep word.entry.now (scan_of self.old)) }
    {
        self.kept.push(word)?;
        Ok(())
    }

    // A word where an option may stand.
    fn take_option(&mut self, option: &str, word: &'a str) -> Result<(), AllocError>
        ensures { OnOk result (scan_of self.new ≡ at_option option.now word.entry.now (scan_of self.old)) }
    {
        match found_of(option, word) {
            Found::Rest => self.next = Next::Rest,
            Found::Alone => {
                self.next = Next::Value;
                return Ok(());
            }
            Found::WithValue(value) => {
                self.values.push(value)?;
                return Ok(());
            }
            Found::Other => {}
        }
        self.keep(word)
    }

    // The next word.
    #[tactic(auto, unfolding(crate::specs::Scan::step))]
    fn take(&mut self, option: &str, word: &'a str) -> Result<(), AllocError>
        ensures { OnOk result (scan_of self.new ≡ step option.now word.entry.now (scan_of self.old)) }
    {
        match self.next {
            Next::Option => self.take_option(option, word),
            Next::Value => {
                self.next = Next::Option;
                self.values.push(word)?;
                Ok(())
            }
            Next::Rest => self.keep(word),
        }
    }
}

/// The words behind the program's name, with the option taken out. Its value is what stands behind its `=`, or else the next word,
/// whatever that is.
pub(crate) fn scanned<'a>(
    alloc: Global,
    option: &str,
    words: &'a [String],
) -> Result<Scan<'a>, AllocError>
    ensures { IfOk result (λ scan. scan_of scan ≡ scanned option.now (map string_bytes words.entry.now)) }
{
    let mut scan = Scan::new(alloc);
    for word in words {
        scan.take(option, word.as_str())?;
    }
    Ok(scan)
}
