//! The words of a command line, with the options of modules taken out.
ghost use Rattle.std.specs.Prelude.{◌≡◌, IfOk, OnOk, map, string_bytes};
ghost use Rattle.oer_module_options.specs.Scan.{add, at_option, count, keep, kept_option, mark, mark_place, note, scan_of, scanned, start, step, taken_option};
ghost use Rattle.oer_module_options.specs.Words.{behind};

use crate::words::{Command, Kept, Key, Taken, is_flag, key_of, split};
use std::alloc::{AllocError, Global};

/// Where the next word stands.
#[derive(Clone, Copy, Debug, PartialEq, Eq)]
pub enum Next {
    /// Where an option may stand.
    Option,
    /// Behind an option that is taken out: it is its value.
    Value(Taken),
    /// Behind an option that stays: it is its value.
    KeptValue,
    /// Behind `--`, where no option stands.
    Rest,
}

/// What stands among the words that stay.
#[derive(Clone, Copy, Debug, PartialEq, Eq)]
pub enum Item<'a> {
    /// A word that was given.
    Word(&'a str),
    /// The type gets the place of the first `--modules`.
    Type,
}

/// How often a flag is given.
#[derive(Clone, Copy, Debug, PartialEq, Eq)]
pub enum Flag {
    Missing,
    Once,
    /// Twice or more.
    Twice,
}

/// The words of a command line: the values of options that are taken out, in their order, and what stays.
#[derive(Drop)]
pub struct Scan<'a> {
    pub next: Next,
    pub modules: Vec<&'a str>,
    pub names: Vec<&'a str>,
    pub nestings: Vec<&'a str>,
    pub types: Vec<&'a str>,
    pub kept: Vec<Item<'a>>,
    /// `--names`, of `oer types`.
    pub flag: Flag,
    pub has_modules: bool,
    /// Whether `--type` or `--types` stays.
    pub has_type: bool,
    /// Whether the octets or the JSON are among the words.
    pub has_source: bool,
}

impl<'a> Scan<'a> {
    fn new(alloc: Global) -> Self
        ensures { scan_of result ≡ start }
    {
        Scan {
            next: Next::Option,
            modules: Vec::new(alloc),
            names: Vec::new(alloc),
            nestings: Vec::new(alloc),
            types: Vec::new(alloc),
            kept: Vec::new(alloc),
            flag: Flag::Missing,
            has_modules: false,
            has_type: false,
            has_source: false,
        }
    }

    fn keep(&mut self, word: &'a str) -> Result<(), AllocError>
        ensures { OnOk result (scan_of self.new ≡ keep word.entry.now (scan_of self.old)) }
    {
        self.kept.push(Item::Word(word))?;
        Ok(())
    }

    // Adds the value of an option that is taken out.
    fn add(&mut self, taken: Taken, value: &'a str) -> Result<(), AllocError>
        ensures { OnOk result (scan_of self.new ≡ add taken value.entry.now (scan_of self.old)) }
    {
        match taken {
            Taken::Modules => self.modules.push(value)?,
            Taken::Name => self.names.push(value)?,
            Taken::Nesting => self.nestings.push(value)?,
            Taken::Types => self.types.push(value)?,
        }
        Ok(())
    }

    fn mark_place(&mut self) -> Result<(), AllocError>
        ensures { OnOk result (scan_of self.new ≡ mark_place (scan_of self.old)) }
    {
        if self.has_modules {
            return Ok(());
        }
        self.kept.push(Item::Type)?;
        self.has_modules = true;
        Ok(())
    }

    // At the first `--modules` notes the place.
    fn mark(&mut self, taken: Taken) -> Result<(), AllocError>
        ensures { OnOk result (scan_of self.new ≡ mark taken (scan_of self.old)) }
    {
        match taken {
            Taken::Modules => self.mark_place(),
            Taken::Name | Taken::Nesting | Taken::Types => Ok(()),
        }
    }

    // Notes which options stay.
    fn note(&mut self, kept: Kept)
        ensures { scan_of self.new ≡ note kept (scan_of self.old) }
    {
        match kept {
            Kept::Type => self.has_type = true,
            Kept::Source => self.has_source = true,
            Kept::Other => {}
        }
    }

    // The flag once more.
    fn count(&mut self)
        ensures { scan_of self.new ≡ count (scan_of self.old) }
    {
        self.flag = match self.flag {
            Flag::Missing => Flag::Once,
            Flag::Once | Flag::Twice => Flag::Twice,
        };
    }

    // An option that is taken out, with its value behind `=` or as the next word.
    fn take_out(&mut self, taken: Taken, value: Option<&'a str>) -> Result<(), AllocError>
        ensures { OnOk result (scan_of self.new ≡ taken_option taken (behind value.entry) (scan_of self.old)) }
    {
        self.mark(taken)?;
        match value {
            Some(value) => self.add(taken, value),
            None => {
                self.next = Next::Value(taken);
                Ok(())
            }
        }
    }

    // An option that stays: this word, whose value is the next word where none stands behind `=`.
    fn keep_option(
        &mut self,
        kept: Kept,
        word: &'a str,
        value: Option<&'a str>,
    ) -> Result<(), AllocError>
        ensures { OnOk result (scan_of self.new ≡ kept_option kept word.entry.now (behind value.entry) (scan_of self.old)) }
    {
        self.note(kept);
        if value.is_none() {
            self.next = Next::KeptValue;
        }
        self.keep(word)
    }

    // A word where an option may stand.
    fn take_option(&mut self, command: Command, word: &'a str) -> Result<(), AllocError>
        ensures { OnOk result (scan_of self.new ≡ at_option command word.entry.now (scan_of self.old)) }
    {
        if word == "--" {
            self.next = Next::Rest;
            return self.keep(word);
        }
        if is_flag(command, word) {
            self.count();
            return Ok(());
        }
        let (name, value) = split(word);
        match key_of(command, name) {
            None => self.keep(word),
            Some(Key::Taken(taken)) => self.take_out(taken, value),
            Some(Key::Kept(kept)) => self.keep_option(kept, word, value),
        }
    }

    // The next word.
    #[tactic(auto, unfolding(crate::specs::Scan::step))]
    fn take(&mut self, command: Command, word: &'a str) -> Result<(), AllocError>
        ensures { OnOk result (scan_of self.new ≡ step command word.entry.now (scan_of self.old)) }
    {
        match self.next {
            Next::Option => self.take_option(command, word),
            Next::Value(taken) => {
                self.next = Next::Option;
                self.add(taken, word)
            }
            Next::KeptValue => {
                self.next = Next::Option;
                self.keep(word)
            }
            Next::Rest => self.keep(word),
        }
    }
}

/// The words that stand behind the program's name, or behind the subcommand `types`, with the options of modules taken
/// out. The value of an option is what stands behind its `=`, or else the next word, whatever that is; behind `--` no option
/// stands.
pub fn scanned<'a>(
    alloc: Global,
    command: Command,
    words: &'a [String],
) -> Result<Scan<'a>, AllocError>
    ensures { IfOk result (λ scan. scan_of scan ≡ scanned command (map string_bytes words.entry.now)) }
{
    let mut scan = Scan::new(alloc);
    for word in words {
        scan.take(command, word.as_str())?;
    }
    Ok(scan)
}
