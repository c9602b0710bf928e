//! What a word is where an option may stand.
ghost use Rattle.std.specs.Prelude.{◌≡◌, option_map};
ghost use Rattle.oer_module_options.specs.Words.{is_flag, is_other, is_source, is_type, kept_key, key_of, name_in, option_text, own_key, value_in};

/// Which command the words are given to.
#[derive(Clone, Copy, Debug, PartialEq, Eq)]
pub enum Command {
    /// A subcommand of `oer` that is about a value.
    Oer,
    /// `oer-dump`.
    Dump,
    /// `oer types`.
    Types,
}

/// An option that is taken out of the words, with its value.
#[derive(Clone, Copy, Debug, PartialEq, Eq)]
pub enum Taken {
    /// `--modules`.
    Modules,
    /// `--name`.
    Name,
    /// `--nesting`.
    Nesting,
    /// `--types`, of `oer types`.
    Types,
}

impl Taken {
    /// The option as it is written.
    pub fn text(self) -> &'static str
        ensures { result.now ≡ option_text self }
    {
        match self {
            Taken::Modules => "--modules",
            Taken::Name => "--name",
            Taken::Nesting => "--nesting",
            Taken::Types => "--types",
        }
    }
}

/// An option that stays among the words, with its value.
#[derive(Clone, Copy, Debug, PartialEq, Eq)]
pub enum Kept {
    /// `--type` or `--types`.
    Type,
    /// `--hex`, or `--json` of `oer`.
    Source,
    /// Another one.
    Other,
}

/// An option that takes a value.
#[derive(Clone, Copy, Debug, PartialEq, Eq)]
pub enum Key {
    Taken(Taken),
    Kept(Kept),
}

/// What stands before the first `=` of a word, and behind it.
pub fn split(word: &str) -> (&str, Option<&str>)
    ensures name { result.0.now ≡ name_in word.now }
    ensures value { option_map (λ s. s.now) result.1 ≡ value_in word.now }
{
    match word.split_once('=') {
        Some((name, value)) => (name, Some(value)),
        None => (word, None),
    }
}

fn is_type(name: &str) -> bool
    ensures { result ≡ is_type name.now }
{
    name == "--type" || name == "--types"
}

// Whether the option gives the octets or the JSON. `--json` of `oer-dump` takes no value.
fn is_source(command: Command, name: &str) -> bool
    ensures { result ≡ is_source command name.now }
{
    match command {
        Command::Oer => name == "--hex" || name == "--json",
        Command::Dump | Command::Types => name == "--hex",
    }
}

fn is_other(name: &str) -> bool
    ensures { result ≡ is_other name.now }
{
    name == "--limit" || name == "--path" || name == "--width"
}

// An option that stays among the words.
fn kept_key(command: Command, name: &str) -> Option<Key>
    ensures { result ≡ kept_key command name.now }
{
    if is_type(name) {
        return Some(Key::Kept(Kept::Type));
    }
    if is_source(command, name) {
        return Some(Key::Kept(Kept::Source));
    }
    if is_other(name) {
        return Some(Key::Kept(Kept::Other));
    }
    None
}

fn types_key(name: &str) -> Option<Key>
    ensures { result ≡ own_key Command.Types name.now }
{
    if name == "--types" {
        return Some(Key::Taken(Taken::Types));
    }
    None
}

// An option that only `oer types` has, or the others alone.
fn own_key(command: Command, name: &str) -> Option<Key>
    ensures { result ≡ own_key command name.now }
{
    match command {
        Command::Types => types_key(name),
        Command::Oer | Command::Dump => kept_key(command, name),
    }
}

/// Whether the word is `--names`, the flag that only `oer types` has.
pub fn is_flag(command: Command, word: &str) -> bool
    ensures { result ≡ is_flag command word.now }
{
    match command {
        Command::Types => word == "--names",
        Command::Oer | Command::Dump => false,
    }
}

/// The option of this name, if it takes a value.
#[tactic(auto, unfolding(crate::specs::Words::key_of))]
pub fn key_of(command: Command, name: &str) -> Option<Key>
    ensures { result ≡ key_of command name.now }
{
    if name == "--modules" {
        return Some(Key::Taken(Taken::Modules));
    }
    if name == "--name" {
        return Some(Key::Taken(Taken::Name));
    }
    if name == "--nesting" {
        return Some(Key::Taken(Taken::Nesting));
    }
    own_key(command, name)
}
