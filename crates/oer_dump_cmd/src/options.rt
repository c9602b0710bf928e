//! What the arguments ask for.
ghost use Rattle.std.specs.Prelude.{◌≡◌, IfErr, IfOk, codes, false, map, string_bytes, true};
ghost use Rattle.clap.specs.Words.{HasKind, fault_of, found_of, kind_of, one_text, rule_of, takes};
ghost use Rattle.clap.specs.declared.error.kind.ErrorKind.TheVariants.{OutOfMemory};
ghost use Rattle.oer_options.specs.Words.{HasShape, limit_rule, texts_of};
ghost use Rattle.oer_dump_cmd.specs.Words.{Asks, IsWidth, bare, json_rule, oer_dump, texts_asked, width_rule};

use crate::help;
use clap::{Arg, ArgAction, ArgMatches, Command, Error};
use oer_options::{
    DEFAULT_LIMIT, HEX, NAME, Options as OerOptions, TYPE, TYPES, Task, VERSION, option,
};
use std::alloc::{AllocError, Global};

/// How the lines are printed.
#[derive(Clone, Copy)]
pub(crate) enum Form {
    /// As text, with so many characters a line; 0 is no bound.
    Text { width: u64 },
    /// As one JSON array.
    Json,
}

/// What the arguments ask for.
#[derive(Clone, Copy)]
pub(crate) struct Options<'a> {
    /// The text of one type.
    pub type_text: Option<&'a str>,
    /// The text of definitions.
    pub types: Option<&'a str>,
    /// The Name of a type among the definitions.
    pub name: Option<&'a str>,
    /// The octets, in hexadecimal digits; without them they come from the input.
    pub hex: Option<&'a str>,
    /// How many octets there may be.
    pub limit: u64,
    pub form: Form,
}

impl<'a> Options<'a> {
    /// Those that `oer check` has.
    pub(crate) fn of_check(self) -> OerOptions<'a>
        ensures { texts_of result ≡ texts_asked self.entry }
    {
        OerOptions {
            task: Task::Check { hex: self.hex },
            type_text: self.type_text,
            types: self.types,
            name: self.name,
            limit: self.limit,
        }
    }
}

// The option that bounds how many octets there may be.
fn limit_option<'a>(alloc: Global) -> Arg<'a>
    ensures rule { rule_of result ≡ limit_rule }
    ensures local { result.global ≡ false }
{
    option(alloc, "limit", "N", help::LIMIT)
        .value_parser(clap::value_parser!(u64))
        .default_value(DEFAULT_LIMIT)
}

// The option that bounds how long a line may be.
fn width_option<'a>(alloc: Global) -> Arg<'a>
    ensures rule { rule_of result ≡ width_rule }
    ensures local { result.global ≡ false }
{
    option(alloc, "width", "N", help::WIDTH).value_parser(clap::value_parser!(u64))
}

// The option for JSON in place of lines.
fn json_option<'a>(alloc: Global) -> Arg<'a>
    ensures rule { rule_of result ≡ json_rule }
    ensures local { result.global ≡ false }
{
    Arg::new(alloc, "json")
        .long("json")
        .action(ArgAction::SetTrue)
        .help(help::JSON)
}

// The command without options.
fn bare_command<'a>(alloc: Global) -> Command<'a>
    ensures { HasShape bare result }
{
    Command::new(alloc, "oer-dump")
        .override_usage(help::USAGE)
        .about(help::ABOUT)
        .after_help(help::NOTES)
        .version(VERSION)
}

// The whole command.
fn command<'a>(alloc: Global) -> Result<Command<'a>, AllocError>
    ensures { IfOk result (HasShape oer_dump) }
{
    bare_command(alloc)
        .arg(option(alloc, "type", "TYPE", TYPE))?
        .arg(option(alloc, "types", "TEXT", TYPES))?
        .arg(option(alloc, "name", "NAME", NAME))?
        .arg(limit_option(alloc))?
        .arg(option(alloc, "hex", "DIGITS", HEX))?
        .arg(width_option(alloc))?
        .arg(json_option(alloc))
}

// How many characters a line may have, by `--width`; the usual number without it.
fn width_of(found: &ArgMatches<'_>, usual: u64) -> u64
    ensures { IsWidth usual (one_text (found_of found.now) (codes "width")) result }
{
    found.get_one::<u64>("width").unwrap_or(usual)
}

/// What the arguments ask for, or why `clap` rejects them. The first word is the name of the program;
/// `width` is how many characters a line may have if they don't say.
pub(crate) fn parsed<'a>(
    alloc: Global,
    words: &'a [String],
    width: u64,
) -> Result<Options<'a>, Error>
    ensures ok { IfOk result (λ o. Asks (map string_bytes words.entry.now) width o) }
    ensures err { IfErr result (λ e. takes oer_dump (map string_bytes words.entry.now) ≡ true
        → kind_of e ≡ OutOfMemory) }
    // An allocation failed, or it is a fault that these words have.
    ensures kinds { IfErr result (HasKind (fault_of oer_dump (map string_bytes words.entry.now))) }
{
    let command = command(alloc)?;
    let found = match command.try_get_matches_from(words) {
        Ok(found) => found,
        Err(error) => return Err(error),
    };
    let Some(limit) = found.get_one::<u64>("limit") else {
        return Err(Error::from(AllocError));
    };
    let form = if found.get_flag("json") {
        Form::Json
    } else {
        Form::Text {
            width: width_of(&found, width),
        }
    };
    Ok(Options {
        type_text: found.get_str("type"),
        types: found.get_str("types"),
        name: found.get_str("name"),
        hex: found.get_str("hex"),
        limit,
        form,
    })
}
