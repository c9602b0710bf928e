//! What the arguments of the program ask for.
ghost use Rattle.std.specs.Prelude.{◌≡◌, [], ◌∷◌, List, Option, Some, None, false, true, IfOk, IfErr, IfSome, map, option_map, string_bytes};
ghost use Rattle.clap.specs.Words.{HasKind, items_of, fault_of, first_value, found_of, kind_of, new_app, one_text, rule_of, takes};
ghost use Rattle.clap.specs.declared.error.kind.ErrorKind.TheVariants.{OutOfMemory};
ghost use Rattle.oer_options.specs.Words.{Asks, HasShape, HasStyle, IsFlag, IsTask, behind, flag_rule, hex_app, limit_rule, make_app, oer, option_rule, part_app, show_app, source_text, task_app};

use crate::help::{self, Help};
use clap::{Arg, ArgAction, ArgMatches, Command, Error};
use std::alloc::{AllocError, Global};

/// How the JSON of a value is printed.
#[derive(Clone, Copy)]
pub struct Style {
    /// In ASCII: all other characters are escaped.
    pub ascii: bool,
}

/// What the arguments ask for, and the options that not all tasks have. `hex` are octets in
/// hexadecimal digits; without them the octets come from the input.
#[derive(Clone, Copy)]
pub enum Task<'a> {
    /// The JSON of a value.
    Show {
        hex: Option<&'a str>,
        style: Style,
    },
    /// The canonical octets of a value.
    Canon {
        hex: Option<&'a str>,
    },
    /// Whether octets are canonical.
    Check {
        hex: Option<&'a str>,
    },
    /// The canonical octets of the value that JSON stands for: the text, or without it all of the input.
    Make {
        json: Option<&'a str>,
    },
    /// A part of octets; without the text of a path, all of them.
    Part {
        hex: Option<&'a str>,
        path: Option<&'a str>,
    },
}

impl<'a> Task<'a> {
    /// The text of the octets or of the JSON, if it is given.
    pub fn source(self) -> Option<&'a str>
        ensures { behind result ≡ source_text self.entry }
    {
        match self {
            Task::Show { hex, .. } | Task::Canon { hex } => hex,
            Task::Check { hex } | Task::Part { hex, .. } => hex,
            Task::Make { json } => json,
        }
    }
}

/// What the arguments ask for, and with which options.
#[derive(Clone, Copy)]
pub struct Options<'a> {
    pub task: Task<'a>,
    /// The text of one type.
    pub type_text: Option<&'a str>,
    /// The text of definitions, or `-` where it stands on the input.
    pub types: Option<&'a str>,
    /// The Name of a type among the definitions.
    pub name: Option<&'a str>,
    /// How many octets the value may take.
    pub limit: u64,
}

/// An option that takes a value, with its help, which calls the value by this name.
pub fn option<'a>(alloc: Global, id: &'a str, value_name: &'a str, help: &'a str) -> Arg<'a>
    ensures rule { rule_of result ≡ option_rule id.entry.now }
    ensures local { result.global ≡ false }
    ensures shown { (items_of result.val_names ≡ value_name.entry ∷ []) × (result.help ≡ Some help.entry) }
{
    Arg::new(alloc, id)
        .long(id)
        .value_name(value_name)
        .help(help)
}

/// How many octets the value may take where the arguments give no limit, in decimal digits.
pub const DEFAULT_LIMIT: &str = "1048576";

/// The option that bounds how many octets the value may take.
fn limit_option<'a>(alloc: Global) -> Arg<'a>
    ensures rule { rule_of result ≡ limit_rule }
    ensures local { result.global ≡ false }
{
    option(alloc, "limit", "N", help::LIMIT)
        .value_parser(clap::value_parser!(u64))
        .default_value(DEFAULT_LIMIT)
}

/// A flag, with its help.
fn flag<'a>(alloc: Global, id: &'a str, about: &'a str) -> Arg<'a>
    ensures rule { rule_of result ≡ flag_rule id.entry.now }
    ensures local { result.global ≡ false }
{
    Arg::new(alloc, id)
        .long(id)
        .action(ArgAction::SetTrue)
        .help(about)
}

/// A command with its help.
fn with_help<'a>(alloc: Global, name: &'a str, help: Help) -> Command<'a>
    ensures { HasShape (new_app name.entry.now) result }
{
    Command::new(alloc, name)
        .override_usage(help.usage)
        .about(help.about)
        .after_help(help.notes)
}

/// The subcommand of a task, with the options that all tasks have.
fn task_command<'a>(alloc: Global, name: &'a str, help: Help) -> Result<Command<'a>, AllocError>
    ensures { IfOk result (HasShape (task_app name.entry.now)) }
{
    with_help(alloc, name, help)
        .arg(option(alloc, "type", "TYPE", help::TYPE))?
        .arg(option(alloc, "types", "TEXT", help::TYPES_OR_INPUT))?
        .arg(option(alloc, "name", "NAME", help::NAME))?
        .arg(limit_option(alloc))
}

/// The subcommand of a task on octets.
fn hex_command<'a>(alloc: Global, name: &'a str, help: Help) -> Result<Command<'a>, AllocError>
    ensures { IfOk result (HasShape (hex_app name.entry.now)) }
{
    task_command(alloc, name, help)?.arg(option(alloc, "hex", "DIGITS", help::HEX))
}

/// The subcommand of the task that prints JSON.
fn show_command<'a>(alloc: Global) -> Result<Command<'a>, AllocError>
    ensures { IfOk result (HasShape show_app) }
{
    hex_command(alloc, "show", help::SHOW)?.arg(flag(alloc, "ascii", help::ASCII))
}

/// The subcommand of the task on JSON.
fn make_command<'a>(alloc: Global) -> Result<Command<'a>, AllocError>
    ensures { IfOk result (HasShape make_app) }
{
    task_command(alloc, "make", help::MAKE)?.arg(option(alloc, "json", "JSON", help::JSON))
}

/// The subcommand of the task on a part of octets.
fn part_command<'a>(alloc: Global) -> Result<Command<'a>, AllocError>
    ensures { IfOk result (HasShape part_app) }
{
    hex_command(alloc, "part", help::PART)?.arg(option(alloc, "path", "PATH", help::PATH))
}

/// The whole command.
fn command<'a>(alloc: Global) -> Result<Command<'a>, AllocError>
    ensures { IfOk result (HasShape oer) }
{
    with_help(alloc, "oer", help::OER)
        .version(help::VERSION)
        .subcommand_required(true)
        .subcommand(show_command(alloc)?)?
        .subcommand(hex_command(alloc, "canon", help::CANON)?)?
        .subcommand(hex_command(alloc, "check", help::CHECK)?)?
        .subcommand(make_command(alloc)?)?
        .subcommand(part_command(alloc)?)
}

/// Whether the flag is given.
fn is_given(found: &ArgMatches<'_>, id: &str) -> bool
    ensures { IsFlag (one_text (found_of found.now)) id.now result }
{
    found.get_one::<bool>(id).unwrap_or(false)
}

/// How the flags say that JSON is printed.
fn style_of(found: &ArgMatches<'_>) -> Style
    ensures { HasStyle result (one_text (found_of found.now)) }
{
    Style {
        ascii: is_given(found, "ascii"),
    }
}

/// The task of that name, with the options that not all tasks have.
fn task_of<'a>(name: &str, found: &ArgMatches<'a>) -> Option<Task<'a>>
    ensures { IfSome result (IsTask (Some name.now) (first_value (found_of found.now)) (one_text (found_of found.now))) }
{
    if name == "show" {
        return Some(Task::Show {
            hex: found.get_str("hex"),
            style: style_of(found),
        });
    }
    if name == "canon" {
        return Some(Task::Canon {
            hex: found.get_str("hex"),
        });
    }
    if name == "check" {
        return Some(Task::Check {
            hex: found.get_str("hex"),
        });
    }
    if name == "make" {
        return Some(Task::Make {
            json: found.get_str("json"),
        });
    }
    if name == "part" {
        return Some(Task::Part {
            hex: found.get_str("hex"),
            path: found.get_str("path"),
        });
    }
    None
}

/// What the arguments ask for, or why `clap` rejects them. The first word is the name of the
/// program.
pub fn parsed<'a>(alloc: Global, words: &'a [String]) -> Result<Options<'a>, Error>
    ensures ok { IfOk result (λ o. Asks (map string_bytes words.entry.now) o) }
    ensures err { IfErr result (λ e. takes oer (map string_bytes words.entry.now) ≡ true
        → kind_of e ≡ OutOfMemory) }
    // An allocation failed, or it is a fault that these words have.
    ensures kinds { IfErr result (HasKind (fault_of oer (map string_bytes words.entry.now))) }
{
    let command = command(alloc)?;
    let matches = match command.try_get_matches_from(words) {
        Ok(matches) => matches,
        Err(error) => return Err(error),
    };
    let Some((name, found)) = matches.subcommand() else {
        return Err(Error::from(AllocError));
    };
    let Some(task) = task_of(name, found) else {
        return Err(Error::from(AllocError));
    };
    let Some(limit) = found.get_one::<u64>("limit") else {
        return Err(Error::from(AllocError));
    };
    Ok(Options {
        task,
        type_text: found.get_str("type"),
        types: found.get_str("types"),
        name: found.get_str("name"),
        limit,
    })
}
