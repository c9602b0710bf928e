//! What the words of `oer example` ask for.
ghost use Rattle.std.specs.Prelude.{◌≡◌, ◌≢◌, codes, false, true, IfErr, IfOk, Some, map, string_bytes};
ghost use Rattle.clap.specs.Words.{HasKind, fault_of, first_value, found_of, kind_of, new_app, one_text, rule_of, takes};
ghost use Rattle.clap.specs.declared.error.kind.ErrorKind.TheVariants.{OutOfMemory};
ghost use Rattle.oer_options.specs.Words.{HasShape, behind};
ghost use Rattle.oer_example_cmd.specs.Words.{AreParts, Asks, IsSeed, app, example_app, full_rule, random_rule};

use crate::help;
use clap::{Arg, ArgAction, ArgMatches, Command, Error};
use oer_options::{NAME, Options, TYPE, Task, option};
use oer_skeleton::Parts;
use std::alloc::{AllocError, Global};

/// What the words ask for.
#[derive(Clone, Copy)]
pub struct Asked<'a> {
    pub parts: Parts,
    /// The seed of a value that is made up.
    pub seed: Option<u64>,
    /// Those on the type. The others count for nothing.
    pub options: Options<'a>,
}

/// The flag for a value with all parts.
fn full_option<'a>(alloc: Global) -> Arg<'a>
    ensures rule { rule_of result ≡ full_rule }
    ensures local { result.global ≡ false }
{
    Arg::new(alloc, "full")
        .long("full")
        .action(ArgAction::SetTrue)
        .help(help::FULL)
}

/// The option that has the seed of a value that is made up.
fn random_option<'a>(alloc: Global) -> Arg<'a>
    ensures rule { rule_of result ≡ random_rule }
    ensures local { result.global ≡ false }
{
    option(alloc, "random", "N", help::RANDOM).value_parser(clap::value_parser!(u64))
}

fn with_help<'a>(alloc: Global) -> Command<'a>
    ensures { HasShape (new_app (codes "example")) result }
{
    Command::new(alloc, "example")
        .override_usage(help::USAGE)
        .about(help::ABOUT)
        .after_help(help::NOTES)
}

/// The subcommand.
fn example_command<'a>(alloc: Global) -> Result<Command<'a>, AllocError>
    ensures { IfOk result (HasShape example_app) }
{
    with_help(alloc)
        .arg(option(alloc, "type", "TYPE", TYPE))?
        .arg(option(alloc, "types", "TEXT", help::TYPES))?
        .arg(option(alloc, "name", "NAME", NAME))?
        .arg(full_option(alloc))?
        .arg(random_option(alloc))
}

fn oer_command<'a>(alloc: Global) -> Command<'a>
    ensures { HasShape (new_app (codes "oer")) result }
{
    Command::new(alloc, "oer")
}

/// The whole command, of which this is the one subcommand.
fn command<'a>(alloc: Global) -> Result<Command<'a>, AllocError>
    ensures { IfOk result (HasShape app) }
{
    oer_command(alloc)
        .subcommand_required(true)
        .subcommand(example_command(alloc)?)
}

/// Whether the flag for all parts is given.
fn is_full(found: &ArgMatches<'_>) -> bool
    ensures given { result ≡ true → one_text (found_of found.now) (codes "full") ≡ Some (codes "true") }
    ensures missing { result ≡ false → one_text (found_of found.now) (codes "full") ≢ Some (codes "true") }
{
    found.get_one::<bool>("full").unwrap_or(false)
}

fn parts_of(found: &ArgMatches<'_>) -> Parts
    ensures { AreParts (one_text (found_of found.now) (codes "full")) result }
{
    if is_full(found) {
        Parts::All
    } else {
        Parts::Needed
    }
}

/// The seed, if it is given.
fn seed_of(found: &ArgMatches<'_>) -> Result<Option<u64>, AllocError>
    ensures { IfOk result (λ seed. IsSeed (first_value (found_of found.now) (codes "random")) (one_text (found_of found.now) (codes "random")) seed) }
{
    if found.get_str("random").is_none() {
        return Ok(None);
    }
    match found.get_one::<u64>("random") {
        Some(seed) => Ok(Some(seed)),
        None => Err(AllocError),
    }
}

/// What the words ask for, or why `clap` rejects them. The first word is the name of the program, the
/// second one `example`.
pub(crate) fn parsed<'a>(alloc: Global, words: &'a [String]) -> Result<Asked<'a>, Error>
    ensures ok { IfOk result (λ a. Asks (map string_bytes words.entry.now) a) }
    ensures err { IfErr result (λ e. takes app (map string_bytes words.entry.now) ≡ true
        → kind_of e ≡ OutOfMemory) }
    // An allocation failed, or it is a fault that these words have.
    ensures kinds { IfErr result (HasKind (fault_of app (map string_bytes words.entry.now))) }
{
    let command = command(alloc)?;
    let matches = match command.try_get_matches_from(words) {
        Ok(matches) => matches,
        Err(error) => return Err(error),
    };
    let Some((name, found)) = matches.subcommand() else {
        return Err(Error::from(AllocError));
    };
    let _task = name;
    let options = Options {
        task: Task::Canon { hex: None },
        type_text: found.get_str("type"),
        types: found.get_str("types"),
        name: found.get_str("name"),
        limit: 0,
    };
    Ok(Asked {
        parts: parts_of(found),
        seed: seed_of(found)?,
        options,
    })
}
