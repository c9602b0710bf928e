//! What the words of `oer compare` ask for.
ghost use Rattle.std.specs.Prelude.{◌≡◌, codes, true, IfErr, IfOk, map, string_bytes};
ghost use Rattle.clap.specs.Words.{HasKind, fault_of, kind_of, new_app, takes};
ghost use Rattle.clap.specs.declared.error.kind.ErrorKind.TheVariants.{OutOfMemory};
ghost use Rattle.oer_options.specs.Words.{HasShape};
ghost use Rattle.oer_compare_cmd.specs.Words.{Asks, app, compare_app};

use crate::help;
use clap::{Command, Error};
use oer_options::{Options, Task, option};
use std::alloc::{AllocError, Global};

/// What the words ask for.
#[derive(Clone, Copy)]
pub struct Asked<'a> {
    /// Those on the first type. The others count for nothing.
    pub options: Options<'a>,
    /// The value of `--with`.
    pub with: Option<&'a str>,
    /// The value of `--with-types`.
    pub with_types: Option<&'a str>,
}

fn with_help<'a>(alloc: Global) -> Command<'a>
    ensures { HasShape (new_app (codes "compare")) result }
{
    Command::new(alloc, "compare")
        .override_usage(help::USAGE)
        .about(help::ABOUT)
        .after_help(help::NOTES)
}

/// The subcommand.
fn compare_command<'a>(alloc: Global) -> Result<Command<'a>, AllocError>
    ensures { IfOk result (HasShape compare_app) }
{
    with_help(alloc)
        .arg(option(alloc, "type", "TYPE", help::TYPE))?
        .arg(option(alloc, "types", "TEXT", help::TYPES))?
        .arg(option(alloc, "name", "NAME", help::NAME))?
        .arg(option(alloc, "with", "TYPE", help::WITH))?
        .arg(option(alloc, "with-types", "TEXT", help::WITH_TYPES))
}

fn oer_command<'a>(alloc: Global) -> Command<'a>
    ensures { HasShape (new_app (codes "oer")) result }
{
    Command::new(alloc, "oer")
}

/// The whole command, of which this is the one subcommand.
fn command<'a>(alloc: Global) -> Result<Command<'a>, AllocError>
    ensures { IfOk result (HasShape app) }
{
    oer_command(alloc)
        .subcommand_required(true)
        .subcommand(compare_command(alloc)?)
}

/// What the words ask for, or why `clap` rejects them. The first word is the name of the program, the
/// second one `compare`.
pub(crate) fn parsed<'a>(alloc: Global, words: &'a [String]) -> Result<Asked<'a>, Error>
    ensures ok { IfOk result (λ a. Asks (map string_bytes words.entry.now) a) }
    ensures err { IfErr result (λ e. takes app (map string_bytes words.entry.now) ≡ true
        → kind_of e ≡ OutOfMemory) }
    // An allocation failed, or it is a fault that these words have.
    ensures kinds { IfErr result (HasKind (fault_of app (map string_bytes words.entry.now))) }
{
    let command = command(alloc)?;
    let matches = match command.try_get_matches_from(words) {
        Ok(matches) => matches,
        Err(error) => return Err(error),
    };
    let Some((name, found)) = matches.subcommand() else {
        return Err(Error::from(AllocError));
    };
    let _task = name;
    let options = Options {
        task: Task::Canon { hex: None },
        type_text: found.get_str("type"),
        types: found.get_str("types"),
        name: found.get_str("name"),
        limit: 0,
    };
    Ok(Asked {
        options,
        with: found.get_str("with"),
        with_types: found.get_str("with-types"),
    })
}
