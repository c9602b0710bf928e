//! Why the task of a command line doesn't take `--at`.
ghost use Rattle.std.specs.Prelude.{◌≡◌};
ghost use Rattle.oer_cmd.specs.Faults.{AppendsFront};
ghost use Rattle.oer_at_cmd.specs.Errors.{misuse_line};

use oer_words::reject;
use std::io::Write;

/// Why the task doesn't take `--at`.
#[derive(Clone, Copy)]
pub enum Misuse {
    /// The subcommand is another one than `part`.
    Subcommand,
    /// `--path` is given, too.
    Path,
}

impl Misuse {
    // The line on standard error, with its line feed.
    fn line(self) -> &'static str
        ensures { result.now ≡ misuse_line self }
    {
        match self {
            Misuse::Subcommand => "oer: --at needs part\n",
            Misuse::Path => "oer: one of --at and --path\n",
        }
    }
}

/// Writes why `--at` is rejected, in one call, and returns the status, which is 2. A failure to write the line is ignored.
pub fn tell<E: Write>(misuse: Misuse, errors: &mut E) -> u8
    ensures line { AppendsFront (E.contents errors.old) (E.contents errors.new) (misuse_line misuse) }
    ensures status { result ≡ 2 }
{
    reject(misuse.line(), errors)
}
