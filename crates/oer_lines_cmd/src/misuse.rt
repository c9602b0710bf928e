//! Why the subcommand doesn't take many messages.
ghost use Rattle.std.specs.Prelude.{◌≡◌};
ghost use Rattle.oer_cmd.specs.Faults.{AppendsFront};
ghost use Rattle.oer_lines_cmd.specs.Errors.{misuse_line};

use crate::way::Word;
use oer_words::reject;
use std::io::Write;

/// Why the subcommand doesn't take many messages, for which this word asks.
#[derive(Clone, Copy, Debug, PartialEq, Eq)]
pub enum Misuse {
    /// It is one that takes none.
    Subcommand(Word),
    /// The octets are given by `--hex`.
    Hex(Word),
}

impl Misuse {
    /// The line on standard error, with its line feed.
    pub fn line(self) -> &'static str
        ensures { result.now ≡ misuse_line self }
    {
        match self {
            Misuse::Subcommand(Word::Lines) => "oer: --lines needs canon, show, check or part\n",
            Misuse::Subcommand(Word::Framed) => "oer: --framed needs canon, show, check or part\n",
            Misuse::Subcommand(Word::Stream) => "oer: --stream needs canon, show, check or part\n",
            Misuse::Hex(Word::Lines) => "oer: --lines reads standard input, not --hex\n",
            Misuse::Hex(Word::Framed) => "oer: --framed reads standard input, not --hex\n",
            Misuse::Hex(Word::Stream) => "oer: --stream reads standard input, not --hex\n",
        }
    }
}

/// Writes why the word is rejected, in one call, and returns the status, which is 2. A failure to write the line is ignored.
pub fn tell<E: Write>(misuse: Misuse, errors: &mut E) -> u8
    ensures line { AppendsFront (E.contents errors.old) (E.contents errors.new) (misuse_line misuse) }
    ensures status { result ≡ 2 }
{
    reject(misuse.line(), errors)
}
