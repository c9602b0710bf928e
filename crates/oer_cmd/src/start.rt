//! Why a program can't begin.
ghost use Rattle.std.specs.Prelude.{◌≡◌};
ghost use Rattle.oer_cmd.specs.Faults.{AppendsFront};
ghost use Rattle.oer_cmd.specs.Start.{start_line};

use crate::program::put_all;
use std::io::Write;

/// Why a program can't begin.
#[derive(Clone, Copy, Debug, PartialEq, Eq)]
pub enum NoStart {
    /// An argument is no text.
    NoText,
    /// An allocation failed.
    NoMemory,
}

impl NoStart {
    // The line on the standard error, with its line feed.
    fn line(self) -> &'static str
        ensures { result.now ≡ start_line self }
    {
        match self {
            NoStart::NoText => "oer: arguments that are no text\n",
            NoStart::NoMemory => "oer: out of memory\n",
        }
    }
}

/// Writes why the program can't begin, in one call, and returns its status, which is 3. A failure to
/// write the line is ignored.
pub fn stop<E: Write>(why: NoStart, errors: &mut E) -> u8
    ensures line { AppendsFront (E.contents errors.old) (E.contents errors.new) (start_line why) }
    ensures status { result ≡ 3 }
{
    put_all(why.line().as_bytes(), errors);
    3
}
