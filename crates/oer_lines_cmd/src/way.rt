//! How messages stand on the input.
ghost use Rattle.std.specs.Prelude.{◌≡◌, Some};
ghost use Rattle.oer_lines_cmd.specs.Answers.{place_text};
ghost use Rattle.oer_lines_cmd.specs.Ways.{word_of};

use oer_units::Width;
use std::fmt;

/// The word that asks for many messages.
#[derive(Clone, Copy, Debug, PartialEq, Eq)]
pub enum Word {
    /// `--lines`.
    Lines,
    /// `--framed`.
    Framed,
    /// `--stream`.
    Stream,
}

/// How the messages stand on the input.
#[derive(Clone, Copy, Debug, PartialEq, Eq)]
pub enum Way {
    /// Each line is one, in hexadecimal digits.
    Lines,
    /// Each is raw, behind its length.
    Framed(Width),
    /// Each is raw, right behind the one before it.
    Stream,
}

impl Way {
    /// The word that asks for it.
    pub fn word(self) -> Word
        ensures { result ≡ word_of self }
    {
        match self {
            Way::Lines => Word::Lines,
            Way::Framed(_) => Word::Framed,
            Way::Stream => Word::Stream,
        }
    }
}

/// Where a message stands. It displays as the errors name it.
#[derive(Clone, Copy, Debug, PartialEq, Eq)]
pub enum Place {
    /// On the line of this number.
    Line(u64),
    /// It is the message of this number.
    Message(u64),
}

impl fmt::Display for Place {
    ghost output = { λ place. Some (place_text place) };

    fn fmt<W: fmt::Write>(&self, f: &mut fmt::Formatter<W>) -> fmt::Result {
        match self {
            Place::Line(number) => write!(f, "line {number}"),
            Place::Message(number) => write!(f, "message {number}"),
        }
    }
}
