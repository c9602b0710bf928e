//! What is wrong with the options of modules.
ghost use Rattle.std.specs.Prelude.{Some};
ghost use Rattle.oer_module_options.specs.Errors.{error_of, text_of};

use crate::words::Taken;
use std::fmt;

/// What is wrong with the options of modules. It displays as what stands after `oer: ` in the line on standard error.
#[derive(Clone, Copy, Debug, PartialEq, Eq)]
pub enum Error<'a> {
    /// The option is the last word, and its value isn't there.
    NoValue(Taken),
    /// The option is given twice.
    Twice(Taken),
    /// `--type` or `--types` beside `--modules`.
    OneType,
    /// `--modules` without `--name`.
    NoName,
    /// `--modules=-` without the octets or the JSON.
    NoSource,
    /// `--modules=-` twice.
    TwoInputs,
    /// The value of `--nesting` is no number from 1 to 255.
    Nesting,
    /// A word that `oer types` doesn't take.
    Stray(&'a str),
    /// `oer types` with neither `--modules` nor `--types`, or with both.
    OneText,
    /// `oer types` with `--types` and without `--name`.
    NoNameOfTypes,
    /// `oer types` with `--types` and `--nesting`.
    NoNesting,
    /// `--names` twice.
    TwoNames,
    /// `--names` with `--name`.
    OneName,
    /// `oer types` with `--types` and `--names`.
    NoNames,
}

impl fmt::Display for Error<'_> {
    ghost output = { λ error. Some (text_of (error_of error)) };

    fn fmt<W: fmt::Write>(&self, f: &mut fmt::Formatter<W>) -> fmt::Result {
        match self {
            Error::NoValue(taken) => write!(f, "{} needs a value", taken.text()),
            Error::Twice(taken) => write!(f, "{} is given twice", taken.text()),
            Error::OneType => f.write_str("one of --type, --types and --modules"),
            Error::NoName => f.write_str("--modules needs --name"),
            Error::NoSource => f.write_str("--modules=- needs --hex or --json"),
            Error::TwoInputs => f.write_str("--modules=- is given twice"),
            Error::Nesting => f.write_str("nesting refused"),
            Error::Stray(word) => write!(f, "types doesn't take {word}"),
            Error::OneText => f.write_str("one of --modules and --types"),
            Error::NoNameOfTypes => f.write_str("--types needs --name"),
            Error::NoNesting => f.write_str("--nesting needs --modules"),
            Error::TwoNames => f.write_str("--names is given twice"),
            Error::OneName => f.write_str("one of --name and --names"),
            Error::NoNames => f.write_str("--names needs --modules"),
        }
    }
}
