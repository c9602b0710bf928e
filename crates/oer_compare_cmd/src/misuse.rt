//! What is wrong with the options on the second type.
ghost use Rattle.std.specs.Prelude.{◌≡◌};
ghost use Rattle.oer_cmd.specs.Ending.{refusal_line};
ghost use Rattle.oer_compare_cmd.specs.Ending.{refusal_of};

/// What is wrong with the options on the second type.
#[derive(Clone, Copy, Debug, PartialEq, Eq)]
pub enum Misuse {
    /// `--with` is missing.
    NoWith,
    /// `--with-types` beside `--type`.
    NoTypes,
}

impl Misuse {
    /// The line on standard error.
    pub(crate) fn line(self) -> &'static str
        ensures { result.now ≡ refusal_line (refusal_of self).text }
    {
        match self {
            Misuse::NoWith => "oer: compare needs --with\n",
            Misuse::NoTypes => "oer: --with-types needs --types\n",
        }
    }
}
