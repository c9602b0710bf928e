//! How many octets a number of fixed size has.
ghost use Rattle.oer_units.specs.Width.{octets_of_width};
ghost use Rattle.std.specs.Prelude.{◌≡◌};

/// How many octets a number of fixed size has (X.696, 10.2 to 10.4).
#[derive(Clone, Copy, Debug, PartialEq, Eq)]
pub enum Width {
    One,
    Two,
    Four,
    Eight,
}

impl Width {
    /// The number of octets.
    pub fn octets(self) -> usize
        ensures { result ≡ octets_of_width self }
    {
        match self {
            Width::One => 1,
            Width::Two => 2,
            Width::Four => 4,
            Width::Eight => 8,
        }
    }
}
