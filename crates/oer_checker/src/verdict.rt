//! What checking answers.

/// How long the encoding at the front of some octets is, and whether it is canonical.
#[derive(Clone, Copy, Debug, PartialEq, Eq)]
pub struct Verdict {
    /// How many octets the encoding has.
    pub octets: usize,
    /// Whether these are the canonical octets (X.696, Canonical-OER) of a value.
    pub canonical: bool,
}
