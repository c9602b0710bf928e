//! Which value of a type is wanted.
ghost use Rattle.std.specs.Prelude.{◌≡◌};
ghost use Rattle.oer_example_cmd.specs.Wanted.{wanted_of as spec_wanted};

use oer_skeleton::Parts;

/// Which value of a type is wanted.
#[derive(Clone, Copy)]
pub enum Wanted {
    /// The one to begin with that has these parts.
    Skeleton(Parts),
    /// The one that this seed gives.
    Random(u64),
}

/// The value that is wanted; none where the words want all parts and a value that is made up.
pub(crate) fn wanted_of(parts: Parts, seed: Option<u64>) -> Option<Wanted>
    ensures { result ≡ spec_wanted parts seed }
{
    match (parts, seed) {
        (parts, None) => Some(Wanted::Skeleton(parts)),
        (Parts::Needed, Some(seed)) => Some(Wanted::Random(seed)),
        (Parts::All, Some(_)) => None,
    }
}
