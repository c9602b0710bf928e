//! Why a type has no skeleton.
ghost use Rattle.std.specs.Prelude.{◌≡◌};
ghost use Rattle.oer_skeleton.specs.declared.fault.SkeletonFault.TheVariants.{Memory as memory};

use std::alloc::AllocError;

/// Why a type has no skeleton.
#[derive(Clone, Copy, Debug, PartialEq, Eq)]
pub enum SkeletonFault {
    /// An allocation failed.
    Memory,
    /// It would have more than 65,536 parts.
    TooLong,
}

impl From<AllocError> for SkeletonFault {
    ghost from_gives = { λ _ e. e ≡ memory };

    fn from(_: AllocError) -> SkeletonFault {
        SkeletonFault::Memory
    }
}
