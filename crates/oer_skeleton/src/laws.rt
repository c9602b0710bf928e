//! Laws on skeletons. The function does nothing; its contract is the law.
ghost use Rattle.oer_skeleton.specs.Laws.{SkeletonsFit, SkeletonsMeetNoEnd};

/// The skeletons of a well-formed type fit it. They meet no end of a nesting where the type is found to
/// have a value without one, and no default meets one.
pub fn skeletons()
    ensures fit { SkeletonsFit }
    ensures meet_no_end { SkeletonsMeetNoEnd }
{}
