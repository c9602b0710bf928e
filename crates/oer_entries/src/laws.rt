//! Laws over the definitions. Each function does nothing; its contract is the law.
ghost use Rattle.oer_entries.specs.Extents.{ReachOverRows};

/// The entry of a row of octets is within the extents of the octets: its offset and its number of octets are no
/// greater, and its path, its names and its kind no longer.
pub fn extents_reach_over_rows()
    ensures { ReachOverRows }
{}
