//! Each function does nothing; its contract is the law.
ghost use Rattle.oer_module_places.specs.Laws.{PlacesRise};

/// In a module that is read of a text, the places of assignments rise, and those of the types that hold others lie between the place
/// of their assignment and the next, each behind that of the type that it stands in.
pub fn places_rise()
    ensures { PlacesRise }
{}
