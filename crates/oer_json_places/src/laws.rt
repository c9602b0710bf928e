//! What holds of the place at which JSON is rejected. Each function does nothing; its contract is the law.
ghost use Rattle.oer_json_places.specs.Laws.{NoneIsTaken, PlacesAreInnermost, PlacesAreRejected};

/// The way leads to a part that its type rejects with the fault of the whole, and what is said to be wrong there is true.
pub fn places_are_rejected()
    ensures { PlacesAreRejected }
{}

/// There is no place only where the JSON is taken as a value.
pub fn no_place_is_taken()
    ensures { NoneIsTaken }
{}

/// Where nothing is said to be wrong but the part as it stands, no step leads on to a part that is rejected with the same fault.
pub fn places_are_innermost()
    ensures { PlacesAreInnermost }
{}
