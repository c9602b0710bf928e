//! Each function does nothing; its contract is the law.
ghost use Rattle.oer_places.specs.Place.{PlacesStand};

/// The lines before that of a place have just as many line feeds as its number says, less one, and its column counts the characters of its
/// line.
pub fn places_stand()
    ensures { PlacesStand }
{}
