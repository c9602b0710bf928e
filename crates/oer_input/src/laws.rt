//! What holds of texts that spell octets.
ghost use Rattle.oer_input.specs.Laws.{OneSpelling};

/// Octets have one spelling in base64, but for white space, padding and the two alphabets.
pub fn octets_have_one_spelling_in_base64()
    ensures { OneSpelling }
{}
