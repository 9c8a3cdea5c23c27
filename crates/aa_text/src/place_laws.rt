//! What the places of a text's bytes tell.

ghost use Rattle.aa_text.specs.Places.{PlacesRise};

/// A law and no work: each byte that begins a character stands before all later bytes, so no two of them have one place.
pub fn places_rise()
    ensures { PlacesRise }
{}
