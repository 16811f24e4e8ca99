//! What the definitions say together.

ghost use Rattle.kmipa_aside.specs.Places.{PlacesWithoutAsides};
ghost use Rattle.kmipa_aside.specs.InSight.{SeenWithoutHidden};
ghost use Rattle.kmipa_aside.specs.Identifiers.{AsEverWithoutAsides, IdentifiersAreSetAside, PlainWithoutAsides};

/// An identifier that is set aside is so, and what is judged of others stays. Where all are set aside, or judging is over, every identifier is.
pub fn identifiers_are_set_aside()
    ensures { IdentifiersAreSetAside }
{}

/// Where nothing is set aside, and the ID Placeholder is known, each item is judged as ever.
pub fn as_ever_without_asides()
    ensures { AsEverWithoutAsides }
{}

/// And it does exactly what it does without this layer.
pub fn plain_without_asides()
    ensures { PlainWithoutAsides }
{}

/// So does a judged place of a call.
pub fn places_without_asides()
    ensures { PlacesWithoutAsides }
{}

/// Where nothing is hidden, a judged place does exactly what it does without that layer.
pub fn seen_without_hidden()
    ensures { SeenWithoutHidden }
{}
