//! What the definitions say together.

ghost use Rattle.kmipa_trail.specs.Laws.{AcceptedIsYes, HiddenIsOthers, OwnersAreTold, RefusedIsNever};

/// A no is right: where an order is refused it isn't placed, or no world that the declaration describes has a run by it.
pub fn refused_is_never()
    ensures { RefusedIsNever }
{}

/// Of an accepted witness a check answers yes, unless memory runs out; so it answers yes exactly there.
pub fn accepted_is_yes()
    ensures { AcceptedIsYes }
{}

/// Where not every client sees every object, behind steps an object is told as someone's exactly where it is that one's: the client's whose call gave birth
/// to it last, or else the declared owner's.
pub fn owners_are_told()
    ensures { OwnersAreTold }
{}

/// Of each step exactly those objects are hidden from its client that are someone else's behind it.
pub fn hidden_is_others()
    ensures { HiddenIsOthers }
{}
