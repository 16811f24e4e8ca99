//! What the definitions say together.

ghost use Rattle.kmipa_ops.specs.Alike.{AlikeGoAlike, AlikeSpeakAlike};
ghost use Rattle.kmipa_ops.specs.Chains.{ChainsComplete};
ghost use Rattle.kmipa_ops.specs.Explains.{BlameIsExact};
ghost use Rattle.kmipa_ops.specs.Founded.{FoundedIsDecided};
ghost use Rattle.kmipa_ops.specs.GetAttributes.{AttributesAreDecided};
ghost use Rattle.kmipa_ops.specs.Locate.{ListsAreDecided};
ghost use Rattle.kmipa_ops.specs.OneInventory.{StandsForOne, TakingDecides};
ghost use Rattle.kmipa_ops.specs.Reasons.{ReasonsAreDecided};
ghost use Rattle.kmipa_ops.specs.Sayable.{FillsAreSaid};

/// A chain whose answers may be completed is a chain of some completed answers.
pub fn chains_complete()
    ensures { ChainsComplete }
{}

/// No reason speaks against an answer exactly where some choice of the unknown bytes allows it.
pub fn blame_is_exact()
    ensures { BlameIsExact }
{}

/// A ledger that knows all bytes stands for one inventory.
pub fn stands_for_one()
    ensures { StandsForOne }
{}

/// Taking an item over a ledger that knows all bytes is two-way: it is taken exactly where some completed answer leads on from the one
/// inventory, and the ledger then stands for just what such an answer leads to.
pub fn taking_decides()
    ensures { TakingDecides }
{}

/// A reason passes the test exactly where it is founded.
pub fn founded_is_decided()
    ensures { FoundedIsDecided }
{}

/// No reason speaks against what a Locate lists exactly where it is right: nothing twice, only objects that may be listed, at most the
/// maximum, and each that must be unless as many as the maximum are.
pub fn lists_are_decided()
    ensures { ListsAreDecided }
{}

/// Each numbered reason speaks against an answer exactly where what it means holds.
pub fn reasons_are_decided()
    ensures { ReasonsAreDecided }
{}

/// Of what a Get Attributes shows: nothing is foreign exactly where all is the object's, and nothing is lacking exactly where all that is
/// required is shown.
pub fn attributes_are_decided()
    ensures { AttributesAreDecided }
{}

/// Over ledgers that stand for the same inventories the same reasons speak, however they number their secrets.
pub fn alike_speak_alike()
    ensures { AlikeSpeakAlike }
{}

/// Ledgers that stand for the same inventories, and were led along the same items, stand for the same inventories again.
pub fn alike_go_alike()
    ensures { AlikeGoAlike }
{}

/// What may stand in the place of an absent payload is what some item says as a Response Payload of the kind that is asked for; of the
/// attributes that a Get Attributes shows, where they can be said.
pub fn fills_are_said()
    ensures { FillsAreSaid }
{}
