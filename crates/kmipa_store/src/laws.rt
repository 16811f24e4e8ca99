//! What the definitions say together.

ghost use Rattle.kmipa_store.specs.Aside.{SaysOfEach};
ghost use Rattle.kmipa_store.specs.Choices.{EveryChoiceGivesAnInventory};
ghost use Rattle.kmipa_store.specs.Soundness.{SoundLedgers};

/// The objects of a sound ledger are an inventory under each of its choices.
pub fn every_choice_gives_an_inventory()
    ensures { EveryChoiceGivesAnInventory }
{}

/// The empty ledger is sound, each call leaves a sound ledger sound, and a sound ledger has a choice.
pub fn calls_keep_ledgers_sound()
    ensures { SoundLedgers }
{}

/// An identifier that is set aside is so until it is taken in, and what is said of no other one changes.
pub fn each_identifier_is_aside_by_itself()
    ensures { SaysOfEach }
{}
