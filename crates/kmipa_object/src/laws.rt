//! What the definitions say together.

ghost use Rattle.kmipa_object.specs.Inventory.{PossibleRulesAdmit, RulesAdmitOnlyIfPossible};

/// A rule that is possible admits some bytes.
pub fn possible_rules_admit()
    ensures { PossibleRulesAdmit }
{}

/// A rule that admits some bytes is possible.
pub fn rules_admit_only_if_possible()
    ensures { RulesAdmitOnlyIfPossible }
{}
