//! What the definitions say together.

ghost use Rattle.kmipa_turns.specs.Laws.{StepsAreTakable};

/// What a turn makes of its call can be taken.
pub fn step_is_takable()
    ensures { StepsAreTakable }
{}
