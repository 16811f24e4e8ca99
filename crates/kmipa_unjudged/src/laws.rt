//! What the definitions say together.

ghost use Rattle.kmipa_unjudged.specs.Laws.{RanksAreRight};

/// Each operation that was passed is told, once, with how often it was: most first, and of those that were as often the one of the lower number.
pub fn ranks_are_right()
    ensures { RanksAreRight }
{}
