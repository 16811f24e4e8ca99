//! What the turns of a witness name.

ghost use Rattle.std.specs.Prelude.{List, map};
ghost use Rattle.kmipa_record.specs.Witnesses.{turn_of};
ghost use Rattle.kmipa_record.specs.declared.turn.Turn.{Turn};
ghost use Rattle.kmipa_check.specs.Orders.{IsNamed};
ghost use Rattle.kmipa_check.specs.Deciding.{Decided};
ghost use Rattle.kmipa_stream.specs.Waiting.{AreNamedAt, IsPassed};

use kmipa_check::FirstPlaces;

/// Whether one of the first so many turns names the call of this number.
pub(crate) fn is_passed(named: &FirstPlaces, count: usize, number: i32) -> bool
    ensures { (turns : List Turn) → AreNamedAt turns named.now → Decided result (IsPassed turns count number) }
{
    match named.place(number) {
        Some(place) => place < count,
        None => false,
    }
}

/// Whether some turn names the call of this number.
pub(crate) fn is_named(named: &FirstPlaces, number: i32) -> bool
    ensures { (turns : List Turn) → AreNamedAt turns named.now → Decided result (IsNamed (map turn_of turns) number) }
{
    named.place(number).is_some()
}
