//! One place, taken over any ledger.

ghost use Rattle.std.specs.Prelude.{◌≡◌, true};
ghost use Rattle.kmipa_store.specs.Choices.{IsSound};
ghost use Rattle.kmipa_passed.specs.Leaving.{held_of};
ghost use Rattle.kmipa_aside.specs.Sights.{sight_of};
ghost use Rattle.kmipa_places.specs.Places.{place_of};
ghost use Rattle.kmipa_bundle.specs.Refusals.{is_readable_at};
ghost use Rattle.kmipa_bundle.specs.Running.{TakenPlace};

use kmipa_aside::{Item, Sight, take_in_sight, take_passed};
use kmipa_ops::Refusal;
use kmipa_passed::Held;
use kmipa_places::Place;
use kmipa_store::Ledger;
use std::alloc::Global;

/// Takes a place at the moment `t`, where the ID Placeholder held this, and answers what it holds behind it.
pub(crate) fn take_place<'p, L: Ledger>(
    alloc: Global,
    ledger: &mut L,
    sight: Sight<'_, 'p>,
    t: i64,
    before: Held<'p>,
    place: &'p Place<'p>,
) -> Result<Held<'p>, Refusal>
    requires sound { IsSound (L.state ledger.old).now }
    requires readable { is_readable_at (place_of place.now) ≡ true }
    ensures { TakenPlace (sight_of sight.entry) (L.state ledger.old) (held_of before.entry) t (place_of place.now) result
        (L.state ledger.new) }
{
    match place {
        Place::Judged(ask, answer) => {
            let item = Item {
                moment: t,
                before,
                ask,
                answer,
            };
            take_in_sight(alloc, ledger, sight, item)
        }
        Place::Passed(_, passed) => take_passed(alloc, ledger, t, before, passed),
    }
}
