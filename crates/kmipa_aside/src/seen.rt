//! One judged place of a call, where a server may hide objects from the call's client.

ghost use Rattle.std.specs.Prelude.{◌≡◌, true};
ghost use Rattle.kmipa_store.specs.Choices.{IsSound};
ghost use Rattle.kmipa_msgs.specs.Messages.{answer_of, ask_of};
ghost use Rattle.kmipa_ops.specs.Explains.{is_readable};
ghost use Rattle.kmipa_passed.specs.Leaving.{held_of};
ghost use Rattle.kmipa_aside.specs.Becoming.{stand_in};
ghost use Rattle.kmipa_aside.specs.Places.{judged};
ghost use Rattle.kmipa_aside.specs.Seen.{TakenSeen, is_denied, is_hidden};
ghost use Rattle.kmipa_aside.specs.Sights.{sight_of};

use crate::aims::aim;
use crate::cases::{case_of, is_failed};
use crate::excused::is_as_ever;
use crate::frame::frame_why;
use crate::item::Item;
use crate::missing::missing;
use crate::placing::take_judged;
use crate::plain::held_behind;
use crate::sight::{Sight, is_hidden_id};
use kmipa_ops::Refusal;
use kmipa_passed::Held;
use kmipa_store::Ledger;
use std::alloc::Global;

/// Takes a judged item as `take_judged` does, where a server may hide objects from the client: an answer that failed about one of them may give any
/// reason, and a Locate needn't list them. Where some world that the ledger stands for allows the item, the ledger then stands for what it leaves, and
/// knows what it told; else the lowest reason why none does is told, and nothing is changed. After want of memory the ledger can be taken back to each
/// of its marks.
///
/// The messages aren't outside the profile, and a wanted payload has been put in: `is_readable`.
pub(crate) fn take_seen<'p, L: Ledger>(
    alloc: Global,
    ledger: &mut L,
    sight: Sight<'_, 'p>,
    item: Item<'p>,
) -> Result<Held<'p>, Refusal>
    requires sound { IsSound (L.state ledger.old).now }
    requires readable { is_readable (ask_of item.ask.now) (answer_of item.answer.now) ≡ true }
    ensures { TakenSeen (sight_of sight.entry) (L.state ledger.old) (held_of item.entry.before) item.entry.moment
        (judged (ask_of item.entry.ask.now) (answer_of item.entry.answer.now)) result (L.state ledger.new) }
{
    let Item {
        moment,
        before,
        ask,
        answer,
    } = item;
    if is_denied(ledger, sight, item) {
        return match frame_why(ask, answer) {
            Some(why) => Err(Refusal::Impossible(why)),
            None => Ok(before),
        };
    }
    let Ok(missing) = missing(alloc, ledger, sight, moment, ask, answer) else {
        return Err(Refusal::Memory);
    };
    let Some(seen) = missing else {
        return take_judged(alloc, ledger, sight.rules, item);
    };
    let beside = Item {
        moment,
        before,
        ask: &seen.ask,
        answer: &seen.answer,
    };
    match take_judged(alloc, ledger, sight.rules, beside) {
        Ok(_) => Ok(held_behind(before, answer)),
        Err(refusal) => Err(refusal),
    }
}

/// Whether an item that is judged as ever failed, and is about an object that is hidden.
fn is_denied<L: Ledger>(ledger: &L, sight: Sight, item: Item) -> bool
    ensures { result ≡ is_denied (sight_of sight.entry) (stand_in (L.state ledger.now).now) (held_of item.entry.before)
        (ask_of item.entry.ask.now) (answer_of item.entry.answer.now) }
{
    is_failed(item.answer.status)
        && is_hidden(sight, aim(item.before, item.ask, item.answer))
        && is_as_ever(case_of(ledger, sight.rules, item.before, item.ask, item.answer))
}

/// Whether the object that an item is about is hidden.
pub(crate) fn is_hidden(sight: Sight, about: Held) -> bool
    ensures { result ≡ is_hidden (sight_of sight.entry).hidden (held_of about.entry) }
{
    match about {
        Held::Holds(id) => is_hidden_id(sight, id),
        Held::Empty | Held::Unknown => false,
    }
}
