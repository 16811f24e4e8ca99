//! One judged place of a call, by what its client sees.

ghost use Rattle.std.specs.Prelude.{◌≡◌, IfOk, true};
ghost use Rattle.kmipa_store.specs.Choices.{IsSound};
ghost use Rattle.kmipa_store.specs.Ledger.{cards_of};
ghost use Rattle.kmipa_msgs.specs.Messages.{answer_of, ask_of, asked_of, rules_of};
ghost use Rattle.kmipa_ops.specs.Explains.{is_readable};
ghost use Rattle.kmipa_ops.specs.Rows.{subject_asked};
ghost use Rattle.kmipa_passed.specs.Leaving.{held_of};
ghost use Rattle.kmipa_aside.specs.Becoming.{stand_in};
ghost use Rattle.kmipa_aside.specs.InSight.{TakenInSight, is_borne_unseen, may_share, with_shared};
ghost use Rattle.kmipa_aside.specs.Permitted.{names_of};
ghost use Rattle.kmipa_aside.specs.Places.{judged};
ghost use Rattle.kmipa_aside.specs.Sights.{sight_of};

use crate::item::Item;
use crate::names::any_live_named;
use crate::permitted::{names_of, take_permitted};
use crate::seen_names::any_live_seen;
use crate::sight::{Sight, hides_some};
use kmipa_msgs::{Ask, Asked, Rules};
use kmipa_ops::Refusal;
use kmipa_passed::Held;
use kmipa_store::Ledger;
use std::alloc::{AllocError, Global};

/// Takes a judged item by what its client sees: where a server may hide objects, an answer that failed about one may give any reason, and a Locate needn't
/// list it; where it has to, nothing is done with one or told of it; and names are unique among those in sight. Where some world that the ledger stands for
/// allows the item, the ledger then stands for what it leaves, and knows what it told; else the lowest reason why none does is told, and nothing is
/// changed. After want of memory the ledger can be taken back to each of its marks.
///
/// The messages aren't outside the profile, and a wanted payload has been put in: `is_readable`.
pub fn take_in_sight<'p, L: Ledger>(
    alloc: Global,
    ledger: &mut L,
    sight: Sight<'_, 'p>,
    item: Item<'p>,
) -> Result<Held<'p>, Refusal>
    requires sound { IsSound (L.state ledger.old).now }
    requires readable { is_readable (ask_of item.ask.now) (answer_of item.answer.now) ≡ true }
    ensures { TakenInSight (sight_of sight.entry) (L.state ledger.old) (held_of item.entry.before) item.entry.moment
        (judged (ask_of item.entry.ask.now) (answer_of item.entry.answer.now)) result (L.state ledger.new) }
{
    if !may_share(ledger, sight, item.ask) {
        return take_permitted(alloc, ledger, sight, item);
    }
    let Ok(rules) = with_shared(alloc, sight.rules) else {
        return Err(Refusal::Memory);
    };
    let shared = Sight {
        rules: &rules,
        me: sight.me,
        owners: sight.owners,
    };
    take_permitted(alloc, ledger, shared, item)
}

/// Whether names may be shared for an item: live objects have some of its names, and none of these is in sight.
fn may_share<L: Ledger>(ledger: &L, sight: Sight, ask: &Ask) -> bool
    ensures { result ≡ may_share (sight_of sight.entry) (stand_in (L.state ledger.now).now) (ask_of ask.now) }
{
    hides_some(sight) && sight.rules.unique_names && is_borne_unseen(ledger, sight, &ask.asked)
}

fn is_borne_unseen<L: Ledger>(ledger: &L, sight: Sight, asked: &Asked) -> bool
    ensures { result ≡ is_borne_unseen (sight_of sight.entry).hidden (cards_of (L.state ledger.now).now.objects)
        (names_of (subject_asked (asked_of asked.now))) }
{
    match names_of(asked) {
        Some(names) => any_live_named(ledger, names) && !any_live_seen(ledger, sight, names),
        None => false,
    }
}

/// The rules, where names may be shared.
fn with_shared(alloc: Global, rules: &Rules) -> Result<Rules, AllocError>
    ensures { IfOk result (λ shared. rules_of shared ≡ with_shared (rules_of rules.now)) }
{
    Ok(Rules {
        unique_names: false,
        rows: Vec::from_slice(alloc, rules.rows.as_slice())?,
        allow_lines: Vec::from_slice(alloc, rules.allow_lines.as_slice())?,
        visibility: rules.visibility,
    })
}
