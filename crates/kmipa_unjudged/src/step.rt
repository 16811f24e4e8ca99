//! What a step takes.

ghost use Rattle.std.specs.Prelude.{◌≡◌, map, option_map};
ghost use Rattle.kmipa_store.specs.Choices.{IsSound};
ghost use Rattle.kmipa_msgs.specs.Messages.{RulesOf, maybe_lent, rules_of};
ghost use Rattle.kmipa_record.specs.Entries.{items_of};
ghost use Rattle.kmipa_passed.specs.Leaving.{aside_of};
ghost use Rattle.kmipa_aside.specs.Sights.{owned_of};
ghost use Rattle.kmipa_bundle.specs.Bundles.{call_seen};
ghost use Rattle.kmipa_places.specs.Calls.{read_of};
ghost use Rattle.kmipa_places.specs.Counting.{unread_counts_of};
ghost use Rattle.kmipa_turns.specs.Laws.{IsTakable};
ghost use Rattle.kmipa_turns.specs.Steps.{leaves, step_of, takes};
ghost use Rattle.kmipa_trail.specs.Owners.{step_seen};
ghost use Rattle.kmipa_unjudged.specs.Following.{StepFollowed};

use kmipa_aside::{Owned, Sight, take_unread};
use kmipa_bundle::take_call;
use kmipa_msgs::Rules;
use kmipa_passed::SetAside;
use kmipa_places::{Readable, UnreadCounts};
use kmipa_store::Ledger;
use kmipa_trail::{Fault, sight_of};
use kmipa_turns::{Step, Taken};
use std::alloc::Global;

/// Takes what a step takes, by whose the objects are behind it. A step that is impossible isn't taken: of the steps of a witness that a check accepted none is.
pub(crate) fn take_step<L: Ledger>(
    alloc: Global,
    ledger: &mut L,
    rules: &Rules,
    owners: &[Owned],
    step: &Step,
) -> Result<(), Fault>
    requires sound { IsSound (L.state ledger.old).now }
    requires takable { IsTakable (step_of step.now).taken }
    ensures { StepFollowed (rules_of rules.now) (L.state ledger.old)
        (step_seen (map owned_of owners.now) (step_of step.now)).taken result (L.state ledger.new) }
{
    match &step.taken {
        Taken::Leaves(left, counts) => take_left(alloc, ledger, left, counts),
        Taken::Takes(call, places) => {
            let sight = sight_of(rules, owners, step.client);
            take_read(alloc, ledger, sight, call, places)
        }
    }
}

/// Takes what a call leaves that can't be read.
fn take_left<L: Ledger>(
    alloc: Global,
    ledger: &mut L,
    left: &SetAside,
    counts: &UnreadCounts,
) -> Result<(), Fault>
    requires { IsSound (L.state ledger.old).now }
    ensures { (rules : RulesOf) → StepFollowed rules (L.state ledger.old)
        (leaves (aside_of left.now) (unread_counts_of counts.now)) result (L.state ledger.new) }
{
    match take_unread(alloc, ledger, 0, left) {
        Ok(()) => Ok(()),
        Err(_) => Err(Fault::Memory),
    }
}

/// Takes a call that can be read.
fn take_read<'p, L: Ledger>(
    alloc: Global,
    ledger: &mut L,
    sight: Sight<'_, 'p>,
    call: &'p Readable<'p>,
    places: &Option<Vec<usize>>,
) -> Result<(), Fault>
    requires sound { IsSound (L.state ledger.old).now }
    requires takable { IsTakable (takes (read_of call.now) (option_map items_of places.now)) }
    ensures { StepFollowed (rules_of sight.entry.rules.now) (L.state ledger.old)
        (takes (call_seen sight.entry call.now) (option_map items_of places.now)) result (L.state ledger.new) }
{
    match take_call(alloc, ledger, sight, call, lent(places)) {
        Ok(_) => Ok(()),
        Err(_) => Err(Fault::Memory),
    }
}

/// The places that are given.
fn lent(places: &Option<Vec<usize>>) -> Option<&[usize]>
    ensures { maybe_lent result ≡ option_map items_of places.now }
{
    match places {
        Some(places) => Some(places.as_slice()),
        None => None,
    }
}
