//! What a step takes.

ghost use Rattle.std.specs.Prelude.{◌≡◌, map, option_map};
ghost use Rattle.kmipa_store.specs.Choices.{IsSound};
ghost use Rattle.kmipa_msgs.specs.Messages.{RulesOf, maybe_lent, rules_of};
ghost use Rattle.kmipa_record.specs.Entries.{items_of};
ghost use Rattle.kmipa_passed.specs.Leaving.{aside_of};
ghost use Rattle.kmipa_bundle.specs.Bundles.{call_seen};
ghost use Rattle.kmipa_bundle.specs.Counts.{counts_of};
ghost use Rattle.kmipa_places.specs.Calls.{read_of};
ghost use Rattle.kmipa_turns.specs.Steps.{step_of, leaves, takes};
ghost use Rattle.kmipa_places.specs.Counting.{unread_counts_of};
ghost use Rattle.kmipa_turns.specs.Laws.{IsTakable};
ghost use Rattle.kmipa_aside.specs.Sights.{owned_of};
ghost use Rattle.kmipa_trail.specs.Owners.{identity, step_seen};
ghost use Rattle.kmipa_trail.specs.Replays.{StepTaken};
ghost use Rattle.kmipa_trail.specs.Tallies.{counts_unread};

use crate::owners::identity;
use kmipa_aside::{Owned, Sight, take_unread};
use kmipa_batch::CallRefusal;
use kmipa_bundle::{Counts, take_call};
use kmipa_msgs::Rules;
use kmipa_passed::SetAside;
use kmipa_places::{Readable, UnreadCounts};
use kmipa_store::Ledger;
use kmipa_turns::{Step, Taken};
use std::alloc::Global;

/// Takes what a step takes, and answers how its items count: a call that can be read; or what one leaves that can't be, which is the same at
/// any moment. Where it is impossible, its first impossible item is reported with the lowest reason. It is told whose the objects are behind the step.
pub fn take_step<L: Ledger>(
    alloc: Global,
    ledger: &mut L,
    rules: &Rules,
    owners: &[Owned],
    step: &Step,
) -> Result<Counts, CallRefusal>
    requires sound { IsSound (L.state ledger.old).now }
    requires takable { IsTakable (step_of step.now).taken }
    ensures taken { StepTaken (rules_of rules.now) (L.state ledger.old) (step_seen (map owned_of owners.now) (step_of step.now)).taken
        result (L.state ledger.new) }
    ensures marks { (L.state ledger.new).marks ≡ (L.state ledger.old).marks }
{
    match &step.taken {
        Taken::Leaves(left, counts) => take_left(alloc, ledger, left, counts),
        Taken::Takes(call, places) => {
            let sight = sight_of(rules, owners, step.client);
            take_read(alloc, ledger, sight, call, places)
        }
    }
}

/// Takes what a call leaves that can't be read.
fn take_left<L: Ledger>(
    alloc: Global,
    ledger: &mut L,
    left: &SetAside,
    counts: &UnreadCounts,
) -> Result<Counts, CallRefusal>
    requires { IsSound (L.state ledger.old).now }
    ensures taken { (rules : RulesOf) → StepTaken rules (L.state ledger.old)
        (leaves (aside_of left.now) (unread_counts_of counts.now)) result (L.state ledger.new) }
    ensures marks { (L.state ledger.new).marks ≡ (L.state ledger.old).marks }
{
    match take_unread(alloc, ledger, 0, left) {
        Ok(()) => Ok(counts_of(counts)),
        Err(_) => Err(CallRefusal::Memory),
    }
}

/// How the items of a call count that can't be read.
fn counts_of(counts: &UnreadCounts) -> Counts
    ensures { counts_of result ≡ counts_unread (unread_counts_of counts.now) }
{
    Counts {
        by_request: counts.by_request,
        by_answer: counts.by_answer,
        by_witness: counts.by_witness,
        by_object: 0,
        judged: 0,
    }
}

/// Takes a call that can be read.
fn take_read<'p, L: Ledger>(
    alloc: Global,
    ledger: &mut L,
    sight: Sight<'_, 'p>,
    call: &'p Readable<'p>,
    places: &Option<Vec<usize>>,
) -> Result<Counts, CallRefusal>
    requires sound { IsSound (L.state ledger.old).now }
    requires takable { IsTakable (takes (read_of call.now) (option_map items_of places.now)) }
    ensures taken { StepTaken (rules_of sight.entry.rules.now) (L.state ledger.old)
        (takes (call_seen sight.entry call.now) (option_map items_of places.now)) result (L.state ledger.new) }
    ensures marks { (L.state ledger.new).marks ≡ (L.state ledger.old).marks }
{
    take_call(alloc, ledger, sight, call, lent(places))
}

/// By what a call of this client is judged.
pub fn sight_of<'r, 'p>(rules: &'r Rules, owners: &'p [Owned<'p>], client: &'p str) -> Sight<'r, 'p>
    ensures rules { result.rules.now ≡ rules.now }
    ensures me { result.me.now ≡ identity client.now }
    ensures owners { result.owners.now ≡ owners.now }
{
    Sight {
        rules,
        me: identity(client),
        owners,
    }
}

/// The places that are given.
fn lent(places: &Option<Vec<usize>>) -> Option<&[usize]>
    ensures { maybe_lent result ≡ option_map items_of places.now }
{
    match places {
        Some(places) => Some(places.as_slice()),
        None => None,
    }
}
