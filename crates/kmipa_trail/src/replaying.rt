//! The replay of an order: its steps one at a time, from a ledger.

ghost use Rattle.std.specs.Prelude.{◌≡◌, ◌<◌, ◌^◌, [], map};
ghost use Rattle.kmipa_store.specs.Choices.{IsSound};
ghost use Rattle.kmipa_msgs.specs.Messages.{rules_of};
ghost use Rattle.kmipa_record.specs.Declarations.{DeclarationOf};
ghost use Rattle.kmipa_check.specs.Runs.{rules_declared};
ghost use Rattle.kmipa_aside.specs.Sights.{owned_of};
ghost use Rattle.kmipa_turns.specs.Steps.{step_of};
ghost use Rattle.kmipa_trail.specs.Leading.{AreKnown};
ghost use Rattle.kmipa_trail.specs.Owners.{steps_seen};
ghost use Rattle.kmipa_trail.specs.Refusing.{refused_by, refused_at};
ghost use Rattle.kmipa_trail.specs.Replays.{AllTakable, TellsRun, misplaced};

use crate::back::{is_back, later, moment_of};
use crate::fault::Fault;
use crate::late::{first_late, is_at};
use crate::owners::own_births;
use crate::step::take_step;
use crate::tally::Tally;
use crate::verdict::Verdict;
use kmipa_aside::Owned;
use kmipa_batch::CallRefusal;
use kmipa_check::Refused;
use kmipa_msgs::Rules;
use kmipa_ops::Why;
use kmipa_store::Ledger;
use kmipa_turns::Step;
use std::alloc::Global;

/// Takes the steps one after the other: whether all are possible, and how many items are judged; or the first that isn't, the item and the lowest
/// reason. It is told whose the objects are at first, and goes along with them.
pub fn replay<'a, L: Ledger>(
    alloc: Global,
    ledger: &mut L,
    rules: &Rules,
    owners: Vec<Owned<'a>>,
    steps: &[Step<'a>],
) -> Result<Verdict, Fault>
    requires sound { IsSound (L.state ledger.old).now }
    requires takable { AllTakable (map step_of steps.now) }
    ensures { (declared : DeclarationOf) → rules_of rules.now ≡ rules_declared declared
        → AreKnown declared [] (L.state ledger.old).now → TellsRun declared
        (steps_seen rules.now.visibility (map owned_of owners.entry.items) (map step_of steps.now)) result }
{
    let mut owners = owners;
    let late = first_late(steps);
    let mut tally = Tally::new();
    let mut last = None;
    let mut turn = 0;
    'turns: while turn < steps.len() {
        let step = &steps[turn];
        let moment = moment_of(step);
        match misplaced(is_at(late, turn), last, moment) {
            Some(why) => return Ok(refused_turn(turn, step, 0, why)),
            None => {}
        }
        own_births(alloc, rules.visibility, &mut owners, step)?;
        match take_step(alloc, ledger, rules, owners.as_slice(), step) {
            Ok(counts) => tally = tally.with(counts, step.excepted),
            Err(refusal) => return refused_step(turn, step, refusal),
        }
        last = later(last, moment);
        turn += 1;
    }
    Ok(Verdict::Yes(tally))
}

/// Why a turn is impossible where it stands, if it is: by whether it is late, by the last moment before it, and by its own.
fn misplaced(is_late: bool, last: Option<i64>, moment: Option<i64>) -> Option<Why>
    ensures { result ≡ misplaced is_late last moment }
{
    if is_late {
        return Some(Why::EarlierCallLate);
    }
    if is_back(last, moment) {
        return Some(Why::StampRunsBack);
    }
    None
}

/// The verdict where a turn, counted from 0, is impossible at this item.
fn refused_turn(turn: usize, step: &Step, item: usize, why: Why) -> Verdict
    requires { turn < 2 ^ 63 }
    ensures { result ≡ refused_at turn (step_of step.now) item why }
{
    let refused = Refused {
        turn: turn + 1,
        call: step.number,
        item,
        why,
    };
    Verdict::No(refused, step.stamp)
}

/// What it comes to where a step isn't taken.
fn refused_step(turn: usize, step: &Step, refusal: CallRefusal) -> Result<Verdict, Fault>
    requires { turn < 2 ^ 63 }
    ensures { result ≡ refused_by turn (step_of step.now) refusal }
{
    match refusal {
        CallRefusal::Impossible(item, why) => Ok(refused_turn(turn, step, item, why)),
        CallRefusal::Memory => Err(Fault::Memory),
    }
}
