//! Turns whose calls can be read.

ghost use Rattle.std.specs.Prelude.{MatchResult};
ghost use Rattle.kmipa_record.specs.Witnesses.{turn_of};
ghost use Rattle.kmipa_check.specs.Grants.{grants_of};
ghost use Rattle.kmipa_places.specs.Calls.{read_of};
ghost use Rattle.kmipa_turns.specs.Recorded.{recorded_of};
ghost use Rattle.kmipa_turns.specs.Steps.{step_of};
ghost use Rattle.kmipa_turns.specs.Turning.{ReadRefused, ReadStep};

use crate::asides::{excepted_in, may_set_aside};
use crate::completing::completed;
use crate::placed::places_given;
use crate::recorded::Recorded;
use crate::step::{Step, Taken};
use kmipa_check::{Grants, StepFault, WitnessKind, moment_given};
use kmipa_places::Readable;
use kmipa_record::Turn;
use std::alloc::Global;

/// The step that a turn makes with a call that can be read.
pub fn read_step<'a>(
    alloc: Global,
    grants: &Grants,
    call: &Recorded<'a>,
    turn: &'a Turn,
    said: Readable<'a>,
) -> Result<Step<'a>, StepFault>
    ensures { MatchResult result
        (λ step. ReadStep (grants_of grants.now) (recorded_of call.now) (turn_of turn.now) (read_of said.entry)
        (step_of step))
        (ReadRefused (grants_of grants.now) (turn_of turn.now) (read_of said.entry)) }
{
    let stamp = said.stamp;
    let count = said.places.len();
    let excepted = excepted_in(said.places.as_slice());
    let Some(moment) = moment_given(grants, stamp, turn.moment) else {
        return Err(StepFault::Unfit(WitnessKind::MomentForm));
    };
    let places = match places_given(alloc, &said, &turn.places) {
        Ok(places) => places,
        Err(fault) => return Err(fault),
    };
    let full = match completed(alloc, grants, turn, moment, said) {
        Ok(full) => full,
        Err(fault) => return Err(fault),
    };
    if !may_set_aside(count, &turn.asides) {
        return Err(StepFault::Unfit(WitnessKind::AsideForm));
    }
    Ok(Step {
        number: call.number,
        client: call.client,
        begin: call.begin,
        end: call.end,
        stamp: Some(stamp),
        taken: Taken::Takes(full, places),
        excepted,
    })
}
