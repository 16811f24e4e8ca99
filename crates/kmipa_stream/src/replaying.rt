//! The turns of a witness, taken one after the other.

ghost use Rattle.std.specs.Prelude.{◌≡◌};
ghost use Rattle.kmipa_check.specs.Late.{is_below};
ghost use Rattle.kmipa_stream.specs.Steps.{is_less};

use crate::counting::{counted_with, none_counted};
use crate::counts::Counts;
use crate::ends::Ends;
use crate::naming::{is_named, is_passed};
use crate::opening::{Opening, rules_with};
use crate::taking::take_step;
use kmipa_check::{
    CheckFault, FirstPlaces, Grants, Refused, Step, StepFault, WitnessFault, WitnessKind,
    step_of_turn,
};
use kmipa_msgs::Rules;
use kmipa_record::{Call, OwnAttribute, Settings, Turn};
use kmipa_store::Journal;
use std::alloc::{AllocError, Global};

/// What was found of the turns so far.
#[derive(Clone, Copy)]
pub(crate) enum Finding {
    /// Each was possible.
    Possible,
    /// The first that wasn't, and the Time Stamp of its response as it was recorded or answered.
    No(Refused, i64),
    /// The first fault of the witness.
    Faulty(WitnessFault),
}

/// A replay of a witness.
#[derive(Drop)]
pub(crate) struct Replay<'w> {
    alloc: Global,
    turns: &'w [Turn],
    named: FirstPlaces,
    rules: Rules,
    // How far moments may be from Time Stamps, in seconds.
    tolerance: i32,
    // What the server itself may give an object at birth.
    own: Vec<OwnAttribute>,
    ledger: Journal,
    // How many turns made their steps.
    formed: usize,
    // The moment of the last step that was taken.
    last: Option<i64>,
    // What is counted of the steps that were taken.
    counts: Counts,
    finding: Finding,
}

impl<'w> Replay<'w> {
    ghost use Rattle.std.specs.Prelude.{◌<◌, ◌+◌, Bool, true, false, List, IfOk, MatchOption, OnOk, Some, length, map, slice_get};
    ghost use Rattle.kmipa_batch.specs.Readable.{IsReadableCall};
    ghost use Rattle.kmipa_record.specs.Declarations.{DeclarationOf};
    ghost use Rattle.kmipa_record.specs.Marks.{MarkOf};
    ghost use Rattle.kmipa_record.specs.Witnesses.{turn_of};
    ghost use Rattle.kmipa_record.specs.declared.turn.Turn as turns;
    ghost use Rattle.kmipa_check.specs.Calls.{IsRecorded, call_of};
    ghost use Rattle.kmipa_check.specs.Orders.{IsNamed};
    ghost use Rattle.kmipa_check.specs.Deciding.{Decided};
    ghost use Rattle.kmipa_check.specs.Grants.{grants_of};
    ghost use Rattle.kmipa_check.specs.Places.{MayBeTaken};
    ghost use Rattle.kmipa_check.specs.Steps.{step_of};
    ghost use Rattle.kmipa_stream.specs.Opening.{Opens};
    ghost use Rattle.kmipa_stream.specs.Replaying.{AnswersAhead, FormsAhead, IsAtEnd, IsRecordedAhead, RefusesTurnAhead, Replaying, Replays, grants_kept};
    ghost use Rattle.kmipa_stream.specs.Waiting.{AreNamedAt, IsPassed, Wait};

    /// Before the first turn.
    pub fn new(
        alloc: Global,
        settings: Settings,
        opening: Opening,
        turns: &'w [Turn],
    ) -> Result<Replay<'w>, CheckFault>
        ensures replays { (declared : DeclarationOf) → declared.settings ≡ settings → Opens opening declared
            → IfOk result
            (λ replay. (closed : Bool) (marks : List MarkOf) → Replays closed marks turns.now declared replay) }
        ensures first { IfOk result (λ replay. replay.formed ≡ 0) }
    {
        Ok(Replay {
            alloc,
            turns,
            named: FirstPlaces::of(alloc, turns)?,
            rules: rules_with(alloc, settings, opening.rows, opening.allow_lines)?,
            tolerance: settings.tolerance,
            own: opening.own_attributes,
            ledger: opening.ledger,
            formed: 0,
            last: None,
            counts: none_counted(settings.unjudged),
            finding: Finding::Possible,
        })
    }

    /// What the declaration grants.
    fn grants(&self) -> Grants<'_>
        ensures { grants_of result ≡ grants_kept self.now }
    {
        Grants {
            tolerance: self.tolerance,
            own: self.own.as_slice(),
        }
    }

    /// The next turn that is to make its step; `None` once all have, or one is faulty.
    pub fn next(&self) -> Option<&'w Turn>
        ensures { MatchOption result (IsAtEnd self.now self.now.finding)
            (λ turn. slice_get self.now.turns.now self.now.formed ≡ Some turn.now) }
    {
        match self.finding {
            Finding::Faulty(_) => None,
            _ => self.turns.get(self.formed),
        }
    }

    /// Whether an earlier turn names the call of this number.
    pub fn is_passed(&self, number: i32) -> bool
        ensures { (turns : List turns.Turn) → AreNamedAt turns self.now.named
            → Decided result (IsPassed turns self.now.formed number) }
    {
        is_passed(&self.named, self.formed, number)
    }

    /// Whether some turn names the call of this number.
    pub fn is_named(&self, number: i32) -> bool
        ensures { (turns : List turns.Turn) → AreNamedAt turns self.now.named
            → Decided result (IsNamed (map turn_of turns) number) }
    {
        is_named(&self.named, number)
    }

    /// Notes the fault of the next turn.
    pub fn refuse(&mut self, kind: WitnessKind)
        requires { self.old.formed < length self.old.turns.now }
        ensures replays { (closed : Bool) (marks : List MarkOf) (turns : List turns.Turn) (declared : DeclarationOf)
            → Replays closed marks turns declared self.old
            → RefusesTurnAhead closed marks turns declared self.old.formed kind
            → Replays closed marks turns declared self.new }
        ensures same { self.new.formed ≡ self.old.formed }
        ensures faulty { IsAtEnd self.new self.new.finding }
    {
        self.finding = Finding::Faulty(WitnessFault {
            at: self.formed + 1,
            kind,
        });
    }

    /// Makes the step of the next turn with its call, and takes it, unless an earlier turn was impossible.
    pub fn take(&mut self, turn: &'w Turn, call: &Call, ends: &mut Ends) -> Result<bool, AllocError>
        requires known { Replaying self.old }
        requires next { slice_get self.old.turns.now self.old.formed ≡ Some turn.now }
        requires named { turn.now.call ≡ call.now.number }
        requires recorded { (marks : List MarkOf) × IsRecorded marks (call_of call.now) }
        ensures replays { (closed : Bool) (marks : List MarkOf) (turns : List turns.Turn) (declared : DeclarationOf)
            → Replays closed marks turns declared self.old → Wait marks turns self.old.formed ends.old
            → IsRecordedAhead closed marks (call_of call.now) → call.now.begin < length marks
            → (IsPassed turns self.old.formed turn.now.call → ⊥)
            → OnOk result
            (Replays closed marks turns declared self.new × Wait marks turns self.new.formed ends.new) }
        ensures formed { IfOk result (λ formed. formed ≡ true
            → (self.new.turns.now ≡ self.old.turns.now) × (self.new.formed ≡ self.old.formed + 1)) }
        ensures faulty { IfOk result (λ formed. formed ≡ false → IsAtEnd self.new self.new.finding) }
    {
        match step_of_turn(self.alloc, &self.grants(), call, turn) {
            Ok(step) => {
                self.take_formed(&step, ends)?;
                Ok(true)
            }
            Err(StepFault::Unfit(kind)) => {
                self.refuse(kind);
                Ok(false)
            }
            Err(StepFault::Memory) => Err(AllocError),
        }
    }

    /// Takes the step that the next turn makes.
    fn take_formed(&mut self, step: &Step, ends: &mut Ends) -> Result<(), AllocError>
        requires known { Replaying self.old }
        requires below { self.old.formed < length self.old.turns.now }
        requires readable { IsReadableCall (step_of step.now).request (step_of step.now).response }
        requires takable { MayBeTaken (step_of step.now).request (step_of step.now).response (step_of step.now).places }
        ensures replays { (closed : Bool) (marks : List MarkOf) (turns : List turns.Turn) (declared : DeclarationOf)
            → Replays closed marks turns declared self.old → Wait marks turns self.old.formed ends.old
            → FormsAhead closed marks turns declared self.old.formed (step_of step.now) → step.now.begin < length marks
            → AnswersAhead closed marks turns step.now.number step.now.stamp
            → OnOk result
            (Replays closed marks turns declared self.new × Wait marks turns self.new.formed ends.new) }
        ensures formed { OnOk result ((self.new.turns.now ≡ self.old.turns.now)
            × (self.new.formed ≡ self.old.formed + 1)) }
    {
        let turn = self.formed;
        self.formed = turn + 1;
        let waiting = ends.first_waiting(&self.named, self.formed);
        let Finding::Possible = self.finding else {
            return Ok(());
        };
        let late = is_before(waiting, step.begin);
        let moment = step.moment();
        let back = is_less(moment, self.last);
        match take_step(
            self.alloc,
            &mut self.ledger,
            &self.rules,
            step,
            turn,
            late,
            back,
        ) {
            Ok(None) => {
                self.last = Some(moment);
                self.counts = counted_with(self.counts, step);
                Ok(())
            }
            Ok(Some(refused)) => {
                self.finding = Finding::No(refused, step.stamp);
                Ok(())
            }
            Err(_) => Err(AllocError),
        }
    }

    /// What is counted of the steps that were taken.
    pub fn counts(&self) -> Counts
        ensures { result ≡ self.now.counts }
    {
        self.counts
    }

    /// What was found so far.
    pub fn finding(&self) -> Finding
        ensures { result ≡ self.now.finding }
    {
        self.finding
    }
}

/// Whether some end, if there is one, stands before a begin.
fn is_before(end: Option<usize>, begin: usize) -> bool
    ensures { result ≡ is_below end begin }
{
    match end {
        Some(end) => end < begin,
        None => false,
    }
}

/// Whether a moment is less than the last one, if there is one.
fn is_less(moment: i64, last: Option<i64>) -> bool
    ensures { result ≡ is_less moment last }
{
    match last {
        Some(last) => moment < last,
        None => false,
    }
}
