//! What an audit knows of a transcript that is still coming.

use crate::ends::Ends;
use crate::lowest::Found;
use crate::opening::Opening;
use crate::reading::call_in;
use crate::replaying::{Finding, Replay};
use crate::seen::{Seen, SeenCall};
use crate::stamped::Stamped;
use kmipa_check::{CheckFault, Verdict, WitnessFault, WitnessKind};
use kmipa_record::{End, Mark, Settings, Turn};
use std::alloc::{AllocError, Global};

/// An audit of a transcript whose marks come one at a time.
///
/// A turn makes its step as soon as its call has ended and the turns before it have made theirs; what is held of the call is let go then. Once
/// a message is outside the profile or the witness is faulty no turn makes its step any more, and each call is only read.
#[derive(Drop)]
pub(crate) struct Auditor<'w> {
    alloc: Global,
    seen: Seen,
    ends: Ends,
    // The first message that is outside, of those that were read.
    lowest: Option<Found>,
    replay: Replay<'w>,
}

impl<'w> Auditor<'w> {
    ghost use Rattle.std.specs.Prelude.{◌≡◌, ◌+◌, ◌∷◌, ◌++◌, List, [], Bool, true, false, IfOk, MatchOption, MatchResult, OnOk, Some, None, length, map, slice_get};
    ghost use Rattle.kmipa_record.specs.Declarations.{DeclarationOf};
    ghost use Rattle.kmipa_record.specs.Marks.{AreRecorded, MarkOf, ends, mark_of};
    ghost use Rattle.kmipa_record.specs.Witnesses.{turn_of};
    ghost use Rattle.kmipa_record.specs.declared.turn.Turn as turns;
    ghost use Rattle.kmipa_check.specs.Deciding.{Decided};
    ghost use Rattle.kmipa_stream.specs.Opening.{Opens};
    ghost use Rattle.kmipa_stream.specs.Standing.{AreAllReleased, IsDone, IsFirstLeftOut, IsUnnamed, Judges, LetsGoAt, MayTake, Standing, Stands, TellsLeftOut};
    ghost use Rattle.kmipa_stream.specs.Waiting.{AreNamedAt};

    /// Before the first mark.
    pub fn new(
        alloc: Global,
        settings: Settings,
        opening: Opening,
        turns: &'w [Turn],
    ) -> Result<Auditor<'w>, CheckFault>
        ensures { (declared : DeclarationOf) → declared.settings ≡ settings → Opens opening declared
            → IfOk result (Stands false [] turns.now declared) }
    {
        let replay = Replay::new(alloc, settings, opening, turns)?;
        Ok(Auditor {
            alloc,
            seen: Seen::new(alloc),
            ends: Ends::new(alloc),
            lowest: None,
            replay,
        })
    }

    /// Takes the next mark of the transcript.
    pub fn take(&mut self, mark: Mark) -> Result<(), AllocError>
        requires { MayTake self.old (mark_of mark) }
        ensures { (marks : List MarkOf) (turns : List turns.Turn) (declared : DeclarationOf)
            → Stands false marks turns declared self.old → AreRecorded (marks ++ mark_of mark ∷ [])
            → OnOk result (Stands false (marks ++ mark_of mark ∷ []) turns declared self.new) }
    {
        match mark {
            Mark::Begin(begin) => {
                self.seen.begin(begin)?;
                Ok(())
            }
            Mark::End(end) => self.end(end),
        }
    }

    /// Takes the end mark of a call.
    fn end(&mut self, end: End) -> Result<(), AllocError>
        requires { MayTake self.old (ends end.call end.message.items) }
        ensures { (marks : List MarkOf) (turns : List turns.Turn) (declared : DeclarationOf)
            → Stands false marks turns declared self.old
            → AreRecorded (marks ++ ends end.call end.message.items ∷ [])
            → OnOk result (Stands false (marks ++ ends end.call end.message.items ∷ []) turns declared self.new) }
    {
        let number = end.call;
        self.note_end(end)?;
        self.catch_up(false)?;
        if self.next().is_some() {
            return Ok(());
        }
        match self.seen.place(number) {
            Some(place) => {
                self.read(place, false)?;
                Ok(())
            }
            None => Ok(()),
        }
    }

    /// Notes the end mark of a call.
    fn note_end(&mut self, end: End) -> Result<(), AllocError>
        ensures { (marks : List MarkOf) (turns : List turns.Turn) (declared : DeclarationOf)
            → Stands false marks turns declared self.old
            → AreRecorded (marks ++ ends end.call end.message.items ∷ [])
            → OnOk result (Stands false (marks ++ ends end.call end.message.items ∷ []) turns declared self.new) }
    {
        self.ends.push(end.call, self.seen.count())?;
        self.seen.end(end)?;
        Ok(())
    }

    /// The next turn that is to make its step.
    fn next(&self) -> Option<&'w Turn>
        ensures { MatchOption result (IsDone self.now)
            (λ turn. slice_get self.now.replay.turns.now self.now.replay.formed ≡ Some turn.now) }
    {
        match self.lowest {
            Some(_) => None,
            None => self.replay.next(),
        }
    }

    /// Lets the turns make their steps up to one whose call may still end. At the end of the transcript none waits.
    fn catch_up(&mut self, closed: bool) -> Result<(), AllocError>
        requires { Standing closed self.old }
        ensures stands { (marks : List MarkOf) (turns : List turns.Turn) (declared : DeclarationOf)
            → Stands closed marks turns declared self.old → OnOk result (Stands closed marks turns declared self.new) }
        ensures done { closed ≡ true → OnOk result (IsDone self.new) }
    {
        'turns: while let Some(turn) = self.next() {
            if !self.take_turn(turn, closed)? {
                return Ok(());
            }
        }
        Ok(())
    }

    /// Lets the next turn make its step, and says whether it did. It waits for its call, or is faulty, or a message of its call is outside.
    fn take_turn(&mut self, turn: &'w Turn, closed: bool) -> Result<bool, AllocError>
        requires known { Standing closed self.old }
        requires next { slice_get self.old.replay.turns.now self.old.replay.formed ≡ Some turn.now }
        ensures stands { (marks : List MarkOf) (turns : List turns.Turn) (declared : DeclarationOf)
            → Stands closed marks turns declared self.old → OnOk result (Stands closed marks turns declared self.new) }
        ensures formed { IfOk result (λ more. more ≡ true
            → (self.new.replay.turns.now ≡ self.old.replay.turns.now)
            × (self.new.replay.formed ≡ self.old.replay.formed + 1)) }
        ensures done { closed ≡ true → IfOk result (λ more. more ≡ false → IsDone self.new) }
    {
        let Some(place) = self.seen.place(turn.call) else {
            if !closed {
                return Ok(false);
            }
            self.replay.refuse(WitnessKind::UnknownCall);
            return Ok(false);
        };
        if self.replay.is_passed(turn.call) {
            self.replay.refuse(WitnessKind::Twice);
            return Ok(false);
        }
        let Some(call) = self.seen.release_whole(place, closed) else {
            if closed {
                return Err(AllocError);
            }
            return Ok(false);
        };
        match call_in(self.alloc, &call) {
            Ok(read) => match self.replay.take(turn, &read, &mut self.ends) {
                Ok(formed) => Ok(formed),
                Err(error) => Err(error),
            },
            Err(fault) => {
                self.lowest = Some(Found::noted(self.lowest, call.begin, fault)?);
                Ok(false)
            }
        }
    }

    /// Reads what is held of the call at a place, where all of it has come, and lets it go.
    fn read(&mut self, place: usize, closed: bool) -> Result<(), AllocError>
        ensures stands { (marks : List MarkOf) (turns : List turns.Turn) (declared : DeclarationOf)
            → Stands closed marks turns declared self.old → OnOk result (Stands closed marks turns declared self.new) }
        ensures let_go { closed ≡ true → OnOk result
            (LetsGoAt self.old.seen.calls.items self.new.seen.calls.items place) }
        ensures replay { self.new.replay ≡ self.old.replay }
        ensures lowest { OnOk result (self.new.lowest ≡ None → self.old.lowest ≡ None) }
    {
        let Some(call) = self.seen.release_whole(place, closed) else {
            return Ok(());
        };
        match call_in(self.alloc, &call) {
            Ok(_) => Ok(()),
            Err(fault) => {
                self.lowest = Some(Found::noted(self.lowest, call.begin, fault)?);
                Ok(())
            }
        }
    }

    /// The verdict, once all marks have come; or the fault.
    pub fn judge(&mut self) -> Result<Stamped, CheckFault>
        requires { Standing false self.old }
        ensures { (marks : List MarkOf) (turns : List turns.Turn) (declared : DeclarationOf)
            → AreRecorded marks → Stands false marks turns declared self.old
            → Judges marks declared (map turn_of turns) result }
    {
        let Ok(()) = self.catch_up(true) else {
            return Err(CheckFault::Memory);
        };
        let Ok(()) = self.read_rest() else {
            return Err(CheckFault::Memory);
        };
        match self.lowest {
            Some(found) => Err(found.fault()),
            None => self.conclude(),
        }
    }

    /// Reads what is still held at the end of the transcript.
    fn read_rest(&mut self) -> Result<(), AllocError>
        ensures stands { (marks : List MarkOf) (turns : List turns.Turn) (declared : DeclarationOf)
            → Stands true marks turns declared self.old → OnOk result (Stands true marks turns declared self.new) }
        ensures all { OnOk result (AreAllReleased self.new.seen.calls.items) }
        ensures replay { self.new.replay ≡ self.old.replay }
        ensures lowest { OnOk result (self.new.lowest ≡ None → self.old.lowest ≡ None) }
    {
        let mut place = 0;
        'calls: while place < self.seen.len() {
            self.read(place, true)?;
            place += 1;
        }
        Ok(())
    }

    /// The verdict where no message is outside; or the fault of the witness.
    fn conclude(&self) -> Result<Stamped, CheckFault>
        ensures { (marks : List MarkOf) (turns : List turns.Turn) (declared : DeclarationOf)
            → AreRecorded marks → Stands true marks turns declared self.now → AreAllReleased self.now.seen.calls.items
            → self.now.lowest ≡ None → IsDone self.now → Judges marks declared (map turn_of turns) result }
    {
        match self.replay.finding() {
            Finding::Faulty(fault) => Err(CheckFault::Witness(fault)),
            Finding::No(refused, stamp) => self.unless_left_out(Stamped {
                verdict: Verdict::No(refused),
                stamp: Some(stamp),
                counts: self.replay.counts(),
            }),
            Finding::Possible => self.unless_left_out(Stamped {
                verdict: Verdict::Yes,
                stamp: None,
                counts: self.replay.counts(),
            }),
        }
    }

    /// This verdict; or the fault of a witness that leaves out a call.
    fn unless_left_out(&self, stamped: Stamped) -> Result<Stamped, CheckFault>
        ensures { (turns : List turns.Turn) → AreNamedAt turns self.now.replay.named
            → MatchResult result (λ told. (told ≡ stamped) × IsFirstLeftOut turns self.now.seen.calls.items None)
            (TellsLeftOut turns self.now.seen.calls.items) }
    {
        match self.left_out() {
            None => Ok(stamped),
            Some(number) => Err(CheckFault::Witness(WitnessFault {
                at: usize::try_from(number).unwrap_or(0),
                kind: WitnessKind::LeftOut,
            })),
        }
    }

    /// The number of the first call that has ended and that no turn names.
    fn left_out(&self) -> Option<i32>
        ensures { (turns : List turns.Turn) → AreNamedAt turns self.now.replay.named
            → IsFirstLeftOut turns self.now.seen.calls.items result }
    {
        let calls = self.seen.calls();
        let mut place = 0;
        'calls: while place < calls.len() {
            let call = &calls[place];
            if self.is_left_out(call) {
                return Some(call.number);
            }
            place += 1;
        }
        None
    }

    /// Whether a call has ended and no turn names it.
    fn is_left_out(&self, call: &SeenCall) -> bool
        ensures { (turns : List turns.Turn) → AreNamedAt turns self.now.replay.named
            → Decided result (IsUnnamed turns call.now) }
    {
        match call.end {
            Some(_) => !self.replay.is_named(call.number),
            None => false,
        }
    }
}
