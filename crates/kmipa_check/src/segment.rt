//! The check of a segment of a recording: it goes on from what the one before it left, and leaves what the next goes on from.

ghost use Rattle.std.specs.Prelude.{◌≡◌, [], IfOk, IfSome, map};
ghost use Rattle.kmipa_store.specs.Choices.{IsSound};
ghost use Rattle.kmipa_store.specs.States.{state_of_journal};
ghost use Rattle.kmipa_msgs.specs.Messages.{rules_of};
ghost use Rattle.kmipa_record.specs.Declarations.{AreDeclared, declaration_of};
ghost use Rattle.kmipa_record.specs.Marks.{AreRecorded};
ghost use Rattle.kmipa_record.specs.Transcripts.{transcript_of};
ghost use Rattle.kmipa_record.specs.Witnesses.{witness_of};
ghost use Rattle.kmipa_check.specs.Left.{LeavesAtYes};
ghost use Rattle.kmipa_check.specs.Replays.{AllTakable, Replayed};
ghost use Rattle.kmipa_check.specs.Runs.{rules_declared};
ghost use Rattle.kmipa_check.specs.SegmentReplays.{FirstTold, IsHeldAs, IsLeftSince, TellsSegment};
ghost use Rattle.kmipa_check.specs.Segments.{Leads};
ghost use Rattle.kmipa_check.specs.Since.{ChecksSince, checked_alone, last_stamp, verdict_told};
ghost use Rattle.kmipa_check.specs.Steps.{step_of};
ghost use Rattle.kmipa_check.specs.Opening.{StandsAsOpened};
ghost use Rattle.kmipa_check.specs.Verdicts.{AreKnown};

use crate::fault::CheckFault;
use crate::grants::Grants;
use crate::kept::{kept_or_opened, stands_as_opened};
use crate::late::{first_late, is_at};
use crate::leaving::declaration_left;
use crate::opening::{open_ledger, rules_of_declaration};
use crate::order::steps_of;
use crate::reading::read_calls;
use crate::replay::{refused_turn, replay};
use crate::step::Step;
use crate::verdict::{Refused, Verdict};
use kmipa_msgs::Rules;
use kmipa_ops::Why;
use kmipa_record::{Declaration, Transcript, Witness};
use kmipa_store::{Journal, Ledger};
use std::alloc::Global;

/// What a run leaves to the next segment.
#[derive(Drop)]
pub struct Left {
    /// The objects that the server holds behind the run, with its rules.
    pub declaration: Declaration,
    /// The moment of the last call, in seconds since 1970; where none was taken, the one from which the segment was to go on, if any.
    pub until: Option<i64>,
}

/// A verdict, and at a yes what the run leaves.
#[derive(Drop)]
pub struct Checked {
    pub verdict: Verdict,
    /// None at a no.
    pub left: Option<Left>,
}

/// A segment that was checked on a ledger, and this, where it stands as what is left opens it.
#[derive(Drop)]
pub struct CheckedOn {
    pub checked: Checked,
    pub ledger: Option<Journal>,
}

/// What `check` answers of a segment that goes on from a moment (in seconds since 1970), with what its run leaves. A first turn whose own
/// moment is below that one is refused, as if a turn of that moment stood ahead of it.
pub fn check_segment(
    alloc: Global,
    transcript: &Transcript,
    declaration: &Declaration,
    witness: &Witness,
    since: Option<i64>,
) -> Result<Checked, CheckFault>
    requires { AreDeclared (declaration_of declaration.now) }
    ensures checks { AreRecorded (transcript_of transcript.now)
        → ChecksSince (transcript_of transcript.now) (declaration_of declaration.now) since (witness_of witness.now)
        (verdict_told result) }
    // What is left describes exactly the inventories in which a run of this witness can end.
    ensures leads { AreRecorded (transcript_of transcript.now)
        → IfOk result (λ checked. LeavesAtYes checked.verdict checked.left (λ left.
        Leads (declaration_of declaration.now) since (transcript_of transcript.now) (witness_of witness.now)
        (declaration_of left.declaration) left.until)) }
{
    let mut ledger = open_ledger(alloc, declaration)?;
    check_over(alloc, transcript, declaration, witness, since, &mut ledger)
}

/// The same on a ledger that stands as the declaration opens it, where one is given. It is handed out at a yes, where it then stands as what is left
/// opens it: then the next segment costs nothing that follows the inventory but one look at each object, and the making of what is left.
pub fn check_segment_on(
    alloc: Global,
    transcript: &Transcript,
    declaration: &Declaration,
    witness: &Witness,
    since: Option<i64>,
    kept: Option<Journal>,
) -> Result<CheckedOn, CheckFault>
    requires declared { AreDeclared (declaration_of declaration.now) }
    requires stands { IfSome kept (λ ledger.
        StandsAsOpened (state_of_journal ledger).now (declaration_of declaration.now).entries) }
    ensures checks { AreRecorded (transcript_of transcript.now)
        → ChecksSince (transcript_of transcript.now) (declaration_of declaration.now) since (witness_of witness.now)
        (verdict_told (checked_alone result)) }
    ensures leads { AreRecorded (transcript_of transcript.now)
        → IfOk result (λ on. LeavesAtYes on.checked.verdict on.checked.left (λ left.
        Leads (declaration_of declaration.now) since (transcript_of transcript.now) (witness_of witness.now)
        (declaration_of left.declaration) left.until)) }
    ensures stands { IfOk result (λ on. IfSome on.ledger (λ ledger. IfSome on.checked.left (λ left.
        StandsAsOpened (state_of_journal ledger).now (declaration_of left.declaration).entries))) }
{
    let mut ledger = kept_or_opened(alloc, declaration, kept)?;
    let checked = check_over(alloc, transcript, declaration, witness, since, &mut ledger)?;
    if checked.left.is_some() && stands_as_opened(&mut ledger) {
        return Ok(CheckedOn {
            checked,
            ledger: Some(ledger),
        });
    }
    Ok(CheckedOn {
        checked,
        ledger: None,
    })
}

/// The same over a ledger that knows what the declaration says.
fn check_over<L: Ledger>(
    alloc: Global,
    transcript: &Transcript,
    declaration: &Declaration,
    witness: &Witness,
    since: Option<i64>,
    ledger: &mut L,
) -> Result<Checked, CheckFault>
    requires known { AreKnown (declaration_of declaration.now) [] (L.state ledger.old).now }
    requires sound { IsSound (L.state ledger.old).now }
    ensures checks { AreRecorded (transcript_of transcript.now)
        → ChecksSince (transcript_of transcript.now) (declaration_of declaration.now) since (witness_of witness.now)
        (verdict_told result) }
    ensures leads { AreRecorded (transcript_of transcript.now)
        → IfOk result (λ checked. LeavesAtYes checked.verdict checked.left (λ left.
        Leads (declaration_of declaration.now) since (transcript_of transcript.now) (witness_of witness.now)
        (declaration_of left.declaration) left.until)) }
    ensures held { IfOk result (λ checked. IfSome checked.left (λ left.
        IsHeldAs (declaration_of left.declaration) (L.state ledger.new).now)) }
{
    let calls = read_calls(alloc, transcript)?;
    let steps = steps_of(alloc, &Grants::of(declaration), &calls, &witness.turns)?;
    let rules = rules_of_declaration(alloc, declaration)?;
    replay_segment(alloc, ledger, &rules, &steps, declaration, since)
}

/// Replays the steps from a moment on; at a yes with the declaration of what the ledger then means.
fn replay_segment<L: Ledger>(
    alloc: Global,
    ledger: &mut L,
    rules: &Rules,
    steps: &[Step],
    declaration: &Declaration,
    since: Option<i64>,
) -> Result<Checked, CheckFault>
    requires sound { IsSound (L.state ledger.old).now }
    requires takable { AllTakable (map step_of steps.now) }
    requires rules { rules_of rules.now ≡ rules_declared (declaration_of declaration.now) }
    requires replayed { Replayed (declaration_of declaration.now) (map step_of steps.now) 0 (L.state ledger.old).now }
    ensures told { TellsSegment (declaration_of declaration.now) since (map step_of steps.now) (verdict_told result) }
    ensures leaves { IfOk result (λ checked. LeavesAtYes checked.verdict checked.left (λ left.
        IsLeftSince (declaration_of declaration.now) since (map step_of steps.now)
        (declaration_of left.declaration) left.until)) }
    ensures held { IfOk result (λ checked. IfSome checked.left (λ left.
        IsHeldAs (declaration_of left.declaration) (L.state ledger.new).now)) }
{
    match refused_first(steps, since) {
        Some(refused) => return Ok(no(refused)),
        None => {}
    }
    match replay(alloc, ledger, rules, steps) {
        Ok(Verdict::Yes) => Ok(Checked {
            verdict: Verdict::Yes,
            left: Some(Left {
                declaration: declaration_left(alloc, ledger, declaration)?,
                until: last_stamp(steps, since),
            }),
        }),
        Ok(Verdict::No(refused)) => Ok(no(refused)),
        Err(fault) => Err(fault),
    }
}

/// A no, which leaves nothing.
fn no(refused: Refused) -> Checked
    ensures { result ≡ record { verdict = Verdict.No refused; left = None } }
{
    Checked {
        verdict: Verdict::No(refused),
        left: None,
    }
}

/// The refusal of the first turn, where its own moment is below the one to go on from and it isn't refused for a call that comes too late.
fn refused_first(steps: &[Step], since: Option<i64>) -> Option<Refused>
    ensures { FirstTold since (map step_of steps.now) result }
{
    let Some(moment) = since else {
        return None;
    };
    let Some(first) = steps.first() else {
        return None;
    };
    if first.moment() >= moment {
        return None;
    }
    if is_at(first_late(steps), 0) {
        return None;
    }
    Some(refused_turn(0, first, Why::StampRunsBack))
}

/// The moment of the last step, or, where there is none, the one to go on from.
fn last_stamp(steps: &[Step], since: Option<i64>) -> Option<i64>
    ensures { result ≡ last_stamp since (map step_of steps.now) }
{
    match steps.last() {
        Some(last) => Some(last.moment()),
        None => since,
    }
}
