//! `judge`: what is found in a recording, over inputs that are handed in.

ghost use Rattle.std.specs.Prelude.{◌≡◌, [], Some, None};
ghost use Rattle.kmipa_ttlv.specs.Input.{came_of};
ghost use Rattle.kmipa_runs.specs.Knowing.{KnowsSeals};
ghost use Rattle.kmipa_judge.specs.Forms.{IsHeld};
ghost use Rattle.kmipa_jobs.specs.declared.status.Status.{Status};
ghost use Rattle.kmipa_judge.specs.Runs.{IsUnread, JudgesFiles, MakesNothing};
ghost use Rattle.kmipa_judge.specs.Statuses.{IsConvicted, IsExplained};

use crate::declaring::{assumed_visibility, judging_by, nothing_known};
use crate::form::JudgeForm;
use crate::holding::{read_given, read_recording};
use crate::judging::{Records, judge_records, silent};
use crate::opening::{JudgeHeld, open_both, open_one, unread};
use crate::run::JudgeRun;
use kmipa_check::AuditFault;
use kmipa_orders::Watch;
use kmipa_ttlv::Input;
use std::alloc::Global;
use std::io::Read;

/// `judge TRANSCRIPT DECLARATION`: looks for an order of the calls, trying at most `budget` calls, and sets aside what is impossible. Tells what was found,
/// or the first fault of the transcript, or else of the declaration, in this form. What isn't judged by the declaration is set aside, also where that would end the audit.
/// Where all calls are taken a witness is made, and the declaration that was used. Where memory runs out nothing is said and made, and the status is
/// `Failed`. The watcher is reported of each call that is tried.
pub fn judge_run<R: Read, W: Watch + Drop>(
    alloc: Global,
    form: JudgeForm,
    transcript: &mut Input<R>,
    declaration: &mut Input<R>,
    budget: u64,
    watch: W,
) -> JudgeRun
    requires transcript { came_of transcript.old ≡ [] }
    requires declaration { came_of declaration.old ≡ [] }
    ensures told { JudgesFiles (W.seconds watch) form transcript.new (Some declaration.new) result.status result.lines.items
        result.witness.items result.declaration.items }
    // Status 0 is answered only where the bytes that came, to the ends that were seen, are explained by the witness that is made.
    ensures explained { result.status ≡ Status.Done
        → IsExplained transcript.new (Some declaration.new) result.witness.items }
    // Status 1 is answered only where no order of the calls explains every answer.
    ensures convicted { result.status ≡ Status.No → IsConvicted transcript.new (Some declaration.new) }
    ensures known { KnowsSeals (came_of transcript.new) result.status result.head }
{
    judge_both(alloc, form, transcript, declaration, budget, watch)
}

/// The same, of which is told what is said and made alone.
fn judge_both<R: Read, W: Watch + Drop>(
    alloc: Global,
    form: JudgeForm,
    transcript: &mut Input<R>,
    declaration: &mut Input<R>,
    budget: u64,
    watch: W,
) -> JudgeRun
    requires transcript { came_of transcript.old ≡ [] }
    requires declaration { came_of declaration.old ≡ [] }
    ensures told { JudgesFiles (W.seconds watch) form transcript.new (Some declaration.new) result.status result.lines.items
        result.witness.items result.declaration.items }
    ensures known { KnowsSeals (came_of transcript.new) result.status result.head }
{
    let mut held = JudgeHeld::new(alloc);
    let first = match read_recording(alloc, form, transcript, &mut held.transcript) {
        Ok(first) => first,
        Err(_) => return silent(alloc, None),
    };
    let recording = match first {
        Ok(recording) => recording,
        Err(fault) => return unread_both(
            alloc,
            form,
            transcript,
            declaration,
            &held,
            &AuditFault::Transcript(fault),
        ),
    };
    let second = match read_given(alloc, form, declaration, &mut held.declaration) {
        Ok(second) => second,
        Err(_) => return silent(alloc, None),
    };
    let given = match second {
        Ok(given) => given,
        Err(fault) => return unread_both(
            alloc,
            form,
            transcript,
            declaration,
            &held,
            &AuditFault::Declaration(fault),
        ),
    };
    let opened = match open_both(alloc, form, transcript, declaration, &held, &recording.head) {
        Ok(opened) => opened,
        Err(_) => return silent(alloc, None),
    };
    let records = Records {
        transcript: recording,
        declaration: judging_by(given),
        assumed: false,
    };
    judge_records(alloc, records, opened, budget, watch)
}

/// Tells the first fault of the two files.
fn unread_both<R>(
    alloc: Global,
    form: JudgeForm,
    transcript: &Input<R>,
    declaration: &Input<R>,
    held: &JudgeHeld,
    fault: &AuditFault,
) -> JudgeRun
    requires transcript { IsHeld form held.now.transcript.items transcript.now }
    requires declaration { IsHeld form held.now.declaration.items declaration.now }
    ensures told { IsUnread form transcript.now (Some declaration.now) fault.now result.status result.lines.items }
    ensures nothing { MakesNothing result.witness.items result.declaration.items }
    ensures head { result.head ≡ None }
{
    match open_both(alloc, form, transcript, declaration, held, &None) {
        Ok(opened) => unread(alloc, opened, fault),
        Err(_) => silent(alloc, None),
    }
}

/// `judge TRANSCRIPT`: the same where no declaration is given, by the one of a server of which nothing is known.
pub fn judge_alone_run<R: Read, W: Watch + Drop>(
    alloc: Global,
    form: JudgeForm,
    transcript: &mut Input<R>,
    budget: u64,
    watch: W,
) -> JudgeRun
    requires { came_of transcript.old ≡ [] }
    ensures told { JudgesFiles (W.seconds watch) form transcript.new None result.status result.lines.items result.witness.items
        result.declaration.items }
    ensures explained { result.status ≡ Status.Done → IsExplained transcript.new None result.witness.items }
    ensures convicted { result.status ≡ Status.No → IsConvicted transcript.new None }
    ensures known { KnowsSeals (came_of transcript.new) result.status result.head }
{
    judge_one(alloc, form, transcript, budget, watch)
}

/// The same, of which is told what is said and made alone.
fn judge_one<R: Read, W: Watch + Drop>(
    alloc: Global,
    form: JudgeForm,
    transcript: &mut Input<R>,
    budget: u64,
    watch: W,
) -> JudgeRun
    requires { came_of transcript.old ≡ [] }
    ensures told { JudgesFiles (W.seconds watch) form transcript.new None result.status result.lines.items result.witness.items
        result.declaration.items }
    ensures known { KnowsSeals (came_of transcript.new) result.status result.head }
{
    let mut held = Vec::new(alloc);
    let first = match read_recording(alloc, form, transcript, &mut held) {
        Ok(first) => first,
        Err(_) => return silent(alloc, None),
    };
    let recording = match first {
        Ok(recording) => recording,
        Err(fault) => return unread_one(
            alloc,
            form,
            transcript,
            &held,
            &AuditFault::Transcript(fault),
        ),
    };
    let opened = match open_one(alloc, form, transcript, &held, &recording.head) {
        Ok(opened) => opened,
        Err(_) => return silent(alloc, None),
    };
    let visibility = assumed_visibility(&recording.marks);
    let records = Records {
        transcript: recording,
        declaration: nothing_known(alloc, visibility),
        assumed: true,
    };
    judge_records(alloc, records, opened, budget, watch)
}

/// Tells the first fault of a transcript alone.
fn unread_one<R>(
    alloc: Global,
    form: JudgeForm,
    transcript: &Input<R>,
    held: &[u8],
    fault: &AuditFault,
) -> JudgeRun
    requires { IsHeld form held.now transcript.now }
    ensures told { IsUnread form transcript.now None fault.now result.status result.lines.items }
    ensures nothing { MakesNothing result.witness.items result.declaration.items }
    ensures head { result.head ≡ None }
{
    match open_one(alloc, form, transcript, held, &None) {
        Ok(opened) => unread(alloc, opened, fault),
        Err(_) => silent(alloc, None),
    }
}
