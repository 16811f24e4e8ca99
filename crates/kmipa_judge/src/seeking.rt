//! `search`: a witness of a transcript and a declaration, whatever that sets aside.

ghost use Rattle.std.specs.Prelude.{◌≡◌, ◌≢◌, ◌⊎◌, List, [], All, IfOk, IsTrue, None, Ok, map, string_bytes};
ghost use Rattle.kmipa_ttlv.specs.Input.{came_of};
ghost use Rattle.kmipa_msgs.specs.declared.rules.Unjudged.TheVariants.{Refused, Unknown};
ghost use Rattle.kmipa_msgs.specs.declared.rules.Visibility.{Visibility};
ghost use Rattle.kmipa_record.specs.Declarations.{AreDeclared, declaration_of};
ghost use Rattle.kmipa_record.specs.Marks.{AreRecorded};
ghost use Rattle.kmipa_record.specs.Transcripts.{transcript_of};
ghost use Rattle.kmipa_check.specs.Calls.{CallOf, AreCalls, IsRecorded, call_of};
ghost use Rattle.kmipa_runs.specs.Knowing.{KnowsSeals};
ghost use Rattle.kmipa_runs.specs.Lines.{PrintsFault};
ghost use Rattle.kmipa_searches.specs.Searches.{PrintsSearch, SearchStops, SearchesRecords};
ghost use Rattle.kmipa_jobs.specs.Statuses.{IsSilent};
ghost use Rattle.kmipa_jobs.specs.declared.status.Status.{Status};
ghost use Rattle.kmipa_judge.specs.Declaring.{IsPlain};
ghost use Rattle.kmipa_judge.specs.Searches.{IsForcedTold, IsFound, IsSoughtBeside, SaysNothing, SearchesAny, SearchesBeside, SearchesEver, SearchesRecordsAny, TellsOrNot};

use crate::at_length::seek_at_length;
use crate::beside::{Beside, beside_lines, order_made};
use crate::search_run::SearchRun;
use kmipa_check::{AuditFault, CheckFault, read_calls};
use kmipa_findings::is_forced_beside;
use kmipa_jobs::{SearchWords, Status};
use kmipa_msgs::{Unjudged, Visibility};
use kmipa_orders::Watch;
use kmipa_record::{
    Call, Declaration, Reach, Transcript, read_declaration_within, read_transcript,
};
use kmipa_runs::{Lines, append, fault_lines};
use kmipa_searches::{CallsAsked, SearchOptions, Searched, if_forced, search_read, tell_searched};
use kmipa_trail::Fault;
use kmipa_ttlv::Input;
use std::alloc::Global;
use std::io::Read;
use std::mem::forget;

/// `search TRANSCRIPT DECLARATION OUT`: looks for a witness as the words ask for it. Tells what was found, or the first fault of the transcript, or else of the
/// declaration; and makes the witness, at status `Done` alone. Where memory runs out nothing is said and made, and the status is `Failed`.
///
/// Where the declaration sets no identifier aside, each client sees every object, and no message is outside, calls are searched as ever; and where what is
/// outside ends the audit, the first message is told that is. Else the search goes on beside what is set aside. It is for a
/// program's one search: what it read of the transcript isn't given back.
pub fn search_any_run<R: Read, W: Watch>(
    alloc: Global,
    transcript: &mut Input<R>,
    declaration: &mut Input<R>,
    words: SearchWords,
    watch: &mut W,
) -> SearchRun
    requires transcript { came_of transcript.old ≡ [] }
    requires declaration { came_of declaration.old ≡ [] }
    ensures told { SearchesAny (W.seconds watch.old) words.budget words.forced transcript.new declaration.new result.status
        result.lines.items result.witness.items }
    // Status 0 is answered only where the bytes that came, to the ends that were seen, are accepted with the witness that is made.
    ensures accepts { result.status ≡ Status.Done → IsFound transcript.new declaration.new result.witness.items }
    // Behind each verdict stands what the transcript is known by.
    ensures known { KnowsSeals (came_of transcript.new) result.status result.head }
{
    search_both(alloc, transcript, declaration, words, watch)
}

/// The same, of which is told what is said and made alone.
fn search_both<R: Read, W: Watch>(
    alloc: Global,
    transcript: &mut Input<R>,
    declaration: &mut Input<R>,
    words: SearchWords,
    watch: &mut W,
) -> SearchRun
    requires transcript { came_of transcript.old ≡ [] }
    requires declaration { came_of declaration.old ≡ [] }
    ensures told { SearchesAny (W.seconds watch.old) words.budget words.forced transcript.new declaration.new result.status
        result.lines.items result.witness.items }
    ensures known { KnowsSeals (came_of transcript.new) result.status result.head }
{
    let mut recording = match read_transcript(alloc, transcript) {
        Ok(recording) => recording,
        Err(fault) => return unread(alloc, AuditFault::Transcript(fault)),
    };
    let head = recording.head.take();
    let given = match read_declaration_within(alloc, declaration, Reach::Aside) {
        Ok(given) => given,
        Err(fault) => return unread(alloc, AuditFault::Declaration(fault)),
    };
    let run = search_any(alloc, &recording, &given, words, watch);
    forget(recording);
    SearchRun { head, ..run }
}

/// The first fault of the two files.
fn unread(alloc: Global, fault: AuditFault) -> SearchRun
    ensures prints { PrintsFault fault result.status result.lines.items ⊎ IsSilent result.status result.lines.items }
    ensures nothing { result.witness.items ≡ [] }
    ensures head { result.head ≡ None }
{
    let mut lines = Vec::new(alloc);
    let status = append(fault_lines(alloc, &fault), &mut lines);
    SearchRun {
        status,
        lines,
        head: None,
        witness: Vec::new(alloc),
    }
}

/// Nothing is said and made.
fn silent(alloc: Global) -> SearchRun
    ensures { SaysNothing result.status result.lines.items result.witness.items }
{
    SearchRun {
        status: Status::Failed,
        lines: Vec::new(alloc),
        head: None,
        witness: Vec::new(alloc),
    }
}

/// Searches the records.
fn search_any<W: Watch>(
    alloc: Global,
    transcript: &Transcript,
    declaration: &Declaration,
    words: SearchWords,
    watch: &mut W,
) -> SearchRun
    requires { AreDeclared (declaration_of declaration.now) }
    ensures { AreRecorded (transcript_of transcript.now)
        → SearchesRecordsAny (W.seconds watch.old) words.budget words.forced (transcript_of transcript.now)
        (declaration_of declaration.now) result.status result.lines.items result.witness.items }
{
    match read_calls(alloc, transcript) {
        Ok(calls) => {
            let run = search_inside(alloc, transcript, declaration, &calls, words, watch);
            forget(calls);
            run
        }
        Err(fault) => search_outside(alloc, transcript, declaration, fault, words, watch),
    }
}

/// The same where no message is outside, of these calls.
fn search_inside<W: Watch>(
    alloc: Global,
    transcript: &Transcript,
    declaration: &Declaration,
    calls: &[Call],
    words: SearchWords,
    watch: &mut W,
) -> SearchRun
    requires declared { AreDeclared (declaration_of declaration.now) }
    requires calls { AreRecorded (transcript_of transcript.now)
        → AreCalls (transcript_of transcript.now) (map call_of calls.now) }
    requires each { All (IsRecorded (transcript_of transcript.now)) (map call_of calls.now) }
    ensures { AreRecorded (transcript_of transcript.now)
        → SearchesRecordsAny (W.seconds watch.old) words.budget words.forced (transcript_of transcript.now)
        (declaration_of declaration.now) result.status result.lines.items result.witness.items }
{
    if is_plain(declaration) {
        search_as_ever(alloc, transcript, declaration, calls, words, watch)
    } else {
        search_beside(alloc, transcript, declaration, words, watch)
    }
}

/// The same where they can't all be read, for this fault: a message is outside, or memory ran out.
fn search_outside<W: Watch>(
    alloc: Global,
    transcript: &Transcript,
    declaration: &Declaration,
    fault: CheckFault,
    words: SearchWords,
    watch: &mut W,
) -> SearchRun
    requires declared { AreDeclared (declaration_of declaration.now) }
    requires outside { AreRecorded (transcript_of transcript.now) → SearchStops (transcript_of transcript.now) fault }
    ensures { AreRecorded (transcript_of transcript.now)
        → SearchesRecordsAny (W.seconds watch.old) words.budget words.forced (transcript_of transcript.now)
        (declaration_of declaration.now) result.status result.lines.items result.witness.items }
{
    match (fault, declaration.settings.unjudged) {
        (CheckFault::Outside(_, _, _), Unjudged::Refused) => {
            unread(alloc, AuditFault::Check(fault))
        }
        (CheckFault::Outside(_, _, _), _) => {
            search_beside(alloc, transcript, declaration, words, watch)
        }
        _ => silent(alloc),
    }
}

/// Whether a declaration sets no identifier aside, and each client sees every object.
pub(crate) fn is_plain(declaration: &Declaration) -> bool
    ensures { IsTrue result → IsPlain (declaration_of declaration.now) }
{
    is_seen(declaration.settings.visibility)
        && is_known(declaration.settings.unjudged)
        && declaration.asides.is_empty()
}

/// Whether each client sees every object.
fn is_seen(visibility: Visibility) -> bool
    ensures { IsTrue result → visibility ≡ Visibility.Everyone }
{
    match visibility {
        Visibility::Everyone => true,
        Visibility::MayHide | Visibility::MustHide => false,
    }
}

/// Whether what isn't declared isn't there.
fn is_known(unjudged: Unjudged) -> bool
    ensures { IsTrue result → unjudged ≢ Unknown }
{
    match unjudged {
        Unjudged::Refused | Unjudged::SetAside => true,
        Unjudged::Unknown => false,
    }
}

/// Searches the calls as ever.
fn search_as_ever<W: Watch>(
    alloc: Global,
    transcript: &Transcript,
    declaration: &Declaration,
    calls: &[Call],
    words: SearchWords,
    watch: &mut W,
) -> SearchRun
    requires declared { AreDeclared (declaration_of declaration.now) }
    requires calls { AreRecorded (transcript_of transcript.now)
        → AreCalls (transcript_of transcript.now) (map call_of calls.now) }
    requires each { All (IsRecorded (transcript_of transcript.now)) (map call_of calls.now) }
    ensures { AreRecorded (transcript_of transcript.now)
        → SearchesEver (W.seconds watch.old) words.budget words.forced (transcript_of transcript.now)
        (declaration_of declaration.now) result.status result.lines.items result.witness.items }
{
    match found_as_ever(alloc, transcript, declaration, calls, words, watch) {
        Ok(searched) => tell_as_ever(alloc, &searched),
        Err(_) => silent(alloc),
    }
}

/// What a search of the calls as ever comes to.
fn found_as_ever<W: Watch>(
    alloc: Global,
    transcript: &Transcript,
    declaration: &Declaration,
    calls: &[Call],
    words: SearchWords,
    watch: &mut W,
) -> Result<Searched, CheckFault>
    requires declared { AreDeclared (declaration_of declaration.now) }
    requires calls { AreRecorded (transcript_of transcript.now)
        → AreCalls (transcript_of transcript.now) (map call_of calls.now) }
    requires each { All (IsRecorded (transcript_of transcript.now)) (map call_of calls.now) }
    ensures { AreRecorded (transcript_of transcript.now)
        → SearchesRecords (transcript_of transcript.now) (declaration_of declaration.now) (W.seconds watch.old) words.budget
        words.forced result }
{
    let forced = if_forced(alloc, transcript, declaration, words.forced)?;
    search_read(
        alloc,
        transcript,
        declaration,
        calls,
        CallsAsked {
            forced,
            search: SearchOptions {
                budget: words.budget,
                forced: words.forced,
                open: words.open,
            },
        },
        watch,
    )
}

/// The lines of what was found as ever, and the witness that is made of it.
fn tell_as_ever(alloc: Global, searched: &Searched) -> SearchRun
    ensures { PrintsSearch (Ok searched.now) result.status result.lines.items result.witness.items
        ⊎ SaysNothing result.status result.lines.items result.witness.items }
{
    let mut lines = Vec::new(alloc);
    let mut witness = Vec::new(alloc);
    let status = tell_searched(alloc, searched, &mut lines, &mut witness);
    SearchRun {
        status,
        lines,
        head: None,
        witness,
    }
}

/// Searches the calls beside what is set aside.
fn search_beside<W: Watch>(
    alloc: Global,
    transcript: &Transcript,
    declaration: &Declaration,
    words: SearchWords,
    watch: &mut W,
) -> SearchRun
    requires declared { AreDeclared (declaration_of declaration.now) }
    requires inside { AreRecorded (transcript_of transcript.now) → (declaration_of declaration.now).settings.unjudged ≡ Refused
        → (calls : List CallOf) × AreCalls (transcript_of transcript.now) calls }
    ensures { AreRecorded (transcript_of transcript.now)
        → SearchesBeside (W.seconds watch.old) words.budget words.forced (transcript_of transcript.now)
        (declaration_of declaration.now) result.status result.lines.items result.witness.items }
{
    match sought_beside(alloc, transcript, declaration, words, watch) {
        Ok(beside) => tell_beside(alloc, declaration.settings.unjudged, words.budget, beside),
        Err(_) => silent(alloc),
    }
}

/// What a search of the calls beside what is set aside comes to.
fn sought_beside<W: Watch>(
    alloc: Global,
    transcript: &Transcript,
    declaration: &Declaration,
    words: SearchWords,
    watch: &mut W,
) -> Result<Beside, Fault>
    requires { AreDeclared (declaration_of declaration.now) }
    ensures { AreRecorded (transcript_of transcript.now)
        → IfOk result (IsSoughtBeside (W.seconds watch.old) words.budget words.forced (transcript_of transcript.now)
        (declaration_of declaration.now)) }
{
    let forced = forced_if_asked(alloc, transcript, declaration, words.forced)?;
    let sought = seek_at_length(alloc, transcript, declaration, words, watch)?;
    Ok(Beside { forced, sought })
}

/// Whether the transcript is forced beside what is set aside, where that is asked for.
fn forced_if_asked(
    alloc: Global,
    transcript: &Transcript,
    declaration: &Declaration,
    asked: bool,
) -> Result<Option<bool>, Fault>
    ensures { AreRecorded (transcript_of transcript.now)
        → IfOk result (IsForcedTold (transcript_of transcript.now) (declaration_of declaration.now) asked) }
{
    if asked {
        Ok(Some(is_forced_beside(alloc, transcript, declaration)?))
    } else {
        Ok(None)
    }
}

/// The lines of what was found, and the witness that is made of it.
fn tell_beside(alloc: Global, unjudged: Unjudged, budget: u64, beside: Beside) -> SearchRun
    ensures { TellsOrNot budget unjudged beside result.status result.lines.items result.witness.items }
{
    let Beside { forced, sought } = beside;
    let Ok((sought, witness)) = order_made(alloc, sought, budget) else {
        return silent(alloc);
    };
    let beside = Beside { forced, sought };
    let Ok(told) = beside_lines(alloc, unjudged, &beside) else {
        return silent(alloc);
    };
    said(told, witness)
}

/// What these lines say, with this witness.
fn said(told: Lines, witness: Vec<u8>) -> SearchRun
    ensures status { result.status ≡ told.status }
    ensures lines { result.lines.items ≡ string_bytes told.text }
    ensures witness { result.witness.items ≡ witness.items }
{
    SearchRun {
        status: told.status,
        lines: told.text.into_bytes(),
        head: None,
        witness,
    }
}
