//! The search of a segment: a witness that goes on from a moment, and with it the declaration with which the next segment goes on.

ghost use Rattle.std.specs.Prelude.{◌≡◌, ◌≢◌, ◌⊎◌, ℕ, List, [], Bool, IsTrue, IfOk, OnOk, OnErr, Result, Some, None, Ok};
ghost use Rattle.std.specs.Io.{StartsWith, appended_bytes};
ghost use Rattle.kmipa_ttlv.specs.Input.{came_of, is_ended, is_failed, IsFileOf};
ghost use Rattle.kmipa_record.specs.Declarations.{AreDeclared, declaration_of};
ghost use Rattle.kmipa_record.specs.Marks.{AreRecorded};
ghost use Rattle.kmipa_record.specs.Transcripts.{transcript_of};
ghost use Rattle.kmipa_orders.specs.Found.{Finds};
ghost use Rattle.kmipa_orders.specs.declared.found.Found.TheVariants.{Yes};
ghost use Rattle.kmipa_runs.specs.Knowing.{Known, KnowsSeals};
ghost use Rattle.kmipa_searches.specs.Searches.{IsForcedTold, Makes, TalliesFound};
ghost use Rattle.kmipa_jobs.specs.Statuses.{IsSilent};
ghost use Rattle.kmipa_segments.specs.Chains.{found_witness};
ghost use Rattle.kmipa_segments.specs.Leaving.{LeadsAsAsked, if_asked};
ghost use Rattle.kmipa_segments.specs.SegmentSearches.{PrintsSegmentSearch, SearchesSegment, SearchesSince, TellsBoth, TellsFound, found_alone};

use crate::asked::{SearchAsked, SearchOutput};
use crate::leaving::tell_left;
use kmipa_check::{AuditFault, CheckFault, Left, check_segment};
use kmipa_jobs::Status;
use kmipa_orders::{Found, Watch};
use kmipa_record::{
    Declaration, Head, RecordFault, Transcript, Witness, read_declaration, read_transcript,
    write_witness,
};
use kmipa_runs::{Answered, append, fault_lines};
use kmipa_searches::{Searched, search_records, searched_lines, tell_searched};
use kmipa_stream::Tally;
use kmipa_ttlv::Input;
use std::alloc::Global;
use std::io::Read;

/// What a search of a segment found, and what the witness that it found leaves, if it found one.
#[derive(Drop)]
pub struct FoundSegment {
    pub searched: Searched,
    pub left: Option<Left>,
}

/// The same of two inputs, with what the transcript is known by.
#[derive(Drop)]
pub(crate) struct KnownSegment {
    pub segment: FoundSegment,
    pub head: Option<Head>,
}

/// A witness that was found in so many steps, whether the transcript is forced, where that was asked for, and what became of the items, where
/// that is told.
#[derive(Drop)]
struct FoundWitness {
    forced: Option<bool>,
    witness: Witness,
    count: u64,
    tally: Option<Tally>,
}

/// `search TRANSCRIPT DECLARATION OUT`, from a moment on where one is given, `--not-before DATE`: looks for a witness as it is asked for. Appends
/// the lines of what was found, with `forced` before them whether the transcript is forced, or the line of the fault that stands in their place, and
/// answers the status. A witness that was found is made, as a file; where it takes a call below the moment, it ends as a search that gave up does.
/// Where the declaration that is left is asked for, `--leaves OUT`, it is made, as a file, and the lines tell of it, or, where no bytes are that
/// declaration, why. At every other status than `Done` nothing is made. Where memory runs out nothing is appended to any, and the status is `Failed`.
/// The watcher is reported of each step.
pub fn search_segment_run<R: Read, W: Watch>(
    alloc: Global,
    transcript: &mut Input<R>,
    declaration: &mut Input<R>,
    asked: SearchAsked,
    watch: &mut W,
    out: &mut SearchOutput,
) -> Answered
    requires transcript { came_of transcript.old ≡ [] }
    requires declaration { came_of declaration.old ≡ [] }
    // What is made and printed tells what a search answers of whatever the inputs may be, or memory ran out.
    ensures prints { (outcome : Result FoundSegment AuditFault)
        × ((t d : List ℕ) → IsFileOf t transcript.new → IsFileOf d declaration.new
        → SearchesSince t d (is_failed transcript.new) (is_failed declaration.new) asked.segment.since
        (W.seconds watch.old) asked.search.budget asked.search.forced outcome)
        × (PrintsSegmentSearch asked.segment.leaves outcome result.status
        (appended_bytes out.old.lines.items out.new.lines.items)
        (appended_bytes out.old.made.items out.new.made.items)
        (appended_bytes out.old.left.items out.new.left.items)
        ⊎ (IsSilent result.status (appended_bytes out.old.lines.items out.new.lines.items)
        × (appended_bytes out.old.made.items out.new.made.items ≡ [])
        × (appended_bytes out.old.left.items out.new.left.items ≡ []))) }
    // Status 0 is answered only where the bytes that came, to the ends that were seen, are accepted from the
    // moment on with the witness that is made; and where it is asked for, what they lead to is made.
    ensures leads { result.status ≡ Status.Done
        → LeadsAsAsked asked.segment.leaves (came_of transcript.new) (came_of declaration.new)
        (appended_bytes out.old.made.items out.new.made.items) asked.segment.since
        (appended_bytes out.old.left.items out.new.left.items) × IsTrue (is_ended transcript.new)
        × IsTrue (is_ended declaration.new) }
    ensures nothing { result.status ≢ Status.Done
        → (out.new.made.items ≡ out.old.made.items) × (out.new.left.items ≡ out.old.left.items) }
    ensures appends { StartsWith out.new.lines.items out.old.lines.items }
    ensures makes { StartsWith out.new.made.items out.old.made.items
        × StartsWith out.new.left.items out.old.left.items }
    // Behind each verdict stands what the transcript is known by.
    ensures known { KnowsSeals (came_of transcript.new) result.status result.head }
{
    match search_inputs(alloc, transcript, declaration, asked, watch) {
        Ok(known) => Answered {
            status: tell_segment(
                alloc,
                &known.segment,
                asked.segment.leaves,
                &mut out.lines,
                &mut out.made,
                &mut out.left,
            ),
            head: known.head,
        },
        Err(fault) => Answered {
            status: append(fault_lines(alloc, &fault), &mut out.lines),
            head: None,
        },
    }
}

/// Reads the two inputs, of which nothing was read, one after the other, and searches the segment.
fn search_inputs<R: Read, W: Watch>(
    alloc: Global,
    transcript: &mut Input<R>,
    declaration: &mut Input<R>,
    asked: SearchAsked,
    watch: &mut W,
) -> Result<KnownSegment, AuditFault>
    requires transcript { came_of transcript.old ≡ [] }
    requires declaration { came_of declaration.old ≡ [] }
    ensures searches { (t d : List ℕ) → IsFileOf t transcript.new → IsFileOf d declaration.new
        → SearchesSince t d (is_failed transcript.new) (is_failed declaration.new) asked.segment.since
        (W.seconds watch.old) asked.search.budget asked.search.forced
        (found_alone result) }
    ensures known { IfOk result (λ known. Known (came_of transcript.new) known.head) }
    ensures ended { OnOk result (IsTrue (is_ended transcript.new) × IsTrue (is_ended declaration.new)) }
{
    let transcript = match read_transcript(alloc, transcript) {
        Ok(transcript) => transcript,
        Err(fault) => return Err(AuditFault::Transcript(fault)),
    };
    let declaration = match read_declaration(alloc, declaration) {
        Ok(declaration) => declaration,
        Err(fault) => return Err(AuditFault::Declaration(fault)),
    };
    match search_segment(alloc, &transcript, &declaration, asked, watch) {
        Ok(segment) => Ok(KnownSegment {
            segment,
            head: transcript.head,
        }),
        Err(fault) => Err(AuditFault::Check(fault)),
    }
}

/// Searches the records of a segment, and checks the witness that is found from the moment on.
pub fn search_segment<W: Watch>(
    alloc: Global,
    transcript: &Transcript,
    declaration: &Declaration,
    asked: SearchAsked,
    watch: &mut W,
) -> Result<FoundSegment, CheckFault>
    requires { AreDeclared (declaration_of declaration.now) }
    ensures { AreRecorded (transcript_of transcript.now)
        → SearchesSegment (transcript_of transcript.now) (declaration_of declaration.now) asked.segment.since
        (W.seconds watch.old) asked.search.budget asked.search.forced result }
{
    let searched = match search_records(alloc, transcript, declaration, asked.search, watch) {
        Ok(searched) => searched,
        Err(fault) => return Err(fault),
    };
    let forced = searched.forced;
    let tally = searched.tally;
    let found = searched.found;
    match found {
        Found::Yes(witness, count) => {
            let found = FoundWitness {
                forced,
                witness,
                count,
                tally,
            };
            go_on(alloc, transcript, declaration, asked.segment.since, found)
        }
        Found::GaveUp(count) => Ok(unfound(forced, Found::GaveUp(count))),
        Found::Refuted(count, objects) => Ok(unfound(forced, Found::Refuted(count, objects))),
        Found::Impossible(count, call) => Ok(unfound(forced, Found::Impossible(count, call))),
        Found::OutOfTime(count, after) => Ok(unfound(forced, Found::OutOfTime(count, after))),
    }
}

/// Goes on with the witness that was found: it is checked from the moment on.
fn go_on(
    alloc: Global,
    transcript: &Transcript,
    declaration: &Declaration,
    since: Option<i64>,
    found: FoundWitness,
) -> Result<FoundSegment, CheckFault>
    requires { AreDeclared (declaration_of declaration.now) }
    ensures { (seconds budget : ℕ) (asked : Bool) → AreRecorded (transcript_of transcript.now)
        → IsForcedTold (transcript_of transcript.now) (declaration_of declaration.now) asked found.forced
        → Finds (transcript_of transcript.now) (declaration_of declaration.now) budget (Yes found.witness found.count)
        → TalliesFound (transcript_of transcript.now) (declaration_of declaration.now)
        (Yes found.witness found.count) found.tally
        → SearchesSegment (transcript_of transcript.now) (declaration_of declaration.now) since seconds budget asked result }
{
    let FoundWitness {
        forced,
        witness,
        count,
        tally,
    } = found;
    let checked = match check_segment(alloc, transcript, declaration, &witness, since) {
        Ok(checked) => checked,
        Err(fault) => return Err(fault),
    };
    let left = checked.left;
    match left {
        Some(left) => Ok(FoundSegment {
            searched: Searched {
                forced,
                found: Found::Yes(witness, count),
                tally,
            },
            left: Some(left),
        }),
        None => Ok(unfound(forced, Found::GaveUp(count))),
    }
}

/// No witness was found that goes on from the moment.
fn unfound(forced: Option<bool>, found: Found) -> FoundSegment
    ensures { result ≡ record { searched = record { forced = forced; found = found; tally = None }; left = None } }
{
    FoundSegment {
        searched: Searched {
            forced,
            found,
            tally: None,
        },
        left: None,
    }
}

/// The witness that was found, if one was.
pub fn found_witness(found: Found) -> Option<Witness>
    ensures { result ≡ found_witness found }
{
    match found {
        Found::Yes(witness, _) => Some(witness),
        Found::GaveUp(_)
        | Found::Refuted(_, _)
        | Found::Impossible(_, _)
        | Found::OutOfTime(_, _) => None,
    }
}

/// Appends the lines of what was found to `out`, a witness that was found to `made`, and the declaration that it leaves, where it is asked for,
/// to `left`; nothing to any where memory runs out.
fn tell_segment(
    alloc: Global,
    segment: &FoundSegment,
    leaves: bool,
    out: &mut Vec<u8>,
    made: &mut Vec<u8>,
    left: &mut Vec<u8>,
) -> Status
    ensures tells { TellsFound segment.now (if_asked leaves segment.now.left) result
        (appended_bytes out.old.items out.new.items)
        (appended_bytes made.old.items made.new.items) (appended_bytes left.old.items left.new.items)
        ⊎ (IsSilent result (appended_bytes out.old.items out.new.items)
        × (appended_bytes made.old.items made.new.items ≡ [])
        × (appended_bytes left.old.items left.new.items ≡ [])) }
    ensures nothing { result ≢ Status.Done → (made.new.items ≡ made.old.items) × (left.new.items ≡ left.old.items) }
    ensures appends { StartsWith out.new.items out.old.items }
    ensures makes { StartsWith made.new.items made.old.items × StartsWith left.new.items left.old.items }
{
    if leaves {
        tell_found(alloc, segment, out, made, left)
    } else {
        tell_searched(alloc, &segment.searched, out, made)
    }
}

/// The same where what is left is asked for.
fn tell_found(
    alloc: Global,
    segment: &FoundSegment,
    out: &mut Vec<u8>,
    made: &mut Vec<u8>,
    left: &mut Vec<u8>,
) -> Status
    ensures tells { TellsFound segment.now segment.now.left result (appended_bytes out.old.items out.new.items)
        (appended_bytes made.old.items made.new.items) (appended_bytes left.old.items left.new.items)
        ⊎ (IsSilent result (appended_bytes out.old.items out.new.items)
        × (appended_bytes made.old.items made.new.items ≡ [])
        × (appended_bytes left.old.items left.new.items ≡ [])) }
    ensures nothing { result ≢ Status.Done → (made.new.items ≡ made.old.items) × (left.new.items ≡ left.old.items) }
    ensures appends { StartsWith out.new.items out.old.items }
    ensures makes { StartsWith made.new.items made.old.items × StartsWith left.new.items left.old.items }
{
    match &segment.left {
        Some(next) => tell_both(alloc, &segment.searched, next, out, made, left),
        None => tell_searched(alloc, &segment.searched, out, made),
    }
}

/// Appends what was found to `made`, the declaration that it leaves to `left`, and the lines of both to `out`; nothing to any where memory
/// runs out.
fn tell_both(
    alloc: Global,
    searched: &Searched,
    next: &Left,
    out: &mut Vec<u8>,
    made: &mut Vec<u8>,
    left: &mut Vec<u8>,
) -> Status
    ensures tells { TellsBoth searched.now next.now result (appended_bytes out.old.items out.new.items)
        (appended_bytes made.old.items made.new.items) (appended_bytes left.old.items left.new.items)
        ⊎ (IsSilent result (appended_bytes out.old.items out.new.items)
        × (appended_bytes made.old.items made.new.items ≡ [])
        × (appended_bytes left.old.items left.new.items ≡ [])) }
    ensures nothing { result ≢ Status.Done → (made.new.items ≡ made.old.items) × (left.new.items ≡ left.old.items) }
    ensures appends { StartsWith out.new.items out.old.items }
    ensures makes { StartsWith made.new.items made.old.items × StartsWith left.new.items left.old.items }
{
    let Ok(lines) = searched_lines(alloc, searched) else {
        return Status::Failed;
    };
    let kept = made.len();
    if make_found(alloc, &searched.found, made).is_err() {
        return Status::Failed;
    }
    match tell_left(alloc, lines.text.as_str(), next, out, left) {
        Status::Done => Status::Done,
        status => {
            made.truncate(kept);
            status
        }
    }
}

/// Appends a witness that was found.
fn make_found(alloc: Global, found: &Found, made: &mut Vec<u8>) -> Result<(), RecordFault>
    ensures made { OnOk result (Makes found.now (appended_bytes made.old.items made.new.items)) }
    ensures same { OnErr result (made.new.items ≡ made.old.items) }
    ensures appends { StartsWith made.new.items made.old.items }
{
    match found {
        Found::Yes(witness, _) => write_witness(alloc, witness, made),
        Found::GaveUp(_) => Ok(()),
        Found::Refuted(_, _) => Ok(()),
        Found::Impossible(_, _) => Ok(()),
        Found::OutOfTime(_, _) => Ok(()),
    }
}
