//! `search`: a witness of a transcript and a declaration.

ghost use Rattle.std.specs.Prelude.{◌≡◌, ◌≢◌, ◌⊎◌, List, [], Bool, All, IfOk, MatchResult, Result, Ok, Err, map, string_bytes};
ghost use Rattle.std.specs.Io.{StartsWith, appended_bytes};
ghost use Rattle.kmipa_record.specs.Declarations.{AreDeclared, declaration_of};
ghost use Rattle.kmipa_record.specs.Marks.{AreRecorded, MarkOf};
ghost use Rattle.kmipa_record.specs.Transcripts.{transcript_of};
ghost use Rattle.kmipa_record.specs.Witnesses.{witness_of, IsWitness};
ghost use Rattle.kmipa_check.specs.Calls.{AreCalls, IsRecorded, call_of};
ghost use Rattle.kmipa_orders.specs.Found.{SearchesIn};
ghost use Rattle.kmipa_searches.specs.Searches.{found_status, found_text, forced_text, IsForcedTold, PrintsSearch, SearchesRecords, TalliesFound, TellsIfForced, searched_text};
ghost use Rattle.kmipa_jobs.specs.Statuses.{IsSilent};

use crate::options::SearchOptions;
use crate::searched::{CallsAsked, Searched};
use kmipa_check::{CheckFault, read_calls};
use kmipa_jobs::Status;
use kmipa_orders::{Found, Watch, is_forced};
use kmipa_record::{Call, Declaration, Transcript, Witness, write_witness};
use kmipa_runs::{Lines, append, tally_text};
use kmipa_search::{search_calls, search_open_calls};
use kmipa_stream::{Tally, tally_of_turns};
use std::alloc::{AllocError, Global};

/// Searches the records.
pub fn search_records<W: Watch>(
    alloc: Global,
    transcript: &Transcript,
    declaration: &Declaration,
    asked: SearchOptions,
    watch: &mut W,
) -> Result<Searched, CheckFault>
    requires { AreDeclared (declaration_of declaration.now) }
    ensures { AreRecorded (transcript_of transcript.now)
        → SearchesRecords (transcript_of transcript.now) (declaration_of declaration.now)
        (W.seconds watch.old) asked.budget asked.forced result }
{
    let forced = if_forced(alloc, transcript, declaration, asked.forced)?;
    let calls = read_calls(alloc, transcript)?;
    search_read(
        alloc,
        transcript,
        declaration,
        &calls,
        CallsAsked {
            forced,
            search: asked,
        },
        watch,
    )
}

/// Searches calls that were read of the transcript, of which this is told, and says what became of the items by the witness that is found.
pub fn search_read<W: Watch>(
    alloc: Global,
    transcript: &Transcript,
    declaration: &Declaration,
    calls: &[Call],
    told: CallsAsked,
    watch: &mut W,
) -> Result<Searched, CheckFault>
    requires declared { AreDeclared (declaration_of declaration.now) }
    requires each { All (IsRecorded (transcript_of transcript.now)) (map call_of calls.now) }
    ensures { (asked : Bool) → AreRecorded (transcript_of transcript.now)
        → AreCalls (transcript_of transcript.now) (map call_of calls.now)
        → IsForcedTold (transcript_of transcript.now) (declaration_of declaration.now) asked told.forced
        → SearchesRecords (transcript_of transcript.now) (declaration_of declaration.now)
        (W.seconds watch.old) told.search.budget asked result }
{
    let found = search_as_asked(alloc, transcript, declaration, calls, told.search, watch)?;
    let tally = tally_of_found(alloc, declaration, calls, &found)?;
    Ok(Searched {
        forced: told.forced,
        found,
        tally,
    })
}

/// What became of the items by the witness that was found, if one was.
fn tally_of_found(
    alloc: Global,
    declaration: &Declaration,
    calls: &[Call],
    found: &Found,
) -> Result<Option<Tally>, CheckFault>
    ensures { (marks : List MarkOf) → AreRecorded marks → AreCalls marks (map call_of calls.now)
        → MatchResult result (TalliesFound marks (declaration_of declaration.now) found.now)
        (λ fault. fault ≡ CheckFault.Memory) }
{
    match found {
        Found::Yes(witness, _) => {
            match tally_of_turns(alloc, declaration, calls, &witness.turns) {
                Ok(tally) => Ok(tally),
                Err(_) => Err(CheckFault::Memory),
            }
        }
        Found::GaveUp(_) => Ok(None),
        Found::Refuted(_, _) => Ok(None),
        Found::Impossible(_, _) => Ok(None),
        Found::OutOfTime(_, _) => Ok(None),
    }
}

/// Looks for a witness of calls that were read of the transcript, with `open` of those without an end mark too.
fn search_as_asked<W: Watch>(
    alloc: Global,
    transcript: &Transcript,
    declaration: &Declaration,
    calls: &[Call],
    asked: SearchOptions,
    watch: &mut W,
) -> Result<Found, CheckFault>
    requires declared { AreDeclared (declaration_of declaration.now) }
    requires each { All (IsRecorded (transcript_of transcript.now)) (map call_of calls.now) }
    ensures { AreRecorded (transcript_of transcript.now)
        → AreCalls (transcript_of transcript.now) (map call_of calls.now)
        → SearchesIn (W.seconds watch.old) (transcript_of transcript.now)
        (declaration_of declaration.now) asked.budget result }
{
    if asked.open {
        search_open_calls(alloc, transcript, declaration, calls, asked.budget, watch)
    } else {
        search_calls(alloc, transcript, declaration, calls, asked.budget, watch)
    }
}

/// Whether a transcript is forced under the tolerance that is declared, where that is asked for.
pub fn if_forced(
    alloc: Global,
    transcript: &Transcript,
    declaration: &Declaration,
    asked: bool,
) -> Result<Option<bool>, CheckFault>
    ensures { AreRecorded (transcript_of transcript.now)
        → TellsIfForced (transcript_of transcript.now) (declaration_of declaration.now) asked result }
{
    if asked {
        let tolerance = declaration.settings.tolerance;
        Ok(Some(is_forced(alloc, transcript, tolerance)?))
    } else {
        Ok(None)
    }
}

/// Appends the lines of what was found to `out`, and a witness that was found to `made`; nothing to either where
/// memory runs out.
pub fn tell_searched(
    alloc: Global,
    searched: &Searched,
    out: &mut Vec<u8>,
    made: &mut Vec<u8>,
) -> Status
    ensures tells { PrintsSearch (Ok searched.now) result (appended_bytes out.old.items out.new.items)
        (appended_bytes made.old.items made.new.items)
        ⊎ (IsSilent result (appended_bytes out.old.items out.new.items)
        × (appended_bytes made.old.items made.new.items ≡ [])) }
    ensures nothing { result ≢ Status.Done → made.new.items ≡ made.old.items }
    ensures appends { StartsWith out.new.items out.old.items }
    ensures makes { StartsWith made.new.items made.old.items }
{
    let Ok(lines) = searched_lines(alloc, searched) else {
        return Status::Failed;
    };
    match &searched.found {
        Found::Yes(witness, _) => tell_witness(alloc, witness, &lines, out, made),
        Found::GaveUp(_) => append(Ok(lines), out),
        Found::Refuted(_, _) => append(Ok(lines), out),
        Found::Impossible(_, _) => append(Ok(lines), out),
        Found::OutOfTime(_, _) => append(Ok(lines), out),
    }
}

/// Appends a witness to `made`, and the lines that tell of it to `out`; nothing to either where memory runs out.
pub fn tell_witness(
    alloc: Global,
    witness: &Witness,
    lines: &Lines,
    out: &mut Vec<u8>,
    made: &mut Vec<u8>,
) -> Status
    ensures tells { ((result ≡ lines.now.status)
        × (appended_bytes out.old.items out.new.items ≡ string_bytes lines.now.text)
        × IsWitness (appended_bytes made.old.items made.new.items) (witness_of witness.now))
        ⊎ (IsSilent result (appended_bytes out.old.items out.new.items) × (made.new.items ≡ made.old.items)) }
    ensures appends { StartsWith out.new.items out.old.items }
    ensures makes { StartsWith made.new.items made.old.items }
{
    let kept = made.len();
    if write_witness(alloc, witness, made).is_err() {
        return Status::Failed;
    }
    if out.extend_from_slice(lines.text.as_bytes()).is_err() {
        made.truncate(kept);
        return Status::Failed;
    }
    lines.status
}

/// The lines of what a search found, before them whether the transcript is forced, where that was asked for, and behind them what became of
/// the items, where that is told.
pub fn searched_lines(alloc: Global, searched: &Searched) -> Result<Lines, AllocError>
    ensures { IfOk result (λ lines. (lines.status ≡ found_status searched.now.found)
        × (string_bytes lines.text ≡ searched_text searched.now)) }
{
    let Lines { text, status } = found_lines(alloc, &searched.found)?;
    let first = forced_line(searched.forced);
    let last = tally_text(alloc, searched.tally)?;
    let text = format!(in alloc; "{first}{text}{last}")?;
    Ok(Lines { text, status })
}

/// The line that tells whether a transcript is forced, where that was asked for.
pub fn forced_line(forced: Option<bool>) -> &'static str
    ensures { result.now ≡ forced_text forced }
{
    match forced {
        None => "",
        Some(true) => "forced: yes\n",
        Some(false) => "forced: no\n",
    }
}

/// The line of what a search found.
fn found_lines(alloc: Global, found: &Found) -> Result<Lines, AllocError>
    ensures { IfOk result
        (λ lines. (lines.status ≡ found_status found.now) × (string_bytes lines.text ≡ found_text found.now)) }
{
    match found {
        Found::Yes(_, count) => Ok(Lines {
            text: format!(in alloc; "yes: {count} steps\n")?,
            status: Status::Done,
        }),
        Found::GaveUp(count) => gave_up_line(alloc, *count),
        Found::Refuted(count, _) => gave_up_line(alloc, *count),
        Found::Impossible(count, _) => gave_up_line(alloc, *count),
        Found::OutOfTime(count, _) => gave_up_line(alloc, *count),
    }
}

/// The line of a search that gave up, or whose time was over.
fn gave_up_line(alloc: Global, count: u64) -> Result<Lines, AllocError>
    ensures { IfOk result
        (λ lines. (lines.status ≡ found_status (Found.GaveUp count)) × (string_bytes lines.text ≡ found_text (Found.GaveUp count))) }
{
    Ok(Lines {
        text: format!(in alloc; "gave up: {count} steps\n")?,
        status: Status::GaveUp,
    })
}
