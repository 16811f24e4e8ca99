//! Searches of files: of whole ones, in each form, or of a segment.

ghost use Rattle.std.specs.Prelude.{◌≡◌, ◌⊎◌, IfOk};
ghost use Rattle.kmipa_session.specs.Sessions.{HasSearched, HasSearchedSegment, IsMade, IsMadeAsAsked, IsRefused, IsUntold, RunsAskedSearch, RunsSearch, TellsWhat};
ghost use Rattle.kmipa_session.specs.Printing.{voice_of};
ghost use Rattle.kmipa_jobs.specs.declared.job.Asked.TheVariants.{Segment};
ghost use Rattle.kmipa_session.specs.declared.voice.Voice.TheVariants.{Lines};

use crate::checking::{NoMoment, mistaken, moment_of, open_transcript, test_leaves, test_left};
use crate::did::{Did, Said, Session};
use crate::named::Named;
use crate::sealing::{NoSeal, expected_of, say_seals};
use crate::telling::{tell_done, tell_mixed, tell_no_seal};
use crate::voice::{Voice, voice_of};
use crate::world::{Content, NO_LIMIT, Out, World};
use kmipa_jobs::{
    AnswerWords, Asked, Form, SearchFiles, SearchWords, SegmentWords, Status, asked_of,
};
use kmipa_segments::SegmentAsked;
use std::alloc::Global;

/// What is asked of a search: its files, how it goes, and its answer.
#[derive(Clone, Copy, PartialEq, Eq)]
pub struct SearchJob<'a> {
    pub files: SearchFiles<'a>,
    pub search: SearchWords,
    pub words: AnswerWords<'a>,
}

/// What a search is asked for, the head that the transcript has to have, if one is expected, and whether it may be torn.
#[derive(Clone, Copy, PartialEq, Eq)]
struct FindWords<'a> {
    files: SearchFiles<'a>,
    search: SearchWords,
    segment: SegmentWords<'a>,
    expected: Option<[u8; 32]>,
    torn: bool,
    /// Tells on standard error how far a long search got.
    watched: bool,
}

/// Looks for a witness of two files as the options ask for it, makes the third file of it, and prints what is said.
pub fn run_search<'n, W: World, O: Out>(
    alloc: Global,
    world: &W,
    out: O,
    job: SearchJob<'n>,
    watched: bool,
) -> Session<'n, O, W::File, W::Made, W::Refusal>
    ensures { RunsSearch W.made W.lacked job.entry.files job.entry.search job.entry.words
        result.did (O.printed out) (O.printed result.out) (O.has_failed result.out) result.status }
{
    let SearchJob {
        files,
        search,
        words,
    } = job;
    let Some(asked) = asked_of(words.form, words.segment) else {
        return tell_mixed(world, out);
    };
    match expected_of(words.seals.head) {
        Ok(expected) => {
            let words = FindWords {
                files,
                search,
                segment: words.segment,
                expected,
                torn: words.seals.torn,
                watched: watched && !search.quiet,
            };
            run_asked_search(alloc, world, out, asked, words)
        }
        Err(NoSeal) => tell_no_seal(world, out),
    }
}

fn run_asked_search<'n, W: World, O: Out>(
    alloc: Global,
    world: &W,
    out: O,
    asked: Asked,
    words: FindWords<'n>,
) -> Session<'n, O, W::File, W::Made, W::Refusal>
    ensures { RunsAskedSearch W.made W.lacked words.entry.files words.entry.torn words.entry.search
        words.entry.segment
        words.entry.expected asked
        result.did (O.printed out) (O.printed result.out) (O.has_failed result.out) result.status }
{
    match asked {
        Asked::Files(form) => run_whole_search(alloc, world, out, form, words),
        Asked::Segment => run_segment_search(alloc, world, out, words),
    }
}

/// Looks for a witness of two whole files, and prints what is said in this form.
fn run_whole_search<'n, W: World, O: Out>(
    alloc: Global,
    world: &W,
    out: O,
    form: Form,
    words: FindWords<'n>,
) -> Session<'n, O, W::File, W::Made, W::Refusal>
    ensures { TellsWhat W.made W.lacked (voice_of form) (HasSearched W.made W.lacked words.entry.files
        words.entry.torn form words.entry.search words.entry.expected)
        result.did (O.printed out) (O.printed result.out) (O.has_failed result.out) result.status }
{
    let done = search_files(alloc, world, form, words);
    tell_done(world, out, voice_of(form), done)
}

/// Looks for a witness of two files of a segment, and prints what is said.
fn run_segment_search<'n, W: World, O: Out>(
    alloc: Global,
    world: &W,
    out: O,
    words: FindWords<'n>,
) -> Session<'n, O, W::File, W::Made, W::Refusal>
    ensures { RunsAskedSearch W.made W.lacked words.entry.files words.entry.torn words.entry.search
        words.entry.segment
        words.entry.expected Segment
        result.did (O.printed out) (O.printed result.out) (O.has_failed result.out) result.status }
{
    let done = search_segment(alloc, world, words);
    tell_done(world, out, Voice::Lines, done)
}

/// Opens two files in the order in which they were named, and looks for a witness of them. Where the status is not `Done` nothing is made.
fn search_files<'n, W: World>(
    alloc: Global,
    world: &W,
    form: Form,
    words: FindWords<'n>,
) -> Result<(Said, Did<'n, W::File, W::Made, W::Refusal>), W::Refusal>
    ensures { IfOk result (λ done.
        HasSearched W.made W.lacked words.entry.files words.entry.torn form words.entry.search
        words.entry.expected done.1
        done.0.status done.0.lines.items
        ⊎ IsRefused W.made W.lacked (voice_of form) done.1 done.0.status done.0.lines.items) }
{
    let files = words.files;
    let witness = files.out;
    let names = [files.transcript, files.declaration];
    if let Err(refusal) = world.test_distinct(witness, &names) {
        return Ok((mistaken(alloc), Did::Refused(refusal)));
    }
    let mut transcript = open_transcript(world, files.transcript, words.torn, NO_LIMIT)?;
    let mut declaration = world.open(files.declaration, NO_LIMIT)?;
    world.test_output(witness)?;
    let mut watch = watch_of(world, words);
    let (ran, made) = Named::search(
        alloc,
        form,
        words.search,
        &mut transcript,
        &mut declaration,
        &mut watch,
    );
    if ran.status == Status::Refused {
        world.hint_kind(&names, &ran.lines);
    }
    let said = say_seals(
        alloc,
        voice_of(form),
        words.expected,
        transcript.torn(),
        ran,
    );
    let file = make_when_done(world, witness, &made, said.status)?;
    Ok((said, Did::Searched(transcript, declaration, file)))
}

/// Who watches the search.
fn watch_of<W: World>(world: &W, words: FindWords<'_>) -> W::Watcher
    ensures { W.Watcher.seconds result ≡ words.entry.search.seconds }
{
    world.watch(words.search.budget, words.search.seconds, words.watched)
}

/// Makes a file where the status is `Done`.
pub fn make_when_done<W: World>(
    world: &W,
    name: &str,
    bytes: &[u8],
    status: Status,
) -> Result<Option<W::Made>, W::Refusal>
    ensures { IfOk result (λ file. IsMade W.made name.now bytes.now status file) }
{
    match status {
        Status::Done => Ok(Some(world.make(Content { name, bytes })?)),
        _ => Ok(None),
    }
}

/// The same of a segment: from a moment on, where one is given, and with the declaration that its run leaves, where that is asked for.
fn search_segment<'n, W: World>(
    alloc: Global,
    world: &W,
    words: FindWords<'n>,
) -> Result<(Said, Did<'n, W::File, W::Made, W::Refusal>), W::Refusal>
    ensures { IfOk result (λ done.
        (HasSearchedSegment W.made W.lacked words.entry.files words.entry.torn words.entry.search
        words.entry.segment
        words.entry.expected
        done.1 done.0.status done.0.lines.items
        ⊎ IsUntold words.entry.segment done.1 done.0.status done.0.lines.items)
        ⊎ IsRefused W.made W.lacked Lines done.1 done.0.status done.0.lines.items) }
{
    let files = words.files;
    let witness = files.out;
    let leaves = words.segment.leaves;
    let since = match moment_of(world, words.segment.not_before) {
        Ok(since) => since,
        Err(NoMoment) => return Ok((mistaken(alloc), Did::Nothing)),
    };
    let names = [files.transcript, files.declaration];
    if let Err(refusal) = test_outputs(world, witness, leaves, &names) {
        return Ok((mistaken(alloc), Did::Refused(refusal)));
    }
    let mut transcript = open_transcript(world, files.transcript, words.torn, NO_LIMIT)?;
    let mut declaration = world.open(files.declaration, NO_LIMIT)?;
    world.test_output(witness)?;
    test_leaves(world, leaves)?;
    let mut watch = watch_of(world, words);
    let (ran, made, left) = Named::search_segment(
        alloc,
        words.search,
        &mut transcript,
        &mut declaration,
        SegmentAsked {
            since,
            leaves: leaves.is_some(),
        },
        &mut watch,
    );
    if ran.status == Status::Refused {
        world.hint_kind(&names, &ran.lines);
    }
    let said = say_seals(alloc, Voice::Lines, words.expected, transcript.torn(), ran);
    let (file, more) = make_files(world, witness, &made, leaves, &left, said.status)?;
    Ok((
        said,
        Did::SearchedSegment(transcript, declaration, file, more),
    ))
}

/// Tests that no output is an input too, and that both are not one file.
fn test_outputs<W: World>(
    world: &W,
    witness: &str,
    leaves: Option<&str>,
    inputs: &[&str],
) -> Result<(), W::Refusal> {
    world.test_distinct(witness, inputs)?;
    test_left(world, leaves, inputs)?;
    match leaves {
        Some(left) => world.test_two(witness, left),
        None => Ok(()),
    }
}

/// Makes the files of a witness, and of what its run leaves where that is asked for, where the status is `Done`: both whole, or neither.
fn make_files<W: World>(
    world: &W,
    witness: &str,
    made: &[u8],
    leaves: Option<&str>,
    left: &[u8],
    status: Status,
) -> Result<(Option<W::Made>, Option<W::Made>), W::Refusal>
    ensures witness { IfOk result (λ files. IsMade W.made witness.now made.now status files.0) }
    ensures left { IfOk result (λ files. IsMadeAsAsked W.made leaves.entry left.now status files.1) }
{
    match leaves {
        Some(name) if status == Status::Done => {
            let one = Content {
                name: witness,
                bytes: made,
            };
            let (one, other) = world.make_both(one, Content { name, bytes: left })?;
            Ok((Some(one), Some(other)))
        }
        _ => Ok((make_when_done(world, witness, made, status)?, None)),
    }
}
