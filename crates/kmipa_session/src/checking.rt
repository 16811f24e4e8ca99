//! Checks of files: of whole ones, in each form, or of a segment.

ghost use Rattle.std.specs.Prelude.{◌≡◌, ◌⊎◌, [], IfOk, MatchResult};
ghost use Rattle.kmipa_jobs.specs.declared.status.Status.{Status};
ghost use Rattle.kmipa_session.specs.Since.{IsNoMoment, IsSince};
ghost use Rattle.kmipa_session.specs.Sealing.{IsOpenedAs};
ghost use Rattle.kmipa_session.specs.Timing.{have_failed};
ghost use Rattle.kmipa_session.specs.Worlds.{input_of, name_of};
ghost use Rattle.kmipa_ttlv.specs.Input.{came_of};
ghost use Rattle.kmipa_session.specs.Sessions.{HasChecked, HasCheckedSegment, IsMadeAsAsked, IsRefused, IsUntold, RunsAskedCheck, RunsCheck, TellsWhat};
ghost use Rattle.kmipa_session.specs.Printing.{voice_of};
ghost use Rattle.kmipa_jobs.specs.declared.job.Asked.TheVariants.{Segment};
ghost use Rattle.kmipa_session.specs.declared.voice.Voice.TheVariants.{Lines};

use crate::did::{Did, Said, Session};
use crate::named::Named;
use crate::sealing::{NoSeal, expected_of, say_seals};
use crate::telling::{tell_done, tell_mixed, tell_no_seal};
use crate::timing::say_in_time;
use crate::voice::{Voice, voice_of};
use crate::world::{Content, Out, World};
use kmipa_jobs::{AnswerWords, Asked, CheckFiles, Form, SegmentWords, Status, asked_of};
use kmipa_segments::{SegmentAsked, read_moment};
use std::alloc::Global;
use std::io::Read;

/// What a check is asked for, the head that it has to have, if one is expected, and whether the transcript may be torn.
#[derive(Clone, Copy, PartialEq, Eq)]
struct CheckWords<'a> {
    files: CheckFiles<'a>,
    segment: SegmentWords<'a>,
    expected: Option<[u8; 32]>,
    torn: bool,
    /// The seconds after which it ends; 0 where it has all the time that it takes.
    seconds: u64,
}

/// Checks three files as the options ask for it, and prints what is said of them.
pub fn run_check<'n, W: World, O: Out>(
    alloc: Global,
    world: &W,
    out: O,
    files: CheckFiles<'n>,
    seconds: u64,
    words: AnswerWords<'n>,
) -> Session<'n, O, W::File, W::Made, W::Refusal>
    ensures { RunsCheck W.made W.lacked files.entry seconds words.entry result.did (O.printed out) (O.printed result.out)
        (O.has_failed result.out) result.status }
{
    let Some(asked) = asked_of(words.form, words.segment) else {
        return tell_mixed(world, out);
    };
    match expected_of(words.seals.head) {
        Ok(expected) => {
            let words = CheckWords {
                files,
                segment: words.segment,
                expected,
                torn: words.seals.torn,
                seconds,
            };
            run_asked_check(alloc, world, out, asked, words)
        }
        Err(NoSeal) => tell_no_seal(world, out),
    }
}

fn run_asked_check<'n, W: World, O: Out>(
    alloc: Global,
    world: &W,
    out: O,
    asked: Asked,
    words: CheckWords<'n>,
) -> Session<'n, O, W::File, W::Made, W::Refusal>
    ensures { RunsAskedCheck W.made W.lacked words.entry.files words.entry.torn words.entry.seconds words.entry.segment
        words.entry.expected asked
        result.did (O.printed out) (O.printed result.out) (O.has_failed result.out) result.status }
{
    match asked {
        Asked::Files(form) => run_whole_check(alloc, world, out, form, words),
        Asked::Segment => run_segment_check(alloc, world, out, words),
    }
}

/// Checks three whole files, and prints what is said of them in this form.
fn run_whole_check<'n, W: World, O: Out>(
    alloc: Global,
    world: &W,
    out: O,
    form: Form,
    words: CheckWords<'n>,
) -> Session<'n, O, W::File, W::Made, W::Refusal>
    ensures { TellsWhat W.made W.lacked (voice_of form) (HasChecked W.made W.lacked words.entry.files
        words.entry.torn words.entry.seconds form words.entry.expected)
        result.did (O.printed out) (O.printed result.out) (O.has_failed result.out) result.status }
{
    let done = check_files(alloc, world, form, words);
    tell_done(world, out, voice_of(form), done)
}

/// Checks three files of a segment, and prints what is said of them.
fn run_segment_check<'n, W: World, O: Out>(
    alloc: Global,
    world: &W,
    out: O,
    words: CheckWords<'n>,
) -> Session<'n, O, W::File, W::Made, W::Refusal>
    ensures { RunsAskedCheck W.made W.lacked words.entry.files words.entry.torn words.entry.seconds words.entry.segment
        words.entry.expected Segment
        result.did (O.printed out) (O.printed result.out) (O.has_failed result.out) result.status }
{
    let done = check_segment(alloc, world, words);
    tell_done(world, out, Voice::Lines, done)
}

/// Opens three files in the order in which they were named, and checks them.
fn check_files<'n, W: World>(
    alloc: Global,
    world: &W,
    form: Form,
    words: CheckWords<'n>,
) -> Result<(Said, Did<'n, W::File, W::Made, W::Refusal>), W::Refusal>
    ensures { IfOk result (λ done. HasChecked W.made W.lacked words.entry.files words.entry.torn words.entry.seconds
        form words.entry.expected done.1 done.0.status done.0.lines.items) }
{
    let files = words.files;
    let names = [files.transcript, files.declaration, files.witness];
    let mut transcript = open_transcript(world, files.transcript, words.torn, words.seconds)?;
    let mut declaration = world.open(files.declaration, words.seconds)?;
    let mut witness = world.open(files.witness, words.seconds)?;
    let ran = Named::check(alloc, form, &mut transcript, &mut declaration, &mut witness);
    if ran.status == Status::Refused {
        world.hint_kind(&names, &ran.lines);
    }
    let voice = voice_of(form);
    let sealed = say_seals(alloc, voice, words.expected, transcript.torn(), ran);
    let failed = have_failed(&transcript, &declaration, &witness);
    let said = say_in_time(alloc, world, voice, words.seconds, failed, sealed);
    Ok((said, Did::Checked(transcript, declaration, witness)))
}

/// The same of a segment: from a moment on, where one is given, and with the declaration that its run leaves, where that is asked for. Where the
/// status is not `Done` nothing is made.
fn check_segment<'n, W: World>(
    alloc: Global,
    world: &W,
    words: CheckWords<'n>,
) -> Result<(Said, Did<'n, W::File, W::Made, W::Refusal>), W::Refusal>
    ensures { IfOk result (λ done.
        (HasCheckedSegment W.made W.lacked words.entry.files words.entry.torn words.entry.seconds
        words.entry.segment words.entry.expected
        done.1 done.0.status done.0.lines.items
        ⊎ IsUntold words.entry.segment done.1 done.0.status done.0.lines.items)
        ⊎ IsRefused W.made W.lacked Lines done.1 done.0.status done.0.lines.items) }
{
    let files = words.files;
    let leaves = words.segment.leaves;
    let since = match moment_of(world, words.segment.not_before) {
        Ok(since) => since,
        Err(NoMoment) => return Ok((mistaken(alloc), Did::Nothing)),
    };
    let inputs = [files.transcript, files.declaration, files.witness];
    if let Err(refusal) = test_left(world, leaves, &inputs) {
        return Ok((mistaken(alloc), Did::Refused(refusal)));
    }
    let mut transcript = open_transcript(world, files.transcript, words.torn, words.seconds)?;
    let mut declaration = world.open(files.declaration, words.seconds)?;
    let mut order = world.open(files.witness, words.seconds)?;
    test_leaves(world, leaves)?;
    let (ran, left) = Named::check_segment(
        alloc,
        &mut transcript,
        &mut declaration,
        &mut order,
        SegmentAsked {
            since,
            leaves: leaves.is_some(),
        },
    );
    if ran.status == Status::Refused {
        world.hint_kind(&inputs, &ran.lines);
    }
    let sealed = say_seals(alloc, Voice::Lines, words.expected, transcript.torn(), ran);
    let failed = have_failed(&transcript, &declaration, &order);
    let said = say_in_time(alloc, world, Voice::Lines, words.seconds, failed, sealed);
    let file = make_left(world, leaves, &left, said.status)?;
    Ok((
        said,
        Did::CheckedSegment(transcript, declaration, order, file),
    ))
}

/// Opens a transcript, which may be torn where that is asked for, and whose reads fail once so many seconds are over.
pub fn open_transcript<'n, W: World>(
    world: &W,
    name: &'n str,
    torn: bool,
    seconds: u64,
) -> Result<Named<'n, W::File>, W::Refusal>
    ensures name { IfOk result (λ file. name_of file ≡ name.now) }
    ensures fresh { IfOk result (λ file. came_of (input_of file) ≡ []) }
    ensures opened { IfOk result (IsOpenedAs torn) }
{
    if torn {
        world.open_torn(name, seconds)
    } else {
        world.open(name, seconds)
    }
}

/// Whether a read of one of three files failed.
fn have_failed<R: Read>(
    transcript: &Named<'_, R>,
    declaration: &Named<'_, R>,
    witness: &Named<'_, R>,
) -> bool
    ensures { result ≡ have_failed transcript.now declaration.now witness.now }
{
    transcript.has_failed() || declaration.has_failed() || witness.has_failed()
}

/// Tests that what is left is made of none of the files that are read, where it is asked for.
pub fn test_left<W: World>(
    world: &W,
    leaves: Option<&str>,
    inputs: &[&str],
) -> Result<(), W::Refusal> {
    match leaves {
        Some(left) => world.test_distinct(left, inputs),
        None => Ok(()),
    }
}

/// Tests whether what is left may be made, where it is asked for.
pub fn test_leaves<W: World>(world: &W, leaves: Option<&str>) -> Result<(), W::Refusal> {
    match leaves {
        Some(left) => world.test_output(left),
        None => Ok(()),
    }
}

/// Makes the file of what is left, where it is asked for and the status is `Done`.
fn make_left<W: World>(
    world: &W,
    leaves: Option<&str>,
    bytes: &[u8],
    status: Status,
) -> Result<Option<W::Made>, W::Refusal>
    ensures { IfOk result (λ file. IsMadeAsAsked W.made leaves.entry bytes.now status file) }
{
    match leaves {
        Some(name) if status == Status::Done => Ok(Some(world.make(Content { name, bytes })?)),
        _ => Ok(None),
    }
}

/// A word that is no moment.
pub struct NoMoment;

/// The moment that a word tells, where there is one. A word that tells none is a mistake, which is told on standard error.
pub fn moment_of<W: World>(world: &W, word: Option<&str>) -> Result<Option<i64>, NoMoment>
    ensures { MatchResult result (λ since. IsSince word.entry since) (λ _. IsNoMoment word.entry) }
{
    let Some(text) = word else {
        return Ok(None);
    };
    match read_moment(text) {
        Some(second) => Ok(Some(second)),
        None => {
            world.tell_no_moment(text);
            Err(NoMoment)
        }
    }
}

/// What is said of mistaken words: nothing, with their status.
pub fn mistaken(alloc: Global) -> Said
    ensures status { result.status ≡ Status.Usage }
    ensures lines { result.lines.items ≡ [] }
{
    Said {
        status: Status::Usage,
        lines: Vec::new(alloc),
    }
}
