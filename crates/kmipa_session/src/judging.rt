//! Judgings of files.

ghost use Rattle.std.specs.Prelude.{◌≡◌, ◌≢◌, ◌⊎◌, [], true, false, None, IfOk, IfSome, option_map};
ghost use Rattle.kmipa_ttlv.specs.Input.{came_of};
ghost use Rattle.kmipa_judge.specs.Runs.{JudgesFiles};
ghost use Rattle.kmipa_session.specs.Judgings.{judge_form, judge_voice};
ghost use Rattle.kmipa_session.specs.Sealing.{KnowsTold, is_verdict, own_length};
ghost use Rattle.kmipa_session.specs.Sessions.{HasJudged, IsLeft, IsLeftAsAsked, IsOpenedBy, IsRefused, RunsJudge, TellsWhat};
ghost use Rattle.kmipa_session.specs.Worlds.{input_of, name_of, torn_of};

use crate::checking::{mistaken, open_transcript, test_leaves, test_left};
use crate::did::{Did, Said, Session};
use crate::judged::{JudgedFiles, judge_voice};
use crate::named::Named;
use crate::sealing::{NoSeal, expected_of, is_verdict, say_seals};
use crate::telling::{tell_done, tell_no_seal};
use crate::world::{Content, NO_LIMIT, Out, World};
use kmipa_jobs::{JudgeFiles, JudgeWords, SealWords, Status};
use kmipa_orders::Watch;
use std::alloc::Global;
use std::io::Read;

/// What is asked of a judging: its files, how it goes, and the seals of its transcript.
#[derive(Clone, Copy, PartialEq, Eq)]
pub struct JudgeJob<'a> {
    pub files: JudgeFiles<'a>,
    pub judging: JudgeWords,
    pub seals: SealWords<'a>,
}

/// What a judging is asked for, the head that the transcript has to have, if one is expected, and whether it may be torn.
#[derive(Clone, Copy, PartialEq, Eq)]
struct FindingWords<'a> {
    files: JudgeFiles<'a>,
    judging: JudgeWords,
    expected: Option<[u8; 32]>,
    torn: bool,
    /// Tells on standard error how far a long search got.
    watched: bool,
}

/// Judges a transcript as the options ask for it, makes the files that are asked for, and prints what is said.
pub fn run_judge<'n, W: World, O: Out>(
    alloc: Global,
    world: &W,
    out: O,
    job: JudgeJob<'n>,
    watched: bool,
) -> Session<'n, O, W::File, W::Made, W::Refusal>
    ensures { RunsJudge W.made W.lacked job.entry.files job.entry.judging job.entry.seals result.did (O.printed out) (O.printed result.out)
        (O.has_failed result.out) result.status }
{
    let JudgeJob {
        files,
        judging,
        seals,
    } = job;
    match expected_of(seals.head) {
        Ok(expected) => {
            let words = FindingWords {
                files,
                judging,
                expected,
                torn: seals.torn,
                watched: watched && !judging.quiet,
            };
            run_judging(alloc, world, out, words)
        }
        Err(NoSeal) => tell_no_seal(world, out),
    }
}

/// Judges a transcript, and prints what is said.
fn run_judging<'n, W: World, O: Out>(
    alloc: Global,
    world: &W,
    out: O,
    words: FindingWords<'n>,
) -> Session<'n, O, W::File, W::Made, W::Refusal>
    ensures { TellsWhat W.made W.lacked (judge_voice words.entry.judging.json) (HasJudged W.made W.lacked words.entry.files
        words.entry.torn words.entry.judging words.entry.expected)
        result.did (O.printed out) (O.printed result.out) (O.has_failed result.out) result.status }
{
    let done = judge_files(alloc, world, words);
    let voice = judge_voice(words.judging.json);
    tell_done(world, out, voice, done)
}

/// Opens the files that are named, in the order of the words, judges them, and makes those that are asked for.
fn judge_files<'n, W: World>(
    alloc: Global,
    world: &W,
    words: FindingWords<'n>,
) -> Result<(Said, Did<'n, W::File, W::Made, W::Refusal>), W::Refusal>
    ensures { IfOk result (λ done.
        HasJudged W.made W.lacked words.entry.files words.entry.torn words.entry.judging words.entry.expected done.1
        done.0.status done.0.lines.items
        ⊎ IsRefused W.made W.lacked (judge_voice words.entry.judging.json) done.1 done.0.status done.0.lines.items) }
{
    let files = words.files;
    if let Err(refusal) = test_outputs(world, files) {
        return Ok((mistaken(alloc), Did::Refused(refusal)));
    }
    let mut transcript = open_transcript(world, files.transcript, words.torn, NO_LIMIT)?;
    let declaration = open_declaration(world, files.declaration)?;
    test_leaves(world, files.witness)?;
    test_leaves(world, files.used)?;
    let watch = watch_of(world, words);
    let (judged, declaration) = judge_opened(
        alloc,
        words.judging,
        &mut transcript,
        declaration,
        watch,
    );
    let JudgedFiles { ran, witness, used } = judged;
    if ran.status == Status::Refused {
        hint_kinds(world, files, &ran.lines);
    }
    let voice = judge_voice(words.judging.json);
    let said = say_seals(alloc, voice, words.expected, transcript.torn(), ran);
    let (one, other) = make_files(world, files, &witness, &used, said.status)?;
    Ok((said, Did::Judged(transcript, declaration, one, other)))
}

/// Who watches the search.
fn watch_of<W: World>(world: &W, words: FindingWords<'_>) -> W::Watcher
    ensures { W.Watcher.seconds result ≡ words.entry.judging.seconds }
{
    world.watch(words.judging.budget, words.judging.seconds, words.watched)
}

/// Opens a declaration, where one is given.
fn open_declaration<'n, W: World>(
    world: &W,
    name: Option<&'n str>,
) -> Result<Option<Named<'n, W::File>>, W::Refusal>
    ensures name { IfOk result (IsOpenedBy name.entry) }
    ensures fresh { IfOk result (λ file. IfSome file (λ file. came_of (input_of file) ≡ [])) }
{
    match name {
        Some(name) => Ok(Some(world.open(name, NO_LIMIT)?)),
        None => Ok(None),
    }
}

/// Judges a transcript, by a declaration where one is given, and answers that, too.
fn judge_opened<'n, R: Read, W: Watch + Drop>(
    alloc: Global,
    words: JudgeWords,
    transcript: &mut Named<'_, R>,
    declaration: Option<Named<'n, R>>,
    watch: W,
) -> (JudgedFiles, Option<Named<'n, R>>)
    requires transcript { came_of (input_of transcript.old) ≡ [] }
    requires declaration { IfSome declaration (λ file. came_of (input_of file) ≡ []) }
    ensures judges { JudgesFiles (W.seconds watch) (judge_form words.json (own_length (torn_of transcript.new)))
        (input_of transcript.new) (option_map input_of result.1) result.0.ran.status result.0.ran.lines.items
        result.0.witness.items result.0.used.items }
    ensures known { KnowsTold (torn_of transcript.new) (came_of (input_of transcript.new)) result.0.ran.status
        result.0.ran.head }
    ensures torn { torn_of transcript.new ≡ torn_of transcript.old }
    ensures transcript { name_of transcript.new ≡ name_of transcript.old }
    ensures declaration { option_map name_of result.1 ≡ option_map name_of declaration.entry }
{
    match declaration {
        Some(file) => {
            let mut file = file;
            let judged = Named::judge(alloc, words, transcript, &mut file, watch);
            (judged, Some(file))
        }
        None => (transcript.judge_alone(alloc, words, watch), None),
    }
}

/// Where the lines say that a file's header is refused, and it is of another kind, tells so on standard error.
fn hint_kinds<W: World>(world: &W, files: JudgeFiles<'_>, lines: &[u8]) {
    match files.declaration {
        Some(declaration) => world.hint_kind(&[files.transcript, declaration], lines),
        None => world.hint_kind(&[files.transcript], lines),
    }
}

/// Tests that no output is an input too, and that both are not one file.
fn test_outputs<W: World>(world: &W, files: JudgeFiles<'_>) -> Result<(), W::Refusal> {
    test_output(world, files, files.witness)?;
    test_output(world, files, files.used)?;
    match (files.witness, files.used) {
        (Some(one), Some(other)) => world.test_two(one, other),
        _ => Ok(()),
    }
}

/// Tests that an output is no input too, where it is asked for.
fn test_output<W: World>(
    world: &W,
    files: JudgeFiles<'_>,
    output: Option<&str>,
) -> Result<(), W::Refusal> {
    match files.declaration {
        Some(declaration) => test_left(world, output, &[files.transcript, declaration]),
        None => test_left(world, output, &[files.transcript]),
    }
}

/// Makes the files that are asked for, where a verdict is said and there is anything to make: both whole, or neither.
fn make_files<W: World>(
    world: &W,
    files: JudgeFiles<'_>,
    witness: &[u8],
    used: &[u8],
    status: Status,
) -> Result<(Option<W::Made>, Option<W::Made>), W::Refusal>
    ensures witness { IfOk result (λ made. IsLeftAsAsked W.made files.entry.witness witness.now status made.0) }
    ensures used { IfOk result (λ made. IsLeftAsAsked W.made files.entry.used used.now status made.1) }
{
    match (files.witness, files.used) {
        (Some(one), Some(other)) if are_left(status, witness, used) => {
            let one = Content {
                name: one,
                bytes: witness,
            };
            let other = Content {
                name: other,
                bytes: used,
            };
            let (one, other) = world.make_both(one, other)?;
            Ok((Some(one), Some(other)))
        }
        _ => Ok((
            make_file(world, files.witness, witness, status)?,
            make_file(world, files.used, used, status)?,
        )),
    }
}

/// Makes a file where it is asked for, a verdict is said and there is anything to make.
fn make_file<W: World>(
    world: &W,
    name: Option<&str>,
    bytes: &[u8],
    status: Status,
) -> Result<Option<W::Made>, W::Refusal>
    ensures { IfOk result (λ made. IsLeftAsAsked W.made name.entry bytes.now status made) }
{
    match name {
        Some(name) if is_left(status, bytes) => Ok(Some(world.make(Content { name, bytes })?)),
        _ => Ok(None),
    }
}

/// Whether a verdict is said, and there is anything to make of both files.
fn are_left(status: Status, witness: &[u8], used: &[u8]) -> bool
    ensures { result ≡ true → (is_verdict status ≡ true) × (witness.now ≢ []) × (used.now ≢ []) }
{
    is_left(status, witness) && is_left(status, used)
}

/// Whether a verdict is said, and there is anything to make.
fn is_left(status: Status, bytes: &[u8]) -> bool
    ensures some { result ≡ true → (is_verdict status ≡ true) × (bytes.now ≢ []) }
    ensures none { result ≡ false → (is_verdict status ≡ false) ⊎ (bytes.now ≡ []) }
{
    is_verdict(status) && !bytes.is_empty()
}
