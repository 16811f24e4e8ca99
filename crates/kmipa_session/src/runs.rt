//! The runs over inputs, each of which answers what it says, and the bytes of what it makes.

ghost use Rattle.std.specs.Prelude.{◌≡◌, []};
ghost use Rattle.kmipa_ttlv.specs.Input.{came_of, is_failed};
ghost use Rattle.kmipa_runs.specs.Inputs.{Writes};
ghost use Rattle.kmipa_runs.specs.Knowing.{KnowsSeals};
ghost use Rattle.kmipa_beside.specs.Checks.{ChecksAny};
ghost use Rattle.kmipa_session.specs.Checks.{ChecksExplained, ChecksExplainedInJson, ChecksInJson, ChecksInSegment};
ghost use Rattle.kmipa_session.specs.Searches.{SearchesExplained, SearchesInJson, SearchesInLines, SearchesInSegment};

use crate::did::Said;
use crate::ran::Ran;
use kmipa_beside::check_any_run;
use kmipa_jobs::SearchWords;
use kmipa_judge::{CheckForm, check_told_run, search_any_run};
use kmipa_orders::Watch;
use kmipa_runs::write_run;
use kmipa_searches::{FoundOutput, JsonSearch, SearchOptions, explain_search_run, search_json};
use kmipa_segments::{
    CheckOutput, SearchAsked, SearchOutput, SegmentAsked, search_segment_run, segment_run,
};
use kmipa_ttlv::Input;
use std::alloc::Global;
use std::io::Read;

/// Checks three inputs, whatever their declaration sets aside, and tells it in lines.
pub fn check_lines<R: Read>(
    alloc: Global,
    transcript: &mut Input<R>,
    declaration: &mut Input<R>,
    witness: &mut Input<R>,
) -> Ran
    requires transcript { came_of transcript.old ≡ [] }
    requires declaration { came_of declaration.old ≡ [] }
    requires witness { came_of witness.old ≡ [] }
    ensures told { ChecksAny transcript.new declaration.new witness.new result.status result.lines.items }
    ensures known { KnowsSeals (came_of transcript.new) result.status result.head }
{
    let mut lines = Vec::new(alloc);
    let answered = check_any_run(alloc, transcript, declaration, witness, &mut lines);
    Ran {
        status: answered.status,
        lines,
        head: answered.head,
    }
}

/// And what a no or a fault means.
pub fn check_explained<R: Read>(
    alloc: Global,
    transcript: &mut Input<R>,
    declaration: &mut Input<R>,
    witness: &mut Input<R>,
) -> Ran
    requires transcript { came_of transcript.old ≡ [] }
    requires declaration { came_of declaration.old ≡ [] }
    requires witness { came_of witness.old ≡ [] }
    ensures told { ChecksExplained transcript.new declaration.new witness.new result.status result.lines.items }
    ensures known { KnowsSeals (came_of transcript.new) result.status result.head }
{
    let mut lines = Vec::new(alloc);
    let form = CheckForm::Explained;
    let answered = check_told_run(alloc, form, transcript, declaration, witness, &mut lines);
    Ran {
        status: answered.status,
        lines,
        head: answered.head,
    }
}

/// Checks three inputs, and tells it in one object; of a torn transcript so many bytes are its own.
pub fn check_object<R: Read>(
    alloc: Global,
    torn: Option<u64>,
    transcript: &mut Input<R>,
    declaration: &mut Input<R>,
    witness: &mut Input<R>,
) -> Ran
    requires transcript { came_of transcript.old ≡ [] }
    requires declaration { came_of declaration.old ≡ [] }
    requires witness { came_of witness.old ≡ [] }
    ensures told { ChecksInJson torn transcript.new declaration.new witness.new result.status result.lines.items }
    ensures known { KnowsSeals (came_of transcript.new) result.status result.head }
{
    let mut lines = Vec::new(alloc);
    let form = CheckForm::Json(torn);
    let answered = check_told_run(alloc, form, transcript, declaration, witness, &mut lines);
    Ran {
        status: answered.status,
        lines,
        head: answered.head,
    }
}

/// And with it what a no or a fault means.
pub fn check_explained_object<R: Read>(
    alloc: Global,
    torn: Option<u64>,
    transcript: &mut Input<R>,
    declaration: &mut Input<R>,
    witness: &mut Input<R>,
) -> Ran
    requires transcript { came_of transcript.old ≡ [] }
    requires declaration { came_of declaration.old ≡ [] }
    requires witness { came_of witness.old ≡ [] }
    ensures told { ChecksExplainedInJson torn transcript.new declaration.new witness.new result.status result.lines.items }
    ensures known { KnowsSeals (came_of transcript.new) result.status result.head }
{
    let mut lines = Vec::new(alloc);
    let form = CheckForm::ExplainedJson(torn);
    let answered = check_told_run(alloc, form, transcript, declaration, witness, &mut lines);
    Ran {
        status: answered.status,
        lines,
        head: answered.head,
    }
}

/// Checks three inputs of a segment, from a moment on where one is given. Behind what is said stand, where they are asked for, the bytes of the
/// declaration that it leaves.
pub fn check_left<R: Read>(
    alloc: Global,
    transcript: &mut Input<R>,
    declaration: &mut Input<R>,
    witness: &mut Input<R>,
    asked: SegmentAsked,
) -> (Ran, Vec<u8>)
    requires transcript { came_of transcript.old ≡ [] }
    requires declaration { came_of declaration.old ≡ [] }
    requires witness { came_of witness.old ≡ [] }
    ensures told { ChecksInSegment asked.leaves asked.since transcript.new declaration.new witness.new result.0.status
        result.0.lines.items result.1.items }
    ensures known { KnowsSeals (came_of transcript.new) result.0.status result.0.head }
{
    let lines = Vec::new(alloc);
    let left = Vec::new(alloc);
    let mut out = CheckOutput { lines, left };
    let answered = segment_run(alloc, transcript, declaration, witness, asked, &mut out);
    let CheckOutput { lines, left } = out;
    let ran = Ran {
        status: answered.status,
        lines,
        head: answered.head,
    };
    (ran, left)
}

/// Looks for a witness of two inputs, and tells it in lines. Behind what is said stand the bytes of the witness.
pub fn search_lines<R: Read, W: Watch>(
    alloc: Global,
    words: SearchWords,
    transcript: &mut Input<R>,
    declaration: &mut Input<R>,
    watch: &mut W,
) -> (Ran, Vec<u8>)
    requires transcript { came_of transcript.old ≡ [] }
    requires declaration { came_of declaration.old ≡ [] }
    ensures told { SearchesInLines (W.seconds watch.old) words transcript.new declaration.new result.0.status result.0.lines.items result.1.items }
    ensures known { KnowsSeals (came_of transcript.new) result.0.status result.0.head }
{
    let run = search_any_run(alloc, transcript, declaration, words, watch);
    let ran = Ran {
        status: run.status,
        lines: run.lines,
        head: run.head,
    };
    (ran, run.witness)
}

/// And what a giving up means.
pub fn search_explained<R: Read, W: Watch>(
    alloc: Global,
    words: SearchWords,
    transcript: &mut Input<R>,
    declaration: &mut Input<R>,
    watch: &mut W,
) -> (Ran, Vec<u8>)
    requires transcript { came_of transcript.old ≡ [] }
    requires declaration { came_of declaration.old ≡ [] }
    ensures told { SearchesExplained (W.seconds watch.old) words transcript.new declaration.new result.0.status result.0.lines.items
        result.1.items }
    ensures known { KnowsSeals (came_of transcript.new) result.0.status result.0.head }
{
    let asked = SearchOptions {
        budget: words.budget,
        forced: words.forced,
        open: words.open,
    };
    let lines = Vec::new(alloc);
    let made = Vec::new(alloc);
    let mut out = FoundOutput { lines, made };
    let answered = explain_search_run(alloc, transcript, declaration, asked, watch, &mut out);
    let FoundOutput { lines, made } = out;
    let ran = Ran {
        status: answered.status,
        lines,
        head: answered.head,
    };
    (ran, made)
}

/// Looks for a witness of two inputs, and tells it in one object, with what a giving up means.
pub fn search_object<R: Read, W: Watch>(
    alloc: Global,
    words: SearchWords,
    torn: Option<u64>,
    transcript: &mut Input<R>,
    declaration: &mut Input<R>,
    watch: &mut W,
) -> (Ran, Vec<u8>)
    requires transcript { came_of transcript.old ≡ [] }
    requires declaration { came_of declaration.old ≡ [] }
    ensures told { SearchesInJson (W.seconds watch.old) words torn transcript.new declaration.new
        result.0.status result.0.lines.items result.1.items }
    ensures known { KnowsSeals (came_of transcript.new) result.0.status result.0.head }
{
    let search = SearchOptions {
        budget: words.budget,
        forced: words.forced,
        open: words.open,
    };
    let asked = JsonSearch { torn, search };
    let lines = Vec::new(alloc);
    let made = Vec::new(alloc);
    let mut out = FoundOutput { lines, made };
    let answered = search_json(alloc, transcript, declaration, asked, watch, &mut out);
    let FoundOutput { lines, made } = out;
    let ran = Ran {
        status: answered.status,
        lines,
        head: answered.head,
    };
    (ran, made)
}

/// Looks for a witness of two inputs of a segment, from a moment on where one is given. Behind what is said stand the bytes of the witness, and,
/// where they are asked for, those of the declaration that it leaves.
pub fn search_left<R: Read, W: Watch>(
    alloc: Global,
    words: SearchWords,
    transcript: &mut Input<R>,
    declaration: &mut Input<R>,
    asked: SegmentAsked,
    watch: &mut W,
) -> (Ran, Vec<u8>, Vec<u8>)
    requires transcript { came_of transcript.old ≡ [] }
    requires declaration { came_of declaration.old ≡ [] }
    ensures told { SearchesInSegment (W.seconds watch.old) words asked.leaves asked.since transcript.new declaration.new
        result.0.status result.0.lines.items result.1.items result.2.items }
    ensures known { KnowsSeals (came_of transcript.new) result.0.status result.0.head }
{
    let search = SearchOptions {
        budget: words.budget,
        forced: words.forced,
        open: words.open,
    };
    let asked = SearchAsked {
        search,
        segment: asked,
    };
    let lines = Vec::new(alloc);
    let made = Vec::new(alloc);
    let left = Vec::new(alloc);
    let mut out = SearchOutput { lines, made, left };
    let answered = search_segment_run(alloc, transcript, declaration, asked, watch, &mut out);
    let SearchOutput { lines, made, left } = out;
    let ran = Ran {
        status: answered.status,
        lines,
        head: answered.head,
    };
    (ran, made, left)
}

/// Makes items of the digits of an input. Behind what is said stand their bytes.
pub fn write_items<R: Read>(alloc: Global, input: &mut Input<R>) -> (Said, Vec<u8>)
    requires { came_of input.old ≡ [] }
    ensures { Writes (came_of input.new) (is_failed input.new) result.0.status result.0.lines.items result.1.items }
{
    let mut lines = Vec::new(alloc);
    let mut made = Vec::new(alloc);
    let status = write_run(alloc, input, &mut lines, &mut made);
    (Said { status, lines }, made)
}
