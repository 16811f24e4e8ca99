//! The next mark of a sealed transcript, read from an input.

ghost use Rattle.std.specs.Prelude.{◌≡◌, ◌<◌, ◌≤◌, ◌≢◌, ℕ, List, true, false, Some, IfOk, IfErr, IfSome, MatchResult, vec_len};
ghost use Rattle.std.specs.Io.{StartsWith};
ghost use Rattle.kmipa_ttlv.specs.Input.{came_of, taken_of, is_failed, IsFileOf, StaysOver};
ghost use Rattle.kmipa_record.specs.Files.{Tells, TellsItem};
ghost use Rattle.kmipa_record.specs.Marks.{MarkOf};
ghost use Rattle.kmipa_record.specs.MarkReading.{IsRun, GivesPlaced, GivesStep, IsMore, step_at, FaultBehind, IsRightBehind};

use crate::fault::{RecordFault, RecordKind};
use crate::head::Head;
use crate::mark_reading::PlacedMark;
use crate::record::{Next, read_next};
use crate::sealed_record::{Content, SealedRecord};
use kmipa_ttlv::Input;
use std::alloc::Global;
use std::io::Read;

/// What comes next of a sealed transcript.
#[derive(Drop)]
pub enum Step {
    /// Nothing.
    End,
    /// A record that is no mark.
    Passed,
    Given(PlacedMark),
}

/// Reads records up to the next mark.
pub fn next_sealed<R: Read>(
    alloc: Global,
    input: &mut Input<R>,
    bytes: &mut Vec<u8>,
    head: &mut Head,
) -> Result<Option<PlacedMark>, RecordFault>
    requires { vec_len bytes.old ≤ 0x10_0000 }
    ensures given { (marks : List MarkOf) → IsRun head.old marks input.old
        → IfOk result (GivesPlaced marks (Some head.new) input.new) }
    ensures fault { (marks : List MarkOf) (file : List ℕ) → IsRun head.old marks input.old → IsFileOf file input.new
        → IfErr result (Tells (FaultBehind marks) (IsRightBehind marks) file (is_failed input.new)) }
    ensures place { IfErr result (TellsItem (came_of input.new)) }
    ensures sound { MatchResult result (λ _. is_failed input.new ≡ false)
        (λ f. f.kind ≢ RecordKind.Device → is_failed input.new ≡ false) }
    ensures bounded { vec_len bytes.new ≤ 0x10_0000 }
    ensures nearer { IfOk result (λ next. IfSome next (λ given. taken_of input.old < taken_of input.new)) }
    ensures grows { StartsWith (came_of input.new) (came_of input.old) }
    ensures over { StaysOver R.remaining input.old input.new }
{
    'records: loop {
        match next_step(alloc, input, bytes, head)? {
            Step::Given(given) => return Ok(Some(given)),
            Step::End => return Ok(None),
            Step::Passed => {}
        }
    }
}

/// Reads the next record.
fn next_step<R: Read>(
    alloc: Global,
    input: &mut Input<R>,
    bytes: &mut Vec<u8>,
    head: &mut Head,
) -> Result<Step, RecordFault>
    requires { vec_len bytes.old ≤ 0x10_0000 }
    ensures given { (marks : List MarkOf) → IsRun head.old marks input.old
        → IfOk result (GivesStep marks head.new input.new) }
    ensures fault { (marks : List MarkOf) (file : List ℕ) → IsRun head.old marks input.old → IsFileOf file input.new
        → IfErr result (Tells (FaultBehind marks) (IsRightBehind marks) file (is_failed input.new)) }
    ensures place { IfErr result (TellsItem (came_of input.new)) }
    ensures sound { MatchResult result (λ _. is_failed input.new ≡ false)
        (λ f. f.kind ≢ RecordKind.Device → is_failed input.new ≡ false) }
    ensures bounded { vec_len bytes.new ≤ 0x10_0000 }
    ensures nearer { IfOk result (λ step. IsMore step → taken_of input.old < taken_of input.new) }
    ensures grows { StartsWith (came_of input.new) (came_of input.old) }
    ensures over { StaysOver R.remaining input.old input.new }
{
    let offset = input.taken();
    let next: Next<SealedRecord> = read_next(alloc, input, bytes)?;
    let record = match next {
        Next::Record(record) => record,
        Next::End => {
            if head.closed {
                return Ok(Step::End);
            }
            return Err(RecordFault {
                offset,
                kind: RecordKind::NoClose,
            });
        }
        Next::Other => {
            return Err(RecordFault {
                offset,
                kind: RecordKind::Entry,
            });
        }
    };
    match head.take(bytes, &record) {
        Ok(()) => Ok(step_of(offset, record.content)),
        Err(kind) => Err(RecordFault { offset, kind }),
    }
}

/// What a record that was read at this place gives.
fn step_of(place: u64, content: Content) -> Step
    ensures { result ≡ step_at place content }
{
    match content {
        Content::Mark(mark) => Step::Given(PlacedMark { place, mark }),
        Content::Note(_) | Content::Close(_) => Step::Passed,
    }
}
