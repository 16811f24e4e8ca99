//! The next mark of a transcript, read from an input.

ghost use Rattle.std.specs.Prelude.{◌≡◌, ◌<◌, ◌≤◌, ◌≢◌, ℕ, List, true, false, IfOk, IfErr, IfSome, None, OnOk, MatchOption, MatchResult, vec_len};
ghost use Rattle.std.specs.Io.{StartsWith};
ghost use Rattle.kmipa_ttlv.specs.Input.{came_of, taken_of, is_failed, IsFileOf, StaysOver};
ghost use Rattle.kmipa_record.specs.Files.{Tells, TellsItem};
ghost use Rattle.kmipa_record.specs.Heads.{head_of};
ghost use Rattle.kmipa_record.specs.Marks.{MarkOf};
ghost use Rattle.kmipa_record.specs.Seals.{head_at};
ghost use Rattle.kmipa_record.specs.MarkReading.{AreGivenOf, AreRead, GivesPlaced, FaultBehind, IsRightBehind};
ghost use Rattle.kmipa_record.specs.Transcripts.{plain_items};

use crate::fault::{RecordFault, RecordKind};
use crate::head::Head;
use crate::header::TranscriptHeader;
use crate::record::{Next, read_header, read_next};
use crate::sealed_reading::next_sealed;
use crate::transcript::Mark;
use kmipa_ttlv::Input;
use std::alloc::Global;
use std::io::Read;

/// A mark, and the place where its item begins.
#[derive(Drop)]
pub struct PlacedMark {
    pub place: u64,
    pub mark: Mark,
}

/// Reads the next mark, and the header before it unless that was read.
pub fn read_on<R: Read>(
    alloc: Global,
    input: &mut Input<R>,
    bytes: &mut Vec<u8>,
    head: &mut Option<Head>,
    begun: bool,
) -> Result<Option<PlacedMark>, RecordFault>
    requires { vec_len bytes.old ≤ 0x10_0000 }
    ensures given { (marks : List MarkOf) → AreGivenOf begun head.old marks input.old
        → IfOk result (GivesPlaced marks head.new input.new) }
    ensures fault { (marks : List MarkOf) (file : List ℕ) → AreGivenOf begun head.old marks input.old
        → IsFileOf file input.new
        → IfErr result (Tells (FaultBehind marks) (IsRightBehind marks) file (is_failed input.new)) }
    ensures place { IfErr result (TellsItem (came_of input.new)) }
    ensures sound { MatchResult result (λ _. is_failed input.new ≡ false)
        (λ f. f.kind ≢ RecordKind.Device → is_failed input.new ≡ false) }
    ensures bounded { vec_len bytes.new ≤ 0x10_0000 }
    ensures nearer { IfOk result (λ next. IfSome next (λ given. taken_of input.old < taken_of input.new)) }
    ensures grows { StartsWith (came_of input.new) (came_of input.old) }
    ensures over { StaysOver R.remaining input.old input.new }
{
    read_start(alloc, input, bytes, head, begun)?;
    match head {
        None => next_mark(alloc, input, bytes),
        Some(head) => next_sealed(alloc, input, bytes, head),
    }
}

/// Reads the header of a transcript, unless it was read.
fn read_start<R: Read>(
    alloc: Global,
    input: &mut Input<R>,
    bytes: &mut Vec<u8>,
    head: &mut Option<Head>,
    begun: bool,
) -> Result<(), RecordFault>
    requires { vec_len bytes.old ≤ 0x10_0000 }
    ensures given { (marks : List MarkOf) → AreGivenOf begun head.old marks input.old
        → OnOk result (AreGivenOf true head.new marks input.new) }
    ensures fault { (marks : List MarkOf) (file : List ℕ) → AreGivenOf begun head.old marks input.old
        → IsFileOf file input.new
        → IfErr result (Tells (FaultBehind marks) (IsRightBehind marks) file (is_failed input.new)) }
    ensures place { IfErr result (TellsItem (came_of input.new)) }
    ensures sound { IfErr result (λ f. f.kind ≢ RecordKind.Device → is_failed input.new ≡ false) }
    ensures bounded { vec_len bytes.new ≤ 0x10_0000 }
    ensures grows { StartsWith (came_of input.new) (came_of input.old) }
    ensures over { StaysOver R.remaining input.old input.new }
{
    if begun {
        return Ok(());
    }
    let header: TranscriptHeader = read_header(alloc, input, bytes)?;
    *head = head_behind(header, bytes);
    Ok(())
}

/// What a transcript is known by behind a header of these bytes, if it is sealed.
pub(crate) fn head_behind(header: TranscriptHeader, bytes: &[u8]) -> Option<Head>
    ensures { MatchOption header.label (result ≡ None)
        (λ label. MatchOption result ⊥ (λ head. (head_of head ≡ head_at bytes.now) × (head.label ≡ label))) }
{
    match header.label {
        Some(label) => Some(Head::new(label, bytes)),
        None => None,
    }
}

/// Reads the next mark of a transcript without seals.
fn next_mark<R: Read>(
    alloc: Global,
    input: &mut Input<R>,
    bytes: &mut Vec<u8>,
) -> Result<Option<PlacedMark>, RecordFault>
    ensures given { (marks : List MarkOf) → AreRead (plain_items marks) input.old
        → IfOk result (GivesPlaced marks None input.new) }
    ensures fault { (marks : List MarkOf) (file : List ℕ) → AreRead (plain_items marks) input.old
        → IsFileOf file input.new
        → IfErr result (Tells (FaultBehind marks) (IsRightBehind marks) file (is_failed input.new)) }
    ensures place { IfErr result (TellsItem (came_of input.new)) }
    ensures sound { MatchResult result (λ _. is_failed input.new ≡ false)
        (λ f. f.kind ≢ RecordKind.Device → is_failed input.new ≡ false) }
    ensures bounded { vec_len bytes.new ≤ 0x10_0000 }
    ensures nearer { IfOk result (λ next. IfSome next (λ given. taken_of input.old < taken_of input.new)) }
    ensures grows { StartsWith (came_of input.new) (came_of input.old) }
    ensures over { StaysOver R.remaining input.old input.new }
{
    let offset = input.taken();
    let next: Next<Mark> = read_next(alloc, input, bytes)?;
    match next {
        Next::Record(mark) => Ok(Some(PlacedMark {
            place: offset,
            mark,
        })),
        Next::End => Ok(None),
        Next::Other => Err(RecordFault {
            offset,
            kind: RecordKind::Entry,
        }),
    }
}
