//! The marks of a transcript, one at a time, each tested.

ghost use Rattle.std.specs.Prelude.{◌≡◌, ◌≢◌, ◌<◌, ℕ, List, [], ◌∷◌, ◌++◌, false, None, Some, Err, IfOk, IfErr, IfSome, MatchOption, MatchResult, IsTrue};
ghost use Rattle.kmipa_ttlv.specs.Input.{came_of, taken_of, is_ended, is_failed, IsFileOf, StaysOver};
ghost use Rattle.kmipa_record.specs.Files.{Tells, TellsItem};
ghost use Rattle.kmipa_record.specs.Marks.{MarkOf, mark_of};
ghost use Rattle.kmipa_record.specs.MarkReading.{StandsNext};
ghost use Rattle.kmipa_record.specs.TranscriptReading.{input_of, reference_of, mark_place, reported_of, HaveCome, HaveEnded, IsKnownBy};
ghost use Rattle.kmipa_record.specs.Transcripts.{IsTranscript, TranscriptFault, IsTranscriptUpTo};

use crate::calls::Calls;
use crate::fault::{RecordFault, RecordKind};
use crate::head::Head;
use crate::marks::Marks;
use crate::transcript::Mark;
use kmipa_ttlv::Input;
use std::alloc::Global;
use std::io::Read;

/// The marks of a transcript, one at a time, each tested as one of a transcript: `Marks` with the numbers of calls.
///
/// It keeps where each call stands, and no mark.
///
/// # Faults
/// A fault stays: each later `next` answers it again.
#[derive(Drop)]
pub struct RecordedMarks<'a, R> {
    source: Marks<'a, R>,
    calls: Calls,
}

impl<'a, R: Read> RecordedMarks<'a, R> {
    /// The marks of a transcript of whose bytes none was read.
    pub fn new(alloc: Global, input: &'a mut Input<R>) -> RecordedMarks<'a, R>
        requires { came_of input.old ≡ [] }
        ensures come { HaveCome [] result }
        ensures input { input_of result ≡ input.old }
        ensures same_reference { reference_of result ≡ input.entry.ghost_name }
    {
        RecordedMarks {
            source: Marks::new(alloc, input),
            calls: Calls::new(alloc),
        }
    }

    /// The input below.
    pub fn into_input(self) -> &'a mut Input<R>
        ensures same_reference { result.ghost_name ≡ reference_of self.entry }
        ensures input { result.now ≡ input_of self.entry }
    {
        let RecordedMarks { source, .. } = self;
        source.into_input()
    }

    /// Takes out what the transcript is known by as far as it was read; `None` of one that bears no seals.
    pub fn take_head(&mut self) -> Option<Head>
        // Where all of it was read, it has no seals, or all of them are right up to this head.
        ensures known { (marks : List MarkOf) → HaveEnded marks self.old
            → IsKnownBy (came_of (input_of self.old)) marks result }
        ensures input { input_of self.new ≡ input_of self.old }
        ensures same_reference { reference_of self.new ≡ reference_of self.old }
    {
        self.source.take_head()
    }

    /// Where the mark that came last begins, counted in bytes from the transcript's first.
    pub fn place(&self) -> u64
        ensures { result ≡ mark_place self.now }
    {
        self.source.place()
    }

    /// The next mark; `None` at the end of the transcript.
    pub fn next(&mut self) -> Result<Option<Mark>, RecordFault>
        // The marks that come are those of a transcript so far, and once there is no more, of the transcript.
        ensures come { (marks : List MarkOf) → HaveCome marks self.old
            → IfOk result
            (λ next. MatchOption next
            (IsTranscript (came_of (input_of self.new)) marks × IsTrue (is_ended (input_of self.new)))
            (λ mark. HaveCome (marks ++ mark_of mark ∷ []) self.new)) }
        ensures ended { (marks : List MarkOf) → HaveCome marks self.old
            → IfOk result (λ next. next ≡ None → HaveEnded marks self.new) }
        // A mark stands after those, at the place that is then reported.
        ensures placed { (marks : List MarkOf) → HaveCome marks self.old
            → IfOk result
            (λ next. IfSome next (λ mark. StandsNext marks (mark_of mark) (mark_place self.new) (input_of self.new))) }
        ensures nearer { IfOk result
            (λ next. IfSome next (λ mark. taken_of (input_of self.old) < taken_of (input_of self.new))) }
        // A fault is the transcript's first, whatever follows what came, unless a read failed or memory ran out.
        ensures fault { (marks : List MarkOf) (file : List ℕ) → HaveCome marks self.old
            → IsFileOf file (input_of self.new)
            → IfErr result (Tells TranscriptFault IsTranscriptUpTo file (is_failed (input_of self.new))) }
        // Device and Memory are reported where the item begins that was being read.
        ensures place { (marks : List MarkOf) → HaveCome marks self.old
            → IfErr result (TellsItem (came_of (input_of self.new))) }
        ensures sound { reported_of self.old ≡ None
            → MatchResult result (λ _. is_failed (input_of self.new) ≡ false)
            (λ f. f.kind ≢ RecordKind.Device → is_failed (input_of self.new) ≡ false) }
        // It is reported again.
        ensures reported { MatchResult result (λ _. reported_of self.new ≡ None) (λ f. reported_of self.new ≡ Some f) }
        ensures again { (f : RecordFault) → reported_of self.old ≡ Some f → (result ≡ Err f)
            × (input_of self.new ≡ input_of self.old) }
        ensures same_reference { reference_of self.new ≡ reference_of self.old }
        // Over a reader whose bytes are known what came is their front.
        ensures over { StaysOver R.remaining (input_of self.old) (input_of self.new) }
    {
        let Some(mark) = self.source.next()? else {
            return Ok(None);
        };
        match self.calls.take(&mark) {
            Ok(()) => Ok(Some(mark)),
            Err(kind) => Err(self.source.refuse(kind)),
        }
    }
}
