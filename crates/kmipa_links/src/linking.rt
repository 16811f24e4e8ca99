//! A segment is read, and linked behind those before it.

ghost use Rattle.std.specs.Prelude.{◌≡◌, ℕ, List, [], map, IfErr, IfOk, MatchResult, IsTrue};
ghost use Rattle.kmipa_ttlv.specs.Input.{came_of, is_ended, is_failed, IsFileOf};
ghost use Rattle.kmipa_record.specs.Files.{Tells};
ghost use Rattle.kmipa_record.specs.Marks.{MarkOf, AreRecorded, begun, mark_of};
ghost use Rattle.kmipa_record.specs.TranscriptReading.{input_of, reference_of, HaveCome, IsKnownBy};
ghost use Rattle.kmipa_record.specs.Transcripts.{transcript_of, IsTranscript, TranscriptFault, IsTranscriptUpTo};
ghost use Rattle.kmipa_links.specs.Links.{SegmentOf};
ghost use Rattle.kmipa_links.specs.Linking.{EndsUnlinked, HasTaken, HaveLinked, IsTaken, IsUnlinked, LinksOn};
ghost use Rattle.kmipa_links.specs.declared.links.Links as declared;

use crate::gap::Unlinked;
use crate::links::Links;
use crate::numbers::Clash;
use kmipa_record::{Head, Mark, RecordFault, RecordKind, RecordedMarks, Transcript};
use kmipa_ttlv::Input;
use std::alloc::Global;
use std::io::Read;

/// What is told where memory runs out beside the reading.
const NO_MEMORY: RecordFault = RecordFault {
    offset: 0,
    kind: RecordKind::Memory,
};

/// Reads the transcript of a segment, of which nothing was read, and links it behind those so far. Of its marks only the call numbers are kept.
pub fn link_segment<R: Read>(
    alloc: Global,
    links: &mut Links,
    name: &str,
    transcript: &mut Input<R>,
) -> Result<(), Unlinked>
    requires { came_of transcript.old ≡ [] }
    // What came, to the end that was seen, is a segment that is linked behind those before it.
    ensures links { IfOk result (λ _. (marks : List MarkOf)
        × LinksOn links.old links.new name.now (came_of transcript.new) marks × IsTrue (is_ended transcript.new)) }
    // Else its first fault is told, or that it has this gap.
    ensures unlinked { (file : List ℕ) → IsFileOf file transcript.new
        → IfErr result (IsUnlinked links.old name.now (came_of transcript.new) (is_ended transcript.new)
        (is_failed transcript.new) file) }
{
    let mut source = RecordedMarks::new(alloc, transcript);
    let taken = pass_marks(&mut source, links);
    let head = source.take_head();
    let _ = source.into_input();
    match taken {
        Ok(clash) => end_segment(alloc, links, name, head, clash),
        Err(fault) => Err(Unlinked::Fault(fault)),
    }
}

/// Reads the transcript of a segment, of which nothing was read, links it behind those so far, and hands it out.
pub fn read_segment<R: Read>(
    alloc: Global,
    links: &mut Links,
    name: &str,
    transcript: &mut Input<R>,
) -> Result<Transcript, Unlinked>
    requires { came_of transcript.old ≡ [] }
    // What is read is what the bytes are that came, to the end that was seen.
    ensures found { IfOk result
        (λ read. IsTranscript (came_of transcript.new) (transcript_of read) × IsTrue (is_ended transcript.new)) }
    ensures recorded { IfOk result (λ read. AreRecorded (transcript_of read)) }
    ensures links { IfOk result (λ read.
        LinksOn links.old links.new name.now (came_of transcript.new) (transcript_of read)) }
    ensures unlinked { (file : List ℕ) → IsFileOf file transcript.new
        → IfErr result (IsUnlinked links.old name.now (came_of transcript.new) (is_ended transcript.new)
        (is_failed transcript.new) file) }
{
    let mut source = RecordedMarks::new(alloc, transcript);
    let mut marks = Vec::new(alloc);
    let taken = keep_marks(&mut source, links, &mut marks);
    let head = source.take_head();
    let _ = source.into_input();
    match taken {
        Ok(clash) => {
            end_segment(alloc, links, name, head, clash)?;
            Ok(Transcript { marks, head: None })
        }
        Err(fault) => Err(Unlinked::Fault(fault)),
    }
}

/// Takes the marks of a segment up to its end, and keeps none.
fn pass_marks<R: Read>(
    source: &mut RecordedMarks<'_, R>,
    links: &mut Links,
) -> Result<Option<Clash>, RecordFault>
    requires { HaveCome [] source.old }
    ensures taken { IfOk result (λ clash. (marks : List MarkOf) × IsTaken marks source.new clash links.old links.new) }
    ensures fault { (file : List ℕ) → IsFileOf file (input_of source.new)
        → IfErr result (Tells TranscriptFault IsTranscriptUpTo file (is_failed (input_of source.new))) }
    ensures same_reference { reference_of source.new ≡ reference_of source.old }
{
    let mut clash = None;
    'marks: while let Some(mark) = source.next()? {
        clash = match links.take(&mark, clash) {
            Ok(clash) => clash,
            Err(_) => return Err(NO_MEMORY),
        };
    }
    Ok(clash)
}

/// Takes the marks of a segment up to its end, and keeps them.
fn keep_marks<R: Read>(
    source: &mut RecordedMarks<'_, R>,
    links: &mut Links,
    marks: &mut Vec<Mark>,
) -> Result<Option<Clash>, RecordFault>
    requires come { HaveCome [] source.old }
    requires none { marks.old.items ≡ [] }
    ensures taken { IfOk result (λ clash. IsTaken (map mark_of marks.new.items) source.new clash links.old links.new) }
    ensures fault { (file : List ℕ) → IsFileOf file (input_of source.new)
        → IfErr result (Tells TranscriptFault IsTranscriptUpTo file (is_failed (input_of source.new))) }
    ensures same_reference { reference_of source.new ≡ reference_of source.old }
{
    let mut clash = None;
    'marks: while let Some(mark) = source.next()? {
        clash = match links.take(&mark, clash) {
            Ok(clash) => clash,
            Err(_) => return Err(NO_MEMORY),
        };
        if marks.push(mark).is_err() {
            return Err(NO_MEMORY);
        }
    }
    Ok(clash)
}

/// Links a segment of which all marks were taken, or says which gap it has.
fn end_segment(
    alloc: Global,
    links: &mut Links,
    name: &str,
    head: Option<Head>,
    clash: Option<Clash>,
) -> Result<(), Unlinked>
    ensures { (old : declared.Links) (bytes : List ℕ) (marks : List MarkOf) → IsTranscript bytes marks
        → IsKnownBy bytes marks head
        → ((before : List SegmentOf) → HaveLinked before old → HasTaken before (begun marks) clash links.old)
        → MatchResult result (λ _. LinksOn old links.new name.now bytes marks) (EndsUnlinked old name.now bytes) }
{
    match links.end(alloc, name, head, clash) {
        Ok(None) => Ok(()),
        Ok(Some(gap)) => Err(Unlinked::Gap(gap)),
        Err(_) => Err(Unlinked::Fault(NO_MEMORY)),
    }
}
