//! The lines of gaps, and of the seals of a whole chain.

ghost use Rattle.std.specs.Prelude.{◌≡◌, IfOk, List, string_bytes};
ghost use Rattle.hex.specs.Hex.{encode_lower};
ghost use Rattle.kmipa_record.specs.Heads.{head_of, label_of};
ghost use Rattle.kmipa_links.specs.Links.{SegmentOf, first_seals, last_seals};
ghost use Rattle.kmipa_links.specs.Linking.{HaveLinked};
ghost use Rattle.kmipa_segments.specs.Gaps.{PrintsGap, gap_text, head_text, sealed_text, span_text};

use kmipa_jobs::Status;
use kmipa_links::{Gap, Links};
use kmipa_record::Head;
use kmipa_runs::{Lines, escaped_text};
use std::alloc::{AllocError, Global};

/// The line of a gap.
pub fn gap_lines(alloc: Global, name: &str, gap: &Gap) -> Result<Lines, AllocError>
    ensures { IfOk result (λ lines. PrintsGap name.now gap.now lines.status (string_bytes lines.text)) }
{
    Ok(Lines {
        text: gap_text(alloc, name, gap)?,
        status: Status::Refused,
    })
}

fn gap_text(alloc: Global, name: &str, gap: &Gap) -> Result<String, AllocError>
    ensures { IfOk result (λ text. string_bytes text ≡ gap_text name.now gap.now) }
{
    match gap {
        Gap::Call(call, other) => {
            format!(in alloc; "gap: {name} call {call} stands in {other} too\n")
        }
        Gap::Recording(told, expected) => {
            let told = escaped_text(alloc, told.as_str())?;
            let expected = escaped_text(alloc, expected.as_str())?;
            format!(in alloc; "gap: {name} recording {told}, expected {expected}\n")
        }
        Gap::Segment(told, expected) => {
            format!(in alloc; "gap: {name} segment {told}, expected {expected}\n")
        }
        Gap::Previous(told, expected) => {
            let told = seal_text(alloc, told)?;
            let expected = seal_text(alloc, expected)?;
            format!(in alloc; "gap: {name} previous {told}, expected {expected}\n")
        }
        Gap::NoSeals(segment, recording) => {
            let recording = escaped_text(alloc, recording.as_str())?;
            format!(in alloc;
                "gap: {name} has no seals, expected segment {segment} of {recording}\n"
            )
        }
        Gap::Seals => format!(in alloc; "gap: {name} has seals, expected none\n"),
    }
}

/// The line of the seals of segments that were linked; nothing where they bear none.
pub fn sealed_line(alloc: Global, links: &Links) -> Result<String, AllocError>
    ensures { (segments : List SegmentOf) → HaveLinked segments links.now
        → IfOk result (λ text. string_bytes text ≡ sealed_text (first_seals segments) (last_seals segments)) }
{
    match links.last() {
        Some(head) => head_line(alloc, links.first(), head),
        None => Ok(String::new(alloc)),
    }
}

/// The line of a head, behind segments from a first one on.
fn head_line(alloc: Global, first: i32, head: &Head) -> Result<String, AllocError>
    ensures { IfOk result (λ text.
        string_bytes text ≡ head_text first (label_of head.now.label) (head_of head.now)) }
{
    let recording = escaped_text(alloc, head.label.recording.as_str())?;
    let span = span_text(alloc, first, head.label.segment)?;
    let seal = seal_text(alloc, &head.seal)?;
    format!(in alloc; "sealed: {recording} {span} head {seal}\n")
}

/// Which segments they are.
fn span_text(alloc: Global, first: i32, last: i32) -> Result<String, AllocError>
    ensures { IfOk result (λ text. string_bytes text ≡ span_text first last) }
{
    if first == last {
        return format!(in alloc; "segment {first}");
    }
    format!(in alloc; "segments {first} to {last}")
}

/// The digits of a seal.
fn seal_text(alloc: Global, seal: &[u8; 32]) -> Result<String, AllocError>
    ensures { IfOk result (λ text. string_bytes text ≡ encode_lower seal.now) }
{
    hex::encode(alloc, seal.as_slice())
}
