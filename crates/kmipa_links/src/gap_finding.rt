//! How the gap between two segments is found by their heads.

ghost use Rattle.std.specs.Prelude.{◌≡◌, ◌+ℤ◌, pos, IfOk, IfSome, MatchOption, Option};
ghost use Rattle.std.specs.String.{string_bytes};
ghost use Rattle.kmipa_record.specs.Heads.{head_of, label_of};
ghost use Rattle.kmipa_links.specs.Links.{AreNext, GoesOnFrom, IsGapBetween, IsGapOfSeals, SealsOf};
ghost use Rattle.kmipa_links.specs.Linking.{HasSeals};

use crate::gap::Gap;
use kmipa_record::{Head, Label};
use std::alloc::{AllocError, Global};

/// The gap between a segment and the one behind it, by what both are known by.
pub fn gap_behind(
    alloc: Global,
    last: &Option<Head>,
    next: &Option<Head>,
) -> Result<Option<Gap>, AllocError>
    ensures { (one own : Option SealsOf) → HasSeals last.now one → HasSeals next.now own
        → IfOk result (λ gap. MatchOption gap (AreNext one own) (IsGapOfSeals one own)) }
{
    match (last, next) {
        (None, None) => Ok(None),
        (Some(last), Some(next)) => gap_between(alloc, last, &next.label),
        (Some(last), None) => Ok(Some(Gap::NoSeals(
            next_number(last),
            recording_of(alloc, &last.label)?,
        ))),
        (None, Some(_)) => Ok(Some(Gap::Seals)),
    }
}

/// Why a label doesn't go on from a head, where it doesn't.
fn gap_between(alloc: Global, last: &Head, next: &Label) -> Result<Option<Gap>, AllocError>
    ensures { IfOk result (λ gap. MatchOption gap
        (GoesOnFrom (label_of last.now.label) (head_of last.now) (label_of next.now))
        (IsGapBetween (label_of last.now.label) (head_of last.now) (label_of next.now))) }
{
    if next.recording.as_str() != last.label.recording.as_str() {
        return Ok(Some(Gap::Recording(
            recording_of(alloc, next)?,
            recording_of(alloc, &last.label)?,
        )));
    }
    let expected = next_number(last);
    if i64::from(next.segment) != expected {
        return Ok(Some(Gap::Segment(next.segment, expected)));
    }
    if next.previous != last.seal {
        return Ok(Some(Gap::Previous(next.previous, last.seal)));
    }
    Ok(None)
}

/// The number of the segment behind one.
fn next_number(last: &Head) -> i64
    ensures { result ≡ (label_of last.now.label).segment +ℤ pos 1 }
{
    i64::from(last.label.segment) + 1
}

fn recording_of(alloc: Global, label: &Label) -> Result<String, AllocError>
    ensures { IfOk result (λ text. string_bytes text ≡ (label_of label.now).recording) }
{
    String::from_str(alloc, label.recording.as_str())
}

/// The number of a segment in its recording; 0 of one without seals.
pub fn number_of(head: &Option<Head>) -> i32
    ensures { (own : Option SealsOf) → HasSeals head.now own → IfSome own (λ seals. seals.label.segment ≡ result) }
{
    match head {
        Some(head) => head.label.segment,
        None => 0,
    }
}
