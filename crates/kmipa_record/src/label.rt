//! Labels: which recording a sealed transcript is of, and what it goes on from.

ghost use Rattle.std.specs.Prelude.{◌≡◌, ◌≢◌, IfOk, MatchOption};
ghost use Rattle.std.specs.String.{string_bytes};
ghost use Rattle.kmipa_ttlv.specs.ViewTree.{view_tree};
ghost use Rattle.kmipa_record.specs.Heads.{label_of};
ghost use Rattle.kmipa_record.specs.Seals.{LabelOf, IsLabel, sealed_header};

use crate::shape::{children_of, integer_of, seal_of, text_of};
use crate::tags::{PREVIOUS, RECORDING, SEGMENT, TRANSCRIPT_HEADER, VERSION};
use kmipa_ttlv::View;
use std::alloc::{AllocError, Global};

/// What stands ahead of the first segment in place of a seal.
const NO_SEAL: [u8; 32] = [0; 32];

/// What the header of a sealed transcript says.
#[derive(Drop)]
pub struct Label {
    /// The recording's name.
    pub recording: String,
    /// Which of its segments this is, counted from 1.
    pub segment: i32,
    /// The last seal of the segment before; zeros in the first.
    pub previous: [u8; 32],
}

/// The label in the header of a sealed transcript, where the item is one.
pub fn label_in(alloc: Global, item: &View) -> Result<Option<Label>, AllocError>
    ensures { IfOk result
        (λ o. MatchOption o ((label : LabelOf) → IsLabel label → view_tree item.now ≢ sealed_header label)
        (λ label. (view_tree item.now ≡ sealed_header (label_of label)) × IsLabel (label_of label))) }
{
    let Some(parts) = label_parts(item) else {
        return Ok(None);
    };
    let previous = parts.2;
    Ok(Some(Label {
        recording: String::from_str(alloc, parts.0)?,
        segment: parts.1,
        previous,
    }))
}

/// The recording, the segment and the seal before it in the header of a sealed transcript.
fn label_parts<'a>(item: &View<'a>) -> Option<(&'a str, i32, [u8; 32])>
    ensures { MatchOption result ((label : LabelOf) → IsLabel label → view_tree item.now ≢ sealed_header label)
        (λ parts. (view_tree item.now
        ≡ sealed_header (record { recording = parts.0.now; segment = parts.1; previous = parts.2 }))
        × IsLabel (record { recording = parts.0.now; segment = parts.1; previous = parts.2 })) }
{
    let mut children = children_of(item, TRANSCRIPT_HEADER)?;
    let version = integer_of(&children.next()?, VERSION)?;
    let recording = text_of(&children.next()?, RECORDING)?;
    let segment = integer_of(&children.next()?, SEGMENT)?;
    let previous = seal_of(&children.next()?, PREVIOUS)?;
    if version != 2 || children.next().is_some() {
        return None;
    }
    if segment < 1 || (segment == 1) != (previous == NO_SEAL) {
        return None;
    }
    Some((recording, segment, previous))
}
