//! The headers of a transcript and of a witness.

ghost use Rattle.std.specs.Prelude.{◌≡◌, ◌≢◌, ◌↔◌, Bool, IsTrue, IfOk, MatchOption};
ghost use Rattle.kmipa_ttlv.specs.ItemTree.{tree};
ghost use Rattle.kmipa_ttlv.specs.ViewTree.{view_tree};
ghost use Rattle.kmipa_record.specs.Heads.{label_of};
ghost use Rattle.kmipa_record.specs.Seals.{IsLabel, sealed_header};
ghost use Rattle.kmipa_record.specs.Transcripts.{transcript_header, IsHeader};
ghost use Rattle.kmipa_record.specs.Witnesses.{witness_header};
ghost use Rattle.kmipa_record.specs.declared.version.Version.{Version};

use crate::label::{Label, label_in};
use crate::record::Record;
use crate::shape::{children_of, integer_of};
use crate::tags::{TRANSCRIPT_HEADER, VERSION, WITNESS_HEADER};
use crate::version::{Version, version_of};
use kmipa_ttlv::{Item, Tag, View};
use std::alloc::{AllocError, Global};

/// The header of a transcript.
#[derive(Drop)]
pub struct TranscriptHeader {
    /// That of one that is sealed.
    pub label: Option<Label>,
}

impl Record for TranscriptHeader {
    ghost says = { λ item h. MatchOption h.label (item ≡ transcript_header) (λ label. (item ≡ sealed_header (label_of label)) × IsLabel (label_of label)) };

    ghost is_record = { IsHeader };

    fn of(alloc: Global, item: &View) -> Result<Option<TranscriptHeader>, AllocError> {
        if is_plain_header(item) {
            return Ok(Some(TranscriptHeader { label: None }));
        }
        match label_in(alloc, item)? {
            Some(label) => Ok(Some(TranscriptHeader { label: Some(label) })),
            None => Ok(None),
        }
    }
}

/// Whether an item is the header of a transcript without seals.
fn is_plain_header(item: &View) -> bool
    ensures { IsTrue result ↔ (view_tree item.now ≡ transcript_header) }
{
    plain_header_in(item).is_some()
}

/// The version of a transcript without seals, where the item is its header.
fn plain_header_in(item: &View) -> Option<i32>
    ensures { MatchOption result (view_tree item.now ≢ transcript_header)
        (λ _. view_tree item.now ≡ transcript_header) }
{
    let mut children = children_of(item, TRANSCRIPT_HEADER)?;
    let version = integer_of(&children.next()?, VERSION)?;
    if version != 1 || children.next().is_some() {
        return None;
    }
    Some(version)
}

/// The header of a witness.
#[derive(Drop)]
pub struct WitnessHeader {
    pub version: Version,
}

impl Record for WitnessHeader {
    ghost says = { λ item h. item ≡ witness_header h.version };

    ghost is_record = { λ item. (version : Version) × (item ≡ witness_header version) };

    fn of(_alloc: Global, item: &View) -> Result<Option<WitnessHeader>, AllocError> {
        Ok(witness_header_in(item))
    }
}

/// The header of a witness, where the item is one.
fn witness_header_in(item: &View) -> Option<WitnessHeader>
    ensures { MatchOption result (¬ ((version : Version) × (view_tree item.now ≡ witness_header version)))
        (λ h. view_tree item.now ≡ witness_header h.version) }
{
    let mut children = children_of(item, WITNESS_HEADER)?;
    let version = version_of(integer_of(&children.next()?, VERSION)?)?;
    if children.next().is_some() {
        return None;
    }
    Some(WitnessHeader { version })
}

/// The header of a witness of this version.
pub fn write_witness_header(alloc: Global, version: Version) -> Result<Item, AllocError>
    ensures { IfOk result (λ item. tree item ≡ witness_header version) }
{
    let mut children = Vec::with_capacity(alloc, 1)?;
    children.push(Item::integer(Tag { number: VERSION }, version.number()))?;
    Ok(Item::structure(
        Tag {
            number: WITNESS_HEADER,
        },
        children,
    ))
}

/// The header of a transcript.
pub fn write_transcript_header(alloc: Global) -> Result<Item, AllocError>
    ensures { IfOk result (λ item. tree item ≡ transcript_header) }
{
    let mut children = Vec::with_capacity(alloc, 1)?;
    children.push(Item::integer(Tag { number: VERSION }, 1))?;
    Ok(Item::structure(
        Tag {
            number: TRANSCRIPT_HEADER,
        },
        children,
    ))
}
