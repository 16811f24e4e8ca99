//! Links: what is kept of the segments so far.

use crate::gap::Gap;
use crate::gap_finding::{gap_behind, number_of};
use crate::numbers::{Clash, take_number};
use kmipa_record::{Head, Mark, NumberMap};
use std::alloc::{AllocError, Global};

/// What is kept of segments that were linked, one behind the other: their names, their call numbers, and what the next one goes on from.
#[derive(Drop)]
pub struct Links {
    names: Vec<String>,
    // In which segment each call stands, by its place.
    calls: NumberMap<usize>,
    // What the last of them is known by, if they bear seals.
    last: Option<Head>,
    // The number of the first of them in its recording, if they bear seals.
    first: i32,
}

impl Links {
    ghost use Rattle.std.specs.Prelude.{◌≡◌, ◌≢◌, ◌∷◌, ◌++◌, List, [], Option, None, Some, IfOk, IfSome, OnOk, MatchOption, option_map};
    ghost use Rattle.kmipa_record.specs.Marks.{MarkOf, AreRecorded, begun, mark_of};
    ghost use Rattle.kmipa_links.specs.Links.{SegmentOf, SealsOf, IsGap, IsGapOfSeals, IsSegment, first_seals, last_seals};
    ghost use Rattle.kmipa_links.specs.Linking.{HasSeals, HasTaken, HaveLinked, KnowsEnds, MayFollow};

    /// No segments.
    pub fn new(alloc: Global) -> Links
        ensures { HaveLinked [] result }
    {
        Links {
            names: Vec::new(alloc),
            calls: NumberMap::new(alloc),
            last: None,
            first: 0,
        }
    }

    /// What the last of the segments is known by, where they bear seals.
    pub fn last(&self) -> Option<&Head>
        ensures { (segments : List SegmentOf) → HaveLinked segments self.now
            → HasSeals (option_map (λ head. head.now) result) (last_seals segments) }
    {
        self.last.as_ref()
    }

    /// The number of the first of the segments in its recording, where they bear seals.
    pub fn first(&self) -> i32
        ensures { (segments : List SegmentOf) → HaveLinked segments self.now
            → IfSome (first_seals segments) (λ seals. seals.label.segment ≡ result) }
    {
        self.first
    }

    /// Takes the next mark of the segment behind those so far.
    pub(crate) fn take(
        &mut self,
        mark: &Mark,
        clash: Option<Clash>,
    ) -> Result<Option<Clash>, AllocError>
        ensures { (before : List SegmentOf) (marks : List MarkOf) → HasTaken before (begun marks) clash self.old
            → AreRecorded (marks ++ mark_of mark.now ∷ [])
            → IfOk result (λ next. HasTaken before (begun (marks ++ mark_of mark.now ∷ [])) next self.new) }
    {
        match mark {
            Mark::Begin(begin) => {
                let place = self.names.len();
                take_number(&mut self.calls, begin.call, place, clash)
            }
            Mark::End(_) => Ok(clash),
        }
    }

    /// Takes the end of the segment behind those so far, or says which gap it has.
    pub(crate) fn end(
        &mut self,
        alloc: Global,
        name: &str,
        head: Option<Head>,
        clash: Option<Clash>,
    ) -> Result<Option<Gap>, AllocError>
        ensures { (before : List SegmentOf) (segment : SegmentOf) → HasTaken before (begun segment.marks) clash self.old
            → IsSegment segment → segment.name ≡ name.now → HasSeals head segment.seals
            → IfOk result (λ gap. MatchOption gap (HaveLinked (before ++ (segment ∷ [])) self.new)
            (IsGap before segment)) }
    {
        if let Some(gap) = self.gap_of_seals(alloc, &head)? {
            return Ok(Some(gap));
        }
        if let Some(clash) = clash {
            return Ok(Some(self.gap_of_call(alloc, clash)?));
        }
        self.push(alloc, name, head)?;
        Ok(None)
    }

    /// The gap of a segment by its seals and those before it.
    fn gap_of_seals(&self, alloc: Global, head: &Option<Head>) -> Result<Option<Gap>, AllocError>
        ensures { (before : List SegmentOf) (own : Option SealsOf) → KnowsEnds before self.now → HasSeals head.now own
            → IfOk result (λ gap. MatchOption gap (MayFollow before own)
            (λ gap. (before ≢ []) × IsGapOfSeals (last_seals before) own gap)) }
    {
        if self.names.is_empty() {
            return Ok(None);
        }
        gap_behind(alloc, &self.last, head)
    }

    /// The gap of a segment by a call that stands in one before it too.
    fn gap_of_call(&self, alloc: Global, clash: Clash) -> Result<Gap, AllocError>
        ensures { (before : List SegmentOf) (segment : SegmentOf)
            → HasTaken before (begun segment.marks) (Some clash) self.now → IfOk result (IsGap before segment) }
    {
        let name = match self.names.get(clash.place) {
            Some(name) => name.as_str(),
            None => "",
        };
        Ok(Gap::Call(clash.call, String::from_str(alloc, name)?))
    }

    /// Puts a segment that has no gap behind those so far.
    fn push(&mut self, alloc: Global, name: &str, head: Option<Head>) -> Result<(), AllocError>
        ensures { (before : List SegmentOf) (segment : SegmentOf) → HasTaken before (begun segment.marks) None self.old
            → IsSegment segment → segment.name ≡ name.now → HasSeals head segment.seals
            → MayFollow before segment.seals → OnOk result (HaveLinked (before ++ (segment ∷ [])) self.new) }
    {
        let name = String::from_str(alloc, name)?;
        if self.names.is_empty() {
            self.first = number_of(&head);
        }
        self.names.push(name)?;
        self.last = head;
        Ok(())
    }
}
