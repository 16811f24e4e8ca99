//! The calls of some marks, one after the other.

ghost use Rattle.std.specs.Prelude.{MatchResult};
ghost use Rattle.kmipa_record.specs.Calls.{HasNone, BeginsCall, RefusesBegin, EndsCall, RefusesEnd, Takes, Refuses};
ghost use Rattle.kmipa_record.specs.Marks.{mark_of};

use crate::fault::RecordKind;
use crate::number_map::NumberMap;
use crate::transcript::Mark;
use std::alloc::Global;

/// The most calls that a transcript may have.
const MOST: usize = 100_000;

/// Where a call stands that was begun.
#[derive(Clone, Copy, PartialEq, Eq)]
pub enum Progress {
    /// It has not ended.
    Open,
    Ended,
}

/// The calls that were begun, by their numbers.
#[derive(Drop)]
pub struct Calls {
    progress: NumberMap<Progress>,
}

impl Calls {
    /// No calls.
    pub fn new(alloc: Global) -> Calls
        ensures { HasNone result }
    {
        Calls {
            progress: NumberMap::new(alloc),
        }
    }

    /// Takes a mark, or says what is wrong with it.
    #[inline(always)]
    pub fn take(&mut self, mark: &Mark) -> Result<(), RecordKind>
        ensures { MatchResult result (λ _. Takes self.old self.new (mark_of mark.now))
            (Refuses self.old (mark_of mark.now)) }
    {
        match mark {
            Mark::Begin(begin) => self.begin(begin.call),
            Mark::End(end) => self.end(end.call),
        }
    }

    fn begin(&mut self, call: i32) -> Result<(), RecordKind>
        ensures { MatchResult result (λ _. BeginsCall self.old self.new call) (RefusesBegin self.old call) }
    {
        if call < 1 {
            return Err(RecordKind::Number);
        }
        if self.progress.get(call).is_some() {
            return Err(RecordKind::Number);
        }
        if self.progress.count() >= MOST {
            return Err(RecordKind::Calls);
        }
        match self.progress.add(call, Progress::Open) {
            Ok(()) => Ok(()),
            Err(_) => Err(RecordKind::Memory),
        }
    }

    fn end(&mut self, call: i32) -> Result<(), RecordKind>
        ensures { MatchResult result (λ _. EndsCall self.old self.new call) (RefusesEnd self.old call) }
    {
        if call < 1 {
            return Err(RecordKind::Number);
        }
        match self.progress.get(call) {
            None => return Err(RecordKind::EndWithoutBegin),
            Some(Progress::Ended) => return Err(RecordKind::SecondEnd),
            Some(Progress::Open) => {}
        }
        self.progress.set(call, Progress::Ended);
        Ok(())
    }
}
