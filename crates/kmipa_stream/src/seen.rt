//! The calls of a transcript that have begun so far.

use kmipa_record::{Begin, End, NumberMap};
use std::alloc::{AllocError, Global};
use std::mem::replace;

/// A call that has begun.
#[derive(Drop)]
pub(crate) struct SeenCall {
    /// Its number in the transcript.
    pub number: i32,
    /// The place of its begin mark among the marks, from 0.
    pub begin: usize,
    /// The place of its end mark, once that has come.
    pub end: Option<usize>,
    pub held: Held,
}

/// What is held of the messages of a call, until they are read.
#[derive(Drop)]
pub(crate) enum Held {
    /// Nothing any more.
    Released,
    /// The request message of its begin mark: its end mark has not come.
    Open(Vec<u8>),
    /// The messages of both its marks.
    Whole(Vec<u8>, Vec<u8>),
}

/// The calls that have begun, in the order of their begin marks.
#[derive(Drop)]
pub(crate) struct Seen {
    alloc: Global,
    calls: Vec<SeenCall>,
    // The place among the calls of each number.
    places: NumberMap<usize>,
    // How many marks have come.
    count: usize,
}

impl Seen {
    ghost use Rattle.std.specs.Prelude.{◌≡◌, ◌∷◌, ◌++◌, List, [], OnOk, length};
    ghost use Rattle.std.specs.String.{string_bytes};
    ghost use Rattle.kmipa_record.specs.Marks.{AreRecorded, MarkOf, begins, ends};
    ghost use Rattle.kmipa_record.specs.NumberMaps.{value_at};
    ghost use Rattle.kmipa_stream.specs.Seeing.{AreSeen, HasLetGo, KeepReleased, LetsGo};

    /// No calls.
    pub fn new(alloc: Global) -> Seen
        ensures { AreSeen [] result }
    {
        Seen {
            alloc,
            calls: Vec::new(alloc),
            places: NumberMap::new(alloc),
            count: 0,
        }
    }

    /// How many marks have come.
    pub fn count(&self) -> usize
        ensures { result ≡ self.now.count }
    {
        self.count
    }

    /// How many calls have begun.
    pub fn len(&self) -> usize
        ensures { result ≡ length self.now.calls.items }
    {
        self.calls.len()
    }

    /// The calls.
    pub fn calls(&self) -> &[SeenCall]
        ensures { result.now ≡ self.now.calls.items }
    {
        &self.calls
    }

    /// The place among the calls of the one with this number.
    pub fn place(&self, number: i32) -> Option<usize>
        ensures { result ≡ value_at self.now.places number }
    {
        self.places.get(number)
    }

    /// Takes the begin mark of a call, which no other call has the number of.
    pub fn begin(&mut self, begin: Begin) -> Result<(), AllocError>
        ensures seen { (marks : List MarkOf) → AreSeen marks self.old
            → AreRecorded (marks ++ begins begin.call (string_bytes begin.client) begin.message.items ∷ [])
            → OnOk result
            (AreSeen (marks ++ begins begin.call (string_bytes begin.client) begin.message.items ∷ []) self.new) }
        ensures kept { OnOk result (KeepReleased self.old.calls.items self.new.calls.items) }
    {
        let Some(count) = self.count.checked_add(1) else {
            return Err(AllocError);
        };
        let Begin {
            call: number,
            message,
            ..
        } = begin;
        if self.places.get(number).is_some() {
            return Err(AllocError);
        }
        let call = SeenCall {
            number,
            begin: self.count,
            end: None,
            held: Held::Open(message),
        };
        let place = self.calls.len();
        self.calls.push(call)?;
        self.places.add(number, place)?;
        self.count = count;
        Ok(())
    }

    /// Takes the end mark of a call that has begun.
    pub fn end(&mut self, end: End) -> Result<(), AllocError>
        ensures seen { (marks : List MarkOf) → AreSeen marks self.old
            → AreRecorded (marks ++ ends end.call end.message.items ∷ [])
            → OnOk result (AreSeen (marks ++ ends end.call end.message.items ∷ []) self.new) }
        ensures kept { OnOk result (KeepReleased self.old.calls.items self.new.calls.items) }
    {
        let Some(count) = self.count.checked_add(1) else {
            return Err(AllocError);
        };
        let Some(place) = self.places.get(end.call) else {
            return Err(AllocError);
        };
        let Some(call) = self.release(place) else {
            return Err(AllocError);
        };
        let SeenCall {
            number,
            begin,
            held,
            ..
        } = call;
        let Held::Open(asked) = held else {
            return Err(AllocError);
        };
        self.calls[place] = SeenCall {
            number,
            begin,
            end: Some(self.count),
            held: Held::Whole(asked, end.message),
        };
        self.count = count;
        Ok(())
    }

    /// Lets go what is held of the call at a place, and hands it out.
    pub fn release(&mut self, place: usize) -> Option<SeenCall>
        ensures { HasLetGo self.old self.new place result }
    {
        let call = self.calls.get(place)?;
        let left = SeenCall {
            number: call.number,
            begin: call.begin,
            end: call.end,
            held: Held::Released,
        };
        Some(replace(&mut self.calls[place], left))
    }

    /// The same, where all its marks have come that will come: where its end mark has, or, at the end of the transcript, in any case.
    pub fn release_whole(&mut self, place: usize, closed: bool) -> Option<SeenCall>
        ensures { LetsGo closed self.old self.new place result }
    {
        let call = self.calls.get(place)?;
        let is_whole = match &call.held {
            Held::Released => false,
            Held::Open(_) => closed,
            Held::Whole(_, _) => true,
        };
        if is_whole { self.release(place) } else { None }
    }
}
