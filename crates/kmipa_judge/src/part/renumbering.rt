//! The turns that an explanation tells, counted in another witness.

ghost use Rattle.std.specs.Prelude.{◌≡◌, ◌+◌, IfOk, List, map, option_map};
ghost use Rattle.kmipa_explain.specs.declared.explanation.Event.{Event};
ghost use Rattle.kmipa_judge.specs.Renumbered.{IsRenumbered, IsStoryBy, MayBeStoryBy, cause_by, event_by, source_by, whence_by};
ghost use Rattle.kmipa_judge.specs.Parts.{turn_by};

use kmipa_check::FirstPlaces;
use kmipa_explain::{Cause, Event, Explanation, Source, Story, TurnBefore, Whence};

/// Where calls stand in a witness of so many turns.
#[derive(Clone, Copy)]
pub(crate) struct Numbering<'p> {
    pub places: &'p FirstPlaces,
    pub count: usize,
}

impl Numbering<'_> {
    /// The turn of a call, counted from 1; or, where it has none, as it is told.
    fn turn(self, call: i32, told: usize) -> usize
        ensures { result ≡ turn_by self.entry.places.now self.entry.count call told }
    {
        match self.places.place(call) {
            Some(place) if place < self.count => place + 1,
            _ => told,
        }
    }
}

/// The same explanation, with the turns of a witness.
pub(crate) fn renumbered(explanation: Explanation, numbering: Numbering) -> Explanation
    ensures { IsRenumbered (turn_by numbering.entry.places.now numbering.entry.count) explanation result }
{
    let Explanation {
        client,
        stamp,
        operation,
        overlapping,
        cause,
        whence,
        story,
    } = explanation;
    Explanation {
        client,
        stamp,
        operation,
        overlapping,
        cause: cause_by(cause, numbering),
        whence: maybe_whence_by(whence, numbering),
        story: maybe_story_by(story, numbering),
    }
}

fn cause_by(cause: Cause, numbering: Numbering) -> Cause
    ensures { result ≡ cause_by (turn_by numbering.entry.places.now numbering.entry.count) cause }
{
    match cause {
        Cause::StampBefore(before) => Cause::StampBefore(before_by(before, numbering)),
        other => other,
    }
}

fn before_by(before: TurnBefore, numbering: Numbering) -> TurnBefore
    ensures { result ≡ record before { turn = turn_by numbering.entry.places.now numbering.entry.count before.call before.turn } }
{
    TurnBefore {
        turn: numbering.turn(before.call, before.turn),
        call: before.call,
        stamp: before.stamp,
    }
}

fn event_by(event: Event, numbering: Numbering) -> Event
    ensures { result ≡ event_by (turn_by numbering.entry.places.now numbering.entry.count) event }
{
    Event {
        turn: numbering.turn(event.call, event.turn),
        call: event.call,
        item: event.item,
        stamp: event.stamp,
        operation: event.operation,
        undone: event.undone,
    }
}

fn maybe_event_by(event: Option<Event>, numbering: Numbering) -> Option<Event>
    ensures { result ≡ option_map (event_by (turn_by numbering.entry.places.now numbering.entry.count)) event }
{
    match event {
        Some(event) => Some(event_by(event, numbering)),
        None => None,
    }
}

fn source_by(source: Source, numbering: Numbering) -> Source
    ensures { result ≡ source_by (turn_by numbering.entry.places.now numbering.entry.count) source }
{
    match source {
        Source::Declared => Source::Declared,
        Source::Done(event) => Source::Done(event_by(event, numbering)),
    }
}

fn maybe_source_by(source: Option<Source>, numbering: Numbering) -> Option<Source>
    ensures { result ≡ option_map (source_by (turn_by numbering.entry.places.now numbering.entry.count)) source }
{
    match source {
        Some(source) => Some(source_by(source, numbering)),
        None => None,
    }
}

fn whence_by(whence: Whence, numbering: Numbering) -> Whence
    ensures { result ≡ whence_by (turn_by numbering.entry.places.now numbering.entry.count) whence }
{
    Whence {
        object: maybe_source_by(whence.object, numbering),
        state: maybe_source_by(whence.state, numbering),
        initial: maybe_source_by(whence.initial, numbering),
        activation: maybe_source_by(whence.activation, numbering),
        deactivation: maybe_source_by(whence.deactivation, numbering),
        destroy: maybe_source_by(whence.destroy, numbering),
        compromise: maybe_source_by(whence.compromise, numbering),
        bytes: maybe_source_by(whence.bytes, numbering),
    }
}

fn maybe_whence_by(whence: Option<Whence>, numbering: Numbering) -> Option<Whence>
    ensures { result ≡ option_map (whence_by (turn_by numbering.entry.places.now numbering.entry.count)) whence }
{
    match whence {
        Some(whence) => Some(whence_by(whence, numbering)),
        None => None,
    }
}

fn maybe_story_by(story: Option<Story>, numbering: Numbering) -> Option<Story>
    ensures { MayBeStoryBy (turn_by numbering.entry.places.now numbering.entry.count) story result }
{
    match story {
        Some(story) => Some(story_by(story, numbering)),
        None => None,
    }
}

fn story_by(story: Story, numbering: Numbering) -> Story
    ensures { IsStoryBy (turn_by numbering.entry.places.now numbering.entry.count) story result }
{
    let Story {
        identifier,
        declared,
        mut events,
        born_later,
    } = story;
    renumber_events(&mut events, numbering);
    Story {
        identifier,
        declared,
        events,
        born_later: maybe_event_by(born_later, numbering),
    }
}

fn renumber_events(events: &mut Vec<Event>, numbering: Numbering)
    ensures { events.new.items
        ≡ map (event_by (turn_by numbering.entry.places.now numbering.entry.count)) events.old.items }
{
    let mut place = 0;
    'events: while place < events.len() {
        events[place] = event_by(events[place], numbering);
        place += 1;
    }
}
