//! The lives of one object.

ghost use Rattle.std.specs.Prelude.{◌≡◌};
ghost use Rattle.kmipa_store.specs.Choices.{IsSound};

use crate::chains::chains_of;
use crate::choices::{Done, Wish};
use crate::stories::Story;
use crate::times::Time;
use crate::trying::{take_chain, try_reader};
use kmipa_store::Ledger;
use std::alloc::{AllocError, Global};

/// A call that doesn't change the object, and the slots of the life that it fits into: bit k is the slot behind k changes.
#[derive(Clone, Copy)]
pub struct Reader {
    pub call: usize,
    pub slots: u64,
    /// What is wished where its items are done, if they need not be.
    pub gate: Option<Wish>,
}

/// The course of a life: the calls that change the object, in their order, and the others, but for those that fit in everywhere.
#[derive(Drop)]
pub struct Course {
    pub chain: Vec<usize>,
    pub readers: Vec<Reader>,
    /// What it asks of open calls besides, and what these do.
    pub wishes: Vec<Wish>,
    pub done: Vec<Done>,
}

/// The slots into which a group fits by its time.
#[derive(Clone, Copy)]
struct Span {
    low: usize,
    high: usize,
    is_change: bool,
}

/// The slots of each group beside a chain of changes.
#[derive(Drop)]
struct Slots {
    /// Those into which it fits by its time.
    spans: Vec<Span>,
    /// Those into which it fits where it was tried: bit k is the slot behind k changes.
    found: Vec<u64>,
}

/// The lives of the object; none where it has none, or too many.
pub(crate) fn lives_of<L: Ledger>(
    alloc: Global,
    ledger: &mut L,
    story: &Story<'_>,
) -> Result<Vec<Course>, AllocError>
    requires { IsSound (L.state ledger.old).now }
    ensures { IsSound (L.state ledger.new).now }
{
    let mut lives = absences_of(alloc, story)?;
    let chains = chains_of(alloc, ledger, story)?;
    'chains: for chain in &chains {
        if let Some(life) = life_along(alloc, ledger, story, chain)? {
            lives.push(life)?;
        }
    }
    Ok(lives)
}

/// The ways in which an object isn't there that nothing shows.
fn absences_of(alloc: Global, story: &Story<'_>) -> Result<Vec<Course>, AllocError> {
    let mut lives = Vec::new(alloc);
    if story.is_unseen {
        for wish in &story.recording.switches.absences(alloc, story)? {
            let mut wishes = Vec::new(alloc);
            wishes.push(*wish)?;
            lives.push(Course {
                chain: Vec::new(alloc),
                readers: Vec::new(alloc),
                wishes,
                done: Vec::new(alloc),
            })?;
        }
    }
    Ok(lives)
}

/// The life with these changes, if each other group fits in.
fn life_along<L: Ledger>(
    alloc: Global,
    ledger: &mut L,
    story: &Story<'_>,
    chain: &[usize],
) -> Result<Option<Course>, AllocError>
    requires { IsSound (L.state ledger.old).now }
    ensures { IsSound (L.state ledger.new).now }
{
    if story.is_unseen && chain.is_empty() {
        return Ok(None);
    }
    let mut slots = Slots::of(alloc, story, chain)?;
    'slots: for slot in 0..chain.len() + 1 {
        let front = chain.get(..slot).unwrap_or(&[]);
        try_slot(alloc, ledger, story, front, &mut slots)?;
    }
    life_of_slots(alloc, story, chain, &slots)
}

/// The slots of each group by its time.
fn spans_of(alloc: Global, story: &Story<'_>, chain: &[usize]) -> Result<Vec<Span>, AllocError> {
    let mut times = Vec::new(alloc);
    for group in chain {
        times.push(story.time(*group))?;
    }
    let mut spans = Vec::with_capacity(alloc, story.groups.len())?;
    for (group, own) in story.groups.iter().enumerate() {
        let is_change = if own.is_asked {
            chain.iter().any(|other| story.is_of_call(*other, group))
        } else {
            own.is_open || chain.iter().any(|other| *other == group)
        };
        spans.push(span_of(story.time(group), &times, is_change))?;
    }
    Ok(spans)
}

fn span_of(time: Time, chain: &[Time], is_change: bool) -> Span {
    let mut low = 0;
    let mut high = chain.len();
    for (place, other) in chain.iter().enumerate() {
        if other.is_before(time) {
            low = place + 1;
        }
        if time.is_before(*other) && high > place {
            high = place;
        }
    }
    Span {
        low,
        high,
        is_change,
    }
}

/// Notes the slot behind these changes of each group that fits into it.
fn try_slot<L: Ledger>(
    alloc: Global,
    ledger: &mut L,
    story: &Story<'_>,
    front: &[usize],
    slots: &mut Slots,
) -> Result<(), AllocError>
    requires { IsSound (L.state ledger.old).now }
    ensures { IsSound (L.state ledger.new).now }
{
    let Ok(mark) = ledger.mark() else {
        return Err(AllocError);
    };
    let tried = try_readers(alloc, ledger, story, front, slots);
    ledger.back(mark);
    tried
}

fn try_readers<L: Ledger>(
    alloc: Global,
    ledger: &mut L,
    story: &Story<'_>,
    front: &[usize],
    slots: &mut Slots,
) -> Result<(), AllocError>
    requires { IsSound (L.state ledger.old).now }
    ensures { (L.state ledger.new).marks ≡ (L.state ledger.old).marks }
{
    if !take_chain(alloc, ledger, story, front)? {
        return Ok(());
    }
    let slot = front.len();
    'groups: for group in 0..slots.spans.len() {
        if !slots.may_have(group, slot) {
            continue;
        }
        let fits = try_reader(alloc, ledger, story, group)?;
        slots.note(group, slot, fits);
    }
    Ok(())
}

impl Slots {
    /// Those by the times of the groups; none is tried yet.
    fn of(alloc: Global, story: &Story<'_>, chain: &[usize]) -> Result<Slots, AllocError> {
        let spans = spans_of(alloc, story, chain)?;
        let found = vec![in alloc; 0u64; spans.len()]?;
        Ok(Slots { spans, found })
    }

    /// Whether a group may be tried in a slot.
    fn may_have(&self, group: usize, slot: usize) -> bool {
        match self.spans.get(group) {
            Some(span) => span.has(slot),
            None => false,
        }
    }

    /// Notes whether a group fits into a slot.
    fn note(&mut self, group: usize, slot: usize, fits: bool) {
        if let Some(own) = self.found.get_mut(group) {
            if fits {
                *own |= bit_of(slot);
            }
        }
    }
}

impl Span {
    /// Whether the group may be tried in a slot.
    fn has(&self, slot: usize) -> bool {
        !self.is_change && self.low <= slot && slot <= self.high
    }
}

/// The bit of a slot.
pub(crate) fn bit_of(slot: usize) -> u64 {
    if slot < 64 { 1u64 << slot } else { 0 }
}

/// The life, unless a group fits in nowhere.
fn life_of_slots(
    alloc: Global,
    story: &Story<'_>,
    chain: &[usize],
    slots: &Slots,
) -> Result<Option<Course>, AllocError> {
    let everywhere = bit_of(chain.len() + 1).wrapping_sub(1);
    let mut readers = Vec::new(alloc);
    let mut wishes = Vec::new(alloc);
    let mut done = Vec::new(alloc);
    let groups = story.groups.iter().zip(slots.spans.iter());
    for ((group, span), found) in groups.zip(slots.found.iter()) {
        if span.is_change || *found == everywhere {
            continue;
        }
        let gate = story.recording.switches.gate_of(story, *group);
        match gate {
            Some(gate) if *found == 0 => wishes.push(gate.turned())?,
            None if *found == 0 => return Ok(None),
            _ => readers.push(Reader {
                call: group.call,
                slots: *found,
                gate,
            })?,
        }
    }
    let switches = &story.recording.switches;
    switches.wish(story, chain, &mut wishes, &mut done)?;
    Ok(Some(Course {
        chain: calls_of(alloc, story, chain)?,
        readers,
        wishes,
        done,
    }))
}

fn calls_of(alloc: Global, story: &Story<'_>, chain: &[usize]) -> Result<Vec<usize>, AllocError> {
    let mut calls = Vec::new(alloc);
    for place in chain {
        if let Some(group) = story.groups.get(*place) {
            calls.push(group.call)?;
        }
    }
    Ok(calls)
}
