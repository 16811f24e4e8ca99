//! What open calls do, as nodes and edges of the graph: where two lives want otherwise, their edges contradict.

use crate::choices::{Done, Wish};
use crate::fates::{Aim, Fate};
use crate::items::{Items, Touch};
use crate::openings::is_bound;
use crate::shown::{Dates, Given};
use crate::stories::{Group, Period, Story};
use crate::times::Time;
use kmipa_attrs::AttrSet;
use kmipa_msgs::BatchOption;
use kmipa_record::Call;
use std::alloc::{AllocError, Global};

/// Two nodes at a Time Stamp: what comes between them has it.
#[derive(Clone, Copy)]
struct Fence {
    date: i64,
    low: usize,
    high: usize,
}

/// An object that an item may have brought. Where it did, its node comes before those of the others.
#[derive(Clone, Copy, PartialEq, Eq, PartialOrd, Ord)]
struct Claim {
    call: usize,
    item: usize,
    object: usize,
    node: usize,
}

/// Two nodes of an item of a batch: they come in this order where it was done, and in the other where it wasn't.
#[derive(Clone, Copy)]
struct Gate {
    call: usize,
    item: usize,
    low: usize,
    high: usize,
}

/// The node from which on an object isn't live that has a name: of one that an open call may have brought by that and its item, of another by the
/// greatest number and its own.
#[derive(Clone, Copy, PartialEq, Eq, PartialOrd, Ord)]
pub(crate) struct Ending {
    pub by: (usize, usize),
    pub node: usize,
}

/// The nodes that stand for what open calls do.
#[derive(Drop)]
pub struct Switches {
    fences: Vec<Fence>,
    claims: Vec<Claim>,
    gates: Vec<Gate>,
    /// The objects from this number on nothing shows.
    unseen: usize,
    /// The ends of objects, where their lives say when these are.
    pub endings: Vec<Ending>,
    /// The node behind all calls, where there is one.
    pub last: usize,
    /// The edges that they have in any case.
    pub edges: Vec<Wish>,
}

impl Switches {
    /// None.
    pub(crate) fn none(alloc: Global) -> Switches {
        Switches {
            fences: Vec::new(alloc),
            claims: Vec::new(alloc),
            gates: Vec::new(alloc),
            unseen: usize::MAX,
            endings: Vec::new(alloc),
            last: 0,
            edges: Vec::new(alloc),
        }
    }

    /// Those of the open calls among these, whose nodes are added to the times of all.
    pub(crate) fn of<'b, 'a>(
        alloc: Global,
        calls: &'b [Call<'a>],
        items: &Items<'b>,
        times: &mut Vec<Time>,
    ) -> Result<Switches, AllocError> {
        let mut switches = Switches::none(alloc);
        switches.unseen = items.known;
        let mut dates = Vec::new(alloc);
        for touch in &items.touches {
            if let Some(aim) = open_aim(calls, *touch) {
                if touch.fate == Fate::Born {
                    switches.add_claim(times, *touch)?;
                }
                push_dates(items, *touch, aim, &mut dates)?;
            }
        }
        switches.claims.sort_unstable();
        dates.sort_unstable();
        dates.dedup();
        for date in &dates {
            switches.add_fence(times, *date)?;
        }
        for (place, call) in calls.iter().enumerate() {
            if call.end.is_none() && (is_bound(call) || switches.may_be_unseen(place)) {
                switches.add_gates(times, place, call)?;
                switches.close_gates(items, place, call)?;
            }
        }
        Ok(switches)
    }

    fn add_claim(&mut self, times: &mut Vec<Time>, touch: Touch) -> Result<(), AllocError> {
        self.claims.push(Claim {
            call: touch.call,
            item: touch.item,
            object: touch.object,
            node: new_node(times, i64::MIN, i64::MAX)?,
        })?;
        Ok(())
    }

    fn add_fence(&mut self, times: &mut Vec<Time>, date: i64) -> Result<(), AllocError> {
        let low = new_node(times, date, date)?;
        let high = new_node(times, date, date)?;
        self.fences.push(Fence { date, low, high })?;
        Ok(())
    }

    /// Adds the gates of a batch. Under Undo it has one; under Stop each item asks for the one ahead of it.
    fn add_gates(
        &mut self,
        times: &mut Vec<Time>,
        place: usize,
        call: &Call<'_>,
    ) -> Result<(), AllocError> {
        let count = match call.request.option {
            BatchOption::Undo => 1,
            _ => call.request.items.len(),
        };
        for item in 0..count {
            let high = new_node(times, i64::MIN, i64::MAX)?;
            let low = new_node(times, i64::MIN, i64::MAX)?;
            if call.request.option == BatchOption::Stop && item > 0 {
                self.add_before(low, high)?;
            }
            self.gates.push(Gate {
                call: place,
                item,
                low,
                high,
            })?;
        }
        Ok(())
    }

    /// The item of these nodes asks for the one before, whose gate was added last.
    fn add_before(&mut self, low: usize, high: usize) -> Result<(), AllocError> {
        if let Some(before) = self.gates.last().copied() {
            self.edges.push(Wish {
                from: before.low,
                to: low,
            })?;
            self.edges.push(Wish {
                from: high,
                to: before.high,
            })?;
        }
        Ok(())
    }

    /// Whether an open call may have brought an object that nothing shows.
    fn may_be_unseen(&self, place: usize) -> bool {
        let from = self.claims.partition_point(|claim| claim.call < place);
        let to = self.claims.partition_point(|claim| claim.call <= place);
        let own = self.claims.get(from..to).unwrap_or(&[]);
        own.iter().any(|claim| claim.object >= self.unseen)
    }

    /// Adds an edge that goes in any case.
    pub(crate) fn add_edge(&mut self, from: usize, to: usize) -> Result<(), AllocError> {
        self.edges.push(Wish { from, to })?;
        Ok(())
    }

    /// Whether nothing shows an object.
    pub(crate) fn is_unseen(&self, object: usize) -> bool {
        object >= self.unseen
    }

    /// Closes the gates of items that can't be done.
    fn close_gates<'b, 'a>(
        &mut self,
        items: &Items<'b>,
        place: usize,
        call: &'b Call<'a>,
    ) -> Result<(), AllocError> {
        let mut is_held = false;
        for (item, ask) in call.request.items.iter().enumerate() {
            let aim = Aim::of(ask);
            if !is_possible(items, aim, is_held) {
                if let Some(gate) = self.gate(place, item, call.request.option) {
                    self.edges.push(gate.is_done().turned())?;
                }
            }
            is_held = is_held || aim.is_setting();
        }
        Ok(())
    }

    /// What is wished where the items of a group are done that need not be.
    pub(crate) fn gate_of(&self, story: &Story<'_>, group: Group) -> Option<Wish> {
        if !group.is_asked {
            return None;
        }
        let call = story.recording.calls.get(group.call)?;
        let last = story.touches.get(group.to.wrapping_sub(1))?;
        let gate = self.gate(group.call, last.item, call.request.option)?;
        Some(gate.is_done())
    }

    fn gate(&self, call: usize, item: usize, option: BatchOption) -> Option<Gate> {
        let own = match option {
            BatchOption::Undo => 0,
            _ => item,
        };
        let place = self.gates.partition_point(|gate| gate.call < call
            || gate.call == call && gate.item < own);
        match self.gates.get(place) {
            Some(gate) if gate.call == call && gate.item == own => Some(*gate),
            _ => None,
        }
    }

    fn fence(&self, date: i64) -> Option<Fence> {
        let place = self.fences.partition_point(|fence| fence.date < date);
        match self.fences.get(place) {
            Some(fence) if fence.date == date => Some(*fence),
            _ => None,
        }
    }

    /// Wishes what a course asks of the open calls about its object, and notes what they do.
    pub(crate) fn wish(
        &self,
        story: &Story<'_>,
        chain: &[usize],
        wishes: &mut Vec<Wish>,
        done: &mut Vec<Done>,
    ) -> Result<(), AllocError> {
        let given = story.given_along(chain);
        let first = story.first_handling(chain);
        for (place, touch) in story.touches.iter().enumerate() {
            let Some(call) = story.recording.calls.get(touch.call) else {
                continue;
            };
            let Some(aim) = open_aim(story.recording.calls, *touch) else {
                continue;
            };
            let gate = self.gate(touch.call, touch.item, call.request.option);
            if story.is_done(chain, place) {
                let date = story.date_left(chain, touch.fate, given);
                let period = match date {
                    None if first == Some(place) => Period::of_first(given, touch.fate),
                    _ => Period::any(),
                };
                if !story.is_unseen && touch.fate.is_deed() {
                    done.push(Done::of(*touch, date, period.since))?;
                }
                self.wish_date(*touch, date, wishes)?;
                self.wish_period(*touch, period, wishes)?;
                self.wish_claim(*touch, wishes)?;
                wish_gate(gate, true, wishes)?;
            } else if story.is_settled(chain, place, aim) {
                wish_gate(gate, false, wishes)?;
            } else {
                self.wish_unclaimed(*touch, wishes)?;
            }
        }
        self.wish_end(story, chain, wishes)
    }

    /// Wishes the nodes of an object's end behind what destroys it, or behind all where nothing does.
    fn wish_end(
        &self,
        story: &Story<'_>,
        chain: &[usize],
        wishes: &mut Vec<Wish>,
    ) -> Result<(), AllocError> {
        let by = story.brought_along(chain);
        let from = self.endings.partition_point(|ending| ending.by < by);
        let to = self.endings.partition_point(|ending| ending.by <= by);
        let gone = story.gone_along(chain).unwrap_or(self.last);
        for ending in self.endings.get(from..to).unwrap_or(&[]) {
            wishes.push(Wish {
                from: gone,
                to: ending.node,
            })?;
        }
        Ok(())
    }

    /// Adds for each object that an item may have brought the option that it did, with a wish besides; and what it does, where nothing else shows
    /// the object.
    pub(crate) fn add_claimed(
        &self,
        alloc: Global,
        by: (usize, usize),
        wish: Wish,
        options: &mut Vec<Vec<Wish>>,
        done: &mut Vec<Vec<Done>>,
    ) -> Result<(), AllocError> {
        let (call, item) = by;
        let from = self.claims.partition_point(|c| (c.call, c.item) < by);
        let to = self.claims.partition_point(|c| (c.call, c.item) <= by);
        for claim in self.claims.get(from..to).unwrap_or(&[]) {
            let touch = Touch {
                object: claim.object,
                call,
                item,
                fate: Fate::Born,
            };
            let mut wishes = Vec::new(alloc);
            wishes.push(wish)?;
            self.wish_claim(touch, &mut wishes)?;
            options.push(wishes)?;
            let mut deeds = Vec::new(alloc);
            if self.is_unseen(claim.object) {
                deeds.push(Done::of(touch, None, None))?;
            }
            done.push(deeds)?;
        }
        Ok(())
    }

    /// Wishes the node of an object that nothing shows before that of one that the same item didn't bring.
    fn wish_unclaimed(&self, touch: Touch, wishes: &mut Vec<Wish>) -> Result<(), AllocError> {
        let rivals = self.rivals(touch);
        let own = rivals.iter().find(|claim| claim.object == touch.object);
        if let (Some(own), Some(last)) = (own, rivals.last()) {
            if last.object >= self.unseen && own.object < self.unseen {
                wishes.push(Wish {
                    from: last.node,
                    to: own.node,
                })?;
            }
        }
        Ok(())
    }

    /// The objects that an item may have brought, that which nothing shows last.
    fn rivals(&self, touch: Touch) -> &[Claim] {
        let key = (touch.call, touch.item);
        let from = self.claims.partition_point(|c| (c.call, c.item) < key);
        let to = self.claims.partition_point(|c| (c.call, c.item) <= key);
        self.claims.get(from..to).unwrap_or(&[])
    }

    /// What is wished where an object that nothing shows isn't there: by each object that its maker may have brought, or since the maker
    /// wasn't done.
    pub(crate) fn absences(
        &self,
        alloc: Global,
        story: &Story<'_>,
    ) -> Result<Vec<Wish>, AllocError> {
        let mut wishes = Vec::new(alloc);
        let own = story.touches.iter().find(|touch| touch.fate == Fate::Born);
        let Some(touch) = own else {
            return Ok(wishes);
        };
        let rivals = self.rivals(*touch);
        if let Some(own) = rivals.last() {
            for rival in rivals {
                if rival.object < self.unseen {
                    wishes.push(Wish {
                        from: rival.node,
                        to: own.node,
                    })?;
                }
            }
        }
        if let Some(call) = story.recording.calls.get(touch.call) {
            if let Some(gate) = self.gate(touch.call, touch.item, call.request.option) {
                wishes.push(gate.is_done().turned())?;
            }
        }
        Ok(wishes)
    }

    /// Wishes a call between the nodes of a date.
    fn wish_date(
        &self,
        touch: Touch,
        date: Option<i64>,
        wishes: &mut Vec<Wish>,
    ) -> Result<(), AllocError> {
        let Some(date) = date else {
            return Ok(());
        };
        if let Some(fence) = self.fence(date) {
            wishes.push(Wish {
                from: fence.low,
                to: touch.call,
            })?;
            wishes.push(Wish {
                from: touch.call,
                to: fence.high,
            })?;
        }
        Ok(())
    }

    /// Wishes a call behind all of lesser Time Stamps than the first of a period, and before all from its end on.
    fn wish_period(
        &self,
        touch: Touch,
        period: Period,
        wishes: &mut Vec<Wish>,
    ) -> Result<(), AllocError> {
        if let Some(date) = period.since {
            if let Some(fence) = self.fence(date) {
                wishes.push(Wish {
                    from: fence.low,
                    to: touch.call,
                })?;
            }
        }
        if let Some(date) = period.until {
            if let Some(fence) = self.fence(date.saturating_sub(1)) {
                wishes.push(Wish {
                    from: touch.call,
                    to: fence.high,
                })?;
            }
        }
        Ok(())
    }

    /// Wishes the node of an object before those of all others that the same item may have brought.
    fn wish_claim(&self, touch: Touch, wishes: &mut Vec<Wish>) -> Result<(), AllocError> {
        let rivals = self.rivals(touch);
        if let Some(own) = rivals.iter().find(|claim| claim.object == touch.object) {
            for rival in rivals {
                if rival.object != touch.object {
                    wishes.push(Wish {
                        from: own.node,
                        to: rival.node,
                    })?;
                }
            }
        }
        Ok(())
    }
}

impl Gate {
    /// What is wished where its item is done.
    fn is_done(self) -> Wish {
        Wish {
            from: self.low,
            to: self.high,
        }
    }
}

fn wish_gate(gate: Option<Gate>, is_done: bool, wishes: &mut Vec<Wish>) -> Result<(), AllocError> {
    if let Some(gate) = gate {
        let wish = gate.is_done();
        wishes.push(if is_done { wish } else { wish.turned() })?;
    }
    Ok(())
}

/// Whether an item of an open call can be done at all, by whether the ID Placeholder is set ahead of it.
fn is_possible<'b>(items: &Items<'b>, aim: Aim<'b>, is_held: bool) -> bool {
    match aim {
        Aim::Object(Some(id), _) => items.has(id),
        Aim::Object(None, _) => is_held,
        Aim::Unread => false,
        _ => true,
    }
}

/// What an item asks for, where its call is open.
pub(crate) fn open_aim<'b, 'a>(calls: &'b [Call<'a>], touch: Touch) -> Option<Aim<'b>> {
    let call = calls.get(touch.call)?;
    match call.end {
        Some(_) => None,
        None => Some(Aim::of(call.request.items.get(touch.item)?)),
    }
}

/// Adds the dates that the success of an item may have left.
fn push_dates(
    items: &Items<'_>,
    touch: Touch,
    aim: Aim<'_>,
    dates: &mut Vec<i64>,
) -> Result<(), AllocError> {
    let Some(known) = items.objects.get(touch.object) else {
        return Ok(());
    };
    match touch.fate {
        Fate::Activated => push_shown(known.shown.activation, dates)?,
        Fate::Deactivated | Fate::Compromised | Fate::Destroyed => {
            push_shown(known.shown.deactivation, dates)?
        }
        _ => {}
    }
    if let Some(date) = known.shown.date_left(touch.fate, Given::nothing()) {
        dates.push(date)?;
    }
    match (aim, known.given) {
        (Aim::Newborn(new), _) => push_given(new.attributes, dates),
        (_, Some((_, given))) if touch.fate.is_deed() => push_given(given, dates),
        _ => Ok(()),
    }
}

/// Adds the dates that answers show.
fn push_shown(shown: Dates, dates: &mut Vec<i64>) -> Result<(), AllocError> {
    if let Some(date) = shown.one {
        dates.push(date)?;
    }
    if let Some(date) = shown.other {
        dates.push(date)?;
    }
    Ok(())
}

/// Adds the date when an object of these attributes becomes active, and the last one before it.
fn push_given(given: &AttrSet, dates: &mut Vec<i64>) -> Result<(), AllocError> {
    if let Some(date) = given.activation {
        dates.push(date.saturating_sub(1))?;
        dates.push(date)?;
    }
    Ok(())
}

/// A node that is no call, at these Time Stamps; and answers its number.
pub(crate) fn new_node(
    times: &mut Vec<Time>,
    stamp: i64,
    latest: i64,
) -> Result<usize, AllocError> {
    let node = times.len();
    times.push(Time {
        begin: 0,
        end: usize::MAX,
        stamp,
        latest,
        is_undone: false,
    })?;
    Ok(node)
}
