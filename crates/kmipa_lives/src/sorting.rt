//! The graph of the times of calls, and a first order of it.

use crate::graph::Graph;
use crate::times::{Time, time_at};
use crate::vectors::{at, put};
use std::alloc::{AllocError, Global};

/// The calls as they are sorted before anything is known of objects. Nodes of the graph are the calls, then the moments when all that ended
/// before some call began have been taken, and then those when all of a stamp have.
#[derive(Drop)]
struct Sorted {
    /// The calls by their ends.
    by_end: Vec<usize>,
    /// The calls by their stamps, and by their ends where these are the same.
    by_time: Vec<usize>,
    /// Of each call its place by end, and how many calls ended before it began.
    ends: Vec<usize>,
    befores: Vec<usize>,
    /// Of each moment how many calls have ended, ascending.
    moments: Vec<usize>,
    /// Of each call the number of its stamp, from 0.
    stamps: Vec<usize>,
    /// Of each call whether it may have a greater stamp than this one, too.
    frees: Vec<bool>,
}

/// The graph of the times of calls; none where they contradict each other. So many edges may be looked at in it.
pub(crate) fn graph_of(
    alloc: Global,
    times: &[Time],
    left: u64,
) -> Result<Option<Graph>, AllocError> {
    let sorted = Sorted::of(alloc, times)?;
    let mut graph = Graph::new(alloc, sorted.nodes(alloc)?, left)?;
    for call in 0..times.len() {
        if !sorted.add_call(&mut graph, call)? {
            return Ok(None);
        }
    }
    Ok(if sorted.add_moments(&mut graph)? && sorted.add_stamps(&mut graph)? {
        Some(graph)
    } else {
        None
    })
}

impl Sorted {
    fn of(alloc: Global, times: &[Time]) -> Result<Sorted, AllocError> {
        let by_end = by_end_of(alloc, times)?;
        let by_time = by_time_of(alloc, times)?;
        let befores = befores_of(alloc, times, &by_end)?;
        Ok(Sorted {
            ends: ranks_of(alloc, &by_end)?,
            moments: moments_of(alloc, &befores)?,
            stamps: stamps_of(alloc, times, &by_time)?,
            frees: frees_of(alloc, times)?,
            by_end,
            by_time,
            befores,
        })
    }

    /// All nodes, in a first order.
    fn nodes(&self, alloc: Global) -> Result<Vec<usize>, AllocError> {
        let ready = self.ready(alloc)?;
        let mut nodes = Vec::new(alloc);
        let mut added = 0;
        for (place, call) in self.by_time.iter().enumerate() {
            nodes.push(*call)?;
            added = self.add_ready(&mut nodes, &ready, place, added)?;
            if self.is_last_of_stamp(place) {
                nodes.push(self.stamp(at(&self.stamps, *call)))?;
            }
        }
        Ok(nodes)
    }

    /// Adds the moments that are ready behind the call at a place by time, and answers how many have been added.
    fn add_ready(
        &self,
        nodes: &mut Vec<usize>,
        ready: &[usize],
        place: usize,
        before: usize,
    ) -> Result<usize, AllocError> {
        let mut added = before;
        for _ in 0..ready.len() {
            match ready.get(added) {
                Some(last) if *last <= place => {
                    nodes.push(self.moment(added))?;
                    added = added.saturating_add(1);
                }
                _ => break,
            }
        }
        Ok(added)
    }

    /// Of each moment, the place by time of the last call before it.
    fn ready(&self, alloc: Global) -> Result<Vec<usize>, AllocError> {
        let ranks = ranks_of(alloc, &self.by_time)?;
        let mut lasts = Vec::with_capacity(alloc, self.by_end.len())?;
        let mut last = 0;
        for call in &self.by_end {
            last = at(&ranks, *call).max(last);
            lasts.push(last)?;
        }
        let mut ready = Vec::with_capacity(alloc, self.moments.len())?;
        for ended in &self.moments {
            ready.push(at(&lasts, ended.saturating_sub(1)))?;
        }
        Ok(ready)
    }

    fn is_free(&self, call: usize) -> bool {
        self.frees.get(call).copied().unwrap_or(false)
    }

    fn is_last_of_stamp(&self, place: usize) -> bool {
        let own = self.by_time.get(place);
        let next = self.by_time.get(place.saturating_add(1));
        match (own, next) {
            (Some(own), Some(next)) => at(&self.stamps, *own) != at(&self.stamps, *next),
            _ => true,
        }
    }

    /// The node of a moment.
    fn moment(&self, number: usize) -> usize {
        self.by_time.len().saturating_add(number)
    }

    /// The node of a stamp.
    fn stamp(&self, number: usize) -> usize {
        self.moment(self.moments.len()).saturating_add(number)
    }

    /// The edges of a call: from the moment and the stamp that have to be before it, and to those that it has to be before.
    fn add_call(&self, graph: &mut Graph, call: usize) -> Result<bool, AllocError> {
        let ended = at(&self.befores, call);
        let begun = self.moments.partition_point(|moment| *moment < ended);
        let own = at(&self.ends, call);
        let next = self.moments.partition_point(|moment| *moment <= own);
        let stamp = at(&self.stamps, call);
        Ok(
            (ended == 0 || add_later(graph, self.moment(begun), call)?)
                && (next >= self.moments.len() || add_later(graph, call, self.moment(next))?)
                && (stamp == 0 || add_later(graph, self.stamp(stamp.saturating_sub(1)), call)?)
                && (self.is_free(call) || add_later(graph, call, self.stamp(stamp))?),
        )
    }

    /// The edges from each moment to the next.
    fn add_moments(&self, graph: &mut Graph) -> Result<bool, AllocError> {
        for number in 1..self.moments.len() {
            if !add_later(graph, self.moment(number - 1), self.moment(number))? {
                return Ok(false);
            }
        }
        Ok(true)
    }

    /// The edges from each stamp to the next.
    fn add_stamps(&self, graph: &mut Graph) -> Result<bool, AllocError> {
        for place in 0..self.by_time.len() {
            let stamp = at(&self.stamps, at(&self.by_time, place));
            if stamp > 0 && self.is_last_of_stamp(place) {
                let before = self.stamp(stamp.saturating_sub(1));
                if !add_later(graph, before, self.stamp(stamp))? {
                    return Ok(false);
                }
            }
        }
        Ok(true)
    }
}

/// Of each call whether it may have more than one stamp.
fn frees_of(alloc: Global, times: &[Time]) -> Result<Vec<bool>, AllocError> {
    let mut frees = Vec::with_capacity(alloc, times.len())?;
    for time in times {
        frees.push(time.stamp < time.latest)?;
    }
    Ok(frees)
}

/// Adds an edge that never goes, to a node that comes later as it is; or answers that it doesn't.
fn add_later(graph: &mut Graph, from: usize, to: usize) -> Result<bool, AllocError> {
    if graph.place(to) <= graph.place(from) {
        return Ok(false);
    }
    Ok(graph.add(from, to, 0)?.is_some())
}

/// The calls by their ends.
fn by_end_of(alloc: Global, times: &[Time]) -> Result<Vec<usize>, AllocError> {
    let mut keys = Vec::with_capacity(alloc, times.len())?;
    for call in 0..times.len() {
        keys.push((time_at(times, call).end, call))?;
    }
    keys.sort_unstable();
    let mut calls = Vec::with_capacity(alloc, keys.len())?;
    for (_, call) in &keys {
        calls.push(*call)?;
    }
    Ok(calls)
}

/// The calls by their stamps, and by their ends where these are the same.
fn by_time_of(alloc: Global, times: &[Time]) -> Result<Vec<usize>, AllocError> {
    let mut keys = Vec::with_capacity(alloc, times.len())?;
    for call in 0..times.len() {
        let time = time_at(times, call);
        keys.push((time.stamp, time.end, call))?;
    }
    keys.sort_unstable();
    let mut calls = Vec::with_capacity(alloc, keys.len())?;
    for (_, _, call) in &keys {
        calls.push(*call)?;
    }
    Ok(calls)
}

/// Of each call its place in an order.
fn ranks_of(alloc: Global, order: &[usize]) -> Result<Vec<usize>, AllocError> {
    let mut ranks = vec![in alloc; 0usize; order.len()]?;
    for (place, call) in order.iter().enumerate() {
        put(&mut ranks, *call, place);
    }
    Ok(ranks)
}

/// Of each call how many ended before it began.
fn befores_of(alloc: Global, times: &[Time], by_end: &[usize]) -> Result<Vec<usize>, AllocError> {
    let mut befores = Vec::with_capacity(alloc, times.len())?;
    for time in times {
        let begin = time.begin;
        befores.push(by_end.partition_point(|call| time_at(times, *call).end < begin))?;
    }
    Ok(befores)
}

/// The numbers above 0 among these, each once, ascending.
fn moments_of(alloc: Global, befores: &[usize]) -> Result<Vec<usize>, AllocError> {
    let mut sorted = Vec::from_slice(alloc, befores)?;
    sorted.sort_unstable();
    let mut moments = Vec::new(alloc);
    let mut last = 0;
    for ended in &sorted {
        if *ended != last {
            moments.push(*ended)?;
            last = *ended;
        }
    }
    Ok(moments)
}

/// Of each call the number of its stamp, from 0.
fn stamps_of(alloc: Global, times: &[Time], by_time: &[usize]) -> Result<Vec<usize>, AllocError> {
    let mut stamps = vec![in alloc; 0usize; times.len()]?;
    let mut number = 0usize;
    let mut before = None;
    for call in by_time {
        let stamp = time_at(times, *call).stamp;
        match before {
            Some(other) if other != stamp => number = number.saturating_add(1),
            _ => {}
        }
        before = Some(stamp);
        put(&mut stamps, *call, number);
    }
    Ok(stamps)
}
