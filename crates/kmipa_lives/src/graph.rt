//! A graph of which an order is kept: each edge leads from an earlier node to a later one.

use crate::vectors::{at, put};
use std::alloc::{AllocError, Global};

/// An edge, numbered from 1. An owner of 0 never takes it out again.
#[derive(Clone, Copy)]
struct Edge {
    from: usize,
    to: usize,
    /// The next edge from the same node, and the next one to the same; 0 where there is none.
    next_from: usize,
    next_to: usize,
    owner: usize,
    is_there: bool,
}

/// A graph and an order of its nodes.
#[derive(Drop)]
pub struct Graph {
    alloc: Global,
    /// The nodes in their order, and the place of each.
    pub order: Vec<usize>,
    place: Vec<usize>,
    edges: Vec<Edge>,
    /// Of each node the newest edge from it, and the newest one to it.
    newest_from: Vec<usize>,
    newest_to: Vec<usize>,
    /// Of each node the last walk that met it, and the edge by which it did.
    met: Vec<usize>,
    by: Vec<usize>,
    walks: usize,
    /// So many more edges are looked at.
    pub left: u64,
    /// The owners of the edges on the way back that spoke against the edge that was refused last.
    pub blamed: Vec<usize>,
}

/// In which direction edges are followed.
#[derive(Clone, Copy, PartialEq, Eq)]
enum Way {
    On,
    Back,
}

/// Where a walk ends: beyond a place, or at a node that it was not to meet.
#[derive(Clone, Copy)]
struct Bounds {
    way: Way,
    place: usize,
    goal: usize,
}

impl Graph {
    /// A graph without edges over these nodes, each of which stands there once.
    pub(crate) fn new(alloc: Global, order: Vec<usize>, left: u64) -> Result<Graph, AllocError> {
        let count = order.len();
        let mut place = vec![in alloc; 0usize; count]?;
        for (number, node) in order.iter().enumerate() {
            put(&mut place, *node, number);
        }
        Ok(Graph {
            alloc,
            order,
            place,
            edges: Vec::new(alloc),
            newest_from: vec![in alloc; 0usize; count]?,
            newest_to: vec![in alloc; 0usize; count]?,
            met: vec![in alloc; 0usize; count]?,
            by: vec![in alloc; 0usize; count]?,
            walks: 0,
            left,
            blamed: Vec::new(alloc),
        })
    }

    /// The place of a node in the order.
    #[inline(always)]
    pub(crate) fn place(&self, node: usize) -> usize {
        at(&self.place, node)
    }

    /// Adds an edge, and answers its number; the order is mended where it says otherwise. None where a way leads back already:
    /// `blamed` says whose edges are on it.
    pub(crate) fn add(
        &mut self,
        from: usize,
        to: usize,
        owner: usize,
    ) -> Result<Option<usize>, AllocError> {
        self.blamed.clear();
        if from == to {
            return Ok(None);
        }
        if self.place(to) < self.place(from) && !self.mend(from, to)? {
            return Ok(None);
        }
        self.edges.push(Edge {
            from,
            to,
            next_from: at(&self.newest_from, from),
            next_to: at(&self.newest_to, to),
            owner,
            is_there: true,
        })?;
        let number = self.edges.len();
        put(&mut self.newest_from, from, number);
        put(&mut self.newest_to, to, number);
        Ok(Some(number))
    }

    /// Takes an edge out.
    pub(crate) fn remove(&mut self, number: usize) {
        if let Some(edge) = self.edges.get_mut(number.wrapping_sub(1)) {
            edge.is_there = false;
        }
    }

    /// Whether a way leads from one node to another.
    pub(crate) fn leads(&mut self, from: usize, to: usize) -> Result<bool, AllocError> {
        if self.place(to) < self.place(from) {
            return Ok(false);
        }
        let bounds = Bounds {
            way: Way::On,
            place: self.place(to),
            goal: to,
        };
        Ok(from == to || self.walk(from, bounds)?.is_none())
    }

    /// Moves nodes so that one may come before another that comes first now; or answers that a way leads back.
    fn mend(&mut self, from: usize, to: usize) -> Result<bool, AllocError> {
        let on = Bounds {
            way: Way::On,
            place: self.place(from),
            goal: from,
        };
        let Some(behind) = self.walk(to, on)? else {
            return Ok(false);
        };
        let back = Bounds {
            way: Way::Back,
            place: self.place(to),
            goal: to,
        };
        let Some(ahead) = self.walk(from, back)? else {
            return Ok(false);
        };
        self.reorder(&ahead, &behind)?;
        Ok(true)
    }

    /// The places of the nodes that are met from a node on within bounds, in their order; none where the goal is met.
    fn walk(&mut self, start: usize, bounds: Bounds) -> Result<Option<Vec<usize>>, AllocError> {
        self.walks = self.walks.saturating_add(1);
        let mut nodes = Vec::new(self.alloc);
        nodes.push(start)?;
        put(&mut self.met, start, self.walks);
        for next in 0..self.order.len() {
            let Some(node) = nodes.get(next).copied() else {
                break;
            };
            if !self.spread(node, bounds, &mut nodes)? {
                self.blame(start, bounds.goal)?;
                return Ok(None);
            }
        }
        self.places_of(&nodes)
    }

    fn places_of(&self, nodes: &[usize]) -> Result<Option<Vec<usize>>, AllocError> {
        let mut places = Vec::with_capacity(self.alloc, nodes.len())?;
        for node in nodes {
            places.push(self.place(*node))?;
        }
        places.sort_unstable();
        Ok(Some(places))
    }

    /// Meets the nodes next to one; or answers that the goal is among them.
    fn spread(
        &mut self,
        node: usize,
        bounds: Bounds,
        nodes: &mut Vec<usize>,
    ) -> Result<bool, AllocError> {
        let mut number = match bounds.way {
            Way::On => at(&self.newest_from, node),
            Way::Back => at(&self.newest_to, node),
        };
        for _ in 0..self.edges.len() {
            let Some(edge) = self.edges.get(number.wrapping_sub(1)).copied() else {
                break;
            };
            self.left = self.left.saturating_sub(1);
            let (other, next) = match bounds.way {
                Way::On => (edge.to, edge.next_from),
                Way::Back => (edge.from, edge.next_to),
            };
            if edge.is_there && self.is_met(other, number, bounds) {
                if other == bounds.goal {
                    return Ok(false);
                }
                nodes.push(other)?;
            }
            number = next;
        }
        Ok(true)
    }

    /// Meets a node by an edge, if it was not met and lies within the bounds.
    fn is_met(&mut self, node: usize, edge: usize, bounds: Bounds) -> bool {
        let place = self.place(node);
        let is_within = match bounds.way {
            Way::On => place <= bounds.place,
            Way::Back => place >= bounds.place,
        };
        if !is_within || at(&self.met, node) == self.walks {
            return false;
        }
        put(&mut self.met, node, self.walks);
        put(&mut self.by, node, edge);
        true
    }

    /// Notes the owners of the edges by which a goal was met.
    fn blame(&mut self, start: usize, goal: usize) -> Result<(), AllocError> {
        let mut node = goal;
        for _ in 0..self.order.len() {
            if node == start {
                break;
            }
            let Some(edge) = self.edges.get(at(&self.by, node).wrapping_sub(1)) else {
                break;
            };
            if edge.owner != 0 && !self.blamed.iter().any(|owner| *owner == edge.owner) {
                self.blamed.push(edge.owner)?;
            }
            node = edge.from;
        }
        Ok(())
    }

    /// Gives the nodes at these places the same places, those ahead before those behind.
    fn reorder(&mut self, ahead: &[usize], behind: &[usize]) -> Result<(), AllocError> {
        let mut nodes = Vec::with_capacity(self.alloc, ahead.len().saturating_add(behind.len()))?;
        let mut places = Vec::with_capacity(self.alloc, ahead.len().saturating_add(behind.len()))?;
        for place in ahead.iter().chain(behind.iter()) {
            nodes.push(at(&self.order, *place))?;
            places.push(*place)?;
        }
        places.sort_unstable();
        for (node, place) in nodes.iter().zip(places.iter()) {
            put(&mut self.order, *place, *node);
            put(&mut self.place, *node, *place);
        }
        Ok(())
    }
}
