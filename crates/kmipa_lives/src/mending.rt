//! Choices are taken one after the other, and taken back where they contradict.

use crate::choices::{Choice, Done, Wish};
use crate::graph::Graph;
use std::alloc::{AllocError, Global};

/// So many times all choices are gone over.
const MOST_ROUNDS: usize = 100;

/// So many times others are taken back for one option.
const MOST_DEFEATS: usize = 50;

/// A graph and the choices that are to be taken in it.
#[derive(Drop)]
pub struct Mending {
    alloc: Global,
    pub graph: Graph,
    choices: Vec<Choice>,
}

/// What a try of an option came to.
#[derive(Clone, Copy, PartialEq, Eq)]
enum Tried {
    Taken,
    /// Only edges that never go speak against it.
    Impossible,
    /// Choices that were taken back so many times speak against it.
    Opposed(usize),
}

impl Mending {
    pub(crate) fn new(alloc: Global, graph: Graph, choices: Vec<Choice>) -> Mending {
        Mending {
            alloc,
            graph,
            choices,
        }
    }

    /// Takes choices until all are met; or gives up.
    pub(crate) fn settle(&mut self) -> Result<bool, AllocError> {
        if !self.narrow_all()? {
            return Ok(false);
        }
        for _ in 0..MOST_ROUNDS {
            match self.take_round()? {
                Some(0) => return Ok(true),
                Some(_) => {}
                None => return Ok(false),
            }
        }
        Ok(false)
    }

    /// What open calls do by the lives that are taken.
    pub(crate) fn done(&self) -> Result<Vec<Done>, AllocError> {
        let mut all = Vec::new(self.alloc);
        for choice in &self.choices {
            if let (None, Some(option)) = (choice.under, choice.taken) {
                for done in choice.done.get(option).unwrap_or(&Vec::new(self.alloc)) {
                    all.push(*done)?;
                }
            }
        }
        all.sort_unstable();
        Ok(all)
    }

    /// Leaves out the options that time and what is sure exclude, until no more are; or answers that a choice has none left.
    fn narrow_all(&mut self) -> Result<bool, AllocError> {
        for _ in 0..4 {
            let mut fewer = false;
            for number in 0..self.choices.len() {
                if self.graph.left == 0 {
                    return Ok(false);
                }
                if self.is_open(number) {
                    match self.narrow(number)? {
                        Some(is_narrowed) => fewer = fewer || is_narrowed,
                        None => return Ok(false),
                    }
                }
            }
            if !fewer {
                break;
            }
        }
        Ok(true)
    }

    /// Leaves out options of one choice, and takes the last one that is left for good; or none is left.
    fn narrow(&mut self, number: usize) -> Result<Option<bool>, AllocError> {
        let mut fewer = false;
        for option in 0..self.options(number) {
            if !self.is_out(number, option) && self.is_excluded(number, option)? {
                self.leave_out(number, option);
                fewer = true;
            }
        }
        match self.only_option(number) {
            (0, _) => Ok(None),
            (1, option) => {
                for wish in &self.wishes(number, option)? {
                    if self.graph.add(wish.from, wish.to, 0)?.is_none() {
                        return Ok(None);
                    }
                }
                self.set_taken(number, Some(option));
                Ok(Some(true))
            }
            _ => Ok(Some(fewer)),
        }
    }

    /// Whether a way leads back against a wish of an option.
    fn is_excluded(&mut self, number: usize, option: usize) -> Result<bool, AllocError> {
        for wish in &self.wishes(number, option)? {
            if self.graph.leads(wish.to, wish.from)? {
                return Ok(true);
            }
        }
        Ok(false)
    }

    /// Takes each open choice that isn't met, and answers how many there were; or gives up.
    fn take_round(&mut self) -> Result<Option<usize>, AllocError> {
        let mut count = 0usize;
        for number in 0..self.choices.len() {
            if self.is_open(number) && !self.is_met(number) {
                count = count.saturating_add(1);
                if self.graph.left == 0 || !self.decide(number)? {
                    return Ok(None);
                }
            }
        }
        Ok(Some(count))
    }

    /// Takes the option that costs least; or gives up.
    fn decide(&mut self, number: usize) -> Result<bool, AllocError> {
        let mut best = None;
        for (_, option) in &self.by_cost(number)? {
            match self.try_option(number, *option)? {
                Tried::Taken => return Ok(true),
                Tried::Impossible => self.leave_out(number, *option),
                Tried::Opposed(defeats) => best = less(best, defeats, *option),
            }
        }
        match best {
            Some((_, option)) => self.force(number, option),
            None => Ok(false),
        }
    }

    /// Takes back what speaks against an option, and takes it.
    fn force(&mut self, number: usize, option: usize) -> Result<bool, AllocError> {
        for _ in 0..MOST_DEFEATS {
            match self.try_option(number, option)? {
                Tried::Taken => return Ok(true),
                Tried::Impossible => return Ok(false),
                Tried::Opposed(_) => {
                    for owner in &self.graph.blamed.clone()? {
                        self.take_back(owner.wrapping_sub(1), number);
                    }
                    if !self.is_open(number) {
                        return Ok(true);
                    }
                }
            }
        }
        Ok(false)
    }

    /// Adds the edges of an option, or none of them.
    fn try_option(&mut self, number: usize, option: usize) -> Result<Tried, AllocError> {
        let owner = number.saturating_add(1);
        let mut edges = Vec::new(self.alloc);
        for wish in &self.wishes(number, option)? {
            match self.graph.add(wish.from, wish.to, owner)? {
                Some(edge) => edges.push(edge)?,
                None => {
                    for edge in &edges {
                        self.graph.remove(*edge);
                    }
                    return Ok(self.opposed(owner));
                }
            }
        }
        if let Some(choice) = self.choices.get_mut(number) {
            choice.edges = edges;
            choice.taken = Some(option);
        }
        Ok(Tried::Taken)
    }

    fn opposed(&self, own: usize) -> Tried {
        let mut defeats = 0usize;
        let mut is_opposed = false;
        for owner in &self.graph.blamed {
            if *owner != own {
                is_opposed = true;
                let more = match self.choices.get(owner.wrapping_sub(1)) {
                    Some(choice) => choice.defeats.saturating_add(1),
                    None => 1,
                };
                defeats = defeats.saturating_add(more);
            }
        }
        if is_opposed {
            Tried::Opposed(defeats)
        } else {
            Tried::Impossible
        }
    }

    /// Takes a choice back for the sake of another.
    fn take_back(&mut self, number: usize, winner: usize) {
        if number == winner {
            return;
        }
        if let Some(choice) = self.choices.get_mut(number) {
            for edge in &choice.edges {
                self.graph.remove(*edge);
            }
            choice.edges.clear();
            choice.taken = None;
            choice.defeats = choice.defeats.saturating_add(1);
        }
    }

    /// Whether a choice is to be taken, and isn't.
    fn is_open(&self, number: usize) -> bool {
        let Some(choice) = self.choices.get(number) else {
            return false;
        };
        if choice.taken.is_some() {
            return false;
        }
        match choice.under {
            None => true,
            Some((above, option)) => match self.choices.get(above) {
                Some(above) => above.taken == Some(option),
                None => false,
            },
        }
    }

    /// Whether the order meets all wishes of an option of a reader as it is. A life is always taken.
    fn is_met(&self, number: usize) -> bool {
        match self.choices.get(number) {
            Some(choice) => {
                choice.under.is_some()
                    && choice
                        .options
                        .iter()
                        .any(|wishes| cost_of(&self.graph, wishes) == 0)
            }
            None => true,
        }
    }

    /// The options that aren't out, by the wishes that the order doesn't meet.
    fn by_cost(&self, number: usize) -> Result<Vec<(usize, usize)>, AllocError> {
        let mut costs = Vec::new(self.alloc);
        if let Some(choice) = self.choices.get(number) {
            for (option, wishes) in choice.options.iter().enumerate() {
                if !self.is_out(number, option) {
                    costs.push((cost_of(&self.graph, wishes), option))?;
                }
            }
        }
        costs.sort_unstable();
        Ok(costs)
    }

    fn options(&self, number: usize) -> usize {
        match self.choices.get(number) {
            Some(choice) => choice.options.len(),
            None => 0,
        }
    }

    fn wishes(&self, number: usize, option: usize) -> Result<Vec<Wish>, AllocError> {
        match self.choices.get(number) {
            Some(choice) => match choice.options.get(option) {
                Some(wishes) => Vec::from_slice(self.alloc, wishes),
                None => Ok(Vec::new(self.alloc)),
            },
            None => Ok(Vec::new(self.alloc)),
        }
    }

    fn is_out(&self, number: usize, option: usize) -> bool {
        match self.choices.get(number) {
            Some(choice) => choice.is_out.get(option).copied().unwrap_or(true),
            None => true,
        }
    }

    fn leave_out(&mut self, number: usize, option: usize) {
        if let Some(choice) = self.choices.get_mut(number) {
            if let Some(is_out) = choice.is_out.get_mut(option) {
                *is_out = true;
            }
        }
    }

    fn set_taken(&mut self, number: usize, option: Option<usize>) {
        if let Some(choice) = self.choices.get_mut(number) {
            choice.taken = option;
        }
    }

    /// How many options are left, and one of them.
    fn only_option(&self, number: usize) -> (usize, usize) {
        let mut count = 0usize;
        let mut last = 0;
        for option in 0..self.options(number) {
            if !self.is_out(number, option) {
                count = count.saturating_add(1);
                last = option;
            }
        }
        (count, last)
    }
}

/// How many wishes the order doesn't meet.
fn cost_of(graph: &Graph, wishes: &[Wish]) -> usize {
    wishes
        .iter()
        .filter(|wish| graph.place(wish.to) < graph.place(wish.from))
        .count()
}

/// The option with fewer defeats.
fn less(best: Option<(usize, usize)>, defeats: usize, option: usize) -> Option<(usize, usize)> {
    match best {
        Some((fewest, _)) if fewest <= defeats => best,
        _ => Some((defeats, option)),
    }
}
