//! Where a number, of a call or an item, first stands in a list.

ghost use Rattle.std.specs.Prelude.{◌≡◌, ℤ, Option, None, Some, OnOk, IfOk, length, map};
ghost use Rattle.kmipa_record.specs.Marks.{mark_of};
ghost use Rattle.kmipa_check.specs.Numbers.{Indexes, IndexesBelow, Noted, NotedIfAny, end_number, is_noted, place_in};

use kmipa_record::{Birth, Call, Fill, Mark, NumberMap, Turn};
use std::alloc::{AllocError, Global};

/// What may have a number.
pub trait Numbered {
    ghost number_in: { Self → Option ℤ };

    /// The number that it has.
    fn number(&self) -> Option<i32>
        ensures { result ≡ number_in self.now };
}

impl<'a> Numbered for Call<'a> {
    ghost number_in = { λ call. Some call.number };

    fn number(&self) -> Option<i32> {
        Some(self.number)
    }
}

impl Numbered for Turn {
    ghost number_in = { λ turn. Some turn.call };

    fn number(&self) -> Option<i32> {
        Some(self.call)
    }
}

/// A fill has the number of its item.
impl Numbered for Fill {
    ghost number_in = { λ fill. Some fill.item };

    fn number(&self) -> Option<i32> {
        Some(self.item)
    }
}

/// So has a birth.
impl Numbered for Birth {
    ghost number_in = { λ birth. Some birth.item };

    fn number(&self) -> Option<i32> {
        Some(self.item)
    }
}

/// An end mark has the number of its call; a begin mark has none.
impl Numbered for Mark {
    ghost number_in = { λ mark. end_number (mark_of mark) };

    fn number(&self) -> Option<i32> {
        match self {
            Mark::Begin(_) => None,
            Mark::End(end) => Some(end.call),
        }
    }
}

/// The first place of each number of a list.
#[derive(Drop)]
pub struct FirstPlaces {
    places: NumberMap<usize>,
}

impl FirstPlaces {
    /// The first place of each number.
    pub fn of<T: Numbered>(alloc: Global, items: &[T]) -> Result<FirstPlaces, AllocError>
        ensures { IfOk result (λ f. Indexes (map T.number_in items.now) f) }
    {
        let mut first = FirstPlaces {
            places: NumberMap::new(alloc),
        };
        let mut place = 0;
        'items: while place < items.len() {
            first.note_any(items[place].number(), place)?;
            place += 1;
        }
        Ok(first)
    }

    /// Notes the number that stands at a place, if one does.
    fn note_any(&mut self, number: Option<i32>, place: usize) -> Result<(), AllocError>
        ensures { OnOk result (NotedIfAny self.old self.new number place) }
    {
        match number {
            Some(number) => self.note(number, place),
            None => Ok(()),
        }
    }

    /// Notes that a number stands at a place, unless an earlier one is noted.
    fn note(&mut self, number: i32, place: usize) -> Result<(), AllocError>
        ensures { OnOk result (Noted self.old self.new number place) }
    {
        if self.places.get(number).is_some() {
            return Ok(());
        }
        self.places.add(number, place)
    }

    /// The first place of a number.
    pub fn place(&self, number: i32) -> Option<usize>
        ensures { result ≡ place_in self.now number }
    {
        self.places.get(number)
    }

    /// Whether this is the first place of a number.
    pub fn is_first(&self, number: i32, place: usize) -> bool
        ensures { result ≡ is_noted (place_in self.now number) place }
    {
        match self.places.get(number) {
            Some(first) => first == place,
            None => false,
        }
    }
}
