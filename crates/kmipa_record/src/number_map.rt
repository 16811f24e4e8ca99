//! A map by number, in which no choice of numbers makes a call slow.

ghost use Rattle.std.specs.Prelude.{◌≡◌, ◌+◌, ◌<◌, ◌≤◌, ◌^◌, ℤ, pos, Option, None, Some, IsSome, OnOk, OnErr, IfSome, IfNone, length};
ghost use Rattle.std.specs.Ordering.{int_cmp};
ghost use Rattle.std.specs.BTreeMap.{get};
ghost use Rattle.kmipa_record.specs.NumberMaps.{Gains, HasNone, IsSame, PutsSlot, Sets, count_of, slot_at, value_at};

use std::alloc::{AllocError, Global};
use std::collections::BTreeMap;

/// How many numbers may have a slot before any has a value.
const FIRST_SLOTS: usize = 64;

/// A map from numbers to values.
///
/// # Cost
///
/// The numbers from 0 to about twice the count of values have a slot each; the others stand in a tree. So a call costs no
/// more than a search in a tree, and the map no more memory than a few slots a value, whatever the numbers are.
#[derive(Drop)]
pub struct NumberMap<V> {
    slots: Vec<Option<V>>,
    others: BTreeMap<i32, V>,
    count: usize,
}

impl<V: Copy> NumberMap<V> {
    /// No values.
    pub fn new(alloc: Global) -> NumberMap<V>
        ensures { HasNone result }
    {
        NumberMap {
            slots: Vec::new(alloc),
            others: BTreeMap::new(alloc),
            count: 0,
        }
    }

    /// How many numbers have a value.
    pub fn count(&self) -> usize
        ensures { result ≡ count_of self.now }
    {
        self.count
    }

    /// The value of a number.
    #[tactic(auto, unfolding(crate::specs::NumberMaps::value_at))]
    pub fn get(&self, number: i32) -> Option<V>
        ensures { result ≡ value_at self.now number }
    {
        match self.slot(number) {
            Some(value) => Some(value),
            None => self.others.get(&number).copied(),
        }
    }

    /// Gives a value to a number that has none. An `Err` changes nothing.
    pub fn add(&mut self, number: i32, value: V) -> Result<(), AllocError>
        requires { value_at self.old number ≡ None }
        ensures added { OnOk result (Gains self.old self.new number value) }
        ensures same { OnErr result (IsSame self.old self.new) }
    {
        let Some(count) = self.count.checked_add(1) else {
            return Err(AllocError);
        };
        match self.fitting(number) {
            Some(place) => self.put_slot(place, value)?,
            None => self.put_other(number, value)?,
        }
        self.count = count;
        Ok(())
    }

    /// Gives another value to a number that has one.
    pub fn set(&mut self, number: i32, value: V)
        requires { IsSome (value_at self.old number) }
        ensures set { Sets self.old self.new number value }
        ensures count { count_of self.new ≡ count_of self.old }
    {
        if let Some(place) = self.slot_of(number) {
            self.fill(place, value);
            return;
        }
        match self.put_other(number, value) {
            Ok(()) => {}
            Err(_) => unreachable!(),
        }
    }

    /// The place of the slot that a number has.
    fn slot_of(&self, number: i32) -> Option<usize>
        ensures has { IfSome result (λ place. (number ≡ pos place) × (place < length self.now.slots.items)) }
        ensures none { IfNone result (slot_at self.now.slots.items number ≡ None) }
    {
        match usize::try_from(number) {
            Ok(place) if place < self.slots.len() => Some(place),
            _ => None,
        }
    }

    /// The value in the slot of a number.
    fn slot(&self, number: i32) -> Option<V>
        ensures { result ≡ slot_at self.now.slots.items number }
    {
        match self.slot_of(number) {
            Some(place) => self.slots[place],
            None => None,
        }
    }

    /// The place of the slot that a number may have.
    fn fitting(&self, number: i32) -> Option<usize>
        ensures { IfSome result (λ place. (number ≡ pos place) × (place < 2 ^ 32)) }
    {
        match usize::try_from(number) {
            Ok(place) if place < FIRST_SLOTS || place / 2 <= self.count => Some(place),
            _ => None,
        }
    }

    /// Puts a value into the slot at a place, and makes the slots up to it. An `Err` changes nothing.
    fn put_slot(&mut self, place: usize, value: V) -> Result<(), AllocError>
        requires { place < 2 ^ 32 }
        ensures put { OnOk result (PutsSlot self.old.slots.items self.new.slots.items place value) }
        ensures full { OnErr result (length self.old.slots.items ≤ place) }
        ensures same { OnErr result (self.new.slots.items ≡ self.old.slots.items) }
        ensures tree { self.new.others ≡ self.old.others }
        ensures count { count_of self.new ≡ count_of self.old }
    {
        if self.slots.len() <= place {
            self.slots.resize(place + 1, None)?;
        }
        self.fill(place, value);
        Ok(())
    }

    /// Puts a value into the slot at a place.
    fn fill(&mut self, place: usize, value: V)
        requires { place < length self.old.slots.items }
        ensures put { PutsSlot self.old.slots.items self.new.slots.items place value }
        ensures tree { self.new.others ≡ self.old.others }
        ensures count { count_of self.new ≡ count_of self.old }
    {
        self.slots[place] = Some(value);
    }

    /// Puts the value of a number that has no slot. An `Err` changes nothing.
    fn put_other(&mut self, number: i32, value: V) -> Result<(), AllocError>
        requires { slot_at self.old.slots.items number ≡ None }
        ensures put { OnOk result (Sets self.old self.new number value) }
        ensures count { count_of self.new ≡ count_of self.old }
        ensures absent { OnErr result (get int_cmp self.old.others number ≡ None) }
        ensures same { OnErr result (IsSame self.old self.new) }
    {
        match self.others.insert(number, value) {
            Ok(_) => Ok(()),
            Err(_) => Err(AllocError),
        }
    }
}
