//! Elements in a list that is linked both ways.

use std::alloc::{AllocError, Global};

/// Elements, numbered from 1 on, of which each that is in knows the next one and the one before. An element goes out, and the last one that
/// went out comes back, at the cost of two writes.
#[derive(Drop)]
pub struct Links {
    after: Vec<usize>,
    before: Vec<usize>,
}

impl Links {
    ghost use Rattle.std.specs.Prelude.{◌≡◌, ◌<◌, ◌≤◌, ◌+◌, ◌^◌, ℕ, IfOk};
    ghost use Rattle.kmipa_orders.specs.Links.{at, AreLinked, IsWithin, after_without, before_without, after_with, before_with};

    /// So many elements, all in.
    pub fn new(alloc: Global, count: usize) -> Result<Links, AllocError>
        requires { count < 2 ^ 62 }
        ensures { IfOk result (λ l. AreLinked count (IsWithin count) l.after.items l.before.items) }
    {
        let mut after = Vec::with_capacity(alloc, count + 2)?;
        let mut before = Vec::with_capacity(alloc, count + 2)?;
        before.push(0)?;
        let mut i = 0;
        'elements: while i < count + 1 {
            after.push(i + 1)?;
            before.push(i)?;
            i += 1;
        }
        after.push(0)?;
        Ok(Links { after, before })
    }

    /// The element after one, or the first after 0; past the last number after the last.
    pub fn after(&self, element: usize) -> usize
        ensures { result ≡ at self.now.after.items element }
    {
        match self.after.get(element) {
            Some(next) => *next,
            None => 0,
        }
    }

    fn before(&self, element: usize) -> usize
        ensures { result ≡ at self.now.before.items element }
    {
        match self.before.get(element) {
            Some(last) => *last,
            None => 0,
        }
    }

    /// An element goes out.
    pub fn remove(&mut self, element: usize)
        ensures after { self.new.after.items ≡ after_without self.old.after.items self.old.before.items element }
        ensures before { self.new.before.items ≡ before_without self.old.after.items self.old.before.items element }
    {
        let next = self.after(element);
        let last = self.before(element);
        put(&mut self.after, last, next);
        put(&mut self.before, next, last);
    }

    /// The element that went out last comes back.
    pub fn restore(&mut self, element: usize)
        ensures after { self.new.after.items ≡ after_with self.old.after.items self.old.before.items element }
        ensures before { self.new.before.items ≡ before_with self.old.after.items self.old.before.items element }
    {
        let next = self.after(element);
        let last = self.before(element);
        put(&mut self.after, last, element);
        put(&mut self.before, next, element);
    }
}

ghost use Rattle.std.specs.Prelude.{◌≡◌, slice_set};

/// Writes a value at a place, if there is one.
fn put(values: &mut Vec<usize>, place: usize, value: usize)
    ensures { values.new.items ≡ slice_set values.old.items place value }
{
    if place < values.len() {
        values[place] = value;
    }
}
