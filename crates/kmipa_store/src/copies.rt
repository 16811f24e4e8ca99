//! A ledger of which each mark is a whole copy.

use crate::aside_ids::AsideIds;
use crate::fault::StoreFault;
use crate::feature::Feature;
use crate::ledger::{Ledger, Mark};
use crate::objects::Objects;
use crate::secrets::{Lesson, Secrets};
use kmipa_attrs::Filter;
use kmipa_object::{Life, Object, Rule, SecretNo, State};
use std::alloc::Global;

/// A ledger of which each mark is a whole copy: the plainest that keeps the laws.
#[derive(Drop)]
pub struct Copies {
    alloc: Global,
    moment: i64,
    objects: Objects,
    secrets: Secrets,
    asides: AsideIds,
    rest: bool,
    over: bool,
    marks: Vec<Saved>,
}

/// A whole copy of a ledger, its marks aside.
#[derive(Drop)]
pub struct Saved {
    objects: Objects,
    secrets: Secrets,
    asides: AsideIds,
    rest: bool,
    over: bool,
}

impl Copies {
    ghost use Rattle.std.specs.Prelude.{◌≡◌, pos, []};
    ghost use Rattle.kmipa_store.specs.Aside.{nothing_aside};
    ghost use Rattle.kmipa_store.specs.States.{moment_of_copies, state_of_copies};

    /// A ledger without objects, secrets and marks, where nothing is set aside.
    pub fn new(alloc: Global) -> Copies
        ensures meaning { state_of_copies result ≡ record { now = record { objects = []; secrets = []; aside = nothing_aside }; marks = [] } }
        ensures moment { moment_of_copies result ≡ pos 0 }
    {
        Copies {
            alloc,
            moment: 0,
            objects: Objects::new(alloc),
            secrets: Secrets::new(alloc),
            asides: AsideIds::new(alloc),
            rest: false,
            over: false,
            marks: Vec::new(alloc),
        }
    }
}

impl Ledger for Copies {
    ghost use Rattle.kmipa_store.specs.States.{moment_of_copies, state_of_copies};

    ghost state = { state_of_copies };

    ghost moment = { moment_of_copies };

    fn find(&self, id: &str) -> Option<usize> {
        self.objects.find(id)
    }

    fn len(&self) -> usize {
        self.objects.len()
    }

    fn at(&self, place: usize) -> &Object {
        self.objects.at(place)
    }

    fn next_named(&self, value: &str, kind: u32, from: usize) -> Option<usize> {
        self.objects.next_named(value, kind, from)
    }

    fn next_live_named(&self, value: &str, kind: u32, from: usize) -> Option<usize> {
        self.objects.next_live_named(value, kind, from)
    }

    fn any_live_named(&self, value: &str, kind: u32) -> bool {
        self.objects.any_live_named(value, kind)
    }

    fn next_with(&self, feature: Feature, from: usize) -> Option<usize> {
        self.objects.next_with(feature, self.moment, from)
    }

    fn prepare(&mut self, _feature: Feature) {}

    fn ahead(&self, _filter: &Filter, from: usize) -> usize {
        from
    }

    fn end_of(&self, _filter: &Filter) -> usize {
        self.len()
    }

    fn remember(&mut self, _filter: &Filter, _from: usize, _to: usize) {}

    fn moment(&self) -> i64 {
        self.moment
    }

    fn set_moment(&mut self, t: i64) {
        self.moment = t;
    }

    fn state(&self, place: usize) -> State {
        self.objects.state(place, self.moment)
    }

    fn add(&mut self, object: Object) -> Result<usize, StoreFault> {
        if let Some(_taken) = self.objects.find(object.id.as_str()) {
            return Err(StoreFault::IdentifierTaken);
        }
        let place = self.objects.len();
        self.objects.push(object)?;
        Ok(place)
    }

    fn replace(&mut self, place: usize, life: Life) -> Result<(), StoreFault> {
        self.objects.set_life(place, life);
        Ok(())
    }

    fn renew(&mut self, place: usize, object: Object) -> Result<(), StoreFault> {
        let mut other = object;
        self.objects.exchange(place, &mut other);
        Ok(())
    }

    fn new_secret(&mut self, rule: Rule) -> Result<SecretNo, StoreFault> {
        if !rule.is_possible() {
            return Err(StoreFault::LengthImpossible);
        }
        let number = self.secrets.len();
        self.secrets.push(rule)?;
        Ok(SecretNo { number })
    }

    fn secret(&self, secret: SecretNo) -> Option<&[u8]> {
        self.secrets.known(secret.number)
    }

    fn learn(&mut self, secret: SecretNo, bytes: &[u8]) -> Result<(), StoreFault> {
        match self.secrets.lesson(secret.number, bytes) {
            Ok(Lesson::Old) => Ok(()),
            Ok(Lesson::New) => {
                let bytes = Vec::from_slice(self.alloc, bytes)?;
                self.secrets.tell(secret.number, bytes);
                Ok(())
            }
            Err(fault) => Err(fault),
        }
    }

    fn is_aside(&self, id: &str) -> bool {
        self.asides.is_aside(id)
    }

    fn is_rest_aside(&self) -> bool {
        self.rest
    }

    fn is_over(&self) -> bool {
        self.over
    }

    fn is_any_aside(&self) -> bool {
        self.asides.is_any() || self.rest || self.over
    }

    fn set_aside(&mut self, id: &str) -> Result<(), StoreFault> {
        match self.asides.find(id) {
            Some(place) => {
                self.asides.say(place, true);
                Ok(())
            }
            None => self.asides.push(id),
        }
    }

    fn take_in(&mut self, id: &str) -> Result<(), StoreFault> {
        if let Some(place) = self.asides.find(id) {
            self.asides.say(place, false);
        }
        Ok(())
    }

    fn set_rest_aside(&mut self) {
        self.rest = true;
    }

    fn end_judging(&mut self) {
        self.over = true;
    }

    fn mark(&mut self) -> Result<Mark, StoreFault> {
        let objects = self.objects.copy(self.alloc)?;
        let secrets = self.secrets.copy(self.alloc)?;
        let asides = self.asides.copy(self.alloc)?;
        self.marks.push(Saved {
            objects,
            secrets,
            asides,
            rest: self.rest,
            over: self.over,
        })?;
        Ok(Mark {
            depth: self.marks.len(),
        })
    }

    fn keep(&mut self, mark: Mark) {
        let Mark { depth: _ } = mark;
        let _ = self.marks.pop();
    }

    fn undo(&mut self, mark: Mark) {
        let Mark { depth: _ } = mark;
        let Some(newest) = self.marks.pop() else {
            return;
        };
        self.objects = newest.objects;
        self.asides = newest.asides;
        self.rest = newest.rest;
    }

    fn back(&mut self, mark: Mark) {
        let Mark { depth: _ } = mark;
        let Some(saved) = self.marks.pop() else {
            return;
        };
        self.objects = saved.objects;
        self.secrets = saved.secrets;
        self.asides = saved.asides;
        self.rest = saved.rest;
        self.over = saved.over;
    }
}
