//! A ledger that writes down what changes.

ghost use Rattle.std.specs.Prelude.{◌≡◌, true, length};
ghost use Rattle.kmipa_store.specs.Histories.{fits, while_marked};
ghost use Rattle.kmipa_store.specs.Journal.{aside_places, dated_at_marks, object_places, secret_places};
ghost use Rattle.kmipa_store.specs.Present.{AreAwaited, EachAwaited};

use crate::aside_ids::AsideIds;
use crate::changes::{
    AsideChange, ObjectChange, Place, SecretChange, forget_unmarked, push_aside, push_object,
    push_secret, renew_object, roll_back, say_aside, set_life, tell_secret,
};
use crate::fault::StoreFault;
use crate::feature::Feature;
use crate::ledger::{Ledger, Mark};
use crate::present::Present;
use crate::secrets::{Lesson, Secrets};
use kmipa_attrs::Filter;
use kmipa_object::{Life, Object, Rule, SecretNo, State};
use std::alloc::Global;

/// A ledger that writes down each change.
///
/// # What a name costs
/// An index lists where the names stand, so that `next_named` and `any_live_named` look at the objects of one name alone; another has
/// the names of live objects, so that `next_live_named` looks at no destroyed one.
///
/// # What a moment costs
/// Each object's state is kept, and its dates to come stand in order: `set_moment` looks again only at the objects with a date between
/// the two moments. It looks at each object where one of the two is below a date that a standing change brought as one of the past: so
/// nobody does who takes calls in the order of their Time Stamps, and goes back by marks.
///
/// # What a mark costs
/// A mark is how many changes there were. Going back takes back what was done since then; no call costs as much as the inventory.
/// A change that finds no room in the journal is taken back at once, so that `keep`, `undo` and `back` take no memory. `undo` takes
/// the objects and what is set aside back, and leaves what was written of the secrets to the marks below. That the rest is set aside, and
/// that judging is over, each mark knows by itself.
#[derive(Drop)]
pub struct Journal {
    alloc: Global,
    present: Present,
    object_changes: Vec<ObjectChange>,
    secrets: Secrets,
    secret_changes: Vec<SecretChange>,
    asides: AsideIds,
    aside_changes: Vec<AsideChange>,
    rest: bool,
    over: bool,
    places: Vec<Place>,
    ghost objects_fit: { fits (length object_changes.items) (object_places places.items) ≡ true },
    ghost secrets_fit: { fits (length secret_changes.items) (secret_places places.items) ≡ true },
    ghost asides_fit: { fits (length aside_changes.items) (aside_places places.items) ≡ true },
    ghost awaited_now: { AreAwaited present.dated },
    ghost awaited_then: { EachAwaited (dated_at_marks present.dated object_changes.items places.items) },
    ghost objects_forgotten: { while_marked places.items object_changes.items ≡ object_changes.items },
    ghost secrets_forgotten: { while_marked places.items secret_changes.items ≡ secret_changes.items },
    ghost asides_forgotten: { while_marked places.items aside_changes.items ≡ aside_changes.items },
}

impl Journal {
    ghost use Rattle.std.specs.Prelude.{pos, []};
    ghost use Rattle.kmipa_store.specs.Aside.{nothing_aside};
    ghost use Rattle.kmipa_store.specs.Ledger.{LedgerState};
    ghost use Rattle.kmipa_store.specs.States.{moment_of_journal, state_of_journal};

    /// A ledger without objects, secrets and marks, where nothing is set aside.
    pub fn new(alloc: Global) -> Journal
        ensures meaning { state_of_journal result ≡ record { now = record { objects = []; secrets = []; aside = nothing_aside }; marks = [] } }
        ensures moment { moment_of_journal result ≡ pos 0 }
    {
        Journal {
            alloc,
            present: Present::new(alloc),
            object_changes: Vec::new(alloc),
            secrets: Secrets::new(alloc),
            secret_changes: Vec::new(alloc),
            asides: AsideIds::new(alloc),
            aside_changes: Vec::new(alloc),
            rest: false,
            over: false,
            places: Vec::new(alloc),
        }
    }
}

impl Ledger for Journal {
    ghost use Rattle.kmipa_store.specs.States.{moment_of_journal, state_of_journal};

    ghost state = { state_of_journal };

    ghost moment = { moment_of_journal };

    fn find(&self, id: &str) -> Option<usize> {
        self.present.find(id)
    }

    fn len(&self) -> usize {
        self.present.len()
    }

    fn at(&self, place: usize) -> &Object {
        self.present.at(place)
    }

    fn next_named(&self, value: &str, kind: u32, from: usize) -> Option<usize> {
        self.present.next_named(value, kind, from)
    }

    fn next_live_named(&self, value: &str, kind: u32, from: usize) -> Option<usize> {
        self.present.next_live_named(value, kind, from)
    }

    fn any_live_named(&self, value: &str, kind: u32) -> bool {
        self.present.any_live_named(value, kind)
    }

    fn next_with(&self, feature: Feature, from: usize) -> Option<usize> {
        self.present.next_with(feature, from)
    }

    fn prepare(&mut self, feature: Feature) {
        self.present.prepare(feature);
    }

    fn ahead(&self, filter: &Filter, from: usize) -> usize {
        self.present.ahead(filter, from)
    }

    fn end_of(&self, filter: &Filter) -> usize {
        self.present.end_of(filter)
    }

    fn remember(&mut self, filter: &Filter, from: usize, to: usize) {
        self.present.remember(filter, from, to);
    }

    fn moment(&self) -> i64 {
        self.present.moment()
    }

    fn set_moment(&mut self, t: i64) {
        self.present.set_moment(t);
    }

    fn state(&self, place: usize) -> State {
        self.present.state(place)
    }

    fn add(&mut self, object: Object) -> Result<usize, StoreFault> {
        if let Some(_taken) = self.present.find(object.id.as_str()) {
            return Err(StoreFault::IdentifierTaken);
        }
        let place = self.present.len();
        push_object(
            &mut self.present,
            &mut self.object_changes,
            &self.places,
            object,
        )?;
        Ok(place)
    }

    fn replace(&mut self, place: usize, life: Life) -> Result<(), StoreFault> {
        set_life(
            &mut self.present,
            &mut self.object_changes,
            &self.places,
            place,
            life,
        )
    }

    fn renew(&mut self, place: usize, object: Object) -> Result<(), StoreFault> {
        renew_object(
            &mut self.present,
            &mut self.object_changes,
            &self.places,
            place,
            object,
        )
    }

    fn new_secret(&mut self, rule: Rule) -> Result<SecretNo, StoreFault> {
        if !rule.is_possible() {
            return Err(StoreFault::LengthImpossible);
        }
        let number = self.secrets.len();
        push_secret(
            &mut self.secrets,
            &mut self.secret_changes,
            &self.places,
            rule,
        )?;
        Ok(SecretNo { number })
    }

    fn secret(&self, secret: SecretNo) -> Option<&[u8]> {
        self.secrets.known(secret.number)
    }

    fn learn(&mut self, secret: SecretNo, bytes: &[u8]) -> Result<(), StoreFault> {
        match self.secrets.lesson(secret.number, bytes) {
            Ok(Lesson::Old) => Ok(()),
            Ok(Lesson::New) => {
                let bytes = Vec::from_slice(self.alloc, bytes)?;
                tell_secret(
                    &mut self.secrets,
                    &mut self.secret_changes,
                    &self.places,
                    secret.number,
                    bytes,
                )
            }
            Err(fault) => Err(fault),
        }
    }

    fn is_aside(&self, id: &str) -> bool {
        self.asides.is_aside(id)
    }

    fn is_rest_aside(&self) -> bool {
        self.rest
    }

    fn is_over(&self) -> bool {
        self.over
    }

    fn is_any_aside(&self) -> bool {
        self.asides.is_any() || self.rest || self.over
    }

    fn set_aside(&mut self, id: &str) -> Result<(), StoreFault> {
        let asides = &mut self.asides;
        let changes = &mut self.aside_changes;
        match asides.find(id) {
            Some(place) => say_aside(asides, changes, &self.places, place, true),
            None => push_aside(asides, changes, &self.places, id),
        }
    }

    fn take_in(&mut self, id: &str) -> Result<(), StoreFault> {
        let asides = &mut self.asides;
        let changes = &mut self.aside_changes;
        match asides.find(id) {
            Some(place) => say_aside(asides, changes, &self.places, place, false),
            None => Ok(()),
        }
    }

    fn set_rest_aside(&mut self) {
        self.rest = true;
    }

    fn end_judging(&mut self) {
        self.over = true;
    }

    fn mark(&mut self) -> Result<Mark, StoreFault> {
        let place = Place {
            objects: self.object_changes.len(),
            secrets: self.secret_changes.len(),
            asides: self.aside_changes.len(),
            rest: self.rest,
            over: self.over,
        };
        self.places.push(place)?;
        Ok(Mark {
            depth: self.places.len(),
        })
    }

    fn keep(&mut self, mark: Mark) {
        let Mark { depth: _ } = mark;
        let _ = self.places.pop();
        forget_unmarked(&mut self.object_changes, &self.places);
        forget_unmarked(&mut self.secret_changes, &self.places);
        forget_unmarked(&mut self.aside_changes, &self.places);
    }

    fn undo(&mut self, mark: Mark) {
        let Mark { depth: _ } = mark;
        let Some(newest) = self.places.pop() else {
            return;
        };
        roll_back(&mut self.present, &mut self.object_changes, newest.objects);
        roll_back(&mut self.asides, &mut self.aside_changes, newest.asides);
        self.rest = newest.rest;
        forget_unmarked(&mut self.object_changes, &self.places);
        forget_unmarked(&mut self.secret_changes, &self.places);
        forget_unmarked(&mut self.aside_changes, &self.places);
    }

    fn back(&mut self, mark: Mark) {
        let Mark { depth: _ } = mark;
        let Some(place) = self.places.pop() else {
            return;
        };
        roll_back(&mut self.present, &mut self.object_changes, place.objects);
        roll_back(&mut self.secrets, &mut self.secret_changes, place.secrets);
        roll_back(&mut self.asides, &mut self.aside_changes, place.asides);
        self.rest = place.rest;
        self.over = place.over;
        forget_unmarked(&mut self.object_changes, &self.places);
        forget_unmarked(&mut self.secret_changes, &self.places);
        forget_unmarked(&mut self.aside_changes, &self.places);
    }
}
