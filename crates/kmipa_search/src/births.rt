//! What answers show that the server itself gave objects at birth. Nothing rests on it: a check judges what is made of it.

use kmipa_attrs::{AttrSet, Name, write_attrs};
use kmipa_msgs::{Answer, Ask, Got, Payload, Status};
use kmipa_object::{Act, State};
use kmipa_ops::{Change, Effect, New, row_of};
use kmipa_orders::{asked_id, shown_id};
use kmipa_record::{Birth, Call, OwnAttribute};
use std::alloc::{AllocError, Global};

/// The State Active, by its number.
const ACTIVE: u32 = State::Active as u32;

/// Attributes that the server itself seems to have given what an item brought forth.
#[derive(Drop)]
struct Given {
    /// The place of the item, counted from 1.
    item: i32,
    attributes: AttrSet,
}

/// What the server itself seems to have given at birth, by calls.
#[derive(Drop)]
pub(crate) struct GivenAtBirth {
    all: Vec<Given>,
    /// Where what was given by each call begins, and behind them all where the last ends.
    starts: Vec<usize>,
}

impl GivenAtBirth {
    /// Nothing was given.
    pub fn none(alloc: Global) -> GivenAtBirth {
        GivenAtBirth {
            all: Vec::new(alloc),
            starts: Vec::new(alloc),
        }
    }

    pub fn is_empty(&self) -> bool {
        self.all.is_empty()
    }

    /// The births of the call at a place.
    pub fn births(&self, alloc: Global, place: usize) -> Result<Vec<Birth>, AllocError> {
        let mut births = Vec::new(alloc);
        for given in self.of_call(place) {
            births.push(Birth {
                item: given.item,
                attributes: write_attrs(alloc, &given.attributes)?,
            })?;
        }
        Ok(births)
    }

    /// What is added from now on was given by the call at this place, or by one behind it.
    fn begin(&mut self, place: usize) -> Result<(), AllocError> {
        for _ in self.starts.len()..=place {
            self.starts.push(self.all.len())?;
        }
        Ok(())
    }

    fn of_call(&self, place: usize) -> &[Given] {
        let start = self.starts.get(place).copied().unwrap_or(0);
        let end = self
            .starts
            .get(place.saturating_add(1))
            .copied()
            .unwrap_or(0);
        self.all.get(start..end).unwrap_or(&[])
    }
}

/// An object that a Create or a Register brought forth.
#[derive(Drop)]
struct Born<'b> {
    /// The place of the call.
    call: usize,
    /// The place of the item, counted from 1.
    item: i32,
    /// The Time Stamp of the answer.
    stamp: i64,
    /// What its client gave it, and the algorithm and the length that stand there or in its Key Block.
    asked: &'b AttrSet,
    algorithm: Option<u32>,
    length: Option<i32>,
    /// The first begin mark of a call that activated it, if one did.
    activated: Option<usize>,
    /// The first begin mark of a call that revoked or destroyed it, if one did.
    ended: Option<usize>,
    /// What the server itself seems to have given it.
    given: AttrSet,
}

/// The objects that a recording brings forth.
#[derive(Drop)]
struct Births<'b> {
    /// Their identifiers, in ascending order, and beside each the number of its object.
    ids: Vec<&'b str>,
    numbers: Vec<usize>,
    objects: Vec<Born<'b>>,
}

/// What the calls at these places, one after the other, show that the server itself gave, of the attributes that it may give.
pub(crate) fn given_at_birth<'b, 'a>(
    alloc: Global,
    calls: &'b [Call<'a>],
    places: &[usize],
    own: &[OwnAttribute],
) -> Result<GivenAtBirth, AllocError> {
    let mut births = Births::of(alloc, calls)?;
    for call in calls {
        births.note_changes(call);
    }
    for place in places {
        if let Some(call) = calls.get(*place) {
            births.note_shown(alloc, call)?;
        }
    }
    births.given(alloc, calls.len(), own)
}

impl<'b> Births<'b> {
    fn of<'a>(alloc: Global, calls: &'b [Call<'a>]) -> Result<Births<'b>, AllocError> {
        let mut objects = Vec::new(alloc);
        let mut named = Vec::new(alloc);
        for (place, call) in calls.iter().enumerate() {
            push_born(&mut objects, &mut named, place, call)?;
        }
        named.sort_unstable();
        let mut ids: Vec<&'b str> = Vec::with_capacity(alloc, named.len())?;
        let mut numbers = Vec::with_capacity(alloc, named.len())?;
        for (id, number) in &named {
            if ids.last() != Some(id) {
                ids.push(*id)?;
                numbers.push(*number)?;
            }
        }
        Ok(Births {
            ids,
            numbers,
            objects,
        })
    }

    /// The object with an identifier.
    fn find(&mut self, id: &'b str) -> Option<&mut Born<'b>> {
        let Ok(at) = self.ids.binary_search(&id) else {
            return None;
        };
        let number = *self.numbers.get(at)?;
        self.objects.get_mut(number)
    }

    /// Notes the objects that a call changed.
    fn note_changes<'a>(&mut self, call: &'b Call<'a>) {
        let Some(response) = &call.response else {
            return;
        };
        for (ask, answer) in call.request.items.iter().zip(response.items.iter()) {
            self.note_change(call.begin, ask, answer);
        }
    }

    fn note_change<'a>(&mut self, begin: usize, ask: &'b Ask<'a>, answer: &'b Answer<'a>) {
        let Effect::Changes(change) = row_of(&ask.asked).effect else {
            return;
        };
        if answer.status != Status::Success {
            return;
        }
        let Some(object) = about(ask, answer).and_then(|id| self.find(id)) else {
            return;
        };
        match change {
            Change::Activate => object.activated = earlier(object.activated, begin),
            Change::Revoke(_) | Change::Destroy => object.ended = earlier(object.ended, begin),
        }
    }

    /// Notes what the answer to a call shows.
    fn note_shown<'a>(&mut self, alloc: Global, call: &'b Call<'a>) -> Result<(), AllocError> {
        let (Some(response), Some(end)) = (&call.response, call.end) else {
            return Ok(());
        };
        for (ask, answer) in call.request.items.iter().zip(response.items.iter()) {
            self.note_answer(alloc, end, ask, answer)?;
        }
        Ok(())
    }

    fn note_answer<'a>(
        &mut self,
        alloc: Global,
        end: usize,
        ask: &'b Ask<'a>,
        answer: &'b Answer<'a>,
    ) -> Result<(), AllocError> {
        if let Some(Payload::Locate(located)) = &answer.payload {
            return self.note_listed(alloc, ask, located.ids.as_slice());
        }
        let Some(object) = about(ask, answer).and_then(|id| self.find(id)) else {
            return Ok(());
        };
        if is_of_the_active(ask, answer) {
            object.note_active(end);
        }
        match &answer.payload {
            Some(Payload::Get(got)) => object.note_got(got),
            Some(Payload::GetAttributes(got)) => object.note_attributes(
                alloc,
                end,
                &got.attributes,
            )?,
            _ => {}
        }
        Ok(())
    }

    /// What a Locate by names lists has these names.
    fn note_listed<'a>(
        &mut self,
        alloc: Global,
        ask: &'b Ask<'a>,
        listed: &[&'b str],
    ) -> Result<(), AllocError> {
        let Effect::Lists(filter) = row_of(&ask.asked).effect else {
            return Ok(());
        };
        for id in listed {
            if let Some(object) = self.find(*id) {
                object.note_names(alloc, filter.names.as_slice())?;
            }
        }
        Ok(())
    }

    /// What was given by so many calls, of these attributes.
    fn given(
        self,
        alloc: Global,
        calls: usize,
        own: &[OwnAttribute],
    ) -> Result<GivenAtBirth, AllocError> {
        let mut given = GivenAtBirth::none(alloc);
        for object in self.objects {
            given.begin(object.call)?;
            let attributes = only_own(alloc, object.given, own);
            if gives_some(&attributes) {
                given.all.push(Given {
                    item: object.item,
                    attributes,
                })?;
            }
        }
        given.begin(calls)?;
        Ok(given)
    }
}

impl<'b> Born<'b> {
    /// An answer that was there at this mark needs the object to be active. Where no call can have activated it the server did, at birth.
    fn note_active(&mut self, end: usize) {
        if !is_before(self.activated, end) && self.asked.activation.is_none() {
            self.given.activation = self.given.activation.or(Some(self.stamp));
        }
    }

    fn note_got(&mut self, got: &Got<'b>) {
        self.note_algorithm(got.block.algorithm);
        self.note_length(got.block.length);
    }

    fn note_attributes(
        &mut self,
        alloc: Global,
        end: usize,
        shown: &AttrSet,
    ) -> Result<(), AllocError> {
        self.note_names(alloc, shown.names.as_slice())?;
        self.note_algorithm(shown.algorithm);
        self.note_length(shown.length);
        if shown.mask != self.asked.mask {
            self.given.mask = self.given.mask.or(shown.mask);
        }
        if !is_before(self.activated, end) && shown.activation != self.asked.activation {
            self.given.activation = self.given.activation.or(shown.activation);
        }
        if !is_before(self.ended, end) && shown.deactivation != self.asked.deactivation {
            self.given.deactivation = self.given.deactivation.or(shown.deactivation);
        }
        if shown.state == Some(ACTIVE) {
            self.note_active(end);
        }
        Ok(())
    }

    fn note_algorithm(&mut self, shown: Option<u32>) {
        if shown != self.algorithm {
            self.given.algorithm = self.given.algorithm.or(shown);
        }
    }

    fn note_length(&mut self, shown: Option<i32>) {
        if shown != self.length {
            self.given.length = self.given.length.or(shown);
        }
    }

    /// Notes the names that its client didn't give it.
    fn note_names(&mut self, alloc: Global, shown: &[Name]) -> Result<(), AllocError> {
        for name in shown {
            let is_known = self.asked.names.as_slice().contains(name)
                || self.given.names.as_slice().contains(name);
            if !is_known {
                self.given.names.push(name.copy(alloc)?)?;
            }
        }
        Ok(())
    }
}

/// Adds what the items of the call at a place bring forth, and the identifiers of that beside their numbers.
fn push_born<'b, 'a>(
    objects: &mut Vec<Born<'b>>,
    named: &mut Vec<(&'b str, usize)>,
    place: usize,
    call: &'b Call<'a>,
) -> Result<(), AllocError> {
    let Some(response) = &call.response else {
        return Ok(());
    };
    let mut item: i32 = 0;
    for (ask, answer) in call.request.items.iter().zip(response.items.iter()) {
        item = item.saturating_add(1);
        let Effect::Makes(new) = row_of(&ask.asked).effect else {
            continue;
        };
        let Some(Payload::Create(made) | Payload::Register(made)) = &answer.payload else {
            continue;
        };
        named.push((made.id, objects.len()))?;
        objects.push(born_of(new, place, item, response.stamp))?;
    }
    Ok(())
}

/// An object of which nothing was shown.
fn born_of<'b>(new: New<'b>, call: usize, item: i32, stamp: i64) -> Born<'b> {
    let (algorithm, length) = match new.block {
        Some(block) => (block.algorithm, block.length),
        None => (None, None),
    };
    Born {
        call,
        item,
        stamp,
        asked: new.attributes,
        algorithm: new.attributes.algorithm.or(algorithm),
        length: new.attributes.length.or(length),
        activated: None,
        ended: None,
        given: AttrSet::new(*new.attributes.names.allocator()),
    }
}

/// The object that an item is about, as far as it names one.
fn about<'b, 'a>(ask: &'b Ask<'a>, answer: &'b Answer<'a>) -> Option<&'b str> {
    answer
        .payload
        .as_ref()
        .and_then(|payload| shown_id(payload))
        .or(asked_id(ask))
}

/// Whether an item is answered so of an active object alone: a Revoke that is no compromise succeeds, or an Activate fails.
fn is_of_the_active(ask: &Ask, answer: &Answer) -> bool {
    match row_of(&ask.asked).subject.act() {
        Some(Act::RevokeOther) => answer.status == Status::Success,
        Some(Act::Activate) => answer.status == Status::Failed,
        _ => false,
    }
}

/// The lesser of two marks.
fn earlier(one: Option<usize>, other: usize) -> Option<usize> {
    match one {
        Some(mark) if mark < other => Some(mark),
        _ => Some(other),
    }
}

/// Whether there is such a mark, and it stands before this one.
fn is_before(mark: Option<usize>, end: usize) -> bool {
    match mark {
        Some(mark) => mark < end,
        None => false,
    }
}

/// Of these attributes those that the server itself may give.
fn only_own(alloc: Global, given: AttrSet, own: &[OwnAttribute]) -> AttrSet {
    let mut kept = AttrSet::new(alloc);
    let AttrSet {
        names,
        algorithm,
        length,
        mask,
        activation,
        deactivation,
        ..
    } = given;
    if own.contains(&OwnAttribute::Name) {
        kept.names = names;
    }
    for attribute in own {
        match attribute {
            OwnAttribute::Name => {}
            OwnAttribute::CryptographicAlgorithm => kept.algorithm = algorithm,
            OwnAttribute::CryptographicLength => kept.length = length,
            OwnAttribute::CryptographicUsageMask => kept.mask = mask,
            OwnAttribute::ActivationDate => kept.activation = activation,
            OwnAttribute::DeactivationDate => kept.deactivation = deactivation,
        }
    }
    kept
}

/// Whether some attribute is there, of those that a server may give.
fn gives_some(attributes: &AttrSet) -> bool {
    !attributes.names.as_slice().is_empty()
        || attributes.algorithm.is_some()
        || attributes.length.is_some()
        || attributes.mask.is_some()
        || attributes.activation.is_some()
        || attributes.deactivation.is_some()
}
