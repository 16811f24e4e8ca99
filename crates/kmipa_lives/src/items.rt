//! Which items of the calls are about which objects.

use crate::fates::{Aim, Fate};
use crate::hidden::{hidden_id, is_hidden};
use crate::looks::Look;
use crate::shown::Shown;
use kmipa_attrs::{AttrSet, Filter, ObjectType};
use kmipa_batch::is_refused_message;
use kmipa_msgs::{Answer, Payload, Status};
use kmipa_ops::New;
use kmipa_record::{Call, Declaration};
use std::alloc::{AllocError, Global};
use std::collections::BTreeMap;

/// An item that is about an object.
#[derive(Clone, Copy, PartialEq, Eq, PartialOrd, Ord)]
pub struct Touch {
    /// The object, by its number here.
    pub object: usize,
    /// The place of the call.
    pub call: usize,
    /// The place of the item in it.
    pub item: usize,
    /// What it does to the object.
    pub fate: Fate,
}

/// What is known of an object from the calls.
#[derive(Clone, Copy)]
pub struct Known<'b> {
    /// Unique Identifier.
    pub id: &'b str,
    /// Its type and its attributes, where its birth or the declaration says them.
    pub given: Option<(ObjectType, &'b AttrSet)>,
    /// The call that brings it.
    pub born: Option<usize>,
    /// A call that destroys it.
    pub gone: Option<usize>,
    /// The last Locate that was noted to list it, counted from 1; 0 where none was.
    pub listed: usize,
    /// What answers show of it.
    pub shown: Shown<'b>,
}

/// Attributes that an object has, if one of the items of open calls that may have brought it did.
#[derive(Clone, Copy)]
pub struct Guise<'b> {
    pub object: usize,
    pub kind: ObjectType,
    pub given: &'b AttrSet,
}

/// The longest identifier of an object that nothing shows: each has so much of it from the front on.
const UNSEEN: &str = "open-unseen................................................................";

/// The shortest of them.
const LEAST_UNSEEN: usize = 11;

/// The objects that the calls and the declaration speak of, and the items about them.
#[derive(Drop)]
pub struct Items<'b> {
    numbers: BTreeMap<&'b str, usize>,
    pub objects: Vec<Known<'b>>,
    pub touches: Vec<Touch>,
    pub looks: Vec<Look<'b>>,
    /// Those of the objects that nothing brings but open calls, object by object.
    pub guises: Vec<Guise<'b>>,
    /// So many objects, the first ones, are declared.
    pub declared: usize,
    /// So many objects are spoken of. Those behind them nothing shows.
    pub known: usize,
}

impl<'b> Known<'b> {
    /// The object with this identifier, of which nothing else is known.
    fn of(id: &'b str) -> Known<'b> {
        Known {
            id,
            given: None,
            born: None,
            gone: None,
            listed: 0,
            shown: Shown::nothing(),
        }
    }
}

impl<'b> Items<'b> {
    /// Those of a declaration and of calls, but for the objects that a Locate leaves out.
    pub(crate) fn of<'a>(
        alloc: Global,
        calls: &'b [Call<'a>],
        declaration: &'b Declaration,
    ) -> Result<Items<'b>, AllocError> {
        let mut items = Items {
            numbers: BTreeMap::new(alloc),
            objects: Vec::new(alloc),
            touches: Vec::new(alloc),
            looks: Vec::new(alloc),
            guises: Vec::new(alloc),
            declared: 0,
            known: 0,
        };
        items.take_entries(declaration)?;
        items.declared = items.objects.len();
        for (place, call) in calls.iter().enumerate() {
            items.take_call(place, call)?;
        }
        items.known = items.objects.len();
        Ok(items)
    }

    /// Whether calls speak of an object.
    pub(crate) fn has(&self, id: &'b str) -> bool {
        self.numbers.get(&id).is_some()
    }

    /// The number of an object that calls speak of.
    pub(crate) fn find(&self, id: &'b str) -> Option<usize> {
        self.numbers.get(&id).copied()
    }

    /// The call that destroys an object, if one is known.
    pub(crate) fn gone(&self, object: usize) -> Option<usize> {
        self.objects.get(object)?.gone
    }

    fn take_entries(&mut self, declaration: &'b Declaration) -> Result<(), AllocError> {
        for entry in &declaration.entries {
            let number = self.number(entry.id.as_str())?;
            if let Some(known) = self.objects.get_mut(number) {
                known.given = Some((entry.kind, &entry.attrs));
            }
        }
        Ok(())
    }

    /// The number of an object, which is known from now on.
    fn number(&mut self, id: &'b str) -> Result<usize, AllocError> {
        if let Some(number) = self.numbers.get(&id) {
            return Ok(*number);
        }
        let number = self.objects.len();
        self.objects.push(Known::of(id))?;
        self.numbers.insert(id, number)?;
        Ok(number)
    }

    /// The number of an object that nothing shows.
    pub(crate) fn add_unseen(&mut self) -> Result<usize, AllocError> {
        let number = self.objects.len();
        let most = number
            .saturating_sub(self.known)
            .saturating_add(LEAST_UNSEEN);
        self.objects
            .push(Known::of(UNSEEN.get(..most).unwrap_or(UNSEEN)))?;
        Ok(number)
    }

    /// Notes attributes that an object may have, behind those of all objects of lesser numbers.
    pub(crate) fn note_guise(&mut self, guise: Guise<'b>) -> Result<(), AllocError> {
        self.guises.push(guise)?;
        if let Some(known) = self.objects.get_mut(guise.object) {
            if known.given.is_none() {
                known.given = Some((guise.kind, guise.given));
            }
        }
        Ok(())
    }

    fn take_call<'a>(&mut self, place: usize, call: &'b Call<'a>) -> Result<(), AllocError> {
        let Some(response) = &call.response else {
            return Ok(());
        };
        if is_refused_message(response) {
            return Ok(());
        }
        let mut held = None;
        for (item, (ask, answer)) in call
            .request
            .items
            .iter()
            .zip(response.items.iter())
            .enumerate()
        {
            let aim = Aim::of(ask);
            held = if is_hidden(ask, answer) {
                self.take_hidden(call, place, item, aim)?
            } else {
                self.take_item(place, item, aim, answer, held)?
            };
            self.note_shown(call, aim, answer, held);
        }
        Ok(())
    }

    /// Notes an item that was undone and whose payload is hidden, and answers what the ID Placeholder holds behind it, as far as a later item shows it.
    fn take_hidden<'a>(
        &mut self,
        call: &'b Call<'a>,
        place: usize,
        item: usize,
        aim: Aim<'b>,
    ) -> Result<Option<&'b str>, AllocError> {
        let held = hidden_id(call, item);
        if let (Aim::Newborn(new), Some(id)) = (aim, held) {
            self.take_birth(id, place, item, new)?;
        }
        Ok(held)
    }

    /// Notes what an answer shows of an object.
    fn note_shown<'a>(
        &mut self,
        call: &'b Call<'a>,
        aim: Aim<'b>,
        answer: &'b Answer<'a>,
        held: Option<&'b str>,
    ) {
        if answer.status == Status::Failed {
            return;
        }
        let end = call.end.unwrap_or(usize::MAX);
        match (&answer.payload, aim) {
            (Some(Payload::Locate(located)), Aim::Fitting(filter)) => {
                for id in &located.ids {
                    if let Some(shown) = self.shown(id) {
                        shown.take_listed(filter, end);
                    }
                }
            }
            (payload, Aim::Object(id, _)) => {
                if let Some(id) = id.or(held) {
                    let given = self.given(id);
                    if let Some(shown) = self.shown(id) {
                        shown.take(payload, end, given);
                    }
                }
            }
            _ => {}
        }
    }

    /// The attributes that an object was given at its birth, where that is known.
    fn given(&self, id: &'b str) -> Option<&'b AttrSet> {
        let number = self.find(id)?;
        let known = self.objects.get(number)?;
        match known.given {
            Some((_, given)) => Some(given),
            None => None,
        }
    }

    /// What is shown of an object that is known.
    fn shown(&mut self, id: &'b str) -> Option<&mut Shown<'b>> {
        let number = self.find(id)?;
        match self.objects.get_mut(number) {
            Some(known) => Some(&mut known.shown),
            None => None,
        }
    }

    /// Notes whom an item is about, and answers what the ID Placeholder holds behind it.
    fn take_item<'a>(
        &mut self,
        call: usize,
        item: usize,
        aim: Aim<'b>,
        answer: &'b Answer<'a>,
        held: Option<&'b str>,
    ) -> Result<Option<&'b str>, AllocError> {
        let is_done = answer.status != Status::Failed;
        match aim {
            Aim::Object(id, fate) => {
                if let Some(id) = id.or(held) {
                    let object = self.touch(id, call, item, fate)?;
                    self.note_end(object, call, fate, answer.status);
                }
                Ok(held)
            }
            Aim::Newborn(new) => match brought(&answer.payload) {
                Some(id) if is_done => {
                    self.take_birth(id, call, item, new)?;
                    Ok(Some(id))
                }
                _ => Ok(held),
            },
            Aim::Fitting(filter) => match listed(&answer.payload) {
                Some(ids) if is_done => self.take_look(call, item, filter, ids),
                _ => Ok(held),
            },
            Aim::Nothing | Aim::Unread => Ok(held),
        }
    }

    fn take_look<'a>(
        &mut self,
        call: usize,
        item: usize,
        filter: &'b Filter,
        ids: &'b [&'a str],
    ) -> Result<Option<&'b str>, AllocError> {
        let from = self.touches.len();
        for id in ids {
            self.touch(id, call, item, Fate::Listed)?;
        }
        self.looks.push(Look {
            call,
            item,
            filter,
            from,
            to: self.touches.len(),
        })?;
        match ids {
            [only] => Ok(Some(only)),
            _ => Ok(None),
        }
    }

    /// Notes an item that is about an object.
    pub(crate) fn touch(
        &mut self,
        id: &'b str,
        call: usize,
        item: usize,
        fate: Fate,
    ) -> Result<usize, AllocError> {
        let object = self.number(id)?;
        self.touches.push(Touch {
            object,
            call,
            item,
            fate,
        })?;
        Ok(object)
    }

    /// Notes an item that brings an object.
    fn take_birth(
        &mut self,
        id: &'b str,
        call: usize,
        item: usize,
        new: New<'b>,
    ) -> Result<(), AllocError> {
        let object = self.touch(id, call, item, Fate::Born)?;
        if let Some(known) = self.objects.get_mut(object) {
            known.given = Some((new.kind, new.attributes));
            known.born = Some(call);
        }
        Ok(())
    }

    fn note_end(&mut self, object: usize, call: usize, fate: Fate, status: Status) {
        if let (Fate::Destroyed, Status::Success) = (fate, status) {
            if let Some(known) = self.objects.get_mut(object) {
                known.gone = Some(call);
            }
        }
    }
}

/// The identifier of the object that an answer brings.
pub(crate) fn brought<'b, 'a>(payload: &'b Option<Payload<'a>>) -> Option<&'b str> {
    match payload {
        Some(Payload::Create(created)) => Some(created.id),
        Some(Payload::Register(registered)) => Some(registered.id),
        _ => None,
    }
}

/// The identifiers that an answer lists.
fn listed<'b, 'a>(payload: &'b Option<Payload<'a>>) -> Option<&'b [&'a str]> {
    match payload {
        Some(Payload::Locate(located)) => Some(located.ids.as_slice()),
        _ => None,
    }
}
