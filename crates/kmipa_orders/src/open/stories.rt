//! What the answers of a transcript show of each object.

use super::call::{Event, OpenCall};
use super::identifiers::{asked_id, push_named, shown_id};
use kmipa_attrs::{AttrSet, Name, ObjectType};
use kmipa_msgs::{Answer, Ask, Got, Payload, Response};
use kmipa_ops::{Effect, row_of};
use kmipa_record::{Call, Declaration, Entry};
use std::alloc::{AllocError, Global};

/// So many dates of an object are noted at most.
const DATES: usize = 16;

/// A date that an answer shows of an object, and what left it.
#[derive(Clone, Copy, PartialEq, Eq)]
pub struct ShownDate {
    pub event: Event,
    pub date: i64,
}

/// What is told of an object, by whatever call.
#[derive(Drop)]
pub struct Story<'b> {
    /// It is declared, or the answer of a Create or Register names it.
    pub is_brought: bool,
    /// The type and the bytes that a Get shows first.
    pub got: Option<Got<'b>>,
    /// A name that it has.
    pub name: Option<&'b Name>,
    /// The dates that answers show, each once.
    pub dates: Vec<ShownDate>,
    /// The calls without an end mark that change it, by their begin marks.
    pub changers: Vec<usize>,
}

/// The objects that messages name, by their identifiers.
#[derive(Drop)]
pub struct Stories<'b> {
    ids: Vec<&'b str>,
    stories: Vec<Story<'b>>,
}

impl<'b> Stories<'b> {
    /// What these calls show.
    pub fn of<'a>(
        alloc: Global,
        calls: &'b [Call<'a>],
        opens: &[OpenCall<'b, 'a>],
        declaration: &'b Declaration,
    ) -> Result<Stories<'b>, AllocError> {
        let ids = ids_of(alloc, calls)?;
        let stories = empty_stories(alloc, ids.len())?;
        let mut all = Stories { ids, stories };
        all.note_declared(&declaration.entries);
        all.note_calls(calls)?;
        all.note_opens(opens)?;
        Ok(all)
    }

    /// How many objects there are.
    pub fn len(&self) -> usize {
        self.stories.len()
    }

    /// The number of an object.
    pub fn find(&self, id: &'b str) -> Option<usize> {
        match self.ids.binary_search(&id) {
            Ok(number) => Some(number),
            Err(_) => None,
        }
    }

    /// The identifier of an object.
    pub fn id(&self, number: usize) -> Option<&'b str> {
        self.ids.get(number).copied()
    }

    /// What is told of an object.
    pub fn story(&self, number: usize) -> Option<&Story<'b>> {
        self.stories.get(number)
    }

    /// What is told of the object with an identifier, to add to it.
    fn story_of(&mut self, id: &'b str) -> Option<&mut Story<'b>> {
        let number = self.find(id)?;
        self.stories.get_mut(number)
    }

    fn note_declared(&mut self, entries: &'b [Entry]) {
        'entries: for entry in entries {
            self.note_brought(entry.id.as_str());
        }
    }

    fn note_calls<'a>(&mut self, calls: &'b [Call<'a>]) -> Result<(), AllocError> {
        'calls: for call in calls {
            if let Some(response) = &call.response {
                self.note_answers(call.request.items.as_slice(), response)?;
            }
        }
        Ok(())
    }

    fn note_answers<'a>(
        &mut self,
        asks: &'b [Ask<'a>],
        response: &'b Response<'a>,
    ) -> Result<(), AllocError> {
        'items: for (ask, answer) in asks.iter().zip(response.items.iter()) {
            self.note_answer(ask, answer)?;
        }
        Ok(())
    }

    fn note_answer<'a>(
        &mut self,
        ask: &'b Ask<'a>,
        answer: &'b Answer<'a>,
    ) -> Result<(), AllocError> {
        let Some(payload) = &answer.payload else {
            return Ok(());
        };
        let about = shown_id(payload).or(asked_id(ask));
        match payload {
            Payload::Create(made) | Payload::Register(made) => self.note_brought(made.id),
            Payload::Locate(located) => self.note_listed(ask, located.ids.as_slice()),
            Payload::Get(got) => self.note_got(about, got),
            Payload::GetAttributes(got) => self.note_attributes(about, &got.attributes)?,
            Payload::Change(_) => {}
        }
        Ok(())
    }

    fn note_brought(&mut self, id: &'b str) {
        if let Some(story) = self.story_of(id) {
            story.is_brought = true;
        }
    }

    fn note_got(&mut self, about: Option<&'b str>, got: &'b Got<'b>) {
        let Some(id) = about else {
            return;
        };
        if let Some(story) = self.story_of(id) {
            if story.got.is_none() {
                story.got = Some(*got);
            }
        }
    }

    /// What a Locate by a name lists has this name.
    fn note_listed<'a>(&mut self, ask: &'b Ask<'a>, listed: &[&'b str]) {
        let Effect::Lists(filter) = row_of(&ask.asked).effect else {
            return;
        };
        let name = first_name(filter.names.as_slice());
        'ids: for id in listed {
            self.note_name(*id, name);
        }
    }

    fn note_name(&mut self, id: &'b str, name: Option<&'b Name>) {
        if let Some(story) = self.story_of(id) {
            if story.name.is_none() {
                story.name = name;
            }
        }
    }

    fn note_attributes(
        &mut self,
        about: Option<&'b str>,
        shown: &'b AttrSet,
    ) -> Result<(), AllocError> {
        let Some(id) = about else {
            return Ok(());
        };
        self.note_name(id, first_name(shown.names.as_slice()));
        let Some(story) = self.story_of(id) else {
            return Ok(());
        };
        story.note_date(Event::Made, shown.initial)?;
        story.note_date(Event::Activated, shown.activation)?;
        story.note_date(Event::Revoked, shown.deactivation)?;
        story.note_date(Event::Revoked, shown.compromise)?;
        story.note_date(Event::Destroyed, shown.destroy)
    }

    fn note_opens<'a>(&mut self, opens: &[OpenCall<'b, 'a>]) -> Result<(), AllocError> {
        'opens: for (number, open) in opens.iter().enumerate() {
            self.note_changer(open.id(), number)?;
        }
        Ok(())
    }

    fn note_changer(&mut self, id: Option<&'b str>, number: usize) -> Result<(), AllocError> {
        let Some(id) = id else {
            return Ok(());
        };
        if let Some(story) = self.story_of(id) {
            story.changers.push(number)?;
        }
        Ok(())
    }
}

impl<'b> Story<'b> {
    fn note_date(&mut self, event: Event, date: Option<i64>) -> Result<(), AllocError> {
        let Some(date) = date else {
            return Ok(());
        };
        let shown = ShownDate { event, date };
        if self.dates.len() < DATES && !self.dates.contains(&shown) {
            self.dates.push(shown)?;
        }
        Ok(())
    }

    /// Whether a Create or Register can have brought this object: nothing else does, and nothing that is shown of it is another's.
    pub fn may_be_of(&self, ask: &Ask) -> bool {
        if self.is_brought {
            return false;
        }
        match row_of(&ask.asked).effect {
            Effect::Makes(new) => {
                self.is_shown_as(new.kind, new.material()) && self.is_named(new.attributes)
            }
            _ => false,
        }
    }

    /// Whether no Get shows another type, or other bytes than these.
    fn is_shown_as(&self, kind: ObjectType, bytes: Option<&[u8]>) -> bool {
        let Some(got) = self.got else {
            return true;
        };
        if got.shape != kind {
            return false;
        }
        match bytes {
            Some(bytes) => got.block.material == bytes,
            None => true,
        }
    }

    /// Whether no name is known of it but one of these.
    fn is_named(&self, attributes: &AttrSet) -> bool {
        match self.name {
            Some(name) => attributes.names.as_slice().contains(name),
            None => true,
        }
    }
}

/// The identifiers that messages name, each once, in ascending order.
fn ids_of<'b, 'a>(alloc: Global, calls: &'b [Call<'a>]) -> Result<Vec<&'b str>, AllocError> {
    let mut ids = Vec::new(alloc);
    'calls: for call in calls {
        push_named(&mut ids, call)?;
    }
    ids.sort_unstable();
    ids.dedup();
    Ok(ids)
}

fn empty_stories<'b>(alloc: Global, count: usize) -> Result<Vec<Story<'b>>, AllocError> {
    let mut stories = Vec::with_capacity(alloc, count)?;
    'stories: for _ in 0..count {
        stories.push(Story {
            is_brought: false,
            got: None,
            name: None,
            dates: Vec::new(alloc),
            changers: Vec::new(alloc),
        })?;
    }
    Ok(stories)
}

fn first_name(names: &[Name]) -> Option<&Name> {
    names.get(0)
}
