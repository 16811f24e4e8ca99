//! The objects that plain calls name, and those of them that may be about each. Nothing is promised of them: what is found of an object is judged over all
//! calls (`refutes`).

use crate::candidate::Candidate;
use crate::plain::candidate_of;
use kmipa_attrs::{AttrSet, Filter};
use kmipa_msgs::{Answer, Ask, Asked, Payload, Status};
use kmipa_ops::{Effect, row_of};
use kmipa_parts::{about, held_after, may_touch};
use kmipa_record::{Call, Declaration};
use std::alloc::{AllocError, Global};

/// Of the Locates that ask for one name, and of those that ask for none, so many are looked at for an object.
const MOST_LOCATES: usize = 256;

/// So many objects of one name are looked at together at most.
const MOST_TOGETHER: usize = 64;

/// So many calls are noted in all for each two objects of one name, at most.
const MOST_NOTED: usize = 1_000_000;

/// As many are counted for two objects at least.
const LEAST_NOTED: usize = 100;

/// So many steps are made for each two of them at most.
const PAIR_STEPS: u64 = 2_000;

/// Objects, by their identifiers, the places of the calls that name them, in their order, and how many steps are made for them at most.
#[derive(Drop)]
pub struct Suspect<'a> {
    pub ids: Vec<&'a str>,
    pub places: Vec<usize>,
    pub most: u64,
}

/// Each object alone, those of the fewest calls first; then, in the same order, those together that bear one name; and then each two of these.
#[derive(Drop)]
pub struct Suspects<'a> {
    pub objects: Vec<Suspect<'a>>,
    /// So many of them are one object alone.
    pub alone: usize,
    /// The places of Locates that ask for no name: they may be about any object.
    nameless: Vec<usize>,
    /// The places of the calls that aren't plain.
    others: Vec<usize>,
}

/// The objects that bear a name.
#[derive(Drop)]
struct Bearers<'b, 'a> {
    name: &'b str,
    ids: Vec<&'a str>,
}

/// What calls name, on the way.
#[derive(Drop)]
struct Namings<'b, 'a> {
    /// Objects, and the places of the calls that name them.
    objects: Vec<(&'a str, usize)>,
    /// The first names of new objects, the places of the calls that make them, and their identifiers.
    names: Vec<(&'b str, usize, &'a str)>,
    /// The first names that Locates ask for, and their places.
    asked: Vec<(&'b str, usize)>,
    /// The places of Locates that ask for no name.
    nameless: Vec<usize>,
    /// The places of the calls that aren't plain.
    others: Vec<usize>,
}

/// The objects that calls name, and those that bear a name beside declared ones.
pub fn named_objects<'b, 'a>(
    alloc: Global,
    declaration: &'a Declaration,
    calls: &'b [Call<'a>],
) -> Result<Suspects<'a>, AllocError> {
    let mut namings = Namings {
        objects: Vec::new(alloc),
        names: Vec::new(alloc),
        asked: Vec::new(alloc),
        nameless: Vec::new(alloc),
        others: Vec::new(alloc),
    };
    for (place, call) in calls.iter().enumerate() {
        namings.push_call(place, call)?;
    }
    let Namings {
        objects: mut named,
        mut names,
        mut asked,
        nameless,
        others,
    } = namings;
    names.sort()?;
    asked.sort()?;
    push_asked(&mut named, &names, &asked)?;
    named.sort()?;
    let objects = grouped(alloc, &named)?;
    push_declared(&mut names, declaration)?;
    let alike = named_alike(alloc, &names)?;
    let together = of_one_name(alloc, &alike, &objects)?;
    let pairs = pairs_of(alloc, &alike, &objects)?;
    let alone = objects.len();
    let mut all = fewest_first(objects)?;
    push_all(&mut all, fewest_first(together)?)?;
    push_all(&mut all, pairs)?;
    Ok(Suspects {
        objects: all,
        alone,
        nameless,
        others,
    })
}

/// These, those of the fewest calls first.
fn fewest_first<'a>(objects: Vec<Suspect<'a>>) -> Result<Vec<Suspect<'a>>, AllocError> {
    let mut sorted = objects;
    sorted.sort_by(|x: &Suspect, y: &Suspect| x.places.len().cmp(&y.places.len()))?;
    Ok(sorted)
}

fn push_all<'a>(all: &mut Vec<Suspect<'a>>, more: Vec<Suspect<'a>>) -> Result<(), AllocError> {
    for one in more {
        all.push(one)?;
    }
    Ok(())
}

impl<'a> Suspects<'a> {
    /// Whether one of the calls that aren't plain may touch an object.
    pub fn is_touched(&self, calls: &[Call], ids: &[&str]) -> bool {
        for place in &self.others {
            if let Some(call) = calls.get(*place) {
                if may_touch(ids, &call.request) {
                    return true;
                }
            }
        }
        false
    }

    /// The places of the calls that may be about an object, each once and in their order.
    pub fn places(&self, alloc: Global, object: &Suspect<'a>) -> Result<Vec<usize>, AllocError> {
        let mut all = Vec::from_slice(alloc, &object.places)?;
        for place in &self.nameless {
            all.push(*place)?;
        }
        each_once(alloc, all)
    }
}

impl<'b, 'a> Namings<'b, 'a> {
    /// What a call names, where it is plain.
    fn push_call(&mut self, place: usize, call: &'b Call<'a>) -> Result<(), AllocError> {
        match candidate_of(call) {
            Some(plain) => self.push_plain(place, &plain),
            None => Ok(self.others.push(place)?),
        }
    }

    /// What a plain call names.
    fn push_plain(&mut self, place: usize, call: &Candidate<'b, 'a>) -> Result<(), AllocError> {
        let mut held = None;
        for (ask, answer) in call.request.items.iter().zip(call.response.items.iter()) {
            self.push_item(place, held, ask, answer)?;
            held = held_after(held, ask, answer);
        }
        Ok(())
    }

    /// What an item names.
    fn push_item(
        &mut self,
        place: usize,
        held: Option<&'a str>,
        ask: &'b Ask<'a>,
        answer: &'b Answer<'a>,
    ) -> Result<(), AllocError> {
        if let Some(id) = about(held, ask, answer) {
            self.objects.push((id, place))?;
            if let Some(name) = new_name(&ask.asked) {
                self.names.push((name, place, id))?;
            }
        }
        match row_of(&ask.asked).effect {
            Effect::Lists(filter) => self.push_located(place, filter, answer),
            _ => Ok(()),
        }
    }

    /// What a Locate lists, and the name that it asks for.
    fn push_located(
        &mut self,
        place: usize,
        filter: &'b Filter,
        answer: &'b Answer<'a>,
    ) -> Result<(), AllocError> {
        if answer.status == Status::Failed {
            return Ok(());
        }
        if let Some(Payload::Locate(located)) = &answer.payload {
            for id in &located.ids {
                self.objects.push((*id, place))?;
            }
        }
        match filter.names.as_slice().first() {
            Some(name) => self.asked.push((name.value.as_str(), place))?,
            None => self.push_nameless(place)?,
        }
        Ok(())
    }

    /// A Locate that asks for no name.
    fn push_nameless(&mut self, place: usize) -> Result<(), AllocError> {
        if self.nameless.len() < MOST_LOCATES {
            self.nameless.push(place)?;
        }
        Ok(())
    }
}

/// The first name of the object that an item makes.
fn new_name<'c>(asked: &'c Asked) -> Option<&'c str> {
    match row_of(asked).effect {
        Effect::Makes(new) => first_name(new.attributes),
        _ => None,
    }
}

fn first_name(attributes: &AttrSet) -> Option<&str> {
    match attributes.names.as_slice().first() {
        Some(name) => Some(name.value.as_str()),
        None => None,
    }
}

/// The objects whose first name Locates ask for, and the places of these: both lists are sorted.
fn push_asked<'c, 'a>(
    objects: &mut Vec<(&'a str, usize)>,
    names: &[(&'c str, usize, &'a str)],
    asked: &[(&'c str, usize)],
) -> Result<(), AllocError> {
    let mut from = 0;
    for name in names {
        let (own, _place, id) = *name;
        from = first_asked(asked, from, own);
        for locate in asked.iter().skip(from).take(MOST_LOCATES) {
            let (sought, place) = *locate;
            if sought == own {
                objects.push((id, place))?;
            }
        }
    }
    Ok(())
}

/// Where the Locates of this name begin, or of the next one, from one on.
fn first_asked(asked: &[(&str, usize)], from: usize, own: &str) -> usize {
    let mut at = from;
    'asked: while at < asked.len() {
        let (sought, _place) = asked[at];
        if sought >= own {
            return at;
        }
        at += 1;
    }
    at
}

/// The places by object, each once: the list is sorted.
fn grouped<'a>(
    alloc: Global,
    objects: &[(&'a str, usize)],
) -> Result<Vec<Suspect<'a>>, AllocError> {
    let mut found: Vec<Suspect<'a>> = Vec::new(alloc);
    for object in objects {
        let (id, place) = *object;
        if !is_last(&found, id) {
            found.push(Suspect {
                ids: one(alloc, id)?,
                places: Vec::new(alloc),
                most: u64::MAX,
            })?;
        }
        if let Some(last) = found.last_mut() {
            push_once(&mut last.places, place)?;
        }
    }
    Ok(found)
}

/// Whether this is the object that was found last.
fn is_last(found: &[Suspect], id: &str) -> bool {
    match found.last() {
        Some(last) => last.ids.as_slice().first() == Some(&id),
        None => false,
    }
}

/// One identifier.
fn one<'a>(alloc: Global, id: &'a str) -> Result<Vec<&'a str>, AllocError> {
    let mut ids = Vec::with_capacity(alloc, 1)?;
    ids.push(id)?;
    Ok(ids)
}

/// The first names of declared objects, among those of new ones in their order.
fn push_declared<'b, 'a>(
    names: &mut Vec<(&'b str, usize, &'a str)>,
    declaration: &'a Declaration,
) -> Result<(), AllocError>
where
    'a: 'b,
{
    for entry in &declaration.entries {
        if let Some(name) = first_name(&entry.attrs) {
            names.push((name, 0, entry.id.as_str()))?;
        }
    }
    names.sort()
}

/// The objects of each name that several bear, though not too many: the objects are sorted by their identifiers.
fn of_one_name<'a>(
    alloc: Global,
    alike: &[Bearers<'_, 'a>],
    objects: &[Suspect<'a>],
) -> Result<Vec<Suspect<'a>>, AllocError> {
    let mut together = Vec::new(alloc);
    for bearers in alike {
        if bearers.ids.len() > 1 && bearers.ids.len() <= MOST_TOGETHER {
            together.push(Suspect {
                ids: Vec::from_slice(alloc, &bearers.ids)?,
                places: places_of_all(alloc, &bearers.ids, objects)?,
                most: u64::MAX,
            })?;
        }
    }
    Ok(together)
}

/// Each two objects of one name that more than two bear, those first that were made one behind the other, as far as their calls may be noted.
fn pairs_of<'a>(
    alloc: Global,
    alike: &[Bearers<'_, 'a>],
    objects: &[Suspect<'a>],
) -> Result<Vec<Suspect<'a>>, AllocError> {
    let mut pairs = Pairs {
        found: Vec::new(alloc),
        room: MOST_NOTED,
    };
    for apart in 1..MOST_TOGETHER {
        pairs.push_apart(alloc, alike, apart, objects)?;
    }
    Ok(pairs.found)
}

/// Two objects of one name each, and how many calls may be noted behind them.
#[derive(Drop)]
struct Pairs<'a> {
    found: Vec<Suspect<'a>>,
    room: usize,
}

impl<'a> Pairs<'a> {
    /// Of each name those that stand so many apart.
    fn push_apart(
        &mut self,
        alloc: Global,
        alike: &[Bearers<'_, 'a>],
        apart: usize,
        objects: &[Suspect<'a>],
    ) -> Result<(), AllocError> {
        for bearers in alike {
            if bearers.ids.len() > 2 {
                self.push(alloc, &bearers.ids, apart, objects)?;
            }
        }
        Ok(())
    }

    /// Each of these and the one that stands so many behind it; none where their calls are too many, and then none behind these.
    fn push(
        &mut self,
        alloc: Global,
        ids: &[&'a str],
        apart: usize,
        objects: &[Suspect<'a>],
    ) -> Result<(), AllocError> {
        for (one, other) in ids.iter().zip(ids.iter().skip(apart)) {
            let both = [*one, *other];
            let places = places_of_all(alloc, &both, objects)?;
            let noted = usize::max(places.len(), LEAST_NOTED);
            if noted > self.room {
                self.room = 0;
                return Ok(());
            }
            self.room = self.room.saturating_sub(noted);
            self.found.push(Suspect {
                ids: Vec::from_slice(alloc, &both)?,
                places,
                most: PAIR_STEPS,
            })?;
        }
        Ok(())
    }
}

/// The names, each once, with the objects that bear them, in the order in which they were made: the list is sorted.
fn named_alike<'b, 'a>(
    alloc: Global,
    names: &[(&'b str, usize, &'a str)],
) -> Result<Vec<Bearers<'b, 'a>>, AllocError> {
    let mut found: Vec<Bearers<'b, 'a>> = Vec::new(alloc);
    for bearer in names {
        let (name, _place, id) = *bearer;
        if !is_last_name(&found, name) {
            found.push(Bearers {
                name,
                ids: Vec::new(alloc),
            })?;
        }
        if let Some(last) = found.last_mut() {
            push_bearer(&mut last.ids, id)?;
        }
    }
    Ok(found)
}

/// Whether this is the name that was found last.
fn is_last_name(found: &[Bearers], name: &str) -> bool {
    match found.last() {
        Some(last) => last.name == name,
        None => false,
    }
}

/// The identifier, unless it stands last.
fn push_bearer<'a>(ids: &mut Vec<&'a str>, id: &'a str) -> Result<(), AllocError> {
    if ids.last() == Some(&id) {
        return Ok(());
    }
    ids.push(id)?;
    Ok(())
}

/// The places of all these objects, each once and in their order: the objects are sorted by their identifiers.
fn places_of_all(
    alloc: Global,
    ids: &[&str],
    objects: &[Suspect],
) -> Result<Vec<usize>, AllocError> {
    let mut all = Vec::new(alloc);
    for id in ids {
        if let Some(object) = first_from(objects, id) {
            for place in &object.places {
                all.push(*place)?;
            }
        }
    }
    each_once(alloc, all)
}

/// The first object that isn't ahead of this identifier: the one that has it, if there is one.
fn first_from<'c, 'a>(objects: &'c [Suspect<'a>], id: &str) -> Option<&'c Suspect<'a>> {
    objects.get(objects.partition_point(|object| is_ahead(object, id)))
}

/// Whether an object's identifier is less than this one.
fn is_ahead(object: &Suspect, id: &str) -> bool {
    match object.ids.as_slice().first() {
        Some(own) => *own < id,
        None => true,
    }
}

/// These places in their order, each once.
fn each_once(alloc: Global, places: Vec<usize>) -> Result<Vec<usize>, AllocError> {
    let mut all = places;
    all.sort()?;
    let mut once = Vec::with_capacity(alloc, all.len())?;
    for place in &all {
        push_once(&mut once, *place)?;
    }
    Ok(once)
}

/// The place, unless it stands last.
fn push_once(places: &mut Vec<usize>, place: usize) -> Result<(), AllocError> {
    if places.last() == Some(&place) {
        return Ok(());
    }
    places.push(place)?;
    Ok(())
}
