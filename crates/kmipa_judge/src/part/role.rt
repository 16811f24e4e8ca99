//! What the calls of a witness may have done.

use crate::reduced::item_spelled;
use kmipa_aside::Passed;
use kmipa_check::FirstPlaces;
use kmipa_msgs::{Answer, Ask, Payload, Status};
use kmipa_ops::{Effect, row_of};
use kmipa_passed::{Asked as Meant, Outcome, PassedAnswer, PassedAsk, SetAside, Sort};
use kmipa_places::{Call, Place, read_call};
use kmipa_record::Turn;
use kmipa_turns::Recorded;
use std::alloc::{AllocError, Global};

/// Which objects the call of a turn names, and what it may have done to them.
#[derive(Drop)]
pub(crate) struct Role<'a> {
    /// The place of its begin mark, and of its end mark where it has one.
    pub begin: usize,
    pub end: Option<usize>,
    /// Whether all its items are judged, and none is set aside by the turn.
    pub is_judged: bool,
    /// Whether one is about an object, and didn't fail.
    pub acts: bool,
    /// Whether one may have changed what it names, or told its bytes.
    pub changes: bool,
    /// Whether one may have set aside what it doesn't name.
    pub is_vast: bool,
    pub names: Vec<&'a str>,
    /// Those of objects that it makes.
    pub born: Vec<&'a str>,
}

/// The role of the call that a turn names; none where it names none.
pub(crate) fn role_of<'a>(
    alloc: Global,
    calls: &[Recorded<'a>],
    places: &FirstPlaces,
    turn: &'a Turn,
) -> Result<Option<Role<'a>>, AllocError> {
    let Some(place) = places.place(turn.call) else {
        return Ok(None);
    };
    let Some(call) = calls.get(place) else {
        return Ok(None);
    };
    let mut role = Role {
        begin: call.begin,
        end: call.end,
        is_judged: turn.asides.is_empty(),
        acts: false,
        changes: false,
        is_vast: false,
        names: Vec::new(alloc),
        born: Vec::new(alloc),
    };
    role.take_call(&call_of(alloc, *call, turn)?)?;
    Ok(Some(role))
}

/// What the messages of a call say, which is answered by its turn where it is open.
fn call_of<'a>(alloc: Global, call: Recorded<'a>, turn: &'a Turn) -> Result<Call<'a>, AllocError> {
    let request = item_spelled(call.request);
    let response = match (call.response, &turn.answer) {
        (Some(response), _) => item_spelled(response),
        (None, Some(answer)) => item_spelled(answer.as_slice()),
        (None, None) => None,
    };
    read_call(alloc, request.as_ref(), response.as_ref(), &turn.asides)
}

impl<'a> Role<'a> {
    /// Whether one of its objects is among these.
    pub(crate) fn names_any(&self, ids: &[&'a str]) -> bool {
        'names: for name in &self.names {
            if ids.contains(name) {
                return true;
            }
        }
        false
    }

    fn take_call(&mut self, call: &Call<'a>) -> Result<(), AllocError> {
        match call {
            Call::Unread(left) => {
                self.is_judged = false;
                self.take_left(left)
            }
            Call::Read(said) => self.take_places(&said.places),
        }
    }

    /// What a call sets aside that can't be read.
    fn take_left(&mut self, left: &SetAside<'a>) -> Result<(), AllocError> {
        match left {
            SetAside::These(ids) | SetAside::Strangers(ids) => {
                self.changes = true;
                self.name_all(ids)
            }
            SetAside::All | SetAside::Over => {
                self.is_vast = true;
                Ok(())
            }
        }
    }

    fn take_places(&mut self, places: &[Place<'a>]) -> Result<(), AllocError> {
        'places: for place in places {
            match place {
                Place::Judged(ask, answer) => self.take_judged(ask, answer)?,
                Place::Passed(_, passed) => self.take_passed(passed)?,
            }
        }
        Ok(())
    }

    /// What a judged item names, and what it did.
    fn take_judged(&mut self, ask: &Ask<'a>, answer: &Answer<'a>) -> Result<(), AllocError> {
        self.name(ask.asked.id())?;
        if let Some(payload) = &answer.payload {
            self.take_payload(payload)?;
        }
        if answer.status == Status::Failed {
            return Ok(());
        }
        match row_of(&ask.asked).effect {
            Effect::Lists(_) | Effect::Nothing | Effect::Unread => {}
            Effect::ShowsAttributes(_) => self.acts = true,
            Effect::Makes(_) | Effect::Changes(_) | Effect::ShowsBytes => {
                self.acts = true;
                self.changes = true;
            }
        }
        Ok(())
    }

    fn take_payload(&mut self, payload: &Payload<'a>) -> Result<(), AllocError> {
        match payload {
            Payload::Create(made) | Payload::Register(made) => {
                self.born.push(made.id)?;
                self.name(Some(made.id))
            }
            Payload::Locate(located) => self.name_all(&located.ids),
            Payload::Get(got) => self.name(got.id),
            Payload::GetAttributes(got) => self.name(got.id),
            Payload::Change(changed) => self.name(changed.id),
        }
    }

    /// What an item may have set aside that isn't judged.
    fn take_passed(&mut self, passed: &Passed<'a>) -> Result<(), AllocError> {
        self.is_judged = false;
        let Passed { ask, answer, .. } = passed;
        if answer.outcome == Outcome::Failed || ask.sort == Sort::Looks {
            return Ok(());
        }
        self.changes = true;
        if is_vast(ask, answer) {
            self.is_vast = true;
        }
        self.name(named(ask.asked))?;
        self.name(named(answer.first))?;
        self.name_all(&ask.names)?;
        self.name_all(&answer.names)
    }

    fn name(&mut self, id: Option<&'a str>) -> Result<(), AllocError> {
        if let Some(id) = id {
            self.names.push(id)?;
        }
        Ok(())
    }

    fn name_all(&mut self, ids: &[&'a str]) -> Result<(), AllocError> {
        'ids: for id in ids {
            self.names.push(*id)?;
        }
        Ok(())
    }
}

/// Whether an item that isn't judged, and doesn't only look, may have set aside what it doesn't name.
fn is_vast(ask: &PassedAsk, answer: &PassedAnswer) -> bool {
    let is_named = named(ask.asked).is_some() || named(answer.first).is_some();
    match answer.outcome {
        Outcome::Done => !is_named || ask.unclearly || ask.sort == Sort::EndsJudging,
        Outcome::Undone | Outcome::Pending => true,
        Outcome::Failed => false,
    }
}

fn named<'a>(meant: Meant<'a>) -> Option<&'a str> {
    match meant {
        Meant::Named(id) => Some(id),
        Meant::Placeholder | Meant::Unnamed => None,
    }
}
