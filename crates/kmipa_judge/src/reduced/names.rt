//! Which identifiers a recording sets aside.

use super::reading::Seen;
use kmipa_aside::Passed;
use kmipa_msgs::{Answer, Payload, Status, Unjudged};
use kmipa_passed::{Asked, Outcome, SetAside, Sort};
use kmipa_places::{Call, Place, Readable};
use kmipa_record::Declaration;
use std::alloc::{AllocError, Global};
use std::collections::{BTreeMap, BTreeSet};

/// What is known of the identifiers that a recording names.
#[derive(Drop)]
pub(crate) struct Names<'a> {
    /// Those of objects that are declared, or born in a call that is judged.
    known: BTreeSet<&'a str>,
    /// Those that the declaration sets aside, or a call that isn't judged.
    aside: BTreeSet<&'a str>,
    /// Those whose attributes a call changes that isn't judged, each with the place of the first such begin mark.
    changed: BTreeMap<&'a str, usize>,
    /// Whether all that aren't known are set aside.
    rest: bool,
}

impl<'a> Names<'a> {
    /// Those of these calls, by a declaration.
    pub(crate) fn of(
        alloc: Global,
        calls: &[Seen<'a>],
        declaration: &'a Declaration,
    ) -> Result<Names<'a>, AllocError> {
        let mut names = Names {
            known: BTreeSet::new(alloc),
            aside: BTreeSet::new(alloc),
            changed: BTreeMap::new(alloc),
            rest: declaration.settings.unjudged == Unjudged::Unknown,
        };
        names.take_declared(declaration)?;
        'calls: for call in calls {
            names.take_call(call)?;
        }
        Ok(names)
    }

    /// Whether an identifier is set aside, somewhere in the recording.
    pub(crate) fn is_aside(&self, id: &'a str) -> bool {
        self.aside.contains(&id) || (self.rest && !self.known.contains(&id))
    }

    /// Whether a call that began ahead of this mark may have changed the attributes of an object, and isn't judged.
    pub(crate) fn is_changed(&self, id: &'a str, mark: usize) -> bool {
        match self.changed.get(&id) {
            Some(begin) => *begin < mark,
            None => false,
        }
    }

    fn take_declared(&mut self, declaration: &'a Declaration) -> Result<(), AllocError> {
        'entries: for entry in &declaration.entries {
            self.know(entry.id.as_str())?;
        }
        'asides: for id in &declaration.asides {
            self.set_aside(id.as_str())?;
        }
        Ok(())
    }

    fn take_call(&mut self, call: &Seen<'a>) -> Result<(), AllocError> {
        if !call.has_ended() {
            return Ok(());
        }
        match &call.said {
            Call::Unread(left) => self.take_left(left),
            Call::Read(said) => self.take_read(said, call.recorded.begin),
        }
    }

    /// What a call leaves that can't be read.
    fn take_left(&mut self, left: &SetAside<'a>) -> Result<(), AllocError> {
        match left {
            SetAside::These(ids) => self.set_all_aside(ids),
            SetAside::Strangers(_) | SetAside::All | SetAside::Over => Ok(()),
        }
    }

    fn take_read(&mut self, call: &Readable<'a>, begin: usize) -> Result<(), AllocError> {
        'places: for place in &call.places {
            match place {
                Place::Judged(_, answer) => self.take_answer(answer)?,
                Place::Passed(_, passed) => self.take_passed(passed, begin)?,
            }
        }
        Ok(())
    }

    /// What is born by an answer that is judged.
    fn take_answer(&mut self, answer: &Answer<'a>) -> Result<(), AllocError> {
        if answer.status == Status::Failed {
            return Ok(());
        }
        match &answer.payload {
            Some(Payload::Create(born)) | Some(Payload::Register(born)) => self.know(born.id),
            _ => Ok(()),
        }
    }

    /// What an item may have changed that isn't judged.
    fn take_passed(&mut self, passed: &Passed<'a>, begin: usize) -> Result<(), AllocError> {
        if passed.answer.outcome == Outcome::Failed {
            return Ok(());
        }
        match passed.ask.sort {
            Sort::Looks | Sort::EndsJudging => Ok(()),
            Sort::Makes => self.set_named_aside(passed.answer.first),
            Sort::Changes if is_of_attributes(passed.asks) => self.change(passed, begin),
            Sort::Changes | Sort::MayMake => {
                self.set_named_aside(passed.ask.asked)?;
                self.set_named_aside(passed.answer.first)?;
                self.set_all_aside(&passed.ask.names)?;
                self.set_all_aside(&passed.answer.names)
            }
        }
    }

    /// The attributes of an object are changed by an item of a call with this begin mark.
    fn change(&mut self, passed: &Passed<'a>, begin: usize) -> Result<(), AllocError> {
        let id = match (passed.ask.asked, passed.answer.first) {
            (Asked::Named(id), _) | (_, Asked::Named(id)) => id,
            _ => return Ok(()),
        };
        if self.changed.get(&id).is_none() {
            let _before = self.changed.insert(id, begin)?;
        }
        Ok(())
    }

    fn know(&mut self, id: &'a str) -> Result<(), AllocError> {
        let _is_new = self.known.insert(id)?;
        Ok(())
    }

    fn set_aside(&mut self, id: &'a str) -> Result<(), AllocError> {
        let _is_new = self.aside.insert(id)?;
        Ok(())
    }

    fn set_named_aside(&mut self, asked: Asked<'a>) -> Result<(), AllocError> {
        match asked {
            Asked::Named(id) => self.set_aside(id),
            Asked::Placeholder | Asked::Unnamed => Ok(()),
        }
    }

    fn set_all_aside(&mut self, ids: &[&'a str]) -> Result<(), AllocError> {
        'ids: for id in ids {
            self.set_aside(id)?;
        }
        Ok(())
    }
}

/// Whether it is the number of an operation on attributes alone: Add, Modify, Delete, Adjust and Set Attribute.
fn is_of_attributes(operation: u32) -> bool {
    matches!(operation, 0x0D | 0x0E | 0x0F | 0x30 | 0x31)
}
