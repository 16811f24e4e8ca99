//! What answers show of an object.

use crate::fates::Fate;
use kmipa_attrs::{AttrSet, Filter, Name, ObjectType};
use kmipa_msgs::{Got, Payload};
use kmipa_ops::New;

/// The dates that an object was given at its birth.
#[derive(Clone, Copy)]
pub struct Given {
    pub activation: Option<i64>,
    pub deactivation: Option<i64>,
}

impl Given {
    pub(crate) fn nothing() -> Given {
        Given {
            activation: None,
            deactivation: None,
        }
    }

    /// Those among these attributes.
    pub(crate) fn of(attributes: &AttrSet) -> Given {
        Given {
            activation: attributes.activation,
            deactivation: attributes.deactivation,
        }
    }
}

/// A date of an object, as answers show it: the first one, and the first that is another.
#[derive(Clone, Copy)]
pub struct Dates {
    pub one: Option<i64>,
    pub other: Option<i64>,
}

impl Dates {
    fn none() -> Dates {
        Dates {
            one: None,
            other: None,
        }
    }

    fn take(&mut self, date: Option<i64>) {
        if self.one.is_none() {
            self.one = date;
        } else if self.other.is_none() && date != self.one {
            self.other = date;
        }
    }

    /// Whether this is one of both.
    pub(crate) fn has(self, date: i64) -> bool {
        self.one == Some(date) || self.other == Some(date)
    }

    /// The first one that isn't this.
    pub(crate) fn besides(self, own: Option<i64>) -> Option<i64> {
        if self.one == own {
            self.other
        } else {
            self.one
        }
    }
}

/// What answers show of an object.
#[derive(Clone, Copy)]
pub struct Shown<'b> {
    /// The first end mark of a call that shows that it is there.
    pub by: Option<usize>,
    got: Option<Got<'b>>,
    attributes: Option<&'b AttrSet>,
    name: Option<&'b Name>,
    initial: Option<i64>,
    /// The Activation Date and the Deactivation Date, where these are others than those that its birth is known to have given it.
    pub activation: Dates,
    pub deactivation: Dates,
    compromise: Option<i64>,
    destroy: Option<i64>,
}

impl<'b> Shown<'b> {
    pub(crate) fn nothing() -> Shown<'b> {
        Shown {
            by: None,
            got: None,
            attributes: None,
            name: None,
            initial: None,
            activation: Dates::none(),
            deactivation: Dates::none(),
            compromise: None,
            destroy: None,
        }
    }

    fn note_end(&mut self, end: usize) {
        self.by = match self.by {
            Some(by) => Some(by.min(end)),
            None => Some(end),
        };
    }

    /// A Locate lists it.
    pub(crate) fn take_listed(&mut self, filter: &'b Filter, end: usize) {
        self.note_end(end);
        self.name = self.name.or(filter.names.as_slice().first());
    }

    /// An answer about it alone. What it was given at its birth, where that is known, doesn't tell when it changed.
    pub(crate) fn take<'a>(
        &mut self,
        payload: &'b Option<Payload<'a>>,
        end: usize,
        given: Option<&'b AttrSet>,
    ) {
        self.note_end(end);
        match payload {
            Some(Payload::Get(got)) => self.got = self.got.or(Some(*got)),
            Some(Payload::GetAttributes(got)) => self.take_attributes(&got.attributes, given),
            _ => {}
        }
    }

    fn take_attributes(&mut self, shown: &'b AttrSet, given: Option<&'b AttrSet>) {
        let given = match given {
            Some(given) => Given::of(given),
            None => Given::nothing(),
        };
        self.name = self.name.or(shown.names.as_slice().first());
        self.attributes = self.attributes.or(Some(shown));
        self.initial = self.initial.or(shown.initial);
        if shown.activation != given.activation {
            self.activation.take(shown.activation);
        }
        if shown.deactivation != given.deactivation {
            self.deactivation.take(shown.deactivation);
        }
        self.compromise = self.compromise.or(shown.compromise);
        self.destroy = self.destroy.or(shown.destroy);
    }

    /// The date that the success of an item about it has left, as far as one is shown that its object wasn't given at birth.
    pub(crate) fn date_left(&self, fate: Fate, own: Given) -> Option<i64> {
        match fate {
            Fate::Born => self.initial,
            Fate::Activated => self.activation.besides(own.activation),
            Fate::Deactivated => self.deactivation.besides(own.deactivation),
            Fate::Compromised => self.compromise,
            Fate::Destroyed => self.destroy,
            _ => None,
        }
    }

    /// Whether it can be this new object.
    pub(crate) fn may_be_of(&self, new: New<'_>) -> bool {
        self.has_bytes(new.kind, new.material())
            && self.is_named(new.attributes)
            && self.is_alike(new.kind, new.attributes)
    }

    /// Whether no Get shows another type, or other bytes.
    fn has_bytes(&self, kind: ObjectType, bytes: Option<&[u8]>) -> bool {
        match (self.got, bytes) {
            (None, _) => true,
            (Some(got), None) => got.shape == kind,
            (Some(got), Some(bytes)) => got.shape == kind && got.block.material == bytes,
        }
    }

    /// Whether no name is shown but one of these.
    fn is_named(&self, given: &AttrSet) -> bool {
        match self.name {
            Some(name) => given.names.as_slice().contains(name),
            None => true,
        }
    }

    /// Whether no other attribute is shown that never changes.
    fn is_alike(&self, kind: ObjectType, given: &AttrSet) -> bool {
        match self.attributes {
            Some(shown) => {
                is_same(shown.object_type, Some(kind.number()))
                    && is_same(shown.algorithm, given.algorithm)
                    && is_same(shown.length, given.length)
                    && is_same(shown.mask, given.mask)
            }
            None => true,
        }
    }
}

/// Whether two values are the same, as far as both are told.
fn is_same<T: PartialEq + Copy>(one: Option<T>, other: Option<T>) -> bool {
    match (one, other) {
        (Some(one), Some(other)) => one == other,
        _ => true,
    }
}
