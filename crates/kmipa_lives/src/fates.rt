//! What items do to objects, in words of a life. No other file here asks which operation an item is.

use kmipa_attrs::Filter;
use kmipa_msgs::Ask;
use kmipa_object::Act;
use kmipa_ops::{Effect, New, Subject, row_of};

/// What an item does to an object, if it is done. What changes the object comes first, in the order of a life.
#[derive(Clone, Copy, PartialEq, Eq, PartialOrd, Ord)]
pub enum Fate {
    /// It is born.
    Born,
    /// It becomes active.
    Activated,
    /// It is revoked, but not for a compromise.
    Deactivated,
    /// It is revoked for a compromise.
    Compromised,
    /// It is destroyed.
    Destroyed,
    /// Its bytes are shown.
    Read,
    /// Its attributes are shown.
    Seen,
    /// A Locate lists it.
    Listed,
    /// A Locate leaves it out.
    LeftOut,
}

impl Fate {
    /// What is done to the object that is meant, by the row in the table of states.
    fn of(act: Act) -> Fate {
        match act {
            Act::Get => Fate::Read,
            Act::GetAttributes => Fate::Seen,
            Act::Activate => Fate::Activated,
            Act::RevokeOther => Fate::Deactivated,
            Act::RevokeCompromised => Fate::Compromised,
            Act::Destroy => Fate::Destroyed,
        }
    }

    /// Whether it makes or changes the object.
    pub(crate) fn is_deed(self) -> bool {
        self.is_sure() || self.is_revoked()
    }

    /// Whether it makes or changes the object wherever it is possible.
    pub(crate) fn is_sure(self) -> bool {
        match self {
            Fate::Born | Fate::Activated | Fate::Destroyed => true,
            _ => false,
        }
    }

    /// Whether the object becomes active or is revoked.
    pub(crate) fn is_handling(self) -> bool {
        self == Fate::Activated || self.is_revoked()
    }

    /// Whether the object is revoked, which can leave it as it is.
    pub(crate) fn is_revoked(self) -> bool {
        match self {
            Fate::Deactivated | Fate::Compromised => true,
            _ => false,
        }
    }
}

/// What an item asks for.
#[derive(Clone, Copy)]
pub(crate) enum Aim<'b> {
    /// A new object.
    Newborn(New<'b>),
    /// This fate of the object with this identifier, or of that which the ID Placeholder holds.
    Object(Option<&'b str>, Fate),
    /// The objects that fit a filter.
    Fitting(&'b Filter),
    /// Nothing of an object.
    Nothing,
    /// What isn't known.
    Unread,
}

impl<'b> Aim<'b> {
    /// That of an item.
    pub(crate) fn of<'a>(ask: &'b Ask<'a>) -> Aim<'b> {
        let row = row_of(&ask.asked);
        match (row.effect, row.subject) {
            (Effect::Makes(new), _) => Aim::Newborn(new),
            (Effect::Lists(filter), _) => Aim::Fitting(filter),
            (Effect::Unread, _) => Aim::Unread,
            (_, Subject::Object(id, act, _)) => Aim::Object(id, Fate::of(act)),
            _ => Aim::Nothing,
        }
    }

    /// The object that the item makes.
    pub(crate) fn newborn(self) -> Option<New<'b>> {
        match self {
            Aim::Newborn(new) => Some(new),
            _ => None,
        }
    }

    /// Whether the item sets the ID Placeholder.
    pub(crate) fn is_setting(self) -> bool {
        match self {
            Aim::Newborn(_) | Aim::Fitting(_) => true,
            _ => false,
        }
    }

    /// Whether the item changes the object that it names wherever it is possible.
    pub(crate) fn is_sure(self) -> bool {
        match self {
            Aim::Object(Some(_), fate) => fate.is_sure(),
            _ => false,
        }
    }
}
