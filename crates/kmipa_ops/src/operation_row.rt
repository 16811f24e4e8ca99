//! What an operation is to those who ask: one value says it.

use crate::change::Change;
use kmipa_attrs::{AttrSet, Filter, Name, ObjectType};
use kmipa_msgs::{GetAttributes, KeyBlock, Payload, Registered};
use kmipa_object::Act;

/// What an operation is to those who ask: whom it is about, and what it does.
#[derive(Clone, Copy)]
pub struct OperationRow<'a> {
    pub subject: Subject<'a>,
    pub effect: Effect<'a>,
}

/// Whom a refusal is judged by.
#[derive(Clone, Copy)]
pub enum Subject<'a> {
    /// The object that is meant, by its state in this row of the table of states; no cause is judged where the last says so.
    Object(Option<&'a str>, Act, bool),
    /// The objects of these names.
    Names(&'a [Name]),
    Nothing,
}

/// What an operation does where it is done (KMIP 2.1, section 6.1).
#[derive(Clone, Copy)]
pub enum Effect<'a> {
    /// It makes an object.
    Makes(New<'a>),
    /// It changes the object that is meant.
    Changes(Change),
    /// It lists the objects that fit.
    Lists(&'a Filter),
    /// It shows the bytes of the object that is meant.
    ShowsBytes,
    /// It shows those of the object's attributes that are asked for.
    ShowsAttributes(&'a GetAttributes<'a>),
    /// Nothing, and its payloads aren't read.
    Nothing,
    /// What isn't known: it is not read.
    Unread,
}

/// A new object, as it is asked for.
#[derive(Clone, Copy)]
pub struct New<'a> {
    pub kind: ObjectType,
    /// The attributes that are given with it.
    pub attributes: &'a AttrSet,
    /// The Key Block that brings its bytes, if one does.
    pub block: Option<KeyBlock<'a>>,
}

impl<'a> Subject<'a> {
    ghost use Rattle.std.specs.Prelude.{◌≡◌};
    ghost use Rattle.kmipa_ops.specs.Row.{act_by, id_by};
    ghost use Rattle.kmipa_ops.specs.Subjects.{subject_of};
    ghost use Rattle.kmipa_msgs.specs.Messages.{maybe_lent};

    /// Its row in the table of states, where it is on an object.
    pub fn act(self) -> Option<Act>
        ensures { result ≡ act_by (subject_of self.entry) }
    {
        match self {
            Subject::Object(_, act, _) => Some(act),
            Subject::Names(_) | Subject::Nothing => None,
        }
    }

    /// The identifier that names the object that is meant, where one does.
    pub fn id(self) -> Option<&'a str>
        ensures { maybe_lent result ≡ id_by (subject_of self.entry) }
    {
        match self {
            Subject::Object(id, _, _) => id,
            Subject::Names(_) | Subject::Nothing => None,
        }
    }
}

impl<'a> New<'a> {
    ghost use Rattle.std.specs.Prelude.{◌≡◌, Some, option_and_then, option_map};
    ghost use Rattle.kmipa_attrs.specs.ObjectTypes.{type_number};
    ghost use Rattle.kmipa_msgs.specs.Messages.{maybe_lent, payload_of, registered_of};
    ghost use Rattle.kmipa_ops.specs.Effects.{brought_by, makes};
    ghost use Rattle.kmipa_ops.specs.Made.{seen_with, shown_with};
    ghost use Rattle.kmipa_ops.specs.Subjects.{new_of};

    /// The bytes that are brought, if they are.
    pub fn material(self) -> Option<&'a [u8]>
        ensures { maybe_lent result ≡ brought_by (makes (new_of self.entry)) }
    {
        match self.block {
            Some(block) => Some(block.material),
            None => None,
        }
    }

    /// The payload that says that it was made, with this identifier.
    pub fn payload<'p>(self, id: &'p str) -> Payload<'p>
        ensures { payload_of result
            ≡ shown_with (new_of self.entry).block (record { object_type = Some (type_number self.entry.kind); id = id.now }) }
    {
        let made = Registered {
            object_type: Some(self.kind.number()),
            id,
        };
        match self.block {
            Some(_) => Payload::Register(made),
            None => Payload::Create(made),
        }
    }

    /// What the payload of its operation shows of it.
    pub fn answered<'p>(self, payload: &Option<Payload<'p>>) -> Option<Registered<'p>>
        ensures { option_map registered_of result
            ≡ option_and_then (seen_with (new_of self.entry).block) (option_map payload_of payload.now) }
    {
        match (self.block, payload) {
            (Some(_), Some(Payload::Register(made))) => Some(*made),
            (None, Some(Payload::Create(made))) => Some(*made),
            _ => None,
        }
    }
}
