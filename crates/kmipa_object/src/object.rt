//! An object of the inventory.

ghost use Rattle.std.specs.Prelude.{◌≡◌, IfOk};
ghost use Rattle.kmipa_attrs.specs.Sets.{attributes_of};
ghost use Rattle.kmipa_object.specs.Inventory.{card_of, rule_of};

use crate::life::Life;
use crate::rule::Rule;
use kmipa_attrs::{AttrSet, ObjectType};
use std::alloc::{AllocError, Global};

/// An object: its identifier, its type, the attributes that its client gave, and its life.
#[derive(Drop)]
pub struct Object {
    /// Unique Identifier.
    pub id: String,
    /// Object Type.
    pub kind: ObjectType,
    /// Its names, algorithm, length and mask. Its dates are those of `life` alone.
    pub given: AttrSet,
    /// Its dates, and where its bytes are.
    pub life: Life,
}

impl Object {
    /// What its bytes must be.
    pub fn rule(&self) -> Rule
        ensures { result ≡ rule_of (card_of self.now) }
    {
        Rule::of(self.kind, &self.given)
    }

    /// An equal object, with memory of its own.
    pub fn copy(&self, alloc: Global) -> Result<Object, AllocError>
        ensures given { IfOk result (λ object. attributes_of object.given ≡ attributes_of self.now.given) }
        ensures card { IfOk result (λ object. card_of object ≡ card_of self.now) }
        ensures life { IfOk result (λ object. object.life ≡ self.now.life) }
    {
        Ok(Object {
            id: String::from_str(alloc, self.id.as_str())?,
            kind: self.kind,
            given: self.given.copy(alloc)?,
            life: self.life,
        })
    }
}
