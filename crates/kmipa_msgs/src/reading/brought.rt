//! The parts of a Register, before they are compared.

ghost use Rattle.std.specs.Prelude.{◌≡◌};

use crate::key_block::KeyBlock;
use crate::reading::attributes::agree;
use kmipa_attrs::{AttrSet, ObjectType};

#[derive(Drop)]
pub struct Brought<'a> {
    pub object_type: ObjectType,
    /// The type that the object's tag tells.
    pub shape: ObjectType,
    pub attributes: AttrSet,
    pub block: KeyBlock<'a>,
}

impl<'a> Brought<'a> {
    ghost use Rattle.kmipa_msgs.specs.Registers.{agrees};
    ghost use Rattle.kmipa_msgs.specs.Brought.{brought_of};

    /// Whether the types are one, and algorithm and length are the same in the attributes and in the key block where they stand in both.
    pub fn agrees(&self) -> bool
        ensures { result ≡ agrees (brought_of self.now) }
    {
        let object_type = self.object_type.number();
        object_type == self.shape.number()
            && agree(self.attributes.object_type, Some(object_type))
            && agree(self.attributes.algorithm, self.block.algorithm)
            && agree(self.attributes.length, self.block.length)
    }
}
