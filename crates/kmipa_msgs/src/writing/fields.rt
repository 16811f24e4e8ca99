//! The fields of a structure that is written.

ghost use Rattle.std.specs.Prelude.{◌≡◌, ◌<◌, OnOk, Some};
ghost use Rattle.kmipa_ttlv.specs.Tree.{none, structure};
ghost use Rattle.kmipa_ttlv.specs.Tree;
ghost use Rattle.kmipa_ttlv.specs.ItemTree.{tree};
ghost use Rattle.kmipa_msgs.specs.Messages.{maybe_lent};
ghost use Rattle.kmipa_msgs.specs.WrittenFields.{with_field, field};

use kmipa_ttlv::{Item, Tag};
use std::alloc::{AllocError, Global};

/// The children of a structure so far, in the order of their calls. An optional field without a value adds none.
#[derive(Drop)]
pub(super) struct Fields {
    children: Vec<Item>,
    alloc: Global,
}

impl Fields {
    ghost use Rattle.kmipa_msgs.specs.Writing.{fields_of};

    /// No children.
    pub(super) fn new(alloc: Global) -> Fields
        ensures { fields_of result ≡ none }
    {
        Fields {
            children: Vec::new(alloc),
            alloc,
        }
    }

    /// A child as it is.
    pub(super) fn item(&mut self, item: Item) -> Result<(), AllocError>
        ensures { OnOk result (fields_of self.new ≡ with_field (fields_of self.old) (Some (tree item))) }
    {
        self.children.push(item)?;
        Ok(())
    }

    /// An Enumeration.
    pub(super) fn enumeration(&mut self, tag: u32, number: Option<u32>) -> Result<(), AllocError>
        requires { tag < 0x100_0000 }
        ensures { OnOk result
            (fields_of self.new ≡ with_field (fields_of self.old) (field Tree.enumeration tag number)) }
    {
        match number {
            Some(number) => self.item(Item::enumeration(Tag { number: tag }, number)),
            None => Ok(()),
        }
    }

    /// An Integer.
    pub(super) fn integer(&mut self, tag: u32, number: Option<i32>) -> Result<(), AllocError>
        requires { tag < 0x100_0000 }
        ensures { OnOk result (fields_of self.new ≡ with_field (fields_of self.old) (field Tree.integer tag number)) }
    {
        match number {
            Some(number) => self.item(Item::integer(Tag { number: tag }, number)),
            None => Ok(()),
        }
    }

    /// A Boolean.
    pub(super) fn boolean(&mut self, tag: u32, truth: Option<bool>) -> Result<(), AllocError>
        requires { tag < 0x100_0000 }
        ensures { OnOk result (fields_of self.new ≡ with_field (fields_of self.old) (field Tree.boolean tag truth)) }
    {
        match truth {
            Some(truth) => self.item(Item::boolean(Tag { number: tag }, truth)),
            None => Ok(()),
        }
    }

    /// A Date-Time.
    pub(super) fn date_time(&mut self, tag: u32, seconds: Option<i64>) -> Result<(), AllocError>
        requires { tag < 0x100_0000 }
        ensures { OnOk result
            (fields_of self.new ≡ with_field (fields_of self.old) (field Tree.date_time tag seconds)) }
    {
        match seconds {
            Some(seconds) => self.item(Item::date_time(Tag { number: tag }, seconds)),
            None => Ok(()),
        }
    }

    /// A Text String.
    pub(super) fn text(&mut self, tag: u32, text: Option<&str>) -> Result<(), AllocError>
        requires { tag < 0x100_0000 }
        ensures { OnOk result
            (fields_of self.new ≡ with_field (fields_of self.old) (field Tree.text tag (maybe_lent text.entry))) }
    {
        match text {
            Some(text) => self.item(Item::text(self.alloc, Tag { number: tag }, text)?),
            None => Ok(()),
        }
    }

    /// A Byte String.
    pub(super) fn bytes(&mut self, tag: u32, bytes: Option<&[u8]>) -> Result<(), AllocError>
        requires { tag < 0x100_0000 }
        ensures { OnOk result
            (fields_of self.new
            ≡ with_field (fields_of self.old) (field Tree.byte_string tag (maybe_lent bytes.entry))) }
    {
        match bytes {
            Some(bytes) => self.item(Item::bytes(self.alloc, Tag { number: tag }, bytes)?),
            None => Ok(()),
        }
    }

    /// The structure with these children.
    pub(super) fn structure(self, tag: u32) -> Item
        requires { tag < 0x100_0000 }
        ensures { tree result ≡ structure tag (fields_of self) }
    {
        Item::structure(Tag { number: tag }, self.children)
    }
}
