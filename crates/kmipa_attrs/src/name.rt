//! Names of objects.

use std::alloc::{AllocError, Global};
use std::default::MadeWith;

/// The attribute Name: a value and a type (KMIP 2.1, section 4.38). Two names are equal where both are.
#[derive(PartialEq, Eq, Drop)]
pub struct Name {
    /// Name Value.
    pub value: String,
    /// Name Type: 1 Uninterpreted Text String, 2 URI, and any other number as it is.
    pub kind: u32,
}

impl Name {
    ghost use Rattle.std.specs.Prelude.{◌≡◌, IfOk};
    ghost use Rattle.kmipa_attrs.specs.Sets.{name_of};

    /// The same name, with a value of its own.
    pub fn copy(&self, alloc: Global) -> Result<Name, AllocError>
        ensures { IfOk result (λ name. name_of name ≡ name_of self.now) }
    {
        Ok(Name {
            value: String::from_str(alloc, &self.value)?,
            kind: self.kind,
        })
    }
}

impl MadeWith<Global> for Name {
    fn made_with(alloc: Global) -> Name {
        Name {
            value: String::new(alloc),
            kind: 1,
        }
    }
}
