//! The ID Placeholder.

/// The ID Placeholder (KMIP 2.1, section 6): the identifier that an item without one means, or none.
#[derive(Drop)]
pub struct Placeholder {
    /// The identifier, if one is held.
    pub id: Option<String>,
}

impl Placeholder {
    ghost use Rattle.std.specs.Prelude.{◌≡◌, None};
    ghost use Rattle.kmipa_msgs.specs.Messages.{maybe_lent};
    ghost use Rattle.kmipa_ops.specs.Objects.{meant};
    ghost use Rattle.kmipa_ops.specs.Placeholders.{placeholder_of};

    /// Holds none, as at the start of each call. It takes no memory.
    pub fn new() -> Placeholder
        ensures { placeholder_of result ≡ None }
    {
        Placeholder { id: None }
    }

    /// The identifier that an item is about: the one that it names, or else the one that is held.
    pub(crate) fn meant<'a>(&'a self, asked: Option<&'a str>) -> Option<&'a str>
        ensures { maybe_lent result ≡ meant (maybe_lent asked.entry) (placeholder_of self.now) }
    {
        match asked {
            Some(id) => Some(id),
            None => self.held(),
        }
    }

    fn held(&self) -> Option<&str>
        ensures { maybe_lent result ≡ placeholder_of self.now }
    {
        match &self.id {
            Some(id) => Some(id.as_str()),
            None => None,
        }
    }
}
