//! Names in an order, whose values are lent.

use kmipa_attrs::Name;

/// A name whose value is lent from where the name stands.
#[derive(Clone, Copy, PartialEq, Eq, PartialOrd, Ord)]
pub(crate) struct LentName<'a> {
    pub value: &'a str,
    pub kind: u32,
}

impl<'a> LentName<'a> {
    ghost use Rattle.std.specs.Prelude.{◌≡◌};
    ghost use Rattle.kmipa_attrs.specs.Sets.{name_of};
    ghost use Rattle.kmipa_ops.specs.KnownNames.{lent_name_of};

    /// A name, lent.
    pub fn of(name: &'a Name) -> LentName<'a>
        ensures { lent_name_of result ≡ name_of name.now }
    {
        LentName {
            value: name.value.as_str(),
            kind: name.kind,
        }
    }
}
