//! Rows that several structures share.

ghost use Rattle.std.specs.Prelude.{◌≡◌};
ghost use Rattle.kmipa_ttlv.specs.ViewTree.{view_trees};
ghost use Rattle.kmipa_attrs.specs.Fields.{first};
ghost use Rattle.kmipa_msgs.specs.Tables.{unless_there, unless_absent, unless_wrong};
ghost use Rattle.kmipa_msgs.specs.Yields.{both_read};

use crate::kind::OutsideKind;
use crate::reading::unread::Unread;
use kmipa_attrs::fields::first;
use kmipa_attrs::{Field, both};
use kmipa_ttlv::Children;

/// That no child has the tag.
pub fn unless_there(children: Children, tag: u32, kind: OutsideKind) -> Result<(), OutsideKind>
    ensures { result ≡ unless_there (first tag (view_trees children.entry)) kind }
{
    if first(children, tag).is_some() {
        return Err(kind);
    }
    Ok(())
}

/// That some child has the tag.
pub fn unless_absent(children: Children, tag: u32, kind: OutsideKind) -> Result<(), OutsideKind>
    ensures { result ≡ unless_absent (first tag (view_trees children.entry)) kind }
{
    if first(children, tag).is_none() {
        return Err(kind);
    }
    Ok(())
}

/// That a field isn't of another type than its own.
pub fn unless_wrong<T: Copy>(field: Field<T>, kind: OutsideKind) -> Result<(), OutsideKind>
    ensures { result ≡ unless_wrong field kind }
{
    match field {
        Field::Wrong => Err(kind),
        Field::Absent | Field::There(_) => Ok(()),
    }
}

/// Both values, else the lower of the reasons; want of memory stands before either.
pub fn both_read<A: Drop, B: Drop>(
    plain: Result<A, OutsideKind>,
    read: Result<B, Unread>,
) -> Result<(A, B), Unread>
    ensures { result ≡ both_read plain read }
{
    let read = match read {
        Ok(value) => Ok(value),
        Err(Unread::Outside(kind)) => Err(kind),
        Err(Unread::Memory) => return Err(Unread::Memory),
    };
    Ok(both(plain, read)?)
}
