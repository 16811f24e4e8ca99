//! Identifiers that are set aside, each in a record of a declaration.

ghost use Rattle.std.specs.Prelude.{◌≡◌, ◌≢◌, ℕ, List, MatchOption};
ghost use Rattle.kmipa_ttlv.specs.ViewTree.{view_tree};
ghost use Rattle.kmipa_record.specs.DeclarationRecords.{aside_item};

use crate::shape::{children_of, text_of};
use crate::tags::ASIDE_ENTRY;
use kmipa_attrs::tags::UNIQUE_IDENTIFIER;
use kmipa_ttlv::View;

/// The identifier that an item sets aside.
pub fn aside_in<'a>(item: &View<'a>) -> Option<&'a str>
    ensures { MatchOption result ((id : List ℕ) → view_tree item.now ≢ aside_item id)
        (λ id. view_tree item.now ≡ aside_item id.now) }
{
    let mut children = children_of(item, ASIDE_ENTRY)?;
    let id = text_of(&children.next()?, UNIQUE_IDENTIFIER)?;
    if children.next().is_some() {
        return None;
    }
    Some(id)
}
