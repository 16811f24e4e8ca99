//! Rows: the causes of refusals that a server declares.

ghost use Rattle.std.specs.Prelude.{◌≡◌, ◌≢◌, MatchOption};
ghost use Rattle.kmipa_ttlv.specs.ViewTree.{view_tree};
ghost use Rattle.kmipa_msgs.specs.Messages.{RowOf, row_of};
ghost use Rattle.kmipa_record.specs.DeclarationRecords.{row_item};

use crate::shape::{children_of, enumeration_of};
use crate::tags::{CAUSE, ROW};
use kmipa_attrs::tags::RESULT_REASON;
use kmipa_msgs::{Cause, Row};
use kmipa_ttlv::View;

/// The row that an item says.
pub fn row_in(item: &View) -> Option<Row>
    ensures { MatchOption result ((r : RowOf) → view_tree item.now ≢ row_item r)
        (λ row. view_tree item.now ≡ row_item (row_of row)) }
{
    let mut children = children_of(item, ROW)?;
    let reason = enumeration_of(&children.next()?, RESULT_REASON)?;
    let cause = Cause::of(enumeration_of(&children.next()?, CAUSE)?)?;
    if children.next().is_some() {
        return None;
    }
    Some(Row { reason, cause })
}
