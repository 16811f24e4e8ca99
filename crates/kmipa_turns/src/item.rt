//! Items from bytes.

ghost use Rattle.std.specs.Prelude.{option_map};
ghost use Rattle.kmipa_ttlv.specs.ViewTree.{view_tree};
ghost use Rattle.kmipa_turns.specs.Recorded.{IsItem};

use kmipa_ttlv::{View, decode_view};

/// The item that the bytes spell, all of them; `None` where they spell none.
pub fn whole_item(bytes: &[u8]) -> Option<View<'_>>
    ensures { IsItem bytes.now (option_map view_tree result) }
{
    match decode_view(bytes) {
        Ok((view, taken)) if taken == bytes.len() => Some(view),
        _ => None,
    }
}
