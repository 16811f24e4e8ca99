//! Byte Strings that are messages.

ghost use Rattle.std.specs.Prelude.{◌≡◌, ◌↔◌, MatchOption, IsTrue};
ghost use Rattle.kmipa_ttlv.specs.ViewTree.{view_tree};
ghost use Rattle.kmipa_ttlv.specs.Tree.{Tree};
ghost use Rattle.kmipa_runs.specs.Shown.{AreMessage, IsMessage};

use kmipa_attrs::tags;
use kmipa_ttlv::{View, ViewValue, decode_view};

/// The Request Message or Response Message that these bytes are, or `None` where they are no whole one.
pub fn message_of(bytes: &[u8]) -> Option<View<'_>>
    ensures { MatchOption result ((m : Tree) → AreMessage m bytes.now → ⊥)
        (λ view. AreMessage (view_tree view) bytes.now) }
{
    match decode_view(bytes) {
        Ok((view, taken)) => {
            if taken == bytes.len() && is_message(&view) {
                Some(view)
            } else {
                None
            }
        }
        Err(_) => None,
    }
}

fn is_message(view: &View) -> bool
    ensures { IsTrue result ↔ IsMessage (view_tree view.now) }
{
    match &view.value {
        ViewValue::Structure(_) => {
            let tag = view.tag.number;
            tag == tags::REQUEST_MESSAGE || tag == tags::RESPONSE_MESSAGE
        }
        _ => false,
    }
}
