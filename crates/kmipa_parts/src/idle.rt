//! Items without effect, which stand in the place of what leaves objects as they are.

ghost use Rattle.std.specs.Prelude.{◌≡◌, None};
ghost use Rattle.kmipa_msgs.specs.Messages.{answer_of, ask_of, idles};
ghost use Rattle.kmipa_parts.specs.Parts.{IsIdle};

use crate::item::PartItem;
use kmipa_msgs::{Answer, Ask, Asked, Status};

/// The number of Query, an operation without effect (KMIP 2.1, section 6.1).
const QUERY: u32 = 24;

/// An item without effect, of this status.
pub fn idle<'a>(status: Status) -> PartItem<'a>
    ensures { IsIdle status (ask_of result.ask) (answer_of result.answer) }
{
    PartItem {
        ask: idle_ask(),
        answer: Answer {
            operation: None,
            batch_id: None,
            status,
            reason: None,
            payload: None,
        },
    }
}

/// The ask of an item without effect.
pub fn idle_ask<'a>() -> Ask<'a>
    ensures { ask_of result ≡ record { batch_id = None; asked = idles 24 } }
{
    Ask {
        batch_id: None,
        asked: Asked::Idle(QUERY),
    }
}
