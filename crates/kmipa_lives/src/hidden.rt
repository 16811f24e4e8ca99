//! Undone items whose answers leave their payloads out.

use crate::fates::Aim;
use kmipa_msgs::{Answer, Ask, Payload, is_wanted};
use kmipa_record::Call;

/// Whether an answer leaves a payload out that a witness has to give.
pub(crate) fn is_hidden(ask: &Ask<'_>, answer: &Answer<'_>) -> bool {
    is_wanted(ask, answer)
}

/// The identifier that the ID Placeholder holds behind an item whose payload is hidden, where a later answer of its batch shows it.
pub fn hidden_id<'b, 'a>(call: &'b Call<'a>, item: usize) -> Option<&'b str> {
    let response = call.response.as_ref()?;
    let behind = item.saturating_add(1);
    let asks = call.request.items.get(behind..).unwrap_or(&[]);
    let answers = response.items.get(behind..).unwrap_or(&[]);
    for (ask, answer) in asks.iter().zip(answers.iter()) {
        let aim = Aim::of(ask);
        if aim.is_setting() {
            return None;
        }
        if let Aim::Object(None, _) = aim {
            if let Some(id) = shown_id(&answer.payload) {
                return Some(id);
            }
        }
    }
    None
}

/// The identifier that an answer about one object shows.
fn shown_id<'b, 'a>(payload: &'b Option<Payload<'a>>) -> Option<&'b str> {
    match payload {
        Some(Payload::Get(got)) => got.id,
        Some(Payload::GetAttributes(got)) => got.id,
        Some(Payload::Change(changed)) => changed.id,
        _ => None,
    }
}
