//! The identifiers that messages name.

use kmipa_msgs::{Answer, Ask, Payload};
use kmipa_ops::row_of;
use kmipa_record::Call;
use std::alloc::AllocError;

/// Adds the identifiers that the messages of a call name, in their order.
pub fn push_named<'b, 'a>(ids: &mut Vec<&'b str>, call: &'b Call<'a>) -> Result<(), AllocError> {
    push_all_asked(ids, call.request.items.as_slice())?;
    match &call.response {
        Some(response) => push_all_answered(ids, response.items.as_slice()),
        None => Ok(()),
    }
}

fn push_all_asked<'b, 'a>(ids: &mut Vec<&'b str>, asks: &'b [Ask<'a>]) -> Result<(), AllocError> {
    'asks: for ask in asks {
        push_any(ids, asked_id(ask))?;
    }
    Ok(())
}

fn push_all_answered<'b, 'a>(
    ids: &mut Vec<&'b str>,
    answers: &'b [Answer<'a>],
) -> Result<(), AllocError> {
    'answers: for answer in answers {
        push_answered(ids, answer)?;
    }
    Ok(())
}

fn push_answered<'b, 'a>(ids: &mut Vec<&'b str>, answer: &'b Answer<'a>) -> Result<(), AllocError> {
    match &answer.payload {
        Some(Payload::Locate(located)) => push_listed(ids, located.ids.as_slice()),
        Some(payload) => push_any(ids, shown_id(payload)),
        None => Ok(()),
    }
}

fn push_listed<'b>(ids: &mut Vec<&'b str>, listed: &[&'b str]) -> Result<(), AllocError> {
    'ids: for id in listed {
        ids.push(*id)?;
    }
    Ok(())
}

fn push_any<'b>(ids: &mut Vec<&'b str>, id: Option<&'b str>) -> Result<(), AllocError> {
    if let Some(id) = id {
        ids.push(id)?;
    }
    Ok(())
}

/// The identifier that an item asks about.
pub fn asked_id<'b>(ask: &'b Ask<'b>) -> Option<&'b str> {
    row_of(&ask.asked).subject.id()
}

/// The identifier that a payload names, of one that does not list any.
pub fn shown_id<'b, 'a>(payload: &'b Payload<'a>) -> Option<&'b str> {
    match payload {
        Payload::Create(made) | Payload::Register(made) => Some(made.id),
        Payload::Get(got) => got.id,
        Payload::GetAttributes(got) => got.id,
        Payload::Change(changed) => changed.id,
        Payload::Locate(_) => None,
    }
}
