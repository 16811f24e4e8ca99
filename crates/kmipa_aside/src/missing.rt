//! A Locate with the hidden objects that it misses.

ghost use Rattle.std.specs.Prelude.{◌≡◌, IfOk, map, None, option_map};
ghost use Rattle.kmipa_attrs.specs.Filters.{filter_of};
ghost use Rattle.kmipa_msgs.specs.Messages.{answer_of, ask_of, lent};
ghost use Rattle.kmipa_aside.specs.Becoming.{stand_in};
ghost use Rattle.kmipa_aside.specs.Missed.{IsMissing, IsWith, is_any};
ghost use Rattle.kmipa_aside.specs.Sights.{sight_of};

use crate::beside::Beside;
use crate::lists::with_maximum;
use crate::missed::missed;
use crate::sight::Sight;
use kmipa_msgs::{Answer, Ask, Asked, Locate, Located, Payload};
use kmipa_store::Ledger;
use std::alloc::{AllocError, Global};

/// A Locate and its answer with the hidden objects that it misses, where it misses some.
pub(crate) fn missing<'p, L: Ledger>(
    alloc: Global,
    ledger: &L,
    sight: Sight<'_, 'p>,
    t: i64,
    ask: &'p Ask<'p>,
    answer: &'p Answer<'p>,
) -> Result<Option<Beside<'p>>, AllocError>
    ensures { IfOk result
        (λ b. IsMissing (sight_of sight.entry) (stand_in (L.state ledger.now).now) t (ask_of ask.now) (answer_of answer.now) b) }
{
    let missed = missed(alloc, ledger, sight, t, ask, answer)?;
    if !is_any(missed.as_slice()) {
        return Ok(None);
    }
    with_missed(alloc, ask, answer, missed.as_slice())
}

/// Whether there are any.
fn is_any(ids: &[&str]) -> bool
    ensures { result ≡ is_any (map lent ids.now) }
{
    match ids {
        [] => false,
        _ => true,
    }
}

/// A Locate and its answer with these listed too, however many may be. None of another item.
fn with_missed<'p>(
    alloc: Global,
    ask: &'p Ask<'p>,
    answer: &'p Answer<'p>,
    missed: &[&'p str],
) -> Result<Option<Beside<'p>>, AllocError>
    ensures { IfOk result (λ b. IsWith (map lent missed.now) (ask_of ask.now) (answer_of answer.now) b) }
{
    let Asked::Locate(locate) = &ask.asked else {
        return Ok(None);
    };
    let Some(payload) = &answer.payload else {
        return Ok(None);
    };
    let Payload::Locate(located) = payload else {
        return Ok(None);
    };
    let mut ids = Vec::with_capacity(alloc, located.ids.len())?;
    ids.extend_from_slice(located.ids.as_slice())?;
    ids.extend_from_slice(missed)?;
    let asked = Asked::Locate(Locate {
        filter: Box::new(alloc, with_maximum(alloc, &locate.filter, None)?)?,
    });
    Ok(Some(Beside {
        ask: Ask {
            batch_id: ask.batch_id,
            asked,
        },
        answer: Answer {
            operation: answer.operation,
            batch_id: answer.batch_id,
            status: answer.status,
            reason: answer.reason,
            payload: Some(Payload::Locate(Located { ids })),
        },
    }))
}
