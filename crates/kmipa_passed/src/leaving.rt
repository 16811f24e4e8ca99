//! What an item leaves that isn't judged.

ghost use Rattle.std.specs.Prelude.{◌≡◌, ◌++◌, ◌∷◌, [], IfOk, map};
ghost use Rattle.kmipa_passed.specs.Identifiers.{asked_of, shown_of};
ghost use Rattle.kmipa_passed.specs.Leaving.{aside_of, changed, done_by, held_of, if_answered, is_untold, leave, leaves, leaves_of, located, looked, made, over, pending_by, these, touched, unknown, with_held, with_shown};
ghost use Rattle.kmipa_passed.specs.Passed.{answer_of, ask_of};

use crate::identifiers::{Asked, Shown};
use crate::passed::{Outcome, PassedAnswer, PassedAsk};
use crate::sorts::Sort;
use std::alloc::{AllocError, Global};

/// What the ID Placeholder holds (KMIP 2.1, section 6).
#[derive(Clone, Copy)]
pub enum Held<'a> {
    /// No identifier.
    Empty,
    Holds(&'a str),
    /// Nobody can tell.
    Unknown,
}

/// Which objects are no longer judged.
#[derive(Drop)]
pub enum SetAside<'a> {
    /// These.
    These(Vec<&'a str>),
    /// Those of these that aren't judged anyway.
    Strangers(Vec<&'a str>),
    /// All that there are.
    All,
    /// All, for good.
    Over,
}

/// What an item leaves.
#[derive(Drop)]
pub struct Behind<'a> {
    pub aside: SetAside<'a>,
    pub held: Held<'a>,
}

/// What an item leaves that isn't judged, where the ID Placeholder held this. In a request without order nobody can tell what it held.
pub fn leaves<'a>(
    alloc: Global,
    ask: &PassedAsk<'a>,
    answer: &PassedAnswer<'a>,
    before: Held<'a>,
) -> Result<Behind<'a>, AllocError>
    ensures { IfOk result (λ l. leaves_of l ≡ leaves (ask_of ask.now) (answer_of answer.now) (held_of before.entry)) }
{
    match answer.outcome {
        Outcome::Done | Outcome::Undone => done_by(alloc, ask, answer, before),
        Outcome::Pending => pending_by(alloc, ask, answer, before),
        Outcome::Failed => Ok(Behind {
            aside: SetAside::These(Vec::new(alloc)),
            held: before,
        }),
    }
}

/// What is left by the sort of an operation that was done.
fn done_by<'a>(
    alloc: Global,
    ask: &PassedAsk<'a>,
    answer: &PassedAnswer<'a>,
    before: Held<'a>,
) -> Result<Behind<'a>, AllocError>
    ensures { IfOk result (λ l. leaves_of l
        ≡ done_by ask.now.sort (ask_of ask.now) (answer_of answer.now) (held_of before.entry)) }
{
    match ask.sort {
        Sort::Looks => looked(alloc, ask.locates, answer, before),
        Sort::Changes => Ok(Behind {
            aside: changed(alloc, ask.asked, before, answer.first, &ask.names)?,
            held: before,
        }),
        Sort::Makes => made(alloc, answer.first),
        Sort::MayMake => Ok(Behind {
            aside: touched(alloc, ask, answer, before)?,
            held: Held::Unknown,
        }),
        Sort::EndsJudging => Ok(end_of_judging()),
    }
}

/// What is left by the sort of an operation whose answer is still to come.
fn pending_by<'a>(
    alloc: Global,
    ask: &PassedAsk<'a>,
    answer: &PassedAnswer<'a>,
    before: Held<'a>,
) -> Result<Behind<'a>, AllocError>
    ensures { IfOk result (λ l. leaves_of l
        ≡ pending_by ask.now.sort (ask_of ask.now) (answer_of answer.now) (held_of before.entry)) }
{
    match ask.sort {
        Sort::Looks => looked(alloc, ask.locates, answer, before),
        Sort::Changes | Sort::Makes | Sort::MayMake | Sort::EndsJudging => Ok(end_of_judging()),
    }
}

/// Nothing is judged any more, and nobody can tell what the ID Placeholder holds.
fn end_of_judging<'a>() -> Behind<'a>
    ensures { leaves_of result ≡ leave over unknown }
{
    Behind {
        aside: SetAside::Over,
        held: Held::Unknown,
    }
}

/// What an operation leaves that looks.
fn looked<'a>(
    alloc: Global,
    locates: bool,
    answer: &PassedAnswer<'a>,
    before: Held<'a>,
) -> Result<Behind<'a>, AllocError>
    ensures { IfOk result (λ l. leaves_of l ≡ looked locates (answer_of answer.now) (held_of before.entry)) }
{
    if locates {
        return Ok(Behind {
            aside: SetAside::Strangers(Vec::from_slice(alloc, &answer.listed)?),
            held: located(answer.outcome, answer.formed, answer.shown),
        });
    }
    Ok(Behind {
        aside: SetAside::These(Vec::new(alloc)),
        held: if_answered(answer.outcome, before),
    })
}

/// What the ID Placeholder holds behind an operation that looks and isn't Locate.
fn if_answered<'a>(outcome: Outcome, before: Held<'a>) -> Held<'a>
    ensures { held_of result ≡ if_answered outcome (held_of before.entry) }
{
    match outcome {
        Outcome::Pending => Held::Unknown,
        Outcome::Done | Outcome::Undone | Outcome::Failed => before,
    }
}

/// What the ID Placeholder holds behind a Locate.
fn located<'a>(outcome: Outcome, formed: bool, shown: Shown<'a>) -> Held<'a>
    ensures { held_of result ≡ located outcome formed (shown_of shown.entry) }
{
    match (outcome, shown) {
        (Outcome::Pending, _) => Held::Unknown,
        (_, Shown::Only(id)) => Held::Holds(id),
        (Outcome::Done, Shown::Nothing) if formed => Held::Empty,
        _ => Held::Unknown,
    }
}

/// Which objects may have changed by an operation on one.
fn changed<'a>(
    alloc: Global,
    asked: Asked<'a>,
    before: Held<'a>,
    first: Asked<'a>,
    names: &[&'a str],
) -> Result<SetAside<'a>, AllocError>
    ensures { IfOk result (λ a. aside_of a
        ≡ changed (asked_of asked.entry) (held_of before.entry) (asked_of first.entry) (map (λ s. s.now) names.now)) }
{
    match (asked, before) {
        (Asked::Named(id), _) => with_id(alloc, id, names),
        (Asked::Placeholder, Held::Holds(id)) => with_id(alloc, id, names),
        (Asked::Placeholder, Held::Empty) => match first {
            Asked::Named(id) => with_id(alloc, id, names),
            Asked::Placeholder | Asked::Unnamed => {
                Ok(SetAside::These(Vec::from_slice(alloc, names)?))
            }
        },
        (Asked::Placeholder, Held::Unknown) | (Asked::Unnamed, _) => match first {
            Asked::Named(id) => with_id(alloc, id, names),
            Asked::Placeholder | Asked::Unnamed => Ok(SetAside::All),
        },
    }
}

/// The object of this identifier, and these.
fn with_id<'a>(alloc: Global, id: &'a str, names: &[&'a str]) -> Result<SetAside<'a>, AllocError>
    ensures { IfOk result (λ a. aside_of a ≡ these (id.entry.now ∷ map (λ s. s.now) names.now)) }
{
    let mut ids = Vec::with_capacity(alloc, names.len().saturating_add(1))?;
    ids.push(id)?;
    ids.extend_from_slice(names)?;
    Ok(SetAside::These(ids))
}

/// What a Create or a Register leaves.
fn made<'a>(alloc: Global, first: Asked<'a>) -> Result<Behind<'a>, AllocError>
    ensures { IfOk result (λ l. leaves_of l ≡ made (asked_of first.entry)) }
{
    match first {
        Asked::Named(id) => Ok(Behind {
            aside: with_id(alloc, id, &[])?,
            held: Held::Holds(id),
        }),
        Asked::Placeholder | Asked::Unnamed => Ok(Behind {
            aside: SetAside::All,
            held: Held::Unknown,
        }),
    }
}

/// Which objects may have been made or changed by any other operation.
fn touched<'a>(
    alloc: Global,
    ask: &PassedAsk<'a>,
    answer: &PassedAnswer<'a>,
    before: Held<'a>,
) -> Result<SetAside<'a>, AllocError>
    ensures { IfOk result (λ a. aside_of a ≡ touched (ask_of ask.now) (answer_of answer.now) (held_of before.entry)) }
{
    if ask.unclearly || is_untold(answer.outcome, answer.bare) {
        return Ok(SetAside::All);
    }
    let mut names = Vec::from_slice(alloc, &ask.names)?;
    names.extend_from_slice(&answer.names)?;
    match (ask.asked, before) {
        (Asked::Placeholder, Held::Holds(id)) => with_id(alloc, id, &names),
        (Asked::Placeholder, Held::Unknown) => Ok(SetAside::All),
        _ => Ok(SetAside::These(names)),
    }
}

/// Whether an answer doesn't tell what was made: it was undone, and has no payload.
fn is_untold(outcome: Outcome, bare: bool) -> bool
    ensures { result ≡ is_untold outcome bare }
{
    match outcome {
        Outcome::Undone => bare,
        Outcome::Done | Outcome::Pending | Outcome::Failed => false,
    }
}
