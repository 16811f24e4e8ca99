//! A judged item that is excused: any answer to it is possible.

ghost use Rattle.kmipa_store.specs.Choices.{IsSound};
ghost use Rattle.kmipa_msgs.specs.Messages.{answer_of, ask_of, rules_of};
ghost use Rattle.kmipa_passed.specs.Leaving.{held_of};
ghost use Rattle.kmipa_aside.specs.Becoming.{Turns};
ghost use Rattle.kmipa_aside.specs.Does.{held_behind, is_as_ever, world_behind};
ghost use Rattle.kmipa_aside.specs.Taking.{TakenExcused};
ghost use Rattle.std.specs.Prelude.{◌≡◌};

use crate::case::Case;
use crate::cases::{case_of, is_done_change};
use crate::frame::frame_why;
use crate::item::Item;
use crate::setting::set_all;
use kmipa_msgs::{Answer, Ask, Rules};
use kmipa_ops::Refusal;
use kmipa_passed::Held;
use kmipa_store::Ledger;
use std::alloc::{AllocError, Global};

/// Takes a judged item that is excused, and answers what the ID Placeholder holds behind it. None where the item is judged as ever, and then nothing
/// is done. It is refused where the answer names another operation or another item, and nothing is changed then. After want of memory the ledger can
/// be taken back to each of its marks.
pub fn take_excused<'p, L: Ledger>(
    alloc: Global,
    ledger: &mut L,
    rules: &Rules,
    item: Item<'p>,
) -> Result<Option<Held<'p>>, Refusal>
    requires { IsSound (L.state ledger.old).now }
    ensures { TakenExcused (rules_of rules.now) (L.state ledger.old) (held_of item.entry.before) item.entry.moment
        (ask_of item.entry.ask.now) (answer_of item.entry.answer.now) result (L.state ledger.new) }
{
    let Item {
        moment,
        before,
        ask,
        answer,
    } = item;
    let case = case_of(ledger, rules, before, ask, answer);
    if is_as_ever(case) {
        return Ok(None);
    }
    if let Some(why) = frame_why(ask, answer) {
        return Err(Refusal::Impossible(why));
    }
    match leave(alloc, ledger, moment, case, ask, answer) {
        Ok(()) => Ok(Some(held_behind(case, before))),
        Err(_) => Err(Refusal::Memory),
    }
}

pub(crate) fn is_as_ever(case: Case) -> bool
    ensures { result ≡ is_as_ever case }
{
    match case {
        Case::AsEver => true,
        Case::Over | Case::AboutAside | Case::AboutUnknown | Case::NameMayBeTaken => false,
    }
}

/// Leaves the ledger as such an item does: where nobody can tell which object was changed, all are set aside.
fn leave<L: Ledger>(
    alloc: Global,
    ledger: &mut L,
    t: i64,
    case: Case,
    ask: &Ask,
    answer: &Answer,
) -> Result<(), AllocError>
    ensures { Turns (world_behind case t (ask_of ask.now) (answer_of answer.now)) (L.state ledger.old) result
        (L.state ledger.new) }
{
    match case {
        Case::AboutUnknown if is_done_change(ask, answer) => set_all(alloc, ledger, t),
        _ => Ok(()),
    }
}

/// What the placeholder holds behind it: once judging is over nobody can tell.
fn held_behind<'p>(case: Case, before: Held<'p>) -> Held<'p>
    ensures { held_of result ≡ held_behind case (held_of before.entry) }
{
    match case {
        Case::Over => Held::Unknown,
        Case::AboutAside | Case::AboutUnknown | Case::NameMayBeTaken | Case::AsEver => before,
    }
}
