//! One judged place of a call, taken over any ledger.

ghost use Rattle.std.specs.Prelude.{◌≡◌, true};
ghost use Rattle.kmipa_store.specs.Choices.{IsSound};
ghost use Rattle.kmipa_msgs.specs.Messages.{answer_of, ask_of, rules_of};
ghost use Rattle.kmipa_ops.specs.Explains.{is_readable};
ghost use Rattle.kmipa_passed.specs.Leaving.{held_of};
ghost use Rattle.kmipa_aside.specs.Places.{TakenPlace, judged};

use crate::excused::take_excused;
use crate::item::Item;
use crate::lists::take_listing;
use crate::plain::take_as_ever;
use crate::reborn::take_reborn;
use kmipa_msgs::Rules;
use kmipa_ops::Refusal;
use kmipa_passed::Held;
use kmipa_store::Ledger;
use std::alloc::Global;

/// Takes a judged item, and answers what the ID Placeholder holds behind it: the item is excused, or lists what is set aside, or its new object takes
/// the place of a body, or it is judged as ever. Where some world that the ledger stands for allows it, the ledger then stands for what the item
/// leaves, and knows what it told; else the lowest reason why none does is told, and nothing is changed. After want of memory the ledger can be taken
/// back to each of its marks.
///
/// The messages aren't outside the profile, and a wanted payload has been put in: `is_readable`.
pub fn take_judged<'p, L: Ledger>(
    alloc: Global,
    ledger: &mut L,
    rules: &Rules,
    item: Item<'p>,
) -> Result<Held<'p>, Refusal>
    requires sound { IsSound (L.state ledger.old).now }
    requires readable { is_readable (ask_of item.ask.now) (answer_of item.answer.now) ≡ true }
    ensures { TakenPlace (rules_of rules.now) (L.state ledger.old) (held_of item.entry.before) item.entry.moment
        (judged (ask_of item.entry.ask.now) (answer_of item.entry.answer.now)) result (L.state ledger.new) }
{
    match take_excused(alloc, ledger, rules, item) {
        Ok(Some(after)) => return Ok(after),
        Ok(None) => {}
        Err(refusal) => return Err(refusal),
    }
    match take_listing(alloc, ledger, rules, item) {
        Ok(Some(after)) => return Ok(after),
        Ok(None) => {}
        Err(refusal) => return Err(refusal),
    }
    match take_reborn(alloc, ledger, rules, item) {
        Ok(Some(after)) => Ok(after),
        Ok(None) => take_as_ever(alloc, ledger, rules, item),
        Err(refusal) => Err(refusal),
    }
}
