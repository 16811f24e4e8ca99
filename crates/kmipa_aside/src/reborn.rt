//! A new object that takes the place of a body.

ghost use Rattle.std.specs.Prelude.{◌≡◌, ◌<◌, IfSome, Some, is_some, length, slice_get, true};
ghost use Rattle.kmipa_attrs.specs.Sets.{attributes_of};
ghost use Rattle.kmipa_store.specs.Choices.{IsSound};
ghost use Rattle.kmipa_store.specs.Ledger.{cards_of, id_at};
ghost use Rattle.kmipa_msgs.specs.Messages.{answer_of, ask_of, lent, rules_of};
ghost use Rattle.kmipa_ops.specs.Explains.{is_readable};
ghost use Rattle.kmipa_passed.specs.Leaving.{held_of};
ghost use Rattle.kmipa_aside.specs.Becoming.{stand_in};
ghost use Rattle.kmipa_aside.specs.Births.{Renews, attributes_born, birth_of, bytes_born, card_born, why_born};
ghost use Rattle.kmipa_aside.specs.Graves.{body_of, grave, is_dead};
ghost use Rattle.kmipa_aside.specs.Taking.{TakenReborn};

use crate::birth::Birth;
use crate::births::{attributes_born, birth, brings_bytes, has_bytes};
use crate::cases::case_of;
use crate::excused::is_as_ever;
use crate::item::Item;
use crate::names::is_name_taken;
use crate::plain::take_in;
use crate::standing::is_aside;
use kmipa_attrs::AttrSet;
use kmipa_msgs::{Answer, Ask, Rules};
use kmipa_object::{Object, Rule};
use kmipa_ops::{Refusal, Why, clash_bytes, is_other_number, new_life, new_own};
use kmipa_passed::Held;
use kmipa_store::Ledger;
use std::alloc::{AllocError, Global};

/// Takes a judged item that is judged as ever and whose new object has the identifier of a body, and answers what the ID Placeholder holds behind it.
/// None of another item, and then nothing is done. The object takes the body's place, and its identifier isn't set aside any more. It is refused where
/// kmipa_ops would refuse it if the body weren't there, and nothing is changed then. After want of memory the ledger can be taken back to each of its
/// marks.
pub fn take_reborn<'p, L: Ledger>(
    alloc: Global,
    ledger: &mut L,
    rules: &Rules,
    item: Item<'p>,
) -> Result<Option<Held<'p>>, Refusal>
    requires sound { IsSound (L.state ledger.old).now }
    requires readable { is_readable (ask_of item.ask.now) (answer_of item.answer.now) ≡ true }
    ensures { TakenReborn (rules_of rules.now) (L.state ledger.old) (held_of item.entry.before) item.entry.moment
        (ask_of item.entry.ask.now) (answer_of item.entry.answer.now) result (L.state ledger.new) }
{
    let Item {
        moment,
        before,
        ask,
        answer,
    } = item;
    let case = case_of(ledger, rules, before, ask, answer);
    if !is_as_ever(case) {
        return Ok(None);
    }
    let Some(birth) = birth(ask, answer) else {
        return Ok(None);
    };
    let Some(place) = grave(ledger, birth.answered.id) else {
        return Ok(None);
    };
    let Ok(attributes) = attributes_born(alloc, birth.new) else {
        return Err(Refusal::Memory);
    };
    if let Some(why) = why_not_born(ledger, rules, ask, answer, birth, &attributes) {
        return Err(Refusal::Impossible(why));
    }
    brings_bytes(birth.new.material());
    match bear(alloc, ledger, moment, place, birth, attributes) {
        Ok(()) => {}
        Err(_) => return Err(Refusal::Memory),
    }
    match take_in(ledger, Some(birth.answered.id)) {
        Ok(()) => Ok(Some(Held::Holds(birth.answered.id))),
        Err(_) => Err(Refusal::Memory),
    }
}

/// Whether a body has the identifier of the new object that an item made.
pub(crate) fn has_grave<L: Ledger>(ledger: &L, ask: &Ask, answer: &Answer) -> bool
    ensures { result ≡ is_some (grave (stand_in (L.state ledger.now).now) (ask_of ask.now) (answer_of answer.now)) }
{
    match birth(ask, answer) {
        Some(birth) => grave(ledger, birth.answered.id).is_some(),
        None => false,
    }
}

/// The place of the body that has an identifier.
fn grave<L: Ledger>(ledger: &L, id: &str) -> Option<usize>
    ensures place { result ≡ body_of (stand_in (L.state ledger.now).now) (Some id.now) }
    ensures within { IfSome result (λ place. place < length (L.state ledger.now).now.objects) }
{
    let place = ledger.find(id)?;
    if is_aside(ledger, id) && is_dead(ledger, place) {
        Some(place)
    } else {
        None
    }
}

/// Whether the object at a place is destroyed.
fn is_dead<L: Ledger>(ledger: &L, place: usize) -> bool
    requires { place < length (L.state ledger.now).now.objects }
    ensures { result ≡ is_dead (slice_get (cards_of (L.state ledger.now).now.objects) place) }
{
    ledger.at(place).life.destroy.is_some()
}

/// The lowest reason against a new object, as if the body weren't there.
fn why_not_born<'p, L: Ledger>(
    ledger: &L,
    rules: &Rules,
    ask: &'p Ask<'p>,
    answer: &'p Answer<'p>,
    birth: Birth<'p>,
    attributes: &AttrSet,
) -> Option<Why>
    requires { attributes_of attributes.now ≡ attributes_born (birth_of birth).new }
    ensures { result ≡ why_born (rules_of rules.now) (L.state ledger.now).now (ask_of ask.now) (answer_of answer.now)
        (birth_of birth.entry) }
{
    if is_other_number(answer.operation, ask.number()) {
        return Some(Why::OperationDiffers);
    }
    if is_name_taken(ledger, rules, birth.new.attributes.names.as_slice()) {
        return Some(Why::NameTaken);
    }
    if !has_bytes(Rule::of(birth.new.kind, attributes), birth.new.material()) {
        return Some(Why::LengthImpossible);
    }
    let answered = birth.answered.object_type;
    if clash_bytes(answer.batch_id, ask.batch_id)
        || is_other_number(answered, birth.new.kind.number())
    {
        return Some(Why::EchoDiffers);
    }
    None
}

/// The new object stands at a place of its identifier from now on.
fn bear<'p, L: Ledger>(
    alloc: Global,
    ledger: &mut L,
    t: i64,
    place: usize,
    birth: Birth<'p>,
    attributes: AttrSet,
) -> Result<(), AllocError>
    requires given { attributes_of attributes ≡ attributes_born (birth_of birth).new }
    requires there { place < length (L.state ledger.old).now.objects }
    requires same { id_at (L.state ledger.old).now.objects place ≡ Some (lent birth.answered.id) }
    ensures { Renews (L.state ledger.old) place (card_born t (birth_of birth.entry)) (bytes_born (birth_of birth.entry).new)
        result (L.state ledger.new) }
{
    let id = String::from_str(alloc, birth.answered.id)?;
    let activation = attributes.activation;
    let deactivation = attributes.deactivation;
    let secret = new_own(
        ledger,
        Rule::of(birth.new.kind, &attributes),
        birth.new.material(),
    )?;
    let object = Object {
        id,
        kind: birth.new.kind,
        given: attributes,
        life: new_life(t, activation, deactivation, secret),
    };
    match ledger.renew(place, object) {
        Ok(()) => Ok(()),
        Err(_) => Err(AllocError),
    }
}
