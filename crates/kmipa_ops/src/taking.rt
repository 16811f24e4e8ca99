//! One item of a batch, taken over any ledger.

ghost use Rattle.std.specs.Prelude.{◌≡◌, ◌<◌, All, IfOk, IfSome, bytes_eq, cond, find, length, option_map, true};
ghost use Rattle.kmipa_store.specs.Choices.{IsSound};
ghost use Rattle.kmipa_msgs.specs.Operations.{operation_number};
ghost use Rattle.kmipa_msgs.specs.Messages.{answer_of, ask_of, asked_of, maybe_lent, operation_asked, payload_of, rules_of};
ghost use Rattle.kmipa_ops.specs.After.{LeavesAfter, after, placeholder_after};
ghost use Rattle.kmipa_ops.specs.Asks.{ask_with};
ghost use Rattle.kmipa_ops.specs.Blame.{IsDoneUnopposed, failure_speaks, lowest, outcome_speaks};
ghost use Rattle.kmipa_ops.specs.Explains.{AreBytes, Taken, TellsBytes, brings, is_readable, shows};
ghost use Rattle.kmipa_ops.specs.Meant.{place_about};
ghost use Rattle.kmipa_ops.specs.Objects.{clash};
ghost use Rattle.kmipa_ops.specs.Placeholders.{placeholder_of};
ghost use Rattle.kmipa_ops.specs.Row.{row_subject};
ghost use Rattle.kmipa_ops.specs.Rows.{asked_row};
ghost use Rattle.kmipa_ops.specs.Whys.{whys};

use crate::change::Change;
use crate::changing::Changing;
use crate::deed::{Before, Deed};
use crate::deeds::with_deed;
use crate::echo::{clash_bytes, is_other_number};
use crate::failed::is_founded;
use crate::idle::Unjudged;
use crate::listing::prepare;
use crate::objects::place_about;
use crate::operation_row::Effect;
use crate::placeholder::Placeholder;
use crate::why::{Refusal, Why};
use kmipa_msgs::{Answer, Ask, Asked, Payload, Rules, Status};
use kmipa_store::Ledger;
use std::alloc::{AllocError, Global};

/// The part of an item that is the same for each operation: the rules of the server, Unique Batch Item ID, and the number of the operation.
#[derive(Clone, Copy)]
struct Frame<'a> {
    rules: &'a Rules,
    batch_id: Option<&'a [u8]>,
    number: u32,
}

/// Takes one item: the answer that was given to this ask at the moment `t`, in seconds since 1970-01-01T00:00:00Z. Where some inventory that
/// the ledger stands for allows the answer, the ledger then stands for what the item leaves, and knows what the answer told; else the
/// lowest reason why none does is told, and nothing is changed. After want of memory the ledger can be taken back to each of its marks.
///
/// The messages aren't outside the profile, and a wanted payload has been put in: `is_readable`.
pub fn take<L: Ledger>(
    alloc: Global,
    ledger: &mut L,
    rules: &Rules,
    placeholder: &mut Placeholder,
    t: i64,
    ask: &Ask,
    answer: &Answer,
) -> Result<(), Refusal>
    requires sound { IsSound (L.state ledger.old).now }
    requires readable { is_readable (ask_of ask.now) (answer_of answer.now) ≡ true }
    ensures { Taken (rules_of rules.now) (L.state ledger.old) (placeholder_of placeholder.old) t (ask_of ask.now)
        (answer_of answer.now) result (L.state ledger.new) (placeholder_of placeholder.new) }
{
    let frame = Frame {
        rules,
        batch_id: ask.batch_id,
        number: ask.number(),
    };
    ledger.set_moment(t);
    prepare_for(ledger, &ask.asked, &answer.payload);
    take_asked(alloc, ledger, placeholder, frame, &ask.asked, answer)
}

/// Makes the ledger ready for what is looked for in it.
fn prepare_for<L: Ledger>(ledger: &mut L, asked: &Asked, payload: &Option<Payload>)
    ensures meaning { L.state ledger.new ≡ L.state ledger.old }
    ensures moment { L.moment ledger.new ≡ L.moment ledger.old }
{
    if let (Asked::Locate(locate), Some(Payload::Locate(located))) = (asked, payload) {
        prepare(ledger, &locate.filter, located.ids.len());
    }
}

/// The list of the operations.
fn take_asked<L: Ledger>(
    alloc: Global,
    ledger: &mut L,
    placeholder: &mut Placeholder,
    frame: Frame<'_>,
    asked: &Asked,
    answer: &Answer,
) -> Result<(), Refusal>
    requires sound { IsSound (L.state ledger.old).now }
    requires number { frame.number ≡ operation_number (operation_asked (asked_of asked.now)) }
    requires readable { is_readable (ask_with (maybe_lent frame.batch_id) (asked_of asked.now)) (answer_of answer.now)
        ≡ true }
    ensures { Taken (rules_of frame.entry.rules.now) (L.state ledger.old) (placeholder_of placeholder.old) (L.moment ledger.old)
        (ask_with (maybe_lent frame.entry.batch_id) (asked_of asked.now)) (answer_of answer.now) result
        (L.state ledger.new) (placeholder_of placeholder.new) }
{
    with_deed!(
        asked,
        deed,
        take_deed(alloc, ledger, placeholder, frame, deed, answer)
    )
}

/// Takes one item, whatever its operation.
fn take_deed<D: Deed, L: Ledger>(
    alloc: Global,
    ledger: &mut L,
    placeholder: &mut Placeholder,
    frame: Frame<'_>,
    deed: &D,
    answer: &Answer,
) -> Result<(), Refusal>
    requires sound { IsSound (L.state ledger.old).now }
    requires number { frame.number ≡ operation_number (operation_asked (D.asked deed.now)) }
    requires readable { is_readable (ask_with (maybe_lent frame.batch_id) (D.asked deed.now)) (answer_of answer.now)
        ≡ true }
    ensures { Taken (rules_of frame.entry.rules.now) (L.state ledger.old) (placeholder_of placeholder.old) (L.moment ledger.old)
        (ask_with (maybe_lent frame.entry.batch_id) (D.asked deed.now)) (answer_of answer.now) result
        (L.state ledger.new) (placeholder_of placeholder.new) }
{
    let place = place_about(ledger, placeholder, deed.row().subject);
    let before = Before {
        rules: frame.rules,
        placeholder,
        place,
    };
    let Ok(lowest) = lowest_why(alloc, ledger, before, frame, deed, answer) else {
        return Err(Refusal::Memory);
    };
    match lowest {
        Some(why) => Err(Refusal::Impossible(why)),
        None => {
            brings_bytes(deed);
            shows_bytes(&answer.payload);
            match leave(alloc, ledger, placeholder, place, deed, answer) {
                Ok(()) => Ok(()),
                Err(_) => Err(Refusal::Memory),
            }
        }
    }
}

/// The lowest reason that speaks against the answer.
fn lowest_why<D: Deed, L: Ledger>(
    alloc: Global,
    ledger: &L,
    before: Before<'_>,
    frame: Frame<'_>,
    deed: &D,
    answer: &Answer,
) -> Result<Option<Why>, AllocError>
    requires sound { IsSound (L.state ledger.now).now }
    requires number { frame.number ≡ operation_number (operation_asked (D.asked deed.now)) }
    requires place { before.place ≡ place_about (L.state ledger.now).now.objects (placeholder_of before.placeholder.now)
        (row_subject (asked_row (D.asked deed.now))) }
    requires within { IfSome before.place (λ p. p < length (L.state ledger.now).now.objects) }
    ensures { IfOk result
        (λ why. why
        ≡ lowest (rules_of before.entry.rules.now) (L.state ledger.now).now (placeholder_of before.entry.placeholder.now)
        (L.moment ledger.now) (ask_with (maybe_lent frame.entry.batch_id) (D.asked deed.now)) (answer_of answer.now)) }
{
    if is_other_number(answer.operation, frame.number) {
        return Ok(Some(Why::OperationDiffers));
    }
    let outcome = outcome_why(alloc, ledger, before, deed, answer)?;
    match outcome {
        Some(why) => Ok(Some(why)),
        None => Ok(echo_why(frame, answer)),
    }
}

fn echo_why(frame: Frame<'_>, answer: &Answer) -> Option<Why>
    ensures { result ≡ cond (clash bytes_eq (answer_of answer.now).batch_id (maybe_lent frame.entry.batch_id))
        (Some Why.EchoDiffers) None }
{
    if clash_bytes(answer.batch_id, frame.batch_id) {
        Some(Why::EchoDiffers)
    } else {
        None
    }
}

/// The lowest reason against what the answer says was done. An Undone item was done at its place, and is judged as a Success.
fn outcome_why<D: Deed, L: Ledger>(
    alloc: Global,
    ledger: &L,
    before: Before<'_>,
    deed: &D,
    answer: &Answer,
) -> Result<Option<Why>, AllocError>
    requires sound { IsSound (L.state ledger.now).now }
    requires place { before.place ≡ place_about (L.state ledger.now).now.objects (placeholder_of before.placeholder.now)
        (row_subject (asked_row (D.asked deed.now))) }
    requires within { IfSome before.place (λ p. p < length (L.state ledger.now).now.objects) }
    ensures { IfOk result
        (λ why. why
        ≡ find (outcome_speaks answer.now.status (rules_of before.entry.rules.now) (L.state ledger.now).now
        (placeholder_of before.entry.placeholder.now) (L.moment ledger.now) (D.asked deed.now) answer.now.reason
        (answer_of answer.now).payload) whys) }
{
    match answer.status {
        Status::Success | Status::Undone => {
            deed.why_not_done(alloc, ledger, before, &answer.payload)
        }
        Status::Failed => Ok(failure_why(ledger, before, deed, answer.reason)),
    }
}

fn failure_why<D: Deed, L: Ledger>(
    ledger: &L,
    before: Before<'_>,
    deed: &D,
    reason: Option<u32>,
) -> Option<Why>
    requires place { before.place ≡ place_about (L.state ledger.now).now.objects (placeholder_of before.placeholder.now)
        (row_subject (asked_row (D.asked deed.now))) }
    requires within { IfSome before.place (λ p. p < length (L.state ledger.now).now.objects) }
    ensures { result ≡ find
        (failure_speaks (rules_of before.entry.rules.now) (L.state ledger.now).now (placeholder_of before.entry.placeholder.now)
        (L.moment ledger.now) (D.asked deed.now) reason) whys }
{
    if is_founded(
        ledger,
        before.rules,
        before.placeholder,
        before.place,
        deed.row().subject,
        reason,
    ) {
        None
    } else {
        Some(Why::ReasonUnfounded)
    }
}

/// Leaves the ledger and the placeholder as an item does against which nothing speaks.
fn leave<D: Deed, L: Ledger>(
    alloc: Global,
    ledger: &mut L,
    placeholder: &mut Placeholder,
    place: Option<usize>,
    deed: &D,
    answer: &Answer,
) -> Result<(), AllocError>
    requires sound { IsSound (L.state ledger.old).now }
    requires place { place ≡ place_about (L.state ledger.old).now.objects (placeholder_of placeholder.old)
        (row_subject (asked_row (D.asked deed.now))) }
    requires within { IfSome place (λ p. p < length (L.state ledger.old).now.objects) }
    requires unopposed { IsDoneUnopposed answer.now.status (L.state ledger.old).now (placeholder_of placeholder.old)
        (L.moment ledger.old) (D.asked deed.now) (answer_of answer.now).payload }
    ensures { LeavesAfter (L.state ledger.old)
        (after answer.now.status (L.state ledger.old).now (placeholder_of placeholder.old) (L.moment ledger.old)
        (D.asked deed.now) (answer_of answer.now).payload)
        (placeholder_after answer.now.status (placeholder_of placeholder.old) (D.asked deed.now)
        (answer_of answer.now).payload) result (L.state ledger.new) (placeholder_of placeholder.new) }
{
    match answer.status {
        Status::Success | Status::Undone => {
            deed.leave(alloc, ledger, placeholder, place, &answer.payload)
        }
        Status::Failed => Ok(()),
    }
}

/// A fact and no step: what an ask brings are bytes.
fn brings_bytes<D: Deed>(deed: &D)
    ensures { AreBytes (brings (D.asked deed.now)) }
{
    if let Effect::Makes(new) = deed.row().effect {
        if let Some(bytes) = new.material() {
            are_bytes(bytes);
        }
    }
}

/// And what an answer shows.
fn shows_bytes(payload: &Option<Payload>)
    ensures { AreBytes (shows (option_map payload_of payload.now)) }
{
    if let Some(Payload::Get(got)) = payload {
        are_bytes(got.block.material);
    }
}

fn are_bytes(bytes: &[u8])
    ensures { All (λ b. b < 256) bytes.now }
{}
