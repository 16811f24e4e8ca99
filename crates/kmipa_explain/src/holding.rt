//! What the reasons rest on that speak of what a server held.

ghost use Rattle.std.specs.Prelude.{◌≡◌, ◌≢◌, ◌↔◌, ◌<◌, ◌+◌, IfErr, IfOk, IsTrue, Some, bytes_eq, find, length, map, option_map, slice_get, ℕ};
ghost use Rattle.kmipa_attrs.specs.Sets.{attributes_of};
ghost use Rattle.kmipa_object.specs.Life.{dates_of};
ghost use Rattle.kmipa_msgs.specs.Messages.{AnswerOf, AskOf, answer_of, ask_of, maybe_lent, payload_of};
ghost use Rattle.kmipa_record.specs.Declarations.{declaration_of};
ghost use Rattle.kmipa_record.specs.Entries.{EntryOf, entry_of};
ghost use Rattle.kmipa_ops.specs.Explains.{shows};
ghost use Rattle.kmipa_ops.specs.Placeholders.{placeholder_of};
ghost use Rattle.kmipa_batch.specs.Calls.{pairs_of};
ghost use Rattle.kmipa_check.specs.Described.{dates_in};
ghost use Rattle.kmipa_check.specs.Replays.{AllTakable};
ghost use Rattle.kmipa_check.specs.Steps.{StepOf, step_of};
ghost use Rattle.kmipa_explain.specs.Explainable.{HasPair, IsRefusedThere};
ghost use Rattle.kmipa_explain.specs.Holding.{DiffersFirst, TellsBytes, TellsHeld, TellsItem, TellsState, act_asked, bytes_held, dates_told, object_held};
ghost use Rattle.kmipa_explain.specs.Places.{at_item};
ghost use Rattle.kmipa_explain.specs.Reading.{seen_subject};
ghost use Rattle.kmipa_explain.specs.Meant.{text_of};
ghost use Rattle.kmipa_explain.specs.Reasoned.{HeldReason, IsExcludedThere, IsReasoned, KnowsOtherBytes};
ghost use Rattle.kmipa_explain.specs.Standing.{TellsOfHeld};
ghost use Rattle.kmipa_explain.specs.Whence.{IsSubject};

use crate::differing::differing_cause;
use crate::echoes::echo_cause;
use crate::explanation::Cause;
use crate::held::{BytesHeld, DatesHeld};
use crate::items::about_in;
use crate::left_out::left_out_cause;
use crate::lengths::length_cause;
use crate::listed::listed_cause;
use crate::missing::missing_cause;
use crate::places::{answer_there, ask_there};
use crate::standing::{Standing, standing_at};
use crate::subject::{Resting, Subject, subject_held};
use crate::taken::{identifier_cause, name_cause};
use crate::unfounded::{object_judged, reason_cause};
use kmipa_attrs::AttrSet;
use kmipa_check::{CheckFault, Step, rules_of_declaration};
use kmipa_msgs::{Answer, Ask, Payload};
use kmipa_object::{Act, Life, Material};
use kmipa_ops::{Why, reasons_are_decided, row_of};
use kmipa_record::{Declaration, Entry};
use std::alloc::{AllocError, Global};

/// An item that is refused, with its answer, the moment of its call, and the reason.
#[derive(Clone, Copy)]
struct RefusedItem<'c, 'a> {
    ask: &'c Ask<'a>,
    answer: &'c Answer<'a>,
    t: i64,
    why: Why,
}

/// What the reason rests on for which an item of a turn's call is refused, where it speaks of what the server held. Turns are counted from
/// 0 here, items from 1.
pub fn held_cause(
    alloc: Global,
    declaration: &Declaration,
    steps: &[Step],
    turn: usize,
    item: usize,
    why: Why,
) -> Result<Resting, CheckFault>
    requires takable { AllTakable (map step_of steps.now) }
    requires refused { (c : StepOf) × IsRefusedThere (declaration_of declaration.now) (map step_of steps.now) turn c
        item why }
    ensures tells { (c : StepOf) → slice_get (map step_of steps.now) turn ≡ Some c
        → IfOk result (λ rest. TellsOfHeld (declaration_of declaration.now) (map step_of steps.now) turn c item
        (TellsItem why c.response.stamp rest.cause)) }
    ensures subject { (c : StepOf) → slice_get (map step_of steps.now) turn ≡ Some c
        → IfOk result (λ rest. TellsOfHeld (declaration_of declaration.now) (map step_of steps.now) turn c item
        (IsSubject c.response.stamp rest.cause (option_map seen_subject rest.subject))) }
    ensures memory { IfErr result (λ fault. fault ≡ CheckFault.Memory) }
{
    let standing = standing_at(alloc, declaration, steps, turn, item - 1, why)?;
    reasons_are_decided();
    let step = &steps[turn];
    let cause = cause_in(alloc, &standing, step, item, why)?;
    let subject = subject_in(alloc, &standing, step, item, &cause)?;
    Ok(Resting { cause, subject })
}

/// The object of which the cause speaks, of what was held there.
fn subject_in(
    alloc: Global,
    standing: &Standing,
    step: &Step,
    item: usize,
    cause: &Cause,
) -> Result<Option<Subject>, AllocError>
    requires { HasPair (step_of step.now) item }
    ensures { (ask : AskOf) (answer : AnswerOf) → at_item
        (pairs_of (step_of step.now).request (step_of step.now).response) item ≡ Some (ask, answer)
        → IfOk result (λ subject. IsSubject (step_of step.now).response.stamp cause.now
        (option_map seen_subject subject) (declaration_of standing.now.held) (placeholder_of standing.now.placeholder)
        ask answer) }
{
    let ask = ask_there(step, item);
    let answer = answer_there(step, item);
    let meant = about_in(alloc, ask, answer, &standing.placeholder.id)?;
    subject_held(alloc, &standing.held, &meant, step.moment(), cause)
}

/// The same of what was held there.
fn cause_in(
    alloc: Global,
    standing: &Standing,
    step: &Step,
    item: usize,
    why: Why,
) -> Result<Cause, AllocError>
    requires { IsReasoned (declaration_of standing.now.held) (placeholder_of standing.now.placeholder)
        (step_of step.now) item why }
    ensures { (ask : AskOf) (answer : AnswerOf) → at_item
        (pairs_of (step_of step.now).request (step_of step.now).response) item ≡ Some (ask, answer)
        → IfOk result (λ cause. TellsItem why (step_of step.now).response.stamp cause (declaration_of standing.now.held)
        (placeholder_of standing.now.placeholder) ask answer) }
{
    let ask = ask_there(step, item);
    let answer = answer_there(step, item);
    let meant = about_in(alloc, ask, answer, &standing.placeholder.id)?;
    let refused = RefusedItem {
        ask,
        answer,
        t: step.moment(),
        why,
    };
    cause_of_meant(alloc, &standing.held, meant, refused)
}

/// The same where this identifier is meant.
fn cause_of_meant(
    alloc: Global,
    held: &Declaration,
    meant: Option<String>,
    refused: RefusedItem<'_, '_>,
) -> Result<Cause, AllocError>
    requires { HeldReason refused.why (declaration_of held.now) (text_of meant) refused.t (ask_of refused.ask.now)
        (answer_of refused.answer.now) }
    ensures { IfOk result (TellsHeld refused.entry.why (declaration_of held.now) (text_of meant) refused.entry.t
        (ask_of refused.entry.ask.now) (answer_of refused.entry.answer.now)) }
{
    let RefusedItem {
        ask,
        answer,
        t,
        why,
    } = refused;
    match why {
        Why::NoSuchObject => Ok(Cause::NoObject(meant)),
        Why::WrongState => state_cause(alloc, held, &meant, t, ask),
        Why::IdentifierTaken => Ok(identifier_cause(meant)),
        Why::NameTaken => name_cause(alloc, held, ask),
        Why::BytesDiffer => Ok(bytes_cause(held, &meant, answer)),
        Why::LengthImpossible => Ok(length_cause(object_held(held, &meant), ask, answer)),
        Why::EchoDiffers => echo_cause(alloc, &meant, ask, answer),
        Why::AttributeDiffers => differing_cause(alloc, held, &meant, t, answer),
        Why::AttributeMissing => missing_cause(alloc, held, &meant, t, ask, answer),
        Why::ListedWrongly => listed_cause(alloc, held, t, ask, answer),
        Why::ListedTooFew => left_out_cause(alloc, held, t, ask, answer),
        Why::ReasonUnfounded => reason_cause(alloc, held, &meant, t, ask, answer),
        _ => Ok(Cause::Object),
    }
}

/// The object that is meant, as the operation on it is judged, which the server's rules exclude.
fn state_cause(
    alloc: Global,
    held: &Declaration,
    meant: &Option<String>,
    t: i64,
    ask: &Ask,
) -> Result<Cause, AllocError>
    requires { IsExcludedThere (declaration_of held.now) (text_of meant.now) t (ask_of ask.now).asked }
    ensures { IfOk result (TellsState (declaration_of held.now) (text_of meant.now) t (ask_of ask.now).asked) }
{
    let rules = rules_of_declaration(alloc, held)?;
    match object_judged(held, &rules, meant, t, ask) {
        Some(object) => Ok(Cause::State(object)),
        None => Ok(Cause::Object),
    }
}

/// The dates among these attributes.
pub(crate) fn dates_in(attrs: &AttrSet) -> DatesHeld
    ensures { dates_told result ≡ dates_in (attributes_of attrs.now) }
{
    DatesHeld {
        initial: attrs.initial,
        activation: attrs.activation,
        deactivation: attrs.deactivation,
        destroy: attrs.destroy,
        compromise: attrs.compromise,
    }
}

/// A life with these dates.
pub(crate) fn life_with(dates: DatesHeld) -> Life
    ensures { dates_of result ≡ dates_told dates }
{
    Life {
        initial: dates.initial,
        activation: dates.activation,
        deactivation: dates.deactivation,
        destroy: dates.destroy,
        compromise: dates.compromise,
        material: Material::Gone,
    }
}

/// The row of the table of states by which an operation on an object is judged.
pub fn act_asked(ask: &Ask) -> Option<Act>
    ensures { result ≡ act_asked (ask_of ask.now).asked }
{
    row_of(&ask.asked).subject.act()
}

/// Where the bytes that are shown differ from those that are known of the object that is meant.
fn bytes_cause(held: &Declaration, meant: &Option<String>, answer: &Answer) -> Cause
    requires { KnowsOtherBytes (declaration_of held.now) (text_of meant.now) (answer_of answer.now).payload }
    ensures { TellsBytes (declaration_of held.now) (text_of meant.now) (answer_of answer.now).payload result }
{
    let Some(known) = bytes_held(held, meant) else {
        return Cause::Object;
    };
    let Some(shown) = shown_bytes(&answer.payload) else {
        return Cause::Object;
    };
    Cause::Bytes(BytesHeld {
        known: known.len(),
        shown: shown.len(),
        differ_at: first_difference(known, shown),
    })
}

/// The bytes that are known of the object that is meant.
fn bytes_held<'a>(held: &'a Declaration, meant: &Option<String>) -> Option<&'a [u8]>
    ensures { maybe_lent result ≡ bytes_held (declaration_of held.now) (text_of meant.now) }
{
    let Some(entry) = object_held(held, meant) else {
        return None;
    };
    match &entry.bytes {
        Some(bytes) => Some(bytes.as_slice()),
        None => None,
    }
}

/// The bytes that an answer shows.
pub(crate) fn shown_bytes<'c>(payload: &'c Option<Payload>) -> Option<&'c [u8]>
    ensures { maybe_lent result ≡ shows (option_map payload_of payload.now) }
{
    match payload {
        Some(Payload::Get(got)) => Some(got.block.material),
        _ => None,
    }
}

/// The first place where two byte strings differ.
fn first_difference(known: &[u8], shown: &[u8]) -> usize
    requires { known.now ≢ shown.now }
    ensures { DiffersFirst known.now shown.now result }
{
    let mut place = 0;
    'bytes: while place < known.len() {
        if !agree_at(known, shown, place) {
            return place;
        }
        place += 1;
    }
    place
}

/// Whether two byte strings have the same byte at a place of the first.
fn agree_at(known: &[u8], shown: &[u8], place: usize) -> bool
    requires { place < length known.now }
    ensures { IsTrue result ↔ (slice_get known.now place ≡ slice_get shown.now place) }
{
    place < shown.len() && known[place] == shown[place]
}

/// The object that is meant, where an identifier is meant and an object has it.
pub(crate) fn object_held<'a>(held: &'a Declaration, meant: &Option<String>) -> Option<&'a Entry>
    ensures { option_map (λ entry. entry_of entry.now) result ≡ object_held (declaration_of held.now)
        (text_of meant.now) }
{
    match meant {
        Some(id) => entry_named(&held.entries, id.as_str()),
        None => None,
    }
}

/// The entry of this identifier.
pub(crate) fn entry_named<'a>(entries: &'a [Entry], id: &str) -> Option<&'a Entry>
    ensures { option_map (λ entry. entry_of entry.now) result ≡ find (λ (e : EntryOf). bytes_eq id.now e.id)
        (map entry_of entries.now) }
{
    let mut place = 0;
    'entries: while place < entries.len() {
        let entry = &entries[place];
        if is_named(entry, id) {
            return Some(entry);
        }
        place += 1;
    }
    None
}

/// Whether an object has this identifier.
fn is_named(entry: &Entry, id: &str) -> bool
    ensures { result ≡ bytes_eq id.now (entry_of entry.now).id }
{
    id == entry.id.as_str()
}
