//! Items about one object, tried over a ledger.

ghost use Rattle.std.specs.Prelude.{◌≡◌, OnOk};
ghost use Rattle.kmipa_store.specs.Choices.{IsSound};

use crate::answering::answer_of;
use crate::fates::{Aim, Fate};
use crate::hidden::is_hidden;
use crate::items::Touch;
use crate::shown::Given;
use crate::stories::{Story, has_status};
use crate::times::time_at;
use kmipa_batch::is_unordered;
use kmipa_msgs::{Answer, Ask, Payload, Status};
use kmipa_object::Life;
use kmipa_ops::{Fit, Placeholder, Refusal, is_readable, matches, take};
use kmipa_record::Call;
use kmipa_store::Ledger;
use std::alloc::{AllocError, Global};

/// Whether a group of items is possible behind a chain of groups, and changes the object.
pub(crate) fn try_change<L: Ledger>(
    alloc: Global,
    ledger: &mut L,
    story: &Story<'_>,
    chain: &[usize],
    group: usize,
) -> Result<bool, AllocError>
    requires { IsSound (L.state ledger.old).now }
    ensures { IsSound (L.state ledger.new).now }
{
    let Ok(mark) = ledger.mark() else {
        return Err(AllocError);
    };
    let tried = is_changed_behind(alloc, ledger, story, chain, group);
    ledger.back(mark);
    tried
}

fn is_changed_behind<L: Ledger>(
    alloc: Global,
    ledger: &mut L,
    story: &Story<'_>,
    chain: &[usize],
    group: usize,
) -> Result<bool, AllocError>
    requires { IsSound (L.state ledger.old).now }
    ensures { (L.state ledger.new).marks ≡ (L.state ledger.old).marks }
{
    if !take_chain(alloc, ledger, story, chain)? {
        return Ok(false);
    }
    let before = life_of(ledger, story.id);
    if !take_group(alloc, ledger, story, group)? {
        return Ok(false);
    }
    Ok(life_of(ledger, story.id) != before)
}

/// Whether a group of items is possible, and leaves the object as it is.
pub(crate) fn try_reader<L: Ledger>(
    alloc: Global,
    ledger: &mut L,
    story: &Story<'_>,
    group: usize,
) -> Result<bool, AllocError>
    requires { IsSound (L.state ledger.old).now }
    ensures marks { (L.state ledger.new).marks ≡ (L.state ledger.old).marks }
    ensures sound { IsSound (L.state ledger.new).now }
{
    let Ok(mark) = ledger.mark() else {
        return Err(AllocError);
    };
    let tried = is_left_by(alloc, ledger, story, group);
    ledger.back(mark);
    tried
}

fn is_left_by<L: Ledger>(
    alloc: Global,
    ledger: &mut L,
    story: &Story<'_>,
    group: usize,
) -> Result<bool, AllocError>
    requires { IsSound (L.state ledger.old).now }
    ensures { (L.state ledger.new).marks ≡ (L.state ledger.old).marks }
{
    let before = life_of(ledger, story.id);
    if !take_group(alloc, ledger, story, group)? {
        return Ok(false);
    }
    let is_undone = story.time(group).is_undone;
    Ok(is_undone || life_of(ledger, story.id) == before)
}

/// Takes the groups of a chain one after the other, as far as they are possible; and answers whether all are.
pub(crate) fn take_chain<L: Ledger>(
    alloc: Global,
    ledger: &mut L,
    story: &Story<'_>,
    chain: &[usize],
) -> Result<bool, AllocError>
    requires { IsSound (L.state ledger.old).now }
    ensures marks { (L.state ledger.new).marks ≡ (L.state ledger.old).marks }
    ensures sound { OnOk result (IsSound (L.state ledger.new).now) }
{
    if story.recording.is_open {
        ledger.set_moment(story.recording.least);
    }
    'groups: for group in chain {
        if !take_group(alloc, ledger, story, *group)? {
            return Ok(false);
        }
    }
    Ok(true)
}

/// The same of the items of a group.
fn take_group<L: Ledger>(
    alloc: Global,
    ledger: &mut L,
    story: &Story<'_>,
    group: usize,
) -> Result<bool, AllocError>
    requires { IsSound (L.state ledger.old).now }
    ensures marks { (L.state ledger.new).marks ≡ (L.state ledger.old).marks }
    ensures sound { OnOk result (IsSound (L.state ledger.new).now) }
{
    let touches = story.items(group);
    if story.recording.is_open && is_without_order(story, touches) {
        return take_in_any_order(alloc, ledger, story, touches);
    }
    'touches: for touch in touches {
        if !take_touch(alloc, ledger, story, *touch)? {
            return Ok(false);
        }
    }
    Ok(true)
}

/// Whether these items are of a batch without order.
fn is_without_order(story: &Story<'_>, touches: &[Touch]) -> bool {
    match touches.first() {
        Some(touch) => match story.recording.calls.get(touch.call) {
            Some(call) => touches.len() > 1 && is_unordered(&call.request),
            None => false,
        },
        None => false,
    }
}

/// Takes the items of a batch without order: over and over, those that are possible and leave the object be, and then the first other.
fn take_in_any_order<L: Ledger>(
    alloc: Global,
    ledger: &mut L,
    story: &Story<'_>,
    touches: &[Touch],
) -> Result<bool, AllocError>
    requires { IsSound (L.state ledger.old).now }
    ensures marks { (L.state ledger.new).marks ≡ (L.state ledger.old).marks }
    ensures sound { OnOk result (IsSound (L.state ledger.new).now) }
{
    let mut left = ranked(alloc, story, touches)?;
    'rounds: for _ in 0..touches.len() {
        let count = left.len();
        left = take_round(alloc, ledger, story, &left)?;
        if left.is_empty() || left.len() == count {
            break;
        }
    }
    Ok(left.is_empty())
}

/// Takes those of these items that are possible and leave the object as it is, then the first other that is possible; and answers those that are left.
fn take_round<L: Ledger>(
    alloc: Global,
    ledger: &mut L,
    story: &Story<'_>,
    touches: &[(u8, Touch)],
) -> Result<Vec<(u8, Touch)>, AllocError>
    requires { IsSound (L.state ledger.old).now }
    ensures marks { (L.state ledger.new).marks ≡ (L.state ledger.old).marks }
    ensures sound { OnOk result (IsSound (L.state ledger.new).now) }
{
    let left = take_possible(alloc, ledger, story, touches, true)?;
    take_possible(alloc, ledger, story, &left, false)
}

/// Takes those of these items that are possible and leave the object as it is, or else the first other; and answers those that are left.
fn take_possible<L: Ledger>(
    alloc: Global,
    ledger: &mut L,
    story: &Story<'_>,
    touches: &[(u8, Touch)],
    is_idle: bool,
) -> Result<Vec<(u8, Touch)>, AllocError>
    requires { IsSound (L.state ledger.old).now }
    ensures marks { (L.state ledger.new).marks ≡ (L.state ledger.old).marks }
    ensures sound { OnOk result (IsSound (L.state ledger.new).now) }
{
    let mut left = Vec::new(alloc);
    let mut is_over = false;
    'touches: for ranked in touches {
        let (rank, touch) = *ranked;
        let is_due = !is_over && (rank == IDLE) == is_idle;
        if !is_due || !take_touch(alloc, ledger, story, touch)? {
            left.push(*ranked)?;
            continue;
        }
        is_over = !is_idle;
    }
    Ok(left)
}

/// The rank of an item that leaves the object as it is.
const IDLE: u8 = 0;

/// These items by their ranks.
fn ranked(
    alloc: Global,
    story: &Story<'_>,
    touches: &[Touch],
) -> Result<Vec<(u8, Touch)>, AllocError> {
    let is_late = touches
        .iter()
        .any(|touch| is_destroyed_first(story, *touch));
    let mut ranked = Vec::with_capacity(alloc, touches.len())?;
    for touch in touches {
        ranked.push((rank_of(story, *touch, is_late), *touch))?;
    }
    ranked.sort_unstable();
    Ok(ranked)
}

/// State Destroyed (KMIP 2.1, section 11).
const DESTROYED: u32 = 5;

/// Whether an item shows that the object was destroyed before it was compromised: it is Destroyed, or the Destroy has deactivated it.
fn is_destroyed_first(story: &Story<'_>, touch: Touch) -> bool {
    let Some(call) = story.recording.calls.get(touch.call) else {
        return false;
    };
    let Some(response) = &call.response else {
        return false;
    };
    let Some(answer) = response.items.get(touch.item) else {
        return false;
    };
    match &answer.payload {
        Some(Payload::GetAttributes(got)) => got.attributes.state == Some(DESTROYED),
        _ => touch.fate == Fate::Destroyed && story.shown.deactivation.has(response.stamp),
    }
}

/// When an item comes in a batch without order: what changes an object comes in the order of a life. A Destroy comes behind what compromises the
/// object, or ahead of it where this `is_late`.
fn rank_of(story: &Story<'_>, touch: Touch, is_late: bool) -> u8 {
    let Some(call) = story.recording.calls.get(touch.call) else {
        return IDLE;
    };
    if has_status(call, touch.item, Status::Failed) {
        return IDLE;
    }
    match touch.fate {
        Fate::Born => 1,
        Fate::Activated => 2,
        Fate::Deactivated => 3,
        Fate::Compromised if is_late => 6,
        Fate::Compromised => 4,
        Fate::Destroyed => 5,
        _ => IDLE,
    }
}

/// The same of one item.
fn take_touch<L: Ledger>(
    alloc: Global,
    ledger: &mut L,
    story: &Story<'_>,
    touch: Touch,
) -> Result<bool, AllocError>
    requires { IsSound (L.state ledger.old).now }
    ensures marks { (L.state ledger.new).marks ≡ (L.state ledger.old).marks }
    ensures sound { OnOk result (IsSound (L.state ledger.new).now) }
{
    let Some(call) = story.recording.calls.get(touch.call) else {
        return Ok(false);
    };
    let Some(ask) = call.request.items.get(touch.item) else {
        return Ok(false);
    };
    let Some(response) = &call.response else {
        return take_open(alloc, ledger, story, touch, ask);
    };
    let Some(answer) = response.items.get(touch.item) else {
        return Ok(false);
    };
    ledger.set_moment(response.stamp);
    match touch.fate {
        Fate::Listed => Ok(fit_of(ledger, story.id, ask) != Fit::Not),
        Fate::LeftOut => Ok(fit_of(ledger, story.id, ask) != Fit::Must),
        _ if is_hidden(ask, answer) => {
            let full = answer_of(ask, story.id, Status::Undone);
            take_item(alloc, ledger, story, ask, &full)
        }
        _ => take_item(alloc, ledger, story, ask, answer),
    }
}

/// Takes the success of an item of an open call: at the date that it is shown to have left, or else as soon as may be, or a Revoke when the object
/// becomes active by its own date.
fn take_open<L: Ledger>(
    alloc: Global,
    ledger: &mut L,
    story: &Story<'_>,
    touch: Touch,
    ask: &Ask<'_>,
) -> Result<bool, AllocError>
    requires { IsSound (L.state ledger.old).now }
    ensures marks { (L.state ledger.new).marks ≡ (L.state ledger.old).marks }
    ensures sound { OnOk result (IsSound (L.state ledger.new).now) }
{
    if !touch.fate.is_deed() {
        return Ok(is_there(ledger, story.id, touch.fate));
    }
    if let Some(date) = date_behind(ledger, story, touch.fate) {
        return take_done(alloc, ledger, story, ask, date);
    }
    let soon = ledger
        .moment()
        .max(time_at(&story.recording.times, touch.call).stamp);
    if take_done(alloc, ledger, story, ask, soon)? {
        return Ok(true);
    }
    match activation_of(ledger, story, touch.fate) {
        Some(date) if date > soon => take_done(alloc, ledger, story, ask, date),
        _ => Ok(false),
    }
}

/// The same at a date.
fn take_done<L: Ledger>(
    alloc: Global,
    ledger: &mut L,
    story: &Story<'_>,
    ask: &Ask<'_>,
    date: i64,
) -> Result<bool, AllocError>
    requires { IsSound (L.state ledger.old).now }
    ensures marks { (L.state ledger.new).marks ≡ (L.state ledger.old).marks }
    ensures sound { OnOk result (IsSound (L.state ledger.new).now) }
{
    ledger.set_moment(date);
    let answer = answer_of(ask, story.id, Status::Success);
    take_item(alloc, ledger, story, ask, &answer)
}

/// The date from which on the object is active, where a Revoke asks for it.
fn activation_of<L: Ledger>(ledger: &L, story: &Story<'_>, fate: Fate) -> Option<i64> {
    match life_of(ledger, story.id) {
        Some(life) if fate.is_revoked() => life.activation,
        _ => None,
    }
}

/// The date that the success of an item leaves on the object as it is, as far as one is shown: a Destroy also deactivates.
fn date_behind<L: Ledger>(ledger: &L, story: &Story<'_>, fate: Fate) -> Option<i64> {
    let Some(place) = ledger.find(story.id) else {
        return story.shown.date_left(fate, Given::nothing());
    };
    let object = ledger.at(place);
    let given = Given::of(&object.given);
    let date = story.shown.date_left(fate, given);
    let is_deactivated = object.life.deactivation != given.deactivation;
    if date.is_some() || fate != Fate::Destroyed || is_deactivated {
        return date;
    }
    story.shown.deactivation.besides(given.deactivation)
}

/// Whether the object is there to be looked at, with its bytes where these are shown.
fn is_there<L: Ledger>(ledger: &L, id: &str, fate: Fate) -> bool {
    match life_of(ledger, id) {
        Some(life) => fate != Fate::Read || life.destroy.is_none(),
        None => false,
    }
}

fn take_item<L: Ledger>(
    alloc: Global,
    ledger: &mut L,
    story: &Story<'_>,
    ask: &Ask<'_>,
    answer: &Answer<'_>,
) -> Result<bool, AllocError>
    requires { IsSound (L.state ledger.old).now }
    ensures marks { (L.state ledger.new).marks ≡ (L.state ledger.old).marks }
    ensures sound { OnOk result (IsSound (L.state ledger.new).now) }
{
    if !is_readable(ask, answer) {
        return Ok(false);
    }
    let mut placeholder = Placeholder {
        id: Some(String::from_str(alloc, story.id)?),
    };
    let rules = &story.recording.rules;
    let t = ledger.moment();
    match take(alloc, ledger, rules, &mut placeholder, t, ask, answer) {
        Ok(()) => Ok(true),
        Err(Refusal::Impossible(_)) => Ok(false),
        Err(Refusal::Memory) => Err(AllocError),
    }
}

/// How the object fits a Locate at the ledger's moment; not, where it isn't there.
fn fit_of<L: Ledger>(ledger: &L, id: &str, ask: &Ask<'_>) -> Fit {
    match (ledger.find(id), Aim::of(ask)) {
        (Some(place), Aim::Fitting(filter)) => {
            matches(ledger.at(place), filter, ledger.state(place))
        }
        _ => Fit::Not,
    }
}

/// The life of the object, if it is there.
fn life_of<L: Ledger>(ledger: &L, id: &str) -> Option<Life> {
    match ledger.find(id) {
        Some(place) => Some(ledger.at(place).life),
        None => None,
    }
}
