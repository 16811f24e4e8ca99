//! The answer that is made of an open call of a proposed order.

ghost use Rattle.std.specs.Prelude.{◌≡◌, IfErr, OnOk};
ghost use Rattle.kmipa_store.specs.Choices.{IsSound};

use crate::sights::{Sight, Sources, sight_of};
use kmipa_attrs::ObjectType;
use kmipa_check::CheckFault;
use kmipa_lives::{Deed, answer_of};
use kmipa_msgs::{
    Answer, Ask, BatchOption, Changed, Got, GotAttributes, KeyBlock, KeyFormat, Located, Payload,
    Response, Rules, Status, write_response,
};
use kmipa_ops::{Effect, Placeholder, Refusal, is_readable, row_of, take};
use kmipa_orders::spelling_of;
use kmipa_record::Call;
use kmipa_store::Ledger;
use std::alloc::{AllocError, Global};

/// So many items has an answer that is made.
const MOST_ANSWERED: usize = 100_000;

/// The reason of a failure that is made: General Failure, or the next number that the cause table doesn't have.
const FAILURE: u32 = 0x100;

/// An open call that does something.
#[derive(Clone, Copy)]
pub(crate) struct Opened<'c, 'b, 'a> {
    pub rules: &'c Rules,
    pub call: &'b Call<'a>,
    pub deeds: &'c [Deed<'b>],
    /// Identifiers for what its items make, if nothing shows it.
    pub names: &'c [String],
    pub sources: Sources<'b, 'a>,
}

/// The answer of an open call at a Time Stamp; none where it can't be said. Only the moment of the ledger is another then.
pub(crate) fn open_answer<L: Ledger>(
    alloc: Global,
    ledger: &mut L,
    opened: Opened<'_, '_, '_>,
    stamp: i64,
) -> Result<Option<Vec<u8>>, CheckFault>
    requires { IsSound (L.state ledger.old).now }
    ensures sound { OnOk result (IsSound (L.state ledger.new).now) }
    ensures memory { IfErr result (λ fault. fault ≡ CheckFault.Memory) }
{
    ledger.set_moment(stamp);
    let Ok(mark) = ledger.mark() else {
        return Err(CheckFault::Memory);
    };
    let seen = sights_of(alloc, ledger, opened);
    ledger.back(mark);
    match seen? {
        Some(sights) => Ok(spelled(alloc, opened, &sights, stamp)?),
        None => Ok(None),
    }
}

/// What the items show that have to be done, in their order; none where one can't be done.
fn sights_of<L: Ledger>(
    alloc: Global,
    ledger: &mut L,
    opened: Opened<'_, '_, '_>,
) -> Result<Option<Vec<Sight>>, CheckFault>
    requires { IsSound (L.state ledger.old).now }
    ensures marks { (L.state ledger.new).marks ≡ (L.state ledger.old).marks }
    ensures memory { IfErr result (λ fault. fault ≡ CheckFault.Memory) }
{
    let mut placeholder = Placeholder::new();
    let mut sights = Vec::new(alloc);
    'items: for place in 0..opened.needed() {
        let Some(ask) = opened.call.request.items.get(place) else {
            break;
        };
        let sight = sight_of(alloc, ledger, opened.sources, &placeholder, ask)?;
        if !take_seen(alloc, ledger, opened, &mut placeholder, place, &sight)? {
            return Ok(None);
        }
        sights.push(sight)?;
    }
    Ok(Some(sights))
}

/// Takes an item that shows this.
fn take_seen<'p, L: Ledger>(
    alloc: Global,
    ledger: &mut L,
    opened: Opened<'p, 'p, 'p>,
    placeholder: &mut Placeholder,
    place: usize,
    sight: &'p Sight,
) -> Result<bool, CheckFault>
    requires { IsSound (L.state ledger.old).now }
    ensures marks { (L.state ledger.new).marks ≡ (L.state ledger.old).marks }
    ensures sound { OnOk result (IsSound (L.state ledger.new).now) }
    ensures memory { IfErr result (λ fault. fault ≡ CheckFault.Memory) }
{
    let Some(ask) = opened.call.request.items.get(place) else {
        return Ok(false);
    };
    let deed = deed_at(opened.deeds, place);
    let Some(answer) = success(alloc, deed, name_at(opened.names, place), ask, Some(sight))? else {
        return Ok(false);
    };
    if !is_readable(ask, &answer) {
        return Ok(false);
    }
    let t = ledger.moment();
    match take(alloc, ledger, opened.rules, placeholder, t, ask, &answer) {
        Ok(()) => Ok(true),
        Err(Refusal::Impossible(_)) => Ok(false),
        Err(Refusal::Memory) => Err(CheckFault::Memory),
    }
}

impl<'c, 'b, 'a> Opened<'c, 'b, 'a> {
    /// So many items, from the front, have to be done.
    fn needed(&self) -> usize {
        let last = match self.deeds.last() {
            Some(deed) => deed.item.saturating_add(1),
            None => 0,
        };
        match self.call.request.option {
            BatchOption::Continue => 0,
            BatchOption::Stop => last,
            BatchOption::Undo => self.call.request.items.len(),
        }
    }
}

/// Identifiers for what the items of a call make, if nothing shows it.
pub(crate) fn fresh_names(alloc: Global, call: &Call) -> Result<Vec<String>, AllocError> {
    let number = call.number;
    let mut names = Vec::new(alloc);
    for place in 0..call.request.items.len() {
        names.push(format!(in alloc; "open-{number}-{place}")?)?;
    }
    Ok(names)
}

/// The bytes of the answer: what is done, and what has to be so that it is; the others fail.
fn spelled<'p>(
    alloc: Global,
    opened: Opened<'p, 'p, 'p>,
    sights: &'p [Sight],
    stamp: i64,
) -> Result<Option<Vec<u8>>, AllocError> {
    let needed = opened.needed();
    let mut items = Vec::new(alloc);
    for (place, ask) in opened.call.request.items.iter().enumerate() {
        let deed = deed_at(opened.deeds, place);
        if place < needed || deed.is_some() {
            let name = name_at(opened.names, place);
            match success(alloc, deed, name, ask, sights.get(place))? {
                Some(answer) => items.push(answer)?,
                None => return Ok(None),
            }
        } else {
            items.push(failure_of(opened.rules, ask))?;
            if opened.call.request.option != BatchOption::Continue {
                break;
            }
        }
    }
    if items.len() > MOST_ANSWERED {
        return Ok(None);
    }
    let item = write_response(alloc, &Response { stamp, items })?;
    spelling_of(alloc, &item)
}

/// The success of an item that shows this: of the object of a deed, or of a fresh name; none of an operation that isn't read.
fn success<'p>(
    alloc: Global,
    deed: Option<Deed<'p>>,
    name: &'p str,
    ask: &Ask<'p>,
    sight: Option<&'p Sight>,
) -> Result<Option<Answer<'p>>, AllocError> {
    if let Some(deed) = deed {
        return Ok(Some(answer_of(ask, deed.id, Status::Success)));
    }
    let payload = match row_of(&ask.asked).effect {
        Effect::Makes(_) => return Ok(Some(answer_of(ask, name, Status::Success))),
        Effect::Changes(_) => Some(Payload::Change(Changed { id: None })),
        Effect::Nothing => None,
        Effect::Unread => return Ok(None),
        _ => match sight {
            Some(sight) => payload_of(alloc, sight)?,
            None => None,
        },
    };
    Ok(Some(Answer {
        operation: Some(ask.number()),
        batch_id: ask.batch_id,
        status: Status::Success,
        reason: None,
        payload,
    }))
}

/// What the item at a place does.
fn deed_at<'b>(deeds: &[Deed<'b>], place: usize) -> Option<Deed<'b>> {
    deeds.iter().find(|deed| deed.item == place).copied()
}

fn name_at(names: &[String], place: usize) -> &str {
    match names.get(place) {
        Some(name) => name.as_str(),
        None => "",
    }
}

/// The payload that shows this.
fn payload_of(alloc: Global, sight: &Sight) -> Result<Option<Payload<'_>>, AllocError> {
    match sight {
        Sight::Nothing => Ok(None),
        Sight::Bytes(kind, bytes) => Ok(Some(Payload::Get(got(*kind, bytes)))),
        Sight::Attributes(shown) => Ok(Some(Payload::GetAttributes(GotAttributes {
            id: None,
            attributes: Box::new(alloc, shown.copy(alloc)?)?,
        }))),
        Sight::Listed(ids) => {
            let mut listed = Vec::new(alloc);
            for id in ids {
                listed.push(id.as_str())?;
            }
            Ok(Some(Payload::Locate(Located { ids: listed })))
        }
    }
}

fn got(kind: ObjectType, bytes: &[u8]) -> Got<'_> {
    Got {
        object_type: None,
        shape: kind,
        id: None,
        block: KeyBlock {
            format: KeyFormat::Raw,
            material: bytes,
            algorithm: None,
            length: None,
        },
    }
}

/// The failure of an item, for a reason that has no row in the cause table.
fn failure_of<'p>(rules: &Rules, ask: &Ask<'p>) -> Answer<'p> {
    let mut reason = FAILURE;
    for row in &rules.rows {
        if row.reason == reason {
            reason = reason.saturating_add(1);
        }
    }
    Answer {
        operation: Some(ask.number()),
        batch_id: ask.batch_id,
        status: Status::Failed,
        reason: Some(reason),
        payload: None,
    }
}
