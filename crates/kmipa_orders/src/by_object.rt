//! What some objects say of calls, one or those that bear one name: where the parts of the calls on them have no run, the calls have none.

ghost use Rattle.std.specs.Prelude.{◌≡◌, ◌<◌, ℕ, IfErr, IfOk, IfSome, List, None, Some, map, option_map, true};
ghost use Rattle.std.specs.String.{string_bytes};
ghost use Rattle.kmipa_record.specs.Declarations.{AreDeclared, declaration_of};
ghost use Rattle.kmipa_record.specs.Marks.{AreRecorded, MarkOf};
ghost use Rattle.kmipa_check.specs.Calls.{AreCalls, call_of};
ghost use Rattle.kmipa_check.specs.Grants.{GrantsNothing, grants_declared};
ghost use Rattle.kmipa_record.specs.Entries.{entry_of, items_of};
ghost use Rattle.kmipa_parts.specs.Parts.{IsElsewhere, IsPartOf, is_among};
ghost use Rattle.kmipa_msgs.specs.Messages.{lent};
ghost use Rattle.kmipa_orders.specs.ByObject.{AreCallParts, AreOrderly, IsCallPart, RefutesCalls, declared_on, part_step};
ghost use Rattle.kmipa_orders.specs.Candidates.{candidate_step};
ghost use Rattle.kmipa_orders.specs.Found.{Finds, FindsIn, Searches, SearchesIn};
ghost use Rattle.kmipa_orders.specs.Progress.{AllReadable, HaveRun};

use crate::candidate::Candidate;
use crate::found::Found;
use crate::grants::grants_nothing;
use crate::hopeless::found_hopeless;
use crate::laws_of_check::check_laws;
use crate::order::{EARLY, Outcome, find_order};
use crate::plain::candidate_of;
use crate::suspects::{Suspect, Suspects, named_objects};
use crate::watch::Unwatched;
use kmipa_batch::is_readable_call;
use kmipa_check::{CheckFault, open_ledger, rules_of_declaration};
use kmipa_parts::{Part, is_among, leave_be, may_touch, part_of};
use kmipa_record::{Call, Declaration, Entry};
use std::alloc::{AllocError, Global};

/// The part of a call on some objects.
#[derive(Drop)]
struct CallPart<'b, 'a> {
    call: &'b Call<'a>,
    number: i32,
    begin: usize,
    end: usize,
    part: Part<'a>,
}

/// So many steps are made for one object at most, or for those of one name.
const MOST_STEPS: u64 = 20_000;

/// So many steps are made for all objects at most.
const ALL_STEPS: u64 = 400_000;

/// So many entries are looked at for all objects at most.
const MOST_ENTRIES: usize = 20_000_000;

/// What a search of the parts on some objects came to.
#[derive(Drop)]
struct Looked {
    /// Whether there is no order of them.
    refuted: bool,
    /// How many parts were tried.
    steps: u64,
}

/// Objects that refute the calls.
#[derive(Drop)]
struct Refuting {
    objects: Vec<String>,
    /// How many parts were tried for them.
    steps: u64,
}

/// The objects are looked at, one after the other, then those together that bear one name, and then each two of these, until some are found of
/// which the parts of the calls have no run. Then neither have the calls, and they are told with the steps that the search makes first and those
/// that were made for these objects, where they are fewer than the budget. None is looked at where the declaration grants anything.
pub fn search_by_object(
    alloc: Global,
    calls: &[Call],
    declaration: &Declaration,
    budget: u64,
) -> Result<Option<Found>, CheckFault>
    requires { AreDeclared (declaration_of declaration.now) }
    ensures finds { (marks : List MarkOf) → AreRecorded marks → AreCalls marks (map call_of calls.now)
        → IfOk result (λ found. IfSome found (Finds marks (declaration_of declaration.now) budget)) }
    ensures memory { IfErr result (λ fault. fault ≡ CheckFault.Memory) }
{
    check_laws();
    let Ok(refuted) = first_refuted(alloc, declaration, calls) else {
        return Err(CheckFault::Memory);
    };
    let Some(refuting) = refuted else {
        return Ok(None);
    };
    let all = EARLY.saturating_add(refuting.steps);
    if all >= budget {
        return Ok(None);
    }
    Ok(Some(Found::Refuted(all, refuting.objects)))
}

/// What a search answered; or where it gave up, with the same steps, that one object refutes the calls, or that the answer of one call is impossible
/// over every inventory, if it is so.
pub fn or_refuted(
    alloc: Global,
    calls: &[Call],
    declaration: &Declaration,
    answered: Result<Found, CheckFault>,
) -> Result<Found, CheckFault>
    requires { AreDeclared (declaration_of declaration.now) }
    ensures { (seconds : ℕ) (marks : List MarkOf) (budget : ℕ) → AreRecorded marks
        → AreCalls marks (map call_of calls.now)
        → SearchesIn seconds marks (declaration_of declaration.now) budget answered
        → SearchesIn seconds marks (declaration_of declaration.now) budget result }
{
    match answered {
        Ok(found) => found_or_refuted(alloc, calls, declaration, found),
        Err(fault) => Err(fault),
    }
}

/// The same of what a search found.
fn found_or_refuted(
    alloc: Global,
    calls: &[Call],
    declaration: &Declaration,
    found: Found,
) -> Result<Found, CheckFault>
    requires { AreDeclared (declaration_of declaration.now) }
    ensures { (seconds : ℕ) (marks : List MarkOf) (budget : ℕ) → AreRecorded marks
        → AreCalls marks (map call_of calls.now)
        → FindsIn seconds marks (declaration_of declaration.now) budget found
        → SearchesIn seconds marks (declaration_of declaration.now) budget result }
{
    match found {
        Found::Yes(witness, steps) => Ok(Found::Yes(witness, steps)),
        Found::GaveUp(steps) => gave_up(alloc, calls, declaration, steps),
        Found::Refuted(steps, objects) => Ok(Found::Refuted(steps, objects)),
        Found::Impossible(steps, call) => Ok(Found::Impossible(steps, call)),
        Found::OutOfTime(steps, after) => Ok(Found::OutOfTime(steps, after)),
    }
}

/// The same of a search that gave up after so many steps.
fn gave_up(
    alloc: Global,
    calls: &[Call],
    declaration: &Declaration,
    steps: u64,
) -> Result<Found, CheckFault>
    requires { AreDeclared (declaration_of declaration.now) }
    ensures { (marks : List MarkOf) (budget : ℕ) → AreRecorded marks → AreCalls marks (map call_of calls.now)
        → Finds marks (declaration_of declaration.now) budget (Found.GaveUp steps)
        → Searches marks (declaration_of declaration.now) budget result }
{
    check_laws();
    let Ok(refuted) = first_refuted(alloc, declaration, calls) else {
        return Err(CheckFault::Memory);
    };
    let Some(refuting) = refuted else {
        return unless_hopeless(alloc, calls, declaration, steps);
    };
    Ok(Found::Refuted(steps, refuting.objects))
}

/// The same of one that gave up, and of which no object refutes the calls.
fn unless_hopeless(
    alloc: Global,
    calls: &[Call],
    declaration: &Declaration,
    steps: u64,
) -> Result<Found, CheckFault>
    requires { AreDeclared (declaration_of declaration.now) }
    ensures { (marks : List MarkOf) (budget : ℕ) → AreRecorded marks → AreCalls marks (map call_of calls.now)
        → Finds marks (declaration_of declaration.now) budget (Found.GaveUp steps)
        → Searches marks (declaration_of declaration.now) budget result }
{
    let Ok(hopeless) = found_hopeless(alloc, calls, steps) else {
        return Err(CheckFault::Memory);
    };
    match hopeless {
        Some(found) => Ok(found),
        None => Ok(Found::GaveUp(steps)),
    }
}

/// The first objects that are found of which the parts of the calls have no run, where the declaration grants nothing: calls may else be taken at
/// other moments than their stamps, and nothing is refuted.
fn first_refuted(
    alloc: Global,
    declaration: &Declaration,
    calls: &[Call],
) -> Result<Option<Refuting>, CheckFault>
    requires { AreDeclared (declaration_of declaration.now) }
    ensures nothing { IfOk result
        (λ refuting. IfSome refuting (λ r. GrantsNothing (grants_declared (declaration_of declaration.now)))) }
    ensures refutes { (marks : List MarkOf) → AreRecorded marks → AreCalls marks (map call_of calls.now)
        → IfOk result
        (λ refuting. IfSome refuting
        (λ r. RefutesCalls (declaration_of declaration.now) (map call_of calls.now) (map string_bytes r.objects.items))) }
{
    if grants_nothing(declaration) {
        first_without_run(alloc, declaration, calls)
    } else {
        Ok(None)
    }
}

/// The same, whatever the declaration grants. Objects are passed over that a call may touch which isn't plain.
fn first_without_run<'x>(
    alloc: Global,
    declaration: &'x Declaration,
    calls: &'x [Call<'x>],
) -> Result<Option<Refuting>, CheckFault>
    requires { AreDeclared (declaration_of declaration.now) }
    ensures { (marks : List MarkOf) → AreRecorded marks → AreCalls marks (map call_of calls.now)
        → IfOk result
        (λ refuting. IfSome refuting
        (λ r. RefutesCalls (declaration_of declaration.now) (map call_of calls.now) (map string_bytes r.objects.items))) }
{
    let found = named_objects(alloc, declaration, calls)?;
    let entries = declaration.entries.len();
    if found.alone.saturating_mul(entries) > MOST_ENTRIES {
        return Ok(None);
    }
    let mut unread = MOST_ENTRIES;
    let mut left = ALL_STEPS;
    'objects: for object in &found.objects {
        if unread < entries {
            return Ok(None);
        }
        unread = unread.saturating_sub(entries);
        let looked = found_look(alloc, declaration, calls, &found, object, left)?;
        if looked.refuted {
            let places = found.places(alloc, object)?;
            let ids = fewest(alloc, declaration, calls, &object.ids, &places)?;
            return refutes(alloc, declaration, calls, &ids, &places);
        }
        left = left.saturating_sub(looked.steps);
        if left == 0 {
            return Ok(None);
        }
    }
    Ok(None)
}

/// Searches the parts of the calls on some objects, unless a call may touch one that isn't plain.
fn found_look<'a>(
    alloc: Global,
    declaration: &Declaration,
    calls: &[Call<'a>],
    found: &Suspects<'a>,
    object: &Suspect<'a>,
    most: u64,
) -> Result<Looked, CheckFault>
    requires { AreDeclared (declaration_of declaration.now) }
{
    if found.is_touched(calls, &object.ids) {
        return Ok(Looked {
            refuted: false,
            steps: 0,
        });
    }
    let places = found.places(alloc, object)?;
    let few = u64::min(most, object.most);
    first_look(alloc, declaration, calls, &object.ids, &places, few)
}

/// Searches the parts of the calls at these places on some objects: it is not looked whether others are about these.
fn first_look(
    alloc: Global,
    declaration: &Declaration,
    calls: &[Call],
    ids: &[&str],
    places: &[usize],
    most: u64,
) -> Result<Looked, CheckFault>
    requires { AreDeclared (declaration_of declaration.now) }
{
    let mut parts = Vec::with_capacity(alloc, places.len())?;
    'places: for place in places {
        if let Some(call) = calls.get(*place) {
            if let Some(part) = plain_part(alloc, ids, call)? {
                parts.push(part)?;
            }
        }
    }
    search_parts(alloc, declaration, ids, &parts, u64::min(most, MOST_STEPS))
}

/// Of objects that are found to refute the calls those that do so alone: each is left out without which the others do.
fn fewest<'a>(
    alloc: Global,
    declaration: &Declaration,
    calls: &[Call],
    ids: &[&'a str],
    places: &[usize],
) -> Result<Vec<&'a str>, CheckFault>
    requires { AreDeclared (declaration_of declaration.now) }
{
    let mut few = Vec::from_slice(alloc, ids)?;
    'ids: for id in ids {
        let others = without(alloc, &few, id)?;
        if !others.is_empty() {
            let looked = first_look(alloc, declaration, calls, &others, places, MOST_STEPS)?;
            if looked.refuted {
                few = others;
            }
        }
    }
    Ok(few)
}

/// All of these but one.
fn without<'a>(alloc: Global, ids: &[&'a str], left_out: &str) -> Result<Vec<&'a str>, AllocError> {
    let mut others = Vec::with_capacity(alloc, ids.len())?;
    for id in ids {
        if *id != left_out {
            others.push(*id)?;
        }
    }
    Ok(others)
}

/// Searches the parts of calls on some objects, those at these places, for an order. Where there is none, and no other call may change one of
/// these objects, they refute the calls.
fn refutes(
    alloc: Global,
    declaration: &Declaration,
    calls: &[Call],
    ids: &[&str],
    places: &[usize],
) -> Result<Option<Refuting>, CheckFault>
    requires { AreDeclared (declaration_of declaration.now) }
    ensures { (marks : List MarkOf) → AreRecorded marks → AreCalls marks (map call_of calls.now)
        → IfOk result
        (λ refuting. IfSome refuting
        (λ r. RefutesCalls (declaration_of declaration.now) (map call_of calls.now) (map string_bytes r.objects.items))) }
{
    check_laws();
    let Some(parts) = parts_on(alloc, calls, ids, places)? else {
        return Ok(None);
    };
    let looked = search_parts(alloc, declaration, ids, &parts, MOST_STEPS)?;
    if looked.refuted {
        Ok(Some(Refuting {
            objects: copied(alloc, ids)?,
            steps: looked.steps,
        }))
    } else {
        Ok(None)
    }
}

/// Searches parts on some objects for an order, from what is declared of these.
fn search_parts<'c, 'a>(
    alloc: Global,
    declaration: &Declaration,
    ids: &[&str],
    parts: &'c [CallPart<'c, 'a>],
    most: u64,
) -> Result<Looked, CheckFault>
    requires { AreDeclared (declaration_of declaration.now) }
    ensures { AreOrderly (map part_step parts.now)
        → IfOk result
        (λ looked. looked.refuted ≡ true
        → HaveRun (declared_on (is_among (map lent ids.now)) (declaration_of declaration.now)) (map part_step parts.now) → ⊥) }
{
    check_laws();
    let own = candidates_of(alloc, parts)?;
    if !are_readable(&own) {
        return Ok(Looked {
            refuted: false,
            steps: 0,
        });
    }
    let declared = declaration_on(alloc, declaration, ids)?;
    let rules = rules_of_declaration(alloc, &declared)?;
    let mut ledger = open_ledger(alloc, &declared)?;
    let outcome = find_order(alloc, &mut ledger, &rules, &own, most, &mut Unwatched {})?;
    Ok(Looked {
        refuted: has_decided(&outcome, most),
        steps: outcome.steps,
    })
}

/// Whether a search of so many steps at most found that there is no order.
fn has_decided(outcome: &Outcome, most: u64) -> bool
    ensures none { result ≡ true → outcome.now.order ≡ None }
    ensures less { result ≡ true → outcome.now.steps < most }
    ensures in_time { result ≡ true → outcome.now.over ≡ None }
{
    outcome.order.is_none() && outcome.over.is_none() && outcome.steps < most
}

/// The parts of calls on some objects: of those at these places, in their order. `None` where one of them has none, or another call may change
/// one of these objects.
fn parts_on<'b, 'a>(
    alloc: Global,
    calls: &'b [Call<'a>],
    ids: &[&str],
    places: &[usize],
) -> Result<Option<Vec<CallPart<'b, 'a>>>, AllocError>
    ensures { IfOk result
        (λ parts. IfSome parts
        (λ own. AreCallParts (is_among (map lent ids.now)) (map call_of calls.now) (map part_step own.items))) }
{
    let mut parts = Vec::with_capacity(alloc, places.len())?;
    let mut next = 0;
    let mut at = 0;
    'calls: while at < calls.len() {
        let call = &calls[at];
        if next < places.len() && places[next] == at {
            let Some(part) = plain_part(alloc, ids, call)? else {
                return Ok(None);
            };
            parts.push(part)?;
            next += 1;
        } else if !is_elsewhere(ids, call) {
            return Ok(None);
        }
        at += 1;
    }
    Ok(Some(parts))
}

/// The part of a plain call on some objects.
fn plain_part<'b, 'a>(
    alloc: Global,
    ids: &[&str],
    call: &'b Call<'a>,
) -> Result<Option<CallPart<'b, 'a>>, AllocError>
    ensures { IfOk result
        (λ part. IfSome part (λ own. IsCallPart (is_among (map lent ids.now)) (call_of call.now) (Some (part_step own)))) }
{
    match candidate_of(call) {
        Some(own) => call_part(alloc, ids, &own),
        None => Ok(None),
    }
}

/// The same of one as a search takes it.
fn call_part<'b, 'a>(
    alloc: Global,
    ids: &[&str],
    call: &Candidate<'b, 'a>,
) -> Result<Option<CallPart<'b, 'a>>, AllocError>
    ensures { IfOk result (λ part. IfSome part (λ own. IsPartOf (is_among (map lent ids.now)) (candidate_step call.now) (part_step own))) }
{
    let Some(part) = part_of(alloc, ids, call.request, call.response)? else {
        return Ok(None);
    };
    Ok(Some(CallPart {
        call: call.call,
        number: call.number,
        begin: call.begin,
        end: call.end,
        part,
    }))
}

/// Whether a call leaves these objects as they are; one that isn't plain, whatever it is answered.
fn is_elsewhere(ids: &[&str], call: &Call) -> bool
    ensures { result ≡ true → IsCallPart (is_among (map lent ids.now)) (call_of call.now) None }
{
    match candidate_of(call) {
        Some(own) => leaves_be(ids, &own),
        None => !may_touch(ids, &call.request),
    }
}

/// Whether a plain call leaves these objects as they are.
fn leaves_be(ids: &[&str], call: &Candidate) -> bool
    ensures { result ≡ true → IsElsewhere (is_among (map lent ids.now)) (candidate_step call.now) }
{
    leave_be(ids, call.request, call.response)
}

/// The parts as calls that a search takes.
fn candidates_of<'c, 'a>(
    alloc: Global,
    parts: &'c [CallPart<'c, 'a>],
) -> Result<Vec<Candidate<'c, 'a>>, AllocError>
    ensures { IfOk result (λ own. map candidate_step own.items ≡ map part_step parts.now) }
{
    let mut own = Vec::with_capacity(alloc, parts.len())?;
    'parts: for part in parts {
        own.push(Candidate {
            number: part.number,
            begin: part.begin,
            end: part.end,
            request: &part.part.request,
            response: &part.part.response,
            call: part.call,
        })?;
    }
    Ok(own)
}

/// Whether each call has what there is to judge.
fn are_readable(calls: &[Candidate]) -> bool
    ensures { result ≡ true → AllReadable (map candidate_step calls.now) }
{
    'calls: for call in calls {
        if !is_readable_call(call.request, call.response) {
            return false;
        }
    }
    true
}

/// What is declared of some objects, and of no other.
fn declaration_on(
    alloc: Global,
    declaration: &Declaration,
    ids: &[&str],
) -> Result<Declaration, AllocError>
    ensures { IfOk result (λ own. declaration_of own ≡ declared_on (is_among (map lent ids.now)) (declaration_of declaration.now)) }
{
    let mut entries = Vec::new(alloc);
    'entries: for entry in &declaration.entries {
        if is_of(entry, ids) {
            let copy = copy_entry(alloc, entry)?;
            entries.push(copy)?;
        }
    }
    Ok(Declaration {
        settings: declaration.settings,
        rows: Vec::from_slice(alloc, &declaration.rows)?,
        allow_lines: Vec::from_slice(alloc, &declaration.allow_lines)?,
        own_attributes: Vec::from_slice(alloc, &declaration.own_attributes)?,
        entries,
        asides: Vec::new(alloc),
    })
}

/// Whether this is the entry of one of these objects.
fn is_of(entry: &Entry, ids: &[&str]) -> bool
    ensures { result ≡ is_among (map lent ids.now) (entry_of entry.now).id }
{
    is_among(ids, entry.id.as_str())
}

/// The same identifiers.
fn copied(alloc: Global, ids: &[&str]) -> Result<Vec<String>, AllocError>
    ensures { IfOk result (λ own. map string_bytes own.items ≡ map lent ids.now) }
{
    let mut own = Vec::with_capacity(alloc, ids.len())?;
    'ids: for id in ids {
        own.push(String::from_str(alloc, *id)?)?;
    }
    Ok(own)
}

/// An equal entry.
fn copy_entry(alloc: Global, entry: &Entry) -> Result<Entry, AllocError>
    ensures { IfOk result (λ copy. entry_of copy ≡ entry_of entry.now) }
{
    Ok(Entry {
        id: String::from_str(alloc, entry.id.as_str())?,
        kind: entry.kind,
        attrs: entry.attrs.copy(alloc)?,
        bytes: copy_bytes(alloc, &entry.bytes)?,
        owner: copy_text(alloc, &entry.owner)?,
    })
}

fn copy_text(alloc: Global, text: &Option<String>) -> Result<Option<String>, AllocError>
    ensures { IfOk result (λ copy. option_map string_bytes copy ≡ option_map string_bytes text.now) }
{
    match text {
        Some(text) => Ok(Some(String::from_str(alloc, text.as_str())?)),
        None => Ok(None),
    }
}

fn copy_bytes(alloc: Global, bytes: &Option<Vec<u8>>) -> Result<Option<Vec<u8>>, AllocError>
    ensures { IfOk result (λ copy. option_map items_of copy ≡ option_map items_of bytes.now) }
{
    match bytes {
        Some(bytes) => Ok(Some(bytes.clone()?)),
        None => Ok(None),
    }
}
