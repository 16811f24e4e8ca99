//! What `ListedWrongly` rests on: what is wrong in the list of a Locate.

ghost use Rattle.std.specs.Prelude.{◌≡◌, IfOk, None, OnOk, Some, cond, map};
ghost use Rattle.kmipa_attrs.specs.Filters.{filter_of};
ghost use Rattle.kmipa_msgs.specs.Messages.{answer_of, ask_of, lent, located_of};
ghost use Rattle.kmipa_record.specs.Declarations.{declaration_of};
ghost use Rattle.kmipa_record.specs.Entries.{entry_of};
ghost use Rattle.kmipa_ops.specs.Locate.{is_over};
ghost use Rattle.kmipa_explain.specs.Ids.{Indexes};
ghost use Rattle.kmipa_explain.specs.Listed.{IsListedWrongly, NotesFault, TellsListed, TellsWrongs, fault_in, object_fault};

use crate::entry_index::EntryIndex;
use crate::explanation::Cause;
use crate::filters::{first_no, state_of};
use crate::held::{ListFault, ListHeld, WronglyListed};
use crate::id_set::IdSet;
use crate::left_out::{filter_in, located_in};
use kmipa_attrs::Filter;
use kmipa_msgs::{Answer, Ask, Located};
use kmipa_record::{Declaration, Entry};
use std::alloc::{AllocError, Global};

/// Each identifier that may not be listed, and the maximum where more are listed.
pub fn listed_cause(
    alloc: Global,
    held: &Declaration,
    t: i64,
    ask: &Ask,
    answer: &Answer,
) -> Result<Cause, AllocError>
    requires { IsListedWrongly (declaration_of held.now) t (ask_of ask.now) (answer_of answer.now) }
    ensures { IfOk result (TellsListed (declaration_of held.now) t (ask_of ask.now) (answer_of answer.now)) }
{
    let Some(filter) = filter_in(ask) else {
        return Ok(Cause::Object);
    };
    let Some(located) = located_in(answer) else {
        return Ok(Cause::Object);
    };
    let listed = located.ids.len();
    let wrong = wrongly_listed(alloc, held, t, filter, located)?;
    Ok(Cause::Listed(ListHeld {
        listed,
        maximum: maximum_passed(filter.maximum, listed),
        wrong,
    }))
}

/// Maximum Items, where more are listed.
fn maximum_passed(maximum: Option<i32>, listed: usize) -> Option<i32>
    ensures { result ≡ cond (is_over maximum listed) maximum None }
{
    match maximum {
        Some(most) if i128::from(most) < listed as i128 => Some(most),
        _ => None,
    }
}

/// What is listed and may not be.
fn wrongly_listed(
    alloc: Global,
    held: &Declaration,
    t: i64,
    filter: &Filter,
    located: &Located,
) -> Result<Vec<WronglyListed>, AllocError>
    ensures { IfOk result (λ wrong. TellsWrongs (declaration_of held.now) t (filter_of filter.now)
        (located_of located.now) wrong.items) }
{
    let index = EntryIndex::of(alloc, &held.entries)?;
    wrong_by(alloc, held, &index, t, filter, &located.ids)
}

/// The same by the places of the identifiers that are held.
fn wrong_by(
    alloc: Global,
    held: &Declaration,
    index: &EntryIndex,
    t: i64,
    filter: &Filter,
    ids: &[&str],
) -> Result<Vec<WronglyListed>, AllocError>
    requires { Indexes (declaration_of held.now).entries index.now }
    ensures { IfOk result (λ wrong. TellsWrongs (declaration_of held.now) t (filter_of filter.now)
        (map lent ids.now) wrong.items) }
{
    let mut seen = IdSet::new(alloc);
    let mut wrong = Vec::new(alloc);
    let mut place = 0;
    'ids: while place < ids.len() {
        let id = ids[place];
        let is_new = seen.add(alloc, id)?;
        let fault = fault_in(held, index, t, filter, id, is_new);
        note(alloc, &mut wrong, id, fault)?;
        place += 1;
    }
    Ok(wrong)
}

/// What is wrong with an identifier that is listed for the first time, or isn't.
fn fault_in(
    held: &Declaration,
    index: &EntryIndex,
    t: i64,
    filter: &Filter,
    id: &str,
    is_new: bool,
) -> Option<ListFault>
    requires { Indexes (declaration_of held.now).entries index.now }
    ensures { result ≡ fault_in (declaration_of held.now) t (filter_of filter.now) id.now is_new }
{
    if !is_new {
        return Some(ListFault::Again);
    }
    match index.find(&held.entries, id) {
        Some(entry) => misfit_of(entry, t, filter),
        None => Some(ListFault::Absent),
    }
}

/// What a filter says of an object, where it says no.
fn misfit_of(entry: &Entry, t: i64, filter: &Filter) -> Option<ListFault>
    ensures { result ≡ object_fault t (filter_of filter.now) (Some (entry_of entry.now)) }
{
    match first_no(filter, entry, state_of(entry, t)) {
        Some(attribute) => Some(ListFault::Excluded(attribute)),
        None => None,
    }
}

/// Notes what is wrong with an identifier, if something is.
fn note(
    alloc: Global,
    wrong: &mut Vec<WronglyListed>,
    id: &str,
    fault: Option<ListFault>,
) -> Result<(), AllocError>
    ensures { OnOk result (NotesFault id.now fault wrong.old.items wrong.new.items) }
{
    let Some(fault) = fault else {
        return Ok(());
    };
    wrong.push(WronglyListed {
        identifier: String::from_str(alloc, id)?,
        fault,
    })?;
    Ok(())
}
