//! What `ListedTooFew` rests on: the objects that a Locate has to list, and doesn't.

ghost use Rattle.std.specs.Prelude.{◌≡◌, IfOk, List, OnOk, map, option_map, ℕ};
ghost use Rattle.kmipa_attrs.specs.Filters.{filter_of};
ghost use Rattle.kmipa_msgs.specs.Messages.{answer_of, ask_of, lent, located_of};
ghost use Rattle.kmipa_record.specs.Declarations.{declaration_of};
ghost use Rattle.kmipa_record.specs.Entries.{entry_of};
ghost use Rattle.kmipa_explain.specs.Ids.{HasIds};
ghost use Rattle.kmipa_explain.specs.LeftOut.{IsLeftOut, LeavesSomeOut, TellsLeft, TellsLeftOut, TellsLeftOuts, filter_in, is_left_out};
ghost use Rattle.kmipa_explain.specs.Reading.{listed_in};
ghost use Rattle.kmipa_explain.specs.Told.{IsNoted};

use crate::explanation::Cause;
use crate::filters::must_fit;
use crate::held::LeftOutHeld;
use crate::id_set::IdSet;
use kmipa_attrs::Filter;
use kmipa_msgs::{Answer, Ask, Located, Payload};
use kmipa_ops::{Effect, row_of};
use kmipa_record::{Declaration, Entry};
use std::alloc::{AllocError, Global};

/// The objects that must be listed and aren't, in the order of their arrival.
pub fn left_out_cause(
    alloc: Global,
    held: &Declaration,
    t: i64,
    ask: &Ask,
    answer: &Answer,
) -> Result<Cause, AllocError>
    requires { LeavesSomeOut (declaration_of held.now) t (ask_of ask.now) (answer_of answer.now) }
    ensures { IfOk result (TellsLeft (declaration_of held.now) t (ask_of ask.now) (answer_of answer.now)) }
{
    let Some(filter) = filter_in(ask) else {
        return Ok(Cause::Object);
    };
    let Some(located) = located_in(answer) else {
        return Ok(Cause::Object);
    };
    let objects = left_out(alloc, &held.entries, t, filter, located)?;
    Ok(Cause::LeftOut(objects))
}

/// The filter of a Locate.
pub fn filter_in<'b>(ask: &'b Ask<'b>) -> Option<&'b Filter>
    ensures { option_map (λ filter. filter_of filter.now) result ≡ filter_in (ask_of ask.now).asked }
{
    match row_of(&ask.asked).effect {
        Effect::Lists(filter) => Some(filter),
        _ => None,
    }
}

/// What the answer of a Locate lists.
pub fn located_in<'c, 'a>(answer: &'c Answer<'a>) -> Option<&'c Located<'a>>
    ensures { option_map (λ located. located_of located.now) result ≡ listed_in (answer_of answer.now).payload }
{
    match &answer.payload {
        Some(Payload::Locate(located)) => Some(located),
        _ => None,
    }
}

/// The objects of these entries that must be listed at the moment, and aren't.
fn left_out(
    alloc: Global,
    entries: &[Entry],
    t: i64,
    filter: &Filter,
    located: &Located,
) -> Result<Vec<LeftOutHeld>, AllocError>
    ensures { IfOk result (λ told. TellsLeftOuts t (filter_of filter.now) (located_of located.now)
        (map entry_of entries.now) told.items) }
{
    let listed = IdSet::of(alloc, &located.ids)?;
    let mut told = Vec::new(alloc);
    let mut place = 0;
    'entries: while place < entries.len() {
        note(alloc, &mut told, &entries[place], t, filter, &listed)?;
        place += 1;
    }
    Ok(told)
}

/// Notes the object of an entry, where it is left out.
fn note(
    alloc: Global,
    told: &mut Vec<LeftOutHeld>,
    entry: &Entry,
    t: i64,
    filter: &Filter,
    listed: &IdSet,
) -> Result<(), AllocError>
    ensures { (ids : List (List ℕ)) → HasIds ids listed.now → OnOk result (IsNoted
        (TellsLeftOut t (filter_of filter.now) ids (entry_of entry.now))
        (IsLeftOut t (filter_of filter.now) ids (entry_of entry.now) → ⊥) told.old.items told.new.items) }
{
    if !is_left_out(entry, t, filter, listed) {
        return Ok(());
    }
    told.push(LeftOutHeld {
        identifier: String::from_str(alloc, entry.id.as_str())?,
        initial: entry.attrs.initial,
    })?;
    Ok(())
}

/// Whether the object of an entry must be listed at the moment, and isn't.
fn is_left_out(entry: &Entry, t: i64, filter: &Filter, listed: &IdSet) -> bool
    ensures { result ≡ is_left_out t (filter_of filter.now) listed.now (entry_of entry.now) }
{
    must_fit(filter, entry, t) && !listed.has(entry.id.as_str())
}
