//! An order of calls, proposed.

ghost use Rattle.std.specs.Prelude.{◌<◌, All, IfOk, IfSome, length};
ghost use Rattle.kmipa_store.specs.Choices.{IsSound};

use crate::choices::{Choice, add_choices};
use crate::items::{Items, Known, Touch};
use crate::lives::{Course, lives_of};
use crate::looks::leave_out;
use crate::mending::Mending;
use crate::names::Names;
use crate::sorting::graph_of;
use crate::stories::{Recording, Story};
use crate::switches::Switches;
use crate::times::times_of;
use kmipa_msgs::Rules;
use kmipa_record::{Call, Declaration};
use kmipa_store::Ledger;
use std::alloc::{AllocError, Global};

/// So many edges are looked at.
const EFFORT: u64 = 20_000_000;

/// So many items are tried, one life with another.
const MOST_TRIES: usize = 1_500_000;

/// The places of calls in an order that seems to explain their answers, object by object; none where none was found. The rules and the ledger are
/// those of the declaration. Nothing is promised of the order, but that these are places of calls: it is to be checked.
pub fn propose<'x, 'a, L: Ledger>(
    alloc: Global,
    calls: &'x [Call<'a>],
    declaration: &'x Declaration,
    rules: Rules,
    ledger: &mut L,
) -> Result<Option<Vec<usize>>, AllocError>
    requires { IsSound (L.state ledger.old).now }
    ensures { IfOk result (λ order. IfSome order (λ o. All (λ place. place < length calls.now) o.items)) }
{
    let Some(mut times) = times_of(alloc, calls)? else {
        return Ok(None);
    };
    let mut items = Items::of(alloc, calls, declaration)?;
    let mut switches = Switches::none(alloc);
    let mut names = Names::of(alloc, calls, &items, &rules, &mut times, false)?;
    names.close(alloc, calls, &items, &mut times, &mut switches)?;
    let recording = Recording {
        calls,
        times,
        rules: by_object(rules),
        switches,
        is_open: false,
        least: i64::MIN,
    };
    match mending_of(alloc, ledger, &recording, &mut items, &names)? {
        Some(mending) => Ok(Some(calls_among(alloc, &mending.graph.order, recording.calls.len())?)),
        None => Ok(None),
    }
}

/// The rules as one object alone is judged by: no name is taken.
pub(crate) fn by_object(rules: Rules) -> Rules {
    Rules {
        unique_names: false,
        ..rules
    }
}

/// The graph of a recording, with the choices that the lives of its objects leave, all taken; none where they can't be.
pub(crate) fn mending_of<'x, 'a, L: Ledger>(
    alloc: Global,
    ledger: &mut L,
    recording: &Recording<'x, 'a>,
    items: &mut Items<'x>,
    names: &Names<'x>,
) -> Result<Option<Mending>, AllocError>
    requires { IsSound (L.state ledger.old).now }
{
    if !leave_out(alloc, items, recording)? {
        return Ok(None);
    }
    items.touches.sort_unstable();
    let Some(mut choices) = choices_of(alloc, ledger, recording, &items.objects, &items.touches)?
    else {
        return Ok(None);
    };
    if !names.add_choices(alloc, recording, &mut choices)? {
        return Ok(None);
    }
    settled(alloc, recording, choices)
}

/// The choices that the lives of all objects leave; none where an object has no life, or too many.
fn choices_of<'s, L: Ledger>(
    alloc: Global,
    ledger: &mut L,
    recording: &'s Recording<'s, 's>,
    objects: &[Known<'s>],
    touches: &'s [Touch],
) -> Result<Option<Vec<Choice>>, AllocError>
    requires { IsSound (L.state ledger.old).now }
{
    let mut choices = Vec::new(alloc);
    let mut from = 0;
    let mut tries = 0usize;
    'objects: for (object, known) in objects.iter().enumerate() {
        let to = touches.partition_point(|touch| touch.object <= object);
        let own = touches.get(from..to).unwrap_or(&[]);
        let story = Story::of(
            alloc,
            recording,
            known,
            own,
            recording.switches.is_unseen(object),
        )?;
        let courses = lives_of(alloc, ledger, &story)?;
        tries = tries.saturating_add(own.len().saturating_mul(courses.len()));
        if courses.is_empty() || tries > MOST_TRIES {
            return Ok(None);
        }
        add_choices(alloc, &mut choices, &recording.times, &courses)?;
        from = to;
    }
    Ok(Some(choices))
}

/// The graph in which the choices are taken, if they can be.
fn settled(
    alloc: Global,
    recording: &Recording<'_, '_>,
    choices: Vec<Choice>,
) -> Result<Option<Mending>, AllocError> {
    let Some(mut graph) = graph_of(alloc, &recording.times, EFFORT)? else {
        return Ok(None);
    };
    for edge in &recording.switches.edges {
        if graph.add(edge.from, edge.to, 0)?.is_none() {
            return Ok(None);
        }
    }
    let mut mending = Mending::new(alloc, graph, choices);
    Ok(if mending.settle()? {
        Some(mending)
    } else {
        None
    })
}

/// The nodes that are calls, in their order.
pub(crate) fn calls_among(
    alloc: Global,
    nodes: &[usize],
    count: usize,
) -> Result<Vec<usize>, AllocError>
    ensures { IfOk result (λ places. All (λ place. place < count) places.items) }
{
    let mut places = Vec::new(alloc);
    'nodes: for node in nodes {
        if *node < count {
            places.push(*node)?;
        }
    }
    Ok(places)
}
