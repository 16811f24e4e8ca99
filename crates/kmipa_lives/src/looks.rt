//! Locates, and the objects that they leave out.
//!
//! What a Locate sees of an object is kept only where it may depend on the order of calls.

use crate::fates::Fate;
use crate::items::{Guise, Items, Known, Touch};
use crate::spreads::Spreads;
use crate::stories::Recording;
use crate::times::{Time, time_at};
use kmipa_attrs::{AttrSet, Filter, Name, ObjectType};
use std::alloc::{AllocError, Global};

/// So many items are kept at most.
const MOST_TOUCHES: usize = 1_000_000;

/// A Locate that was done.
#[derive(Clone, Copy)]
pub struct Look<'b> {
    pub call: usize,
    pub item: usize,
    pub filter: &'b Filter,
    /// The touches of what it lists stand from this place on.
    pub from: usize,
    /// They end before this one.
    pub to: usize,
}

/// An object that has a name.
#[derive(Clone, Copy, PartialEq, Eq, PartialOrd, Ord)]
struct Bearer<'b> {
    value: &'b str,
    object: usize,
}

/// Notes the objects that each Locate leaves out though they may fit it, and drops those that it lists wherever it comes; or answers that
/// these are too many.
pub(crate) fn leave_out(
    alloc: Global,
    items: &mut Items<'_>,
    recording: &Recording<'_, '_>,
) -> Result<bool, AllocError> {
    let times = recording.times.as_slice();
    let spreads = Spreads::of(alloc, recording, &items.touches, items.objects.len())?;
    let bearers = bearers_of(alloc, &items.objects, &items.guises)?;
    let looks = Vec::from_slice(alloc, &items.looks)?;
    for (place, look) in looks.iter().enumerate() {
        let number = place.saturating_add(1);
        if is_strict(look) {
            note_listed(items, look, number);
            if !leave_out_of(items, times, &spreads, &bearers, look, number)? {
                return Ok(false);
            }
        }
    }
    drop_settled(alloc, items, times, &spreads)?;
    Ok(true)
}

/// Drops the objects that a Locate lists where what it sees of them depends on no order.
fn drop_settled(
    alloc: Global,
    items: &mut Items<'_>,
    times: &[Time],
    spreads: &Spreads,
) -> Result<(), AllocError> {
    let mut open = Vec::with_capacity(alloc, items.touches.len())?;
    for touch in &items.touches {
        let time = time_at(times, touch.call);
        if touch.fate != Fate::Listed || spreads.are_open(times, touch.object, time) {
            open.push(*touch)?;
        }
    }
    items.touches = open;
    Ok(())
}

/// Notes at the objects that a Locate lists that it does.
fn note_listed(items: &mut Items<'_>, look: &Look<'_>, number: usize) {
    for place in look.from..look.to {
        if let Some(touch) = items.touches.get(place).copied() {
            if let Some(known) = items.objects.get_mut(touch.object) {
                known.listed = number;
            }
        }
    }
}

/// Whether an object that fits it has to be listed.
fn is_strict(look: &Look<'_>) -> bool {
    let is_full = match look.filter.maximum {
        Some(most) => look.to.saturating_sub(look.from) as u64 >= u64::from(most.unsigned_abs()),
        None => false,
    };
    !is_full && !look.filter.is_loose
}

/// The objects by their names.
fn bearers_of<'b>(
    alloc: Global,
    objects: &[Known<'b>],
    guises: &[Guise<'b>],
) -> Result<Vec<Bearer<'b>>, AllocError> {
    let mut bearers = Vec::new(alloc);
    for guise in guises {
        add_bearers(&mut bearers, guise.object, guise.given)?;
    }
    for (object, known) in objects.iter().enumerate() {
        if let Some((_, given)) = known.given {
            add_bearers(&mut bearers, object, given)?;
        }
    }
    bearers.sort()?;
    bearers.dedup();
    Ok(bearers)
}

fn add_bearers<'b>(
    bearers: &mut Vec<Bearer<'b>>,
    object: usize,
    given: &'b AttrSet,
) -> Result<(), AllocError> {
    for name in given.names.as_slice() {
        bearers.push(Bearer {
            value: name.value.as_str(),
            object,
        })?;
    }
    Ok(())
}

/// The same of one Locate: of the bearers of its first name, or else of all objects.
fn leave_out_of(
    items: &mut Items<'_>,
    times: &[Time],
    spreads: &Spreads,
    bearers: &[Bearer<'_>],
    look: &Look<'_>,
    number: usize,
) -> Result<bool, AllocError> {
    match look.filter.names.as_slice().first() {
        Some(name) => {
            let wanted = name.value.as_str();
            let from = bearers.partition_point(|b| b.value < wanted);
            for bearer in bearers.get(from..).unwrap_or(&[]) {
                if bearer.value != wanted {
                    break;
                }
                leave_out_one(items, times, spreads, look, number, bearer.object)?;
            }
        }
        None => {
            for object in 0..items.objects.len() {
                leave_out_one(items, times, spreads, look, number, object)?;
            }
        }
    }
    Ok(items.touches.len() < MOST_TOUCHES)
}

fn leave_out_one(
    items: &mut Items<'_>,
    times: &[Time],
    spreads: &Spreads,
    look: &Look<'_>,
    number: usize,
    object: usize,
) -> Result<(), AllocError> {
    let Some(known) = items.objects.get(object) else {
        return Ok(());
    };
    let from = items.guises.partition_point(|guise| guise.object < object);
    let to = items.guises.partition_point(|guise| guise.object <= object);
    let guises = items.guises.get(from..to).unwrap_or(&[]);
    if known.listed != number
        && spreads.are_open(times, object, time_at(times, look.call))
        && may_matter(known, guises, times, look)
    {
        items.touches.push(Touch {
            object,
            call: look.call,
            item: look.item,
            fate: Fate::LeftOut,
        })?;
    }
    Ok(())
}

/// Whether the object may be live at the Locate, and fit it.
fn may_matter(known: &Known<'_>, guises: &[Guise<'_>], times: &[Time], look: &Look<'_>) -> bool {
    let Some((kind, given)) = known.given else {
        return false;
    };
    let time = time_at(times, look.call);
    let is_early = match known.born {
        Some(call) => time.is_before(time_at(times, call)),
        None => false,
    };
    let is_late = match known.gone {
        Some(call) => time_at(times, call).is_before(time),
        None => false,
    };
    !is_early
        && !is_late
        && (may_fit(look, kind, given)
            || guises
                .iter()
                .any(|guise| may_fit(look, guise.kind, guise.given)))
}

/// Whether an object of these attributes may fit a Locate.
fn may_fit(look: &Look<'_>, kind: ObjectType, given: &AttrSet) -> bool {
    is_or_any(look.filter.object_type, Some(kind.number()))
        && is_or_any(look.filter.algorithm, given.algorithm)
        && is_or_any(look.filter.length, given.length)
        && has_names(given.names.as_slice(), look.filter.names.as_slice())
}

/// Whether a value is the one that is wanted, as far as both are told.
fn is_or_any<T: PartialEq + Copy>(wanted: Option<T>, own: Option<T>) -> bool {
    match (wanted, own) {
        (Some(wanted), Some(own)) => wanted == own,
        _ => true,
    }
}

fn has_names(own: &[Name], wanted: &[Name]) -> bool {
    wanted
        .iter()
        .all(|name| own.iter().any(|other| other == name))
}
