//! Calls without an end mark, and the objects that they may be about.

use crate::fates::{Aim, Fate};
use crate::items::{Guise, Items, Touch};
use crate::matching::{Maker, Matching};
use crate::shown::{Given, Shown};
use crate::times::{Time, time_at};
use kmipa_msgs::BatchOption;
use kmipa_ops::New;
use kmipa_record::Call;
use std::alloc::{AllocError, Global};

/// So many items that may have brought one object are tried.
const MOST_MAKERS: usize = 24;

/// So many of them are looked at.
const LOOKED_AT: usize = 256;

/// So many objects that nothing shows are taken for the sake of names.
const MOST_UNSEEN: usize = 64;

/// Notes what open calls may have done to the objects that ended calls speak of, and makers of objects of these names, which ascend.
pub(crate) fn add_openings<'b, 'a>(
    alloc: Global,
    items: &mut Items<'b>,
    calls: &'b [Call<'a>],
    times: &[Time],
    wanted: &[(&'b str, u32)],
) -> Result<(), AllocError> {
    for (place, call) in calls.iter().enumerate() {
        if call.end.is_none() {
            add_named(items, place, call)?;
        }
    }
    let makers = makers_of(alloc, calls, times)?;
    add_makers(alloc, items, calls, &makers)?;
    items.known = items.objects.len();
    for maker in &makers {
        add_unseen(items, calls, *maker, wanted)?;
    }
    Ok(())
}

/// Whether what one item of a call does hangs on the others.
pub(crate) fn is_bound(call: &Call<'_>) -> bool {
    call.request.items.len() > 1 && call.request.option != BatchOption::Continue
}

/// Notes the items of an open call about objects that they name: those that change one, and where all hang together, the others.
fn add_named<'b, 'a>(
    items: &mut Items<'b>,
    place: usize,
    call: &'b Call<'a>,
) -> Result<(), AllocError> {
    for (item, ask) in call.request.items.iter().enumerate() {
        if let Aim::Object(Some(id), fate) = Aim::of(ask) {
            if items.find(id).is_some() && (fate.is_deed() || is_bound(call)) {
                items.touch(id, place, item, fate)?;
            }
        }
    }
    Ok(())
}

/// Notes of each object that answers show and nothing brings the items of open calls that may have brought it.
fn add_makers<'b, 'a>(
    alloc: Global,
    items: &mut Items<'b>,
    calls: &'b [Call<'a>],
    makers: &[Maker],
) -> Result<(), AllocError> {
    let orphans = orphans_of(alloc, items)?;
    let mut fits = Vec::with_capacity(alloc, orphans.len())?;
    for (by, object) in &orphans {
        fits.push(fitting_makers(alloc, items, calls, makers, *by, *object)?)?;
    }
    let matching = Matching::of(alloc, fits, makers.len())?;
    for (object, number) in &by_object(alloc, &orphans)? {
        for place in &matching.likeliest(*number, MOST_MAKERS)? {
            if let Some(maker) = makers.get(*place).copied() {
                add_guise(items, calls, maker, *object)?;
                add_maker(items, calls, maker, *object)?;
            }
        }
    }
    Ok(())
}

/// These objects by their numbers, each with its place here.
fn by_object(alloc: Global, orphans: &[(usize, usize)]) -> Result<Vec<(usize, usize)>, AllocError> {
    let mut objects = Vec::with_capacity(alloc, orphans.len())?;
    for (place, (_, object)) in orphans.iter().enumerate() {
        objects.push((*object, place))?;
    }
    objects.sort_unstable();
    Ok(objects)
}

fn makers_of(alloc: Global, calls: &[Call<'_>], times: &[Time]) -> Result<Vec<Maker>, AllocError> {
    let mut makers = Vec::new(alloc);
    for (place, call) in calls.iter().enumerate() {
        if call.end.is_none() {
            push_makers(&mut makers, place, call, time_at(times, place).stamp)?;
        }
    }
    Ok(makers)
}

fn push_makers(
    makers: &mut Vec<Maker>,
    place: usize,
    call: &Call<'_>,
    stamp: i64,
) -> Result<(), AllocError> {
    for (item, ask) in call.request.items.iter().enumerate() {
        if let Aim::Newborn(_) = Aim::of(ask) {
            makers.push(Maker {
                call: place,
                item,
                begin: call.begin,
                stamp,
            })?;
        }
    }
    Ok(())
}

/// What a maker makes.
fn newborn_of<'b, 'a>(calls: &'b [Call<'a>], maker: Maker) -> Option<New<'b>> {
    let call = calls.get(maker.call)?;
    Aim::of(call.request.items.get(maker.item)?).newborn()
}

/// The objects that answers show and nothing brings, by the ends of the calls that show them first.
fn orphans_of(alloc: Global, items: &Items<'_>) -> Result<Vec<(usize, usize)>, AllocError> {
    let mut orphans = Vec::new(alloc);
    for (object, known) in items.objects.iter().enumerate() {
        if let (None, Some(by)) = (known.given, known.shown.by) {
            orphans.push((by, object))?;
        }
    }
    orphans.sort_unstable();
    Ok(orphans)
}

/// The makers that may have brought an object, the latest first.
fn fitting_makers(
    alloc: Global,
    items: &Items<'_>,
    calls: &[Call<'_>],
    makers: &[Maker],
    by: usize,
    object: usize,
) -> Result<Vec<usize>, AllocError> {
    let mut fitting = Vec::new(alloc);
    let Some(known) = items.objects.get(object) else {
        return Ok(fitting);
    };
    for behind in 1..makers.len().saturating_add(1) {
        let number = makers.len().saturating_sub(behind);
        let Some(maker) = makers.get(number) else {
            break;
        };
        if fitting.len() < LOOKED_AT && maker.begin < by && may_bring(calls, *maker, &known.shown) {
            fitting.push(number)?;
        }
    }
    Ok(fitting)
}

fn may_bring(calls: &[Call<'_>], maker: Maker, shown: &Shown<'_>) -> bool {
    let Some(new) = newborn_of(calls, maker) else {
        return false;
    };
    let is_late = match shown.date_left(Fate::Born, Given::nothing()) {
        Some(date) => date < maker.stamp,
        None => false,
    };
    !is_late && shown.may_be_of(new)
}

/// The object may have the attributes that a maker gives.
fn add_guise<'b, 'a>(
    items: &mut Items<'b>,
    calls: &'b [Call<'a>],
    maker: Maker,
    object: usize,
) -> Result<(), AllocError> {
    if let Some(new) = newborn_of(calls, maker) {
        items.note_guise(Guise {
            object,
            kind: new.kind,
            given: new.attributes,
        })?;
    }
    Ok(())
}

/// Notes a maker of an object, and the items behind it that are about what it makes.
fn add_maker<'b, 'a>(
    items: &mut Items<'b>,
    calls: &'b [Call<'a>],
    maker: Maker,
    object: usize,
) -> Result<(), AllocError> {
    let Some(call) = calls.get(maker.call) else {
        return Ok(());
    };
    let birth = Touch {
        object,
        call: maker.call,
        item: maker.item,
        fate: Fate::Born,
    };
    items.touches.push(birth)?;
    for (item, ask) in call.request.items.iter().enumerate() {
        if item > maker.item {
            let aim = Aim::of(ask);
            if aim.is_setting() {
                break;
            }
            if let Aim::Object(None, fate) = aim {
                if fate.is_deed() || is_bound(call) {
                    items.touches.push(Touch {
                        item,
                        fate,
                        ..birth
                    })?;
                }
            }
        }
    }
    Ok(())
}

/// Notes that a maker may have brought an object that nothing shows, where that may be for the sake of other items, or of a name.
fn add_unseen<'b, 'a>(
    items: &mut Items<'b>,
    calls: &'b [Call<'a>],
    maker: Maker,
    wanted: &[(&'b str, u32)],
) -> Result<(), AllocError> {
    let Some(call) = calls.get(maker.call) else {
        return Ok(());
    };
    let is_hoped = is_bound(call) && has_other_deed(call, maker.item);
    let count = items.objects.len().saturating_sub(items.known);
    if !is_hoped && (count >= MOST_UNSEEN || !is_wanted(calls, maker, wanted)) {
        return Ok(());
    }
    let object = items.add_unseen()?;
    add_guise(items, calls, maker, object)?;
    add_maker(items, calls, maker, object)
}

/// Whether a maker gives what it makes one of these names, which ascend.
fn is_wanted(calls: &[Call<'_>], maker: Maker, wanted: &[(&str, u32)]) -> bool {
    let Some(new) = newborn_of(calls, maker) else {
        return false;
    };
    new.attributes.names.as_slice().iter().any(|name| {
        let own = (name.value.as_str(), name.kind);
        let place = wanted.partition_point(|other| *other < own);
        wanted.get(place).copied() == Some(own)
    })
}

/// Whether another item of a call may make an object, or change one that it names.
fn has_other_deed(call: &Call<'_>, maker: usize) -> bool {
    call.request.items.iter().enumerate().any(|(item, ask)| {
        item != maker
            && match Aim::of(ask) {
                Aim::Newborn(_) => true,
                Aim::Object(id, fate) => id.is_some() && fate.is_deed(),
                _ => false,
            }
    })
}
