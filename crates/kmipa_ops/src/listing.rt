//! What a Locate lists.

ghost use Rattle.std.specs.Prelude.{◌≡◌, ◌<◌, IfOk, IfSome, find, length, map, nat_lt, pos, not};
ghost use Rattle.kmipa_attrs.specs.Filters.{filter_of};
ghost use Rattle.kmipa_object.specs.Inventory.{card_of};
ghost use Rattle.kmipa_store.specs.Choices.{IsSound};
ghost use Rattle.kmipa_store.specs.Ledger.{cards_of};
ghost use Rattle.kmipa_msgs.specs.Messages.{lent};
ghost use Rattle.kmipa_store.specs.Queries.{Leaps, lasting};
ghost use Rattle.kmipa_ops.specs.Listing.{FitsAt, IsMissing, LeavesOut, NextCandidate, NextHaving, PlaceListed, Placed};
ghost use Rattle.kmipa_ops.specs.Locate.{is_full, is_over, locate_speaks};
ghost use Rattle.kmipa_ops.specs.Whys.{whys};

use crate::fit::{Fit, fit_of};
use crate::names::lacks_at;
use crate::places_listed::PlacesListed;
use crate::why::Why;
use kmipa_attrs::Filter;
use kmipa_store::{Feature, Ledger};
use std::alloc::{AllocError, Global};

/// With so many candidates more than are listed a scan is long.
const FEW: usize = 64;

/// The lowest reason against what a Locate lists.
pub(crate) fn why_not_listed<L: Ledger>(
    alloc: Global,
    ledger: &L,
    filter: &Filter,
    listed: &[&str],
) -> Result<Option<Why>, AllocError>
    requires { IsSound (L.state ledger.now).now }
    ensures { IfOk result
        (λ why. why
        ≡ find (locate_speaks (cards_of (L.state ledger.now).now.objects) (L.moment ledger.now) (filter_of filter.now)
        (Some (map lent listed.now))) whys) }
{
    if is_over(filter.maximum, listed.len()) {
        return Ok(Some(Why::ListedWrongly));
    }
    let found = places_listed(alloc, ledger, filter, listed)?;
    let Some(places) = found else {
        return Ok(Some(Why::ListedWrongly));
    };
    if is_full(filter.maximum, listed.len()) {
        return Ok(None);
    }
    if leaves_out(ledger, filter, &places) {
        return Ok(Some(Why::ListedTooFew));
    }
    Ok(None)
}

/// Whether more are listed than the maximum, where there is one.
pub fn is_over(maximum: Option<i32>, count: usize) -> bool
    ensures { result ≡ is_over maximum count }
{
    match maximum {
        Some(most) => i128::from(most) < count as i128,
        None => false,
    }
}

/// Whether as many are listed as the maximum.
fn is_full(maximum: Option<i32>, count: usize) -> bool
    ensures { result ≡ is_full maximum count }
{
    match maximum {
        Some(most) => !((count as i128) < i128::from(most)),
        None => false,
    }
}

/// The places of what is listed, unless something is listed twice or doesn't fit.
fn places_listed<L: Ledger>(
    alloc: Global,
    ledger: &L,
    filter: &Filter,
    listed: &[&str],
) -> Result<Option<PlacesListed>, AllocError>
    ensures { IfOk result
        (λ places. Placed (cards_of (L.state ledger.now).now.objects) (L.moment ledger.now) (filter_of filter.now)
        (map lent listed.now) places) }
{
    let mut places = PlacesListed::new(alloc);
    for id in listed {
        let Some(place) = place_listed(ledger, filter, id) else {
            return Ok(None);
        };
        let is_new = places.add(place)?;
        if !is_new {
            return Ok(None);
        }
    }
    Ok(Some(places))
}

/// The place of an identifier that is listed rightly: its object is there, and may be listed.
fn place_listed<L: Ledger>(ledger: &L, filter: &Filter, id: &str) -> Option<usize>
    ensures { PlaceListed (cards_of (L.state ledger.now).now.objects) (L.moment ledger.now)
        (filter_of filter.now) id.now result }
{
    let place = ledger.find(id)?;
    match fit_at(ledger, filter, place) {
        Fit::Must => Some(place),
        Fit::May => Some(place),
        Fit::Not => None,
    }
}

/// Whether an object isn't at one of these places that must be.
fn leaves_out<L: Ledger>(ledger: &L, filter: &Filter, places: &PlacesListed) -> bool
    ensures { LeavesOut (L.state ledger.now).now.objects (L.moment ledger.now)
        (filter_of filter.now) places.now result }
{
    if filter.is_loose {
        return false;
    }
    let end = ledger.len();
    let mut from = 0;
    'scan: while from < end {
        let Some(place) = next_candidate(ledger, filter, from) else {
            return false;
        };
        if is_missing(ledger, filter, places, place) {
            return true;
        }
        from = place + 1;
    }
    false
}

/// The next place from this one on of an object that may have to be listed. Each thing that is asked for moves the
/// place on to the next object that has it, so that a scan has at most as many candidates as there are of the rarest;
/// and what the ledger remembers moves it on past those that don't have all.
fn next_candidate<L: Ledger>(ledger: &L, filter: &Filter, from: usize) -> Option<usize>
    requires { from < length (L.state ledger.now).now.objects }
    ensures next { NextCandidate (L.state ledger.now).now.objects (L.moment ledger.now)
        (filter_of filter.now) from result }
    ensures within { IfSome result (λ place. place < length (L.state ledger.now).now.objects) }
{
    let bearer = next_bearer(ledger, filter, from)?;
    let stated = next_in_state(ledger, filter, bearer)?;
    let featured = next_featured(ledger, filter, stated)?;
    next_ahead(ledger, filter, featured)
}

/// The next place from this one on of an object of the type, the algorithm and the length that are asked for.
fn next_featured<L: Ledger>(ledger: &L, filter: &Filter, from: usize) -> Option<usize>
    requires { from < length (L.state ledger.now).now.objects }
    ensures next { NextHaving (L.state ledger.now).now.objects (lasting (filter_of filter.now)) from result }
    ensures within { IfSome result (λ place. place < length (L.state ledger.now).now.objects) }
{
    let typed = next_of_type(ledger, filter, from)?;
    let coded = next_of_algorithm(ledger, filter, typed)?;
    next_of_length(ledger, filter, coded)
}

/// The next place from this one on of which the ledger doesn't remember that the object there lacks something.
fn next_ahead<L: Ledger>(ledger: &L, filter: &Filter, from: usize) -> Option<usize>
    ensures next { NextCandidate (L.state ledger.now).now.objects (L.moment ledger.now)
        (filter_of filter.now) from result }
    ensures within { IfSome result (λ place. place < length (L.state ledger.now).now.objects) }
{
    let place = ledger.ahead(filter, from);
    if place >= ledger.len() {
        return None;
    }
    Some(place)
}

/// The next place from this one on of a live object that has all the filter's names.
fn next_bearer<L: Ledger>(ledger: &L, filter: &Filter, from: usize) -> Option<usize>
    requires { from < length (L.state ledger.now).now.objects }
    ensures next { NextCandidate (L.state ledger.now).now.objects (L.moment ledger.now)
        (filter_of filter.now) from result }
    ensures within { IfSome result (λ place. place < length (L.state ledger.now).now.objects) }
{
    let names = filter.names.as_slice();
    if names.is_empty() {
        return ledger.next_with(Feature::Live, from);
    }
    let mut place = from;
    'names: for name in names {
        let Some(next) = ledger.next_live_named(name.value.as_str(), name.kind, place) else {
            return None;
        };
        place = next;
    }
    Some(place)
}

/// The next place from this one on of an object in the state that is asked for; an object that must be listed is in
/// one of live objects.
fn next_in_state<L: Ledger>(ledger: &L, filter: &Filter, from: usize) -> Option<usize>
    requires { from < length (L.state ledger.now).now.objects }
    ensures next { NextCandidate (L.state ledger.now).now.objects (L.moment ledger.now)
        (filter_of filter.now) from result }
    ensures within { IfSome result (λ place. place < length (L.state ledger.now).now.objects) }
{
    let Some(number) = filter.state else {
        return Some(from);
    };
    if is_of_none_live(number) {
        return None;
    }
    ledger.next_with(Feature::State(number), from)
}

/// Whether it is the number of no state of live objects: they have those up to Compromised.
fn is_of_none_live(number: u32) -> bool
    ensures { result ≡ nat_lt 4 number }
{
    4 < number
}

/// The next place from this one on of an object of the type that is asked for.
fn next_of_type<L: Ledger>(ledger: &L, filter: &Filter, from: usize) -> Option<usize>
    requires { from < length (L.state ledger.now).now.objects }
    ensures next { NextHaving (L.state ledger.now).now.objects (lasting (filter_of filter.now)) from result }
    ensures within { IfSome result (λ place. place < length (L.state ledger.now).now.objects) }
{
    match filter.object_type {
        Some(number) => ledger.next_with(Feature::Kind(number), from),
        None => Some(from),
    }
}

/// The next place from this one on of an object with the algorithm that is asked for.
fn next_of_algorithm<L: Ledger>(ledger: &L, filter: &Filter, from: usize) -> Option<usize>
    requires { from < length (L.state ledger.now).now.objects }
    ensures next { NextHaving (L.state ledger.now).now.objects (lasting (filter_of filter.now)) from result }
    ensures within { IfSome result (λ place. place < length (L.state ledger.now).now.objects) }
{
    match filter.algorithm {
        Some(number) => ledger.next_with(Feature::Algorithm(number), from),
        None => Some(from),
    }
}

/// The next place from this one on of an object with the length that is asked for.
fn next_of_length<L: Ledger>(ledger: &L, filter: &Filter, from: usize) -> Option<usize>
    requires { from < length (L.state ledger.now).now.objects }
    ensures next { NextHaving (L.state ledger.now).now.objects (lasting (filter_of filter.now)) from result }
    ensures within { IfSome result (λ place. place < length (L.state ledger.now).now.objects) }
{
    match filter.length {
        Some(bits) => ledger.next_with(Feature::Length(bits), from),
        None => Some(from),
    }
}

/// Makes the ledger ready for the features that a Locate asks for, where its answer is to be held against all objects.
pub(crate) fn prepare<L: Ledger>(ledger: &mut L, filter: &Filter, count: usize)
    ensures meaning { L.state ledger.new ≡ L.state ledger.old }
    ensures moment { L.moment ledger.new ≡ L.moment ledger.old }
{
    if filter.is_loose || is_full(filter.maximum, count) {
        return;
    }
    prepare_features(ledger, filter);
    if asks_twice(filter) && is_long(ledger, filter, count) {
        look_on(ledger, filter);
    }
}

fn prepare_features<L: Ledger>(ledger: &mut L, filter: &Filter)
    ensures meaning { L.state ledger.new ≡ L.state ledger.old }
    ensures moment { L.moment ledger.new ≡ L.moment ledger.old }
{
    if filter.state.is_some() || filter.names.as_slice().is_empty() {
        ledger.prepare(Feature::Live);
    }
    if filter.object_type.is_some() || filter.algorithm.is_some() || filter.length.is_some() {
        ledger.prepare(Feature::Kind(0));
    }
}

/// Whether the filter asks for two things or more that last.
fn asks_twice(filter: &Filter) -> bool {
    let names = filter.names.as_slice().len();
    if 1 < names || filter.object_type.is_some() && filter.algorithm.is_some() {
        return true;
    }
    if filter.length.is_some() && (filter.object_type.is_some() || filter.algorithm.is_some()) {
        return true;
    }
    let has_feature = filter.object_type.is_some()
        || filter.algorithm.is_some()
        || filter.length.is_some();
    names == 1 && has_feature
}

/// Whether a scan has many candidates, and more than are listed.
fn is_long<L: Ledger>(ledger: &L, filter: &Filter, count: usize) -> bool {
    let end = ledger.len();
    let mut from = 0;
    for _ in 0..count.saturating_add(FEW) {
        if from >= end {
            return false;
        }
        let Some(place) = next_candidate(ledger, filter, from) else {
            return false;
        };
        from = place + 1;
    }
    true
}

/// Goes on to look for the objects that have all that lasts of what is asked for, and lets the ledger remember it.
fn look_on<L: Ledger>(ledger: &mut L, filter: &Filter)
    ensures meaning { L.state ledger.new ≡ L.state ledger.old }
    ensures moment { L.moment ledger.new ≡ L.moment ledger.old }
{
    let end = ledger.len();
    let mut from = ledger.end_of(filter);
    'look: while from < end {
        let next = next_having(ledger, filter, from);
        ledger.remember(filter, from, next);
        from = beyond(from, next, end);
    }
}

/// The next place to look at: this one, or the one behind an object that may have all.
fn beyond(from: usize, next: usize, end: usize) -> usize
    requires { from < end }
    ensures { from < result }
{
    if from < next {
        return next;
    }
    from + 1
}

/// The next place from this one on of an object that may have all that lasts of what is asked for, or where all end.
fn next_having<L: Ledger>(ledger: &L, filter: &Filter, from: usize) -> usize
    requires { from < length (L.state ledger.now).now.objects }
    ensures { Leaps (lasting (filter_of filter.now)) (L.state ledger.now).now.objects from result }
{
    let Some(named) = next_named(ledger, filter, from) else {
        return ledger.len();
    };
    match next_featured(ledger, filter, named) {
        Some(place) => place,
        None => ledger.len(),
    }
}

/// The next place from this one on of an object that has all the filter's names, destroyed or not.
fn next_named<L: Ledger>(ledger: &L, filter: &Filter, from: usize) -> Option<usize>
    requires { from < length (L.state ledger.now).now.objects }
    ensures next { NextHaving (L.state ledger.now).now.objects (lasting (filter_of filter.now)) from result }
    ensures within { IfSome result (λ place. place < length (L.state ledger.now).now.objects) }
{
    let names = filter.names.as_slice();
    let mut place = from;
    'names: for name in names {
        let Some(next) = ledger.next_named(name.value.as_str(), name.kind, place) else {
            return None;
        };
        place = next;
    }
    Some(place)
}

/// Whether the object at a place must be listed, and its place isn't among these.
fn is_missing<L: Ledger>(ledger: &L, filter: &Filter, places: &PlacesListed, place: usize) -> bool
    requires { place < length (L.state ledger.now).now.objects }
    ensures { IsMissing (L.state ledger.now).now.objects (L.moment ledger.now)
        (filter_of filter.now) places.now place result }
{
    if places.has(place) {
        return false;
    }
    match fit_at(ledger, filter, place) {
        Fit::Must => true,
        Fit::May => false,
        Fit::Not => false,
    }
}

/// How the object at a place fits at the moment.
fn fit_at<L: Ledger>(ledger: &L, filter: &Filter, place: usize) -> Fit
    requires { place < length (L.state ledger.now).now.objects }
    ensures { FitsAt (L.state ledger.now).now.objects (L.moment ledger.now) (filter_of filter.now) place result }
{
    let lacks_name = lacks_at(ledger, filter.names.as_slice(), place);
    fit_of(ledger.at(place), filter, ledger.state(place), lacks_name)
}
