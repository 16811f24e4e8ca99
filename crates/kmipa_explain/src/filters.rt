//! Which filter of a Locate says no of what was held.

ghost use Rattle.std.specs.Prelude.{◌≡◌, ◌==◌, ℕ, find, map, not};
ghost use Rattle.std.specs.List.{list_any};
ghost use Rattle.std.specs.Ordering.{int_eq};
ghost use Rattle.kmipa_attrs.specs.Filters.{filter_of};
ghost use Rattle.kmipa_attrs.specs.Sets.{name_of};
ghost use Rattle.kmipa_object.specs.Inventory.{live};
ghost use Rattle.kmipa_object.specs.Life.{state};
ghost use Rattle.kmipa_record.specs.Entries.{entry_of};
ghost use Rattle.kmipa_ops.specs.GetAttributes.{has_stranger};
ghost use Rattle.kmipa_ops.specs.Locate.{is_doubtful, must_fit};
ghost use Rattle.kmipa_ops.specs.Objects.{clash, is_other, same_name};
ghost use Rattle.kmipa_check.specs.Described.{card_declared, dates_in};
ghost use Rattle.kmipa_explain.specs.Filters.{filters, refuses};

use crate::holding::{dates_in, life_with};
use kmipa_attrs::{Filter, Name};
use kmipa_object::{State, state_at};
use kmipa_ops::Judged;
use kmipa_record::Entry;

/// The state of an object at a moment.
pub fn state_of(entry: &Entry, t: i64) -> State
    ensures { result ≡ state (dates_in (entry_of entry.now).attributes) t }
{
    state_at(&life_with(dates_in(&entry.attrs)), t)
}

/// Whether an object must be listed at a moment.
pub fn must_fit(filter: &Filter, entry: &Entry, t: i64) -> bool
    ensures { result ≡ must_fit (filter_of filter.now) (state (dates_in (entry_of entry.now).attributes) t)
        (card_declared (entry_of entry.now)) }
{
    match first_no(filter, entry, state_of(entry, t)) {
        Some(_) => false,
        None => !is_doubtful(filter, entry),
    }
}

/// The first attribute of which a filter says no, of an object in this state.
pub fn first_no(filter: &Filter, entry: &Entry, state: State) -> Option<Judged>
    ensures { result ≡ find (refuses (filter_of filter.now) state (card_declared (entry_of entry.now))) filters }
{
    if has_stranger(entry.attrs.names.as_slice(), filter.names.as_slice()) {
        return Some(Judged::Name);
    }
    if is_other_number(filter.object_type, entry.kind.number()) {
        return Some(Judged::ObjectType);
    }
    if is_other_number(filter.state, state.number()) {
        return Some(Judged::State);
    }
    if clash_numbers(filter.algorithm, entry.attrs.algorithm) {
        return Some(Judged::CryptographicAlgorithm);
    }
    if clash_lengths(filter.length, entry.attrs.length) {
        return Some(Judged::CryptographicLength);
    }
    None
}

/// Whether an object that may be listed may be left out.
fn is_doubtful(filter: &Filter, entry: &Entry) -> bool
    ensures { result ≡ is_doubtful (filter_of filter.now) (card_declared (entry_of entry.now)) }
{
    !is_live(entry)
        || filter.is_loose
        || filter.algorithm.is_some() && entry.attrs.algorithm.is_none()
        || filter.length.is_some() && entry.attrs.length.is_none()
}

/// Whether an object isn't destroyed.
fn is_live(entry: &Entry) -> bool
    ensures { result ≡ live (card_declared (entry_of entry.now)) }
{
    entry.attrs.destroy.is_none()
}

/// Whether one of the names isn't among those known.
fn has_stranger(known: &[Name], names: &[Name]) -> bool
    ensures { result ≡ has_stranger (map name_of known.now) (map name_of names.now) }
{
    any_stranger(known, names)
}

fn any_stranger(known: &[Name], names: &[Name]) -> bool
    ensures { result ≡ list_any
        (λ (n : Name). not (list_any (λ (k : Name). same_name (name_of k) (name_of n)) known.now)) names.now }
{
    names.iter().any(|name| !is_among(name, known))
}

/// Whether a name is one of these.
fn is_among(name: &Name, names: &[Name]) -> bool
    ensures { result ≡ list_any (λ (known : Name). same_name (name_of known) (name_of name.now)) names.now }
{
    names.iter().any(|known| is_same(known, name))
}

fn is_same(a: &Name, b: &Name) -> bool
    ensures { result ≡ same_name (name_of a.now) (name_of b.now) }
{
    a.kind == b.kind && a.value == b.value
}

/// A number is asked for, and it isn't this one.
fn is_other_number(asked: Option<u32>, own: u32) -> bool
    ensures { result ≡ is_other (λ (x y : ℕ). x == y) asked own }
{
    match asked {
        Some(number) => number != own,
        None => false,
    }
}

/// A number is asked for, and the object has another.
fn clash_numbers(asked: Option<u32>, own: Option<u32>) -> bool
    ensures { result ≡ clash (λ (x y : ℕ). x == y) asked own }
{
    match asked {
        Some(number) => is_other_number(own, number),
        None => false,
    }
}

/// A length is asked for, and the object has another.
fn clash_lengths(asked: Option<i32>, own: Option<i32>) -> bool
    ensures { result ≡ clash int_eq asked own }
{
    match asked {
        Some(length) => is_other_length(own, length),
        None => false,
    }
}

fn is_other_length(own: Option<i32>, asked: i32) -> bool
    ensures { result ≡ is_other int_eq own asked }
{
    match own {
        Some(length) => length != asked,
        None => false,
    }
}
