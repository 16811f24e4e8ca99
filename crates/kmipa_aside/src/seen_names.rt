//! The names of objects that a client sees.

ghost use Rattle.std.specs.Prelude.{◌≡◌, ◌&&◌, map, not};
ghost use Rattle.std.specs.List.{list_any};
ghost use Rattle.kmipa_attrs.specs.Sets.{name_of};
ghost use Rattle.kmipa_object.specs.Inventory.{card_of, live};
ghost use Rattle.kmipa_store.specs.Ledger.{cards_of};
ghost use Rattle.kmipa_ops.specs.Locate.{is_listed};
ghost use Rattle.kmipa_ops.specs.Objects.{is_named, same_name};
ghost use Rattle.kmipa_aside.specs.InSight.{any_live_seen};
ghost use Rattle.kmipa_aside.specs.Permitted.{any_seen_named};
ghost use Rattle.kmipa_aside.specs.Sights.{sight_of};

use crate::sight::{Sight, is_hidden_id};
use kmipa_attrs::Name;
use kmipa_object::Object;
use kmipa_store::Ledger;

/// Whether an object in sight has one of these names, destroyed or not.
pub(crate) fn any_seen_named<L: Ledger>(ledger: &L, sight: Sight, names: &[Name]) -> bool
    ensures { result ≡ any_seen_named (sight_of sight.entry).hidden (cards_of (L.state ledger.now).now.objects)
        (map name_of names.now) }
{
    for place in 0..ledger.len() {
        if is_seen_named(ledger.at(place), sight, names) {
            return true;
        }
    }
    false
}

/// Whether a live object in sight has one of these names.
pub(crate) fn any_live_seen<L: Ledger>(ledger: &L, sight: Sight, names: &[Name]) -> bool
    ensures { result ≡ any_live_seen (sight_of sight.entry).hidden (cards_of (L.state ledger.now).now.objects)
        (map name_of names.now) }
{
    for place in 0..ledger.len() {
        if is_live_seen(ledger.at(place), sight, names) {
            return true;
        }
    }
    false
}

fn is_live_seen(object: &Object, sight: Sight, names: &[Name]) -> bool
    ensures { result ≡ (not (is_listed (sight_of sight.entry).hidden (card_of object.now).id)
        && live (card_of object.now) && is_named (map name_of names.now) (card_of object.now)) }
{
    object.life.destroy.is_none() && is_seen_named(object, sight, names)
}

/// Whether an object is in sight, and has one of these names.
fn is_seen_named(object: &Object, sight: Sight, names: &[Name]) -> bool
    ensures { result ≡ (not (is_listed (sight_of sight.entry).hidden (card_of object.now).id)
        && is_named (map name_of names.now) (card_of object.now)) }
{
    is_named(object.given.names.as_slice(), names) && !is_hidden_id(sight, object.id.as_str())
}

fn is_named(own: &[Name], names: &[Name]) -> bool
    ensures { result ≡ list_any (λ (mine : Name). list_any (λ (asked : Name). same_name (name_of asked) (name_of mine)) names.now) own.now }
{
    own.iter().any(|mine| is_one_of(mine, names))
}

fn is_one_of(mine: &Name, names: &[Name]) -> bool
    ensures { result ≡ list_any (λ (asked : Name). same_name (name_of asked) (name_of mine.now)) names.now }
{
    names.iter().any(|asked| is_same_name(asked, mine))
}

fn is_same_name(asked: &Name, mine: &Name) -> bool
    ensures { result ≡ same_name (name_of asked.now) (name_of mine.now) }
{
    asked.kind == mine.kind && asked.value.as_str() == mine.value.as_str()
}
