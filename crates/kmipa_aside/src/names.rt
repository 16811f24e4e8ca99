//! Names that live objects have.

ghost use Rattle.std.specs.Prelude.{◌≡◌, map};
ghost use Rattle.std.specs.List.{list_any};
ghost use Rattle.kmipa_attrs.specs.Sets.{name_of};
ghost use Rattle.kmipa_store.specs.Ledger.{cards_of};
ghost use Rattle.kmipa_store.specs.Queries.{any_live_named as any_live_has};
ghost use Rattle.kmipa_msgs.specs.Messages.{rules_of};
ghost use Rattle.kmipa_ops.specs.Adding.{name_taken};
ghost use Rattle.kmipa_ops.specs.Objects.{any_live_named};

use kmipa_attrs::Name;
use kmipa_msgs::Rules;
use kmipa_store::Ledger;

/// Whether names are declared unique, and a live object has one of these.
pub(crate) fn is_name_taken<L: Ledger>(ledger: &L, rules: &Rules, names: &[Name]) -> bool
    ensures { result ≡ name_taken (rules_of rules.now) (cards_of (L.state ledger.now).now.objects)
        (map name_of names.now) }
{
    rules.unique_names && any_live_named(ledger, names)
}

/// Whether a live object has one of these names.
pub(crate) fn any_live_named<L: Ledger>(ledger: &L, names: &[Name]) -> bool
    ensures { result ≡ any_live_named (cards_of (L.state ledger.now).now.objects) (map name_of names.now) }
{
    any_live_had(ledger, names)
}

fn any_live_had<L: Ledger>(ledger: &L, names: &[Name]) -> bool
    ensures { result ≡ list_any
        (λ (name : Name). any_live_has (name_of name).value name.kind (L.state ledger.now).now.objects) names.now }
{
    names.iter().any(|name| is_had_alive(ledger, name))
}

fn is_had_alive<L: Ledger>(ledger: &L, name: &Name) -> bool
    ensures { result ≡ any_live_has (name_of name.now).value name.now.kind (L.state ledger.now).now.objects }
{
    ledger.any_live_named(name.value.as_str(), name.kind)
}
