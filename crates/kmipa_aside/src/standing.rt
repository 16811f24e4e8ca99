//! Which identifiers are set aside.

ghost use Rattle.std.specs.Prelude.{◌≡◌};
ghost use Rattle.kmipa_aside.specs.Becoming.{stand_in};
ghost use Rattle.kmipa_aside.specs.Standing.{is_aside, is_judged};

use kmipa_store::Ledger;

/// Whether nothing is judged about an identifier: judging is over, or it was set aside by its name, or with all that no object has.
pub fn is_aside<L: Ledger>(ledger: &L, id: &str) -> bool
    ensures { result ≡ is_aside (stand_in (L.state ledger.now).now) id.now }
{
    ledger.is_over() || ledger.is_aside(id) || (ledger.is_rest_aside() && ledger.find(id).is_none())
}

/// Whether an object has an identifier, and is judged.
pub(crate) fn is_judged<L: Ledger>(ledger: &L, id: &str) -> bool
    ensures { result ≡ is_judged (stand_in (L.state ledger.now).now) id.now }
{
    ledger.find(id).is_some() && !is_aside(ledger, id)
}
