//! A ledger that segments are judged on one after the other.

ghost use Rattle.std.specs.Prelude.{◌≡◌, [], IfErr, IfOk, IfSome, IsTrue, length, map, take};
ghost use Rattle.kmipa_store.specs.Aside.{nothing_aside};
ghost use Rattle.kmipa_store.specs.Choices.{IsSound};
ghost use Rattle.kmipa_store.specs.States.{state_of_journal};
ghost use Rattle.kmipa_record.specs.Declarations.{AreDeclared, DeclarationOf, declaration_of};
ghost use Rattle.kmipa_check.specs.Left.{declaration_left, entry_left};
ghost use Rattle.kmipa_check.specs.Opening.{IsNextNumber, StandsAsOpened, opened_by};
ghost use Rattle.kmipa_check.specs.Verdicts.{AreKnown};

use crate::fault::CheckFault;
use crate::opening::open_ledger;
use kmipa_object::{Material, Rule};
use kmipa_record::Declaration;
use kmipa_store::{Journal, Ledger};
use std::alloc::Global;

/// A ledger that stands as a declaration opens it: the one that is given, or else a new one.
pub fn kept_or_opened(
    alloc: Global,
    declaration: &Declaration,
    kept: Option<Journal>,
) -> Result<Journal, CheckFault>
    requires declared { AreDeclared (declaration_of declaration.now) }
    requires stands { IfSome kept (λ ledger.
        StandsAsOpened (state_of_journal ledger).now (declaration_of declaration.now).entries) }
    ensures known { IfOk result
        (λ ledger. AreKnown (declaration_of declaration.now) [] (state_of_journal ledger).now) }
    ensures sound { IfOk result (λ ledger. IsSound (state_of_journal ledger).now) }
    ensures memory { IfErr result (λ fault. fault ≡ CheckFault.Memory) }
{
    match kept {
        Some(ledger) => Ok(ledger),
        None => open_ledger(alloc, declaration),
    }
}

/// Whether a ledger stands as the declaration of its own objects opens it: their secrets are numbered in their order, and there is no other. An object
/// that was destroyed, or undone, leaves a secret behind, and then it doesn't; nor is it said where memory runs out.
pub fn stands_as_opened<L: Ledger>(ledger: &mut L) -> bool
    requires { IsSound (L.state ledger.old).now }
    ensures same { L.state ledger.new ≡ L.state ledger.old }
    ensures opened { IsTrue result → StandsAsOpened (L.state ledger.old).now
        (map (entry_left (L.state ledger.old).now.secrets) (L.state ledger.old).now.objects) }
{
    let Some(all) = count_secrets(ledger) else {
        return false;
    };
    match count_own(ledger) {
        Some(own) => own == all,
        None => false,
    }
}

/// How many secrets there are: the number of the next one, which is not kept. None where memory runs out.
fn count_secrets<L: Ledger>(ledger: &mut L) -> Option<usize>
    ensures same { L.state ledger.new ≡ L.state ledger.old }
    ensures count { IfSome result (λ count. count ≡ length (L.state ledger.old).now.secrets) }
{
    let Ok(mark) = ledger.mark() else {
        return None;
    };
    let next = ledger.new_secret(Rule::Any);
    ledger.back(mark);
    match next {
        Ok(secret) => Some(secret.number),
        Err(_) => None,
    }
}

/// How many secrets the objects have, where these are numbered in the order of the objects.
fn count_own<L: Ledger>(ledger: &L) -> Option<usize>
    requires { IsSound (L.state ledger.now).now }
    ensures { IfSome result (λ count.
        opened_by (map (entry_left (L.state ledger.now).now.secrets) (L.state ledger.now).now.objects)
        ≡ record {
          objects = (L.state ledger.now).now.objects;
          secrets = take count (L.state ledger.now).now.secrets;
          aside = nothing_aside;
        }) }
{
    let mut next = 0;
    let mut place = 0;
    'places: while place < ledger.len() {
        let Some(more) = number_behind(ledger.at(place).life.material, next) else {
            return None;
        };
        next = more;
        place += 1;
    }
    Some(next)
}

/// The next number behind an object, which has this one, or none where its bytes are gone.
fn number_behind(material: Material, next: usize) -> Option<usize>
    ensures { IfSome result (λ more. IsNextNumber material next more) }
{
    match material {
        Material::Gone => Some(next),
        Material::Secret(secret) if secret.number == next => next.checked_add(1),
        Material::Secret(_) => None,
    }
}
