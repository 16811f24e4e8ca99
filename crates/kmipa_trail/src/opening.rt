//! The world that a declaration describes, as a ledger.

ghost use Rattle.std.specs.Prelude.{◌≡◌, [], IfErr, IfOk, map};
ghost use Rattle.std.specs.String.{string_bytes};
ghost use Rattle.kmipa_store.specs.Choices.{IsSound};
ghost use Rattle.kmipa_store.specs.States.{state_of_journal};
ghost use Rattle.kmipa_record.specs.Declarations.{AreDeclared, declaration_of};
ghost use Rattle.kmipa_check.specs.Described.{is_rest_unknown};
ghost use Rattle.kmipa_trail.specs.Leading.{AreKnown};
ghost use Rattle.kmipa_trail.specs.Setting.{SetsDeclaredAside, SetsEachAside, with_rest};

use crate::fault::Fault;
use kmipa_check::open_ledger;
use kmipa_msgs::Unjudged;
use kmipa_record::Declaration;
use kmipa_store::{Journal, Ledger};
use std::alloc::{AllocError, Global};

/// The ledger of a server of this declaration, before any call: it stands for exactly the worlds that the declaration describes.
pub fn open_world(alloc: Global, declaration: &Declaration) -> Result<Journal, Fault>
    requires { AreDeclared (declaration_of declaration.now) }
    ensures known { IfOk result
        (λ ledger. AreKnown (declaration_of declaration.now) [] (state_of_journal ledger).now) }
    ensures sound { IfOk result (λ ledger. IsSound (state_of_journal ledger).now) }
    ensures memory { IfErr result (λ fault. fault ≡ Fault.Memory) }
{
    let Ok(mut ledger) = open_ledger(alloc, declaration) else {
        return Err(Fault::Memory);
    };
    match set_declared_aside(&mut ledger, declaration) {
        Ok(()) => Ok(ledger),
        Err(_) => Err(Fault::Memory),
    }
}

/// What a declaration sets aside is so from now on.
fn set_declared_aside<L: Ledger>(
    ledger: &mut L,
    declaration: &Declaration,
) -> Result<(), AllocError>
    ensures { SetsDeclaredAside (L.state ledger.old) (declaration_of declaration.now) result (L.state ledger.new) }
{
    let Ok(()) = set_each_aside(ledger, &declaration.asides) else {
        return Err(AllocError);
    };
    set_rest_aside(ledger, declaration.settings.unjudged);
    Ok(())
}

/// These identifiers are set aside from now on.
fn set_each_aside<L: Ledger>(ledger: &mut L, ids: &[String]) -> Result<(), AllocError>
    ensures { SetsEachAside (L.state ledger.old) (map string_bytes ids.now) result (L.state ledger.new) }
{
    'ids: for id in ids {
        let Ok(()) = ledger.set_aside(id.as_str()) else {
            return Err(AllocError);
        };
    }
    Ok(())
}

/// Where nothing is known of identifiers that aren't declared, all that no object has are set aside.
pub fn set_rest_aside<L: Ledger>(ledger: &mut L, unjudged: Unjudged)
    ensures { L.state ledger.new ≡ with_rest (is_rest_unknown unjudged) (L.state ledger.old) }
{
    match unjudged {
        Unjudged::Unknown => ledger.set_rest_aside(),
        Unjudged::Refused | Unjudged::SetAside => {}
    }
}
