//! The ledger and the rules that a declaration gives.

ghost use Rattle.std.specs.Prelude.{◌≡◌, [], map, None, IfErr, IfOk};
ghost use Rattle.kmipa_attrs.specs.Sets.{attributes_of};
ghost use Rattle.kmipa_object.specs.Inventory.{place_of};
ghost use Rattle.kmipa_object.specs.Life.{dates_of};
ghost use Rattle.kmipa_store.specs.Aside.{nothing_aside};
ghost use Rattle.kmipa_store.specs.Choices.{IsSound};
ghost use Rattle.kmipa_store.specs.Ledger.{cards_of};
ghost use Rattle.kmipa_store.specs.States.{state_of_journal};
ghost use Rattle.kmipa_record.specs.Declarations.{AreDeclared, declaration_of};
ghost use Rattle.kmipa_record.specs.Entries.{IsDeclarable, entry_of};
ghost use Rattle.kmipa_msgs.specs.Messages.{row_of, rules_of};
ghost use Rattle.kmipa_check.specs.Described.{dates_in};
ghost use Rattle.kmipa_check.specs.Opening.{Declares, Places};
ghost use Rattle.kmipa_check.specs.Runs.{rows_declared, rules_declared};
ghost use Rattle.kmipa_check.specs.Verdicts.{AreKnown};

use crate::fault::CheckFault;
use kmipa_attrs::AttrSet;
use kmipa_msgs::{Row, Rules};
use kmipa_object::{Life, Material, Object, Rule};
use kmipa_record::{Declaration, Entry};
use kmipa_store::{Journal, Ledger, StoreFault};
use std::alloc::{AllocError, Global};

/// The ledger of a server of this declaration, before any call: it stands for exactly the inventories that the declaration describes.
/// A live object has a secret of its own, which knows the declared bytes. Nothing is set aside.
pub fn open_ledger(alloc: Global, declaration: &Declaration) -> Result<Journal, CheckFault>
    requires { AreDeclared (declaration_of declaration.now) }
    ensures opened { IfOk result
        (λ ledger. AreKnown (declaration_of declaration.now) [] (state_of_journal ledger).now) }
    ensures sound { IfOk result (λ ledger. IsSound (state_of_journal ledger).now) }
    ensures aside { IfOk result (λ ledger. (state_of_journal ledger).now.aside ≡ nothing_aside) }
    ensures memory { IfErr result (λ fault. fault ≡ CheckFault.Memory) }
{
    let mut ledger = Journal::new(alloc);
    'entries: for entry in &declaration.entries {
        let Ok(()) = declare(alloc, &mut ledger, entry) else {
            return Err(CheckFault::Memory);
        };
    }
    Ok(ledger)
}

/// Adds the object of an entry, whose identifier no object has. Refused for memory alone.
fn declare<L: Ledger>(alloc: Global, ledger: &mut L, entry: &Entry) -> Result<(), StoreFault>
    requires declarable { IsDeclarable (entry_of entry.now) }
    requires free { place_of (entry_of entry.now).id (cards_of (L.state ledger.old).now.objects) ≡ None }
    ensures { Declares (L.state ledger.old) (entry_of entry.now) result (L.state ledger.new) }
{
    let id = String::from_str(alloc, entry.id.as_str())?;
    let given = entry.attrs.copy(alloc)?;
    let material = material_of(ledger, entry)?;
    let _place = ledger.add(Object {
        id,
        kind: entry.kind,
        given,
        life: life_of(&entry.attrs, material),
    })?;
    Ok(())
}

/// Where the bytes of a declared object are: a live one's in a new secret. Refused for memory alone.
fn material_of<L: Ledger>(ledger: &mut L, entry: &Entry) -> Result<Material, StoreFault>
    requires { IsDeclarable (entry_of entry.now) }
    ensures { Places (L.state ledger.old) (entry_of entry.now) result (L.state ledger.new) }
{
    if entry.attrs.destroy.is_some() {
        return Ok(Material::Gone);
    }
    let secret = ledger.new_secret(Rule::of(entry.kind, &entry.attrs))?;
    match &entry.bytes {
        Some(bytes) => {
            ledger.learn(secret, bytes)?;
            Ok(Material::Secret(secret))
        }
        None => Ok(Material::Secret(secret)),
    }
}

/// The life of an object with the dates among these attributes.
fn life_of(attrs: &AttrSet, material: Material) -> Life
    ensures dates { dates_of result ≡ dates_in (attributes_of attrs.now) }
    ensures material { result.material ≡ material }
{
    Life {
        initial: attrs.initial,
        activation: attrs.activation,
        deactivation: attrs.deactivation,
        destroy: attrs.destroy,
        compromise: attrs.compromise,
        material,
    }
}

/// The rules that a declaration gives.
pub fn rules_of_declaration(alloc: Global, declaration: &Declaration) -> Result<Rules, AllocError>
    ensures { IfOk result (λ rules. rules_of rules ≡ rules_declared (declaration_of declaration.now)) }
{
    Ok(Rules {
        unique_names: declaration.settings.unique_names,
        rows: rows_of(alloc, &declaration.rows)?,
        allow_lines: Vec::from_slice(alloc, &declaration.allow_lines)?,
        visibility: declaration.settings.visibility,
    })
}

/// The rows of a declaration, or the default ones where it has none.
fn rows_of(alloc: Global, rows: &[Row]) -> Result<Vec<Row>, AllocError>
    ensures { IfOk result (λ own. map row_of own.items ≡ rows_declared (map row_of rows.now)) }
{
    if rows.is_empty() {
        return Ok(Rules::default_rules(alloc)?.rows);
    }
    Vec::from_slice(alloc, rows)
}
