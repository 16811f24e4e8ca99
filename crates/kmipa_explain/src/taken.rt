//! What stands in the way of a new object: an identifier or a name that an object has already.

ghost use Rattle.std.specs.Prelude.{◌≡◌, IfOk, List, find, map, option_map, ℕ};
ghost use Rattle.kmipa_attrs.specs.Sets.{NameOf, name_of};
ghost use Rattle.kmipa_msgs.specs.Messages.{AskedOf, ask_of};
ghost use Rattle.kmipa_record.specs.Declarations.{DeclarationOf, declaration_of};
ghost use Rattle.kmipa_record.specs.Entries.{entry_of};
ghost use Rattle.kmipa_explain.specs.Meant.{text_of};
ghost use Rattle.kmipa_explain.specs.Taken.{IsBorne, IsTaken, TellsIdentifier, TellsName, bears, names_asked, shared};

use crate::explanation::Cause;
use crate::held::NameHeld;
use kmipa_attrs::Name;
use kmipa_msgs::Ask;
use kmipa_ops::{Effect, row_of};
use kmipa_record::{Declaration, Entry};
use std::alloc::{AllocError, Global};

/// The identifier that is meant, where an object has it that the answer gives to a new one.
pub(crate) fn identifier_cause(meant: Option<String>) -> Cause
    ensures { (held : DeclarationOf) (asked : AskedOf) (id : List ℕ) → IsTaken held (text_of meant) asked id
        → TellsIdentifier held (text_of meant) asked result }
{
    match meant {
        Some(id) => Cause::Identifier(id),
        None => Cause::Object,
    }
}

/// A name that is asked for, and the first live object that has it.
pub(crate) fn name_cause(alloc: Global, held: &Declaration, ask: &Ask) -> Result<Cause, AllocError>
    requires { (name : NameOf) × (bearer : List ℕ)
        × IsBorne (declaration_of held.now) (ask_of ask.now).asked name bearer }
    ensures { IfOk result (TellsName (declaration_of held.now) (ask_of ask.now).asked) }
{
    let names = names_asked(ask);
    let Some(bearer) = first_bearer(&held.entries, names) else {
        return Ok(Cause::Object);
    };
    let Some(name) = first_shared(names, bearer.attrs.names.as_slice()) else {
        return Ok(Cause::Object);
    };
    Ok(Cause::Name(NameHeld {
        name: name.copy(alloc)?,
        bearer: String::from_str(alloc, bearer.id.as_str())?,
    }))
}

/// The names that are asked for, of a new object.
fn names_asked<'b>(ask: &'b Ask) -> &'b [Name]
    ensures { map name_of result.now ≡ names_asked (ask_of ask.now).asked }
{
    match row_of(&ask.asked).effect {
        Effect::Makes(new) => new.attributes.names.as_slice(),
        _ => &[],
    }
}

/// The first live object that has one of the names.
fn first_bearer<'a>(entries: &'a [Entry], names: &[Name]) -> Option<&'a Entry>
    ensures { option_map (λ entry. entry_of entry.now) result
        ≡ find (bears (map name_of names.now)) (map entry_of entries.now) }
{
    let mut place = 0;
    'entries: while place < entries.len() {
        let entry = &entries[place];
        if bears(entry, names) {
            return Some(entry);
        }
        place += 1;
    }
    None
}

/// Whether an object is live and has one of the names.
fn bears(entry: &Entry, names: &[Name]) -> bool
    ensures { result ≡ bears (map name_of names.now) (entry_of entry.now) }
{
    entry.attrs.destroy.is_none() && first_shared(names, entry.attrs.names.as_slice()).is_some()
}

/// The first of the names that is among the others.
fn first_shared<'a>(names: &'a [Name], others: &[Name]) -> Option<&'a Name>
    ensures { option_map (λ name. name_of name.now) result ≡ shared (map name_of names.now) (map name_of others.now) }
{
    let mut place = 0;
    'names: while place < names.len() {
        let name = &names[place];
        if others.contains(name) {
            return Some(name);
        }
        place += 1;
    }
    None
}
