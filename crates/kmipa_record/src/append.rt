//! Items that are appended to a file.

ghost use Rattle.std.specs.Prelude.{◌≡◌, map, All, OnOk, IfOk, IfErr};
ghost use Rattle.std.specs.Io.{StartsWith};
ghost use Rattle.kmipa_ttlv.specs.ItemTree.{tree};
ghost use Rattle.kmipa_ttlv.specs.Tree.{Tree};
ghost use Rattle.kmipa_ttlv.specs.Written.{Legal};
ghost use Rattle.kmipa_record.specs.Writing.{Adds, AddsAll, Refused};

use crate::fault::RecordKind;
use kmipa_ttlv::{Item, encode, spelled_len};
use std::alloc::{AllocError, Global};

/// Appends the item's spelling, with zeros for padding; `Entry` where no bytes spell it.
pub fn append(item: &Item, out: &mut Vec<u8>) -> Result<(), RecordKind>
    ensures ok { OnOk result (Adds (tree item.now) out.old.items out.new.items) }
    ensures legal { OnOk result (Legal 16 (tree item.now)) }
    ensures err { IfErr result (Refused (Legal 16 (tree item.now))) }
    ensures same { IfErr result (λ _. out.new.items ≡ out.old.items) }
{
    if spelled_len(item).is_none() {
        return Err(RecordKind::Entry);
    }
    match encode(item, out) {
        Ok(()) => Ok(()),
        Err(_) => Err(RecordKind::Memory),
    }
}

/// A value that is written as one item.
pub trait Written {
    ghost item_of: { Self → Tree };

    /// Its item.
    fn item(&self, alloc: Global) -> Result<Item, AllocError>
        ensures { IfOk result (λ item. tree item ≡ item_of self.now) };
}

/// Appends the spellings of the values' items, one after the other; `Entry` where no bytes spell one of them.
pub fn append_all<W: Written>(
    alloc: Global,
    values: &[W],
    out: &mut Vec<u8>,
) -> Result<(), RecordKind>
    ensures put { OnOk result (AddsAll (map W.item_of values.now) out.old.items out.new.items) }
    ensures refused { IfErr result (Refused (All (λ value. Legal 16 (W.item_of value)) values.now)) }
    ensures grows { StartsWith out.new.items out.old.items }
{
    for value in values {
        let item = value.item(alloc)?;
        append(&item, out)?;
    }
    Ok(())
}
