//! The bytes of an input of items, held until all of them were read.

ghost use Rattle.std.specs.Prelude.{◌≡◌, ◌<◌, ℕ, List, [], true, false, IsTrue, IfOk, IfErr, OnOk};
ghost use Rattle.std.specs.Io.{StartsWith, appended_bytes};
ghost use Rattle.kmipa_ttlv.specs.Input.{came_of, taken_of, is_ended, is_failed, IsFileOf};
ghost use Rattle.kmipa_ttlv.specs.Items.{AreItems};
ghost use Rattle.kmipa_ttlv.specs.Reading.{ReadTells};
ghost use Rattle.kmipa_ttlv.specs.Tree.{Tree};
ghost use Rattle.kmipa_runs.specs.Inputs.{TellsFirst};

use kmipa_ttlv::{FaultKind, Input, TtlvFault, read_spelled};
use std::alloc::Global;
use std::io::Read;

/// The bytes of an input of which nothing was read, to its end, where they are items one after the other; or its first
/// fault, after which nothing more is read.
pub fn hold_items<R: Read>(alloc: Global, input: &mut Input<R>) -> Result<Vec<u8>, TtlvFault>
    requires { came_of input.old ≡ [] }
    ensures came { IfOk result (λ held. held.items ≡ came_of input.new) }
    ensures items { OnOk result ((items : List Tree) × AreItems items (came_of input.new)) }
    ensures ended { OnOk result (IsTrue (is_ended input.new)) }
    ensures fault { (file : List ℕ) → IsFileOf file input.new → IfErr result (TellsFirst file (is_failed input.new)) }
{
    let mut held = Vec::new(alloc);
    let mut bytes = Vec::new(alloc);
    'items: while hold_next(input, &mut bytes, &mut held)? {}
    Ok(held)
}

/// Appends the bytes of the next item of an input; `false` at its end.
fn hold_next<R: Read>(
    input: &mut Input<R>,
    bytes: &mut Vec<u8>,
    held: &mut Vec<u8>,
) -> Result<bool, TtlvFault>
    // Where all that came before is held, all that came is.
    ensures came { OnOk result (held.old.items ≡ came_of input.old → held.new.items ≡ came_of input.new) }
    // Where that was items, this is.
    ensures items { OnOk result
        (((items : List Tree) × AreItems items (came_of input.old))
        → (items : List Tree) × AreItems items (came_of input.new)) }
    ensures end { IfOk result (λ some. some ≡ false → IsTrue (is_ended input.new)) }
    ensures nearer { IfOk result (λ some. some ≡ true → taken_of input.old < taken_of input.new) }
    ensures fault { IfErr result
        (λ f. ReadTells (taken_of input.old) (appended_bytes (came_of input.old) (came_of input.new))
        (is_ended input.new) (is_failed input.new) f) }
    ensures grows { StartsWith (came_of input.new) (came_of input.old) }
{
    let offset = input.taken();
    let some = read_spelled(input, bytes)?;
    if held.extend_from_slice(bytes).is_err() {
        return Err(TtlvFault {
            offset,
            kind: FaultKind::Memory,
        });
    }
    Ok(some)
}
