//! What is read from an input: its next item, or all of its bytes.

ghost use Rattle.std.specs.Prelude.{◌≡◌, ◌≢◌, ◌≤◌, ◌<◌, ◌+◌, ℕ, List, [], ◌∷◌, ◌++◌, true, false, Err, length, vec_len, IsTrue, IfOk, IfErr, IfSome, IfNone, OnOk, OnSome, take, Bool, ◌⊎◌};
ghost use Rattle.std.specs.Io.{StartsWith, appended_bytes};
ghost use Rattle.kmipa_ttlv.specs.Input.{came_of, taken_of, is_ended, is_failed, StaysOver};
ghost use Rattle.kmipa_ttlv.specs.Items.{AreItems};
ghost use Rattle.kmipa_ttlv.specs.ItemTree.{tree};
ghost use Rattle.kmipa_ttlv.specs.Reading.{IsWhole, ReadTells, CameShort, StopsInside};
ghost use Rattle.kmipa_ttlv.specs.Spelling.{Spells};
ghost use Rattle.kmipa_ttlv.specs.Stream.{capped};
ghost use Rattle.kmipa_ttlv.specs.Tree.{Tree};
ghost use Rattle.kmipa_ttlv.specs.ViewTree.{view_tree};

use crate::copying::copy_item;
use crate::decoding::decode_view;
use crate::fault::{FaultKind, TtlvFault};
use crate::head::{HEADER, outer_extent};
use crate::input::Input;
use crate::item::Item;
use crate::view::View;
use std::alloc::Global;
use std::io::Read;

/// How many bytes `read_all` asks for at once.
const CHUNK: usize = 65_536;

/// The next item of an input, or `None` at its end. The input is then just after the item.
///
/// Errors: the flaw of the bytes that are left (Truncated only where the input ends inside the item), with offsets
/// from the input's first byte; Device where the input is failed and Memory, with the item's offset.
pub fn read_item<R: Read>(alloc: Global, input: &mut Input<R>) -> Result<Option<Item>, TtlvFault>
    // What came is the item's spelling, and nothing after it.
    ensures item { IfOk result
        (λ o. IfSome o
        (λ item. (front : List ℕ) × Spells (tree item) front × (came_of input.new ≡ came_of input.old ++ front))) }
    // It is the next of those that came.
    ensures next { IfOk result
        (λ o. IfSome o
        (λ item. (given : List Tree) → AreItems given (came_of input.old)
        → AreItems (given ++ tree item ∷ []) (came_of input.new))) }
    // At the end nothing came.
    ensures end { IfOk result (λ o. IfNone o (IsTrue (is_ended input.new) × (came_of input.new ≡ came_of input.old))) }
    ensures fault { IfErr result
        (λ f. ReadTells (taken_of input.old) (appended_bytes (came_of input.old) (came_of input.new))
        (is_ended input.new) (is_failed input.new) f) }
    ensures sound { IfErr result (λ f. f.kind ≢ FaultKind.Device → is_failed input.new ≡ false) }
    ensures grows { StartsWith (came_of input.new) (came_of input.old) }
    ensures over { StaysOver R.remaining input.old input.new }
    ensures works { OnOk result (is_failed input.new ≡ false) }
    // A failed input answers Device, and stays failed.
    ensures failed { IsTrue (is_failed input.old)
        → result ≡ Err (record { offset = taken_of input.old; kind = FaultKind.Device }) }
    ensures stays { IsTrue (is_failed input.old) → IsTrue (is_failed input.new) }
{
    let place = input.taken();
    let mut bytes = Vec::new(alloc);
    let Some(view) = read_view(input, &mut bytes)? else {
        return Ok(None);
    };
    match copy_item(alloc, &view) {
        Ok(item) => Ok(Some(item)),
        Err(_) => Err(TtlvFault {
            offset: place,
            kind: FaultKind::Memory,
        }),
    }
}

/// The same as `read_item`, with texts and bytes lent. The item's bytes are read into `bytes`, in place of what is there,
/// so that calls in turn share one buffer.
pub fn read_view<'b, R: Read>(
    input: &mut Input<R>,
    bytes: &'b mut Vec<u8>,
) -> Result<Option<View<'b>>, TtlvFault>
    // What came is the item's spelling, and nothing after it.
    ensures item { IfOk result
        (λ o. IfSome o
        (λ view. (front : List ℕ) × Spells (view_tree view) front × (came_of input.new ≡ came_of input.old ++ front))) }
    // It is the next of those that came.
    ensures next { IfOk result
        (λ o. IfSome o
        (λ view. (given : List Tree) → AreItems given (came_of input.old)
        → AreItems (given ++ view_tree view ∷ []) (came_of input.new))) }
    // At the end nothing came.
    ensures end { IfOk result (λ o. IfNone o (IsTrue (is_ended input.new) × (came_of input.new ≡ came_of input.old))) }
    ensures fault { IfErr result
        (λ f. ReadTells (taken_of input.old) (appended_bytes (came_of input.old) (came_of input.new))
        (is_ended input.new) (is_failed input.new) f) }
    ensures sound { IfErr result (λ f. f.kind ≢ FaultKind.Device → is_failed input.new ≡ false) }
    ensures grows { StartsWith (came_of input.new) (came_of input.old) }
    ensures over { StaysOver R.remaining input.old input.new }
    ensures works { OnOk result (is_failed input.new ≡ false) }
    // A failed input answers Device, and stays failed.
    ensures failed { IsTrue (is_failed input.old)
        → result ≡ Err (record { offset = taken_of input.old; kind = FaultKind.Device }) }
    ensures stays { IsTrue (is_failed input.old) → IsTrue (is_failed input.new) }
{
    let place = input.taken();
    if !read_bytes(input, bytes)? {
        return Ok(None);
    }
    Ok(Some(tested(place, bytes)?))
}

/// Reads the bytes of the next item into `bytes`, in place of what is there, and tests them; `false` at the end of the
/// input. Errors: those of `read_item`.
pub fn read_spelled<R: Read>(input: &mut Input<R>, bytes: &mut Vec<u8>) -> Result<bool, TtlvFault>
    // What came is the item's spelling, and nothing after it.
    ensures came { OnOk result (came_of input.new ≡ came_of input.old ++ bytes.new.items) }
    ensures item { IfOk result (λ some. some ≡ true → (t : Tree) × Spells t bytes.new.items) }
    // At the end nothing came.
    ensures end { IfOk result (λ some. some ≡ false → (bytes.new.items ≡ []) × IsTrue (is_ended input.new)) }
    ensures fault { IfErr result
        (λ f. ReadTells (taken_of input.old) (appended_bytes (came_of input.old) (came_of input.new))
        (is_ended input.new) (is_failed input.new) f) }
    ensures sound { IfErr result (λ f. f.kind ≢ FaultKind.Device → is_failed input.new ≡ false) }
    ensures grows { StartsWith (came_of input.new) (came_of input.old) }
    ensures over { StaysOver R.remaining input.old input.new }
    ensures works { OnOk result (is_failed input.new ≡ false) }
    // A failed input answers Device, and stays failed.
    ensures failed { IsTrue (is_failed input.old)
        → result ≡ Err (record { offset = taken_of input.old; kind = FaultKind.Device }) }
    ensures stays { IsTrue (is_failed input.old) → IsTrue (is_failed input.new) }
{
    let place = input.taken();
    if !read_bytes(input, bytes)? {
        return Ok(false);
    }
    tested(place, bytes)?;
    Ok(true)
}

/// The view of an item whose bytes were read from this place of an input. Errors: those of `read_item`.
fn tested(place: u64, bytes: &[u8]) -> Result<View<'_>, TtlvFault>
    requires { IsWhole bytes.now }
    ensures item { IfOk result (λ view. Spells (view_tree view) bytes.now) }
    ensures fault { IfErr result (λ f. (ended failed : Bool) → ReadTells place bytes.now ended failed f) }
{
    match decode_view(bytes) {
        Ok((view, _)) => Ok(view),
        Err(fault) => Err(placed(place, fault.offset, fault.kind)),
    }
}

/// Reads the bytes of the next item into `bytes`, in place of what is there, and no byte after them; `false` at the
/// end of the input. The header alone is tested. Errors: those of `read_item` that need no more than the header.
pub fn read_bytes<R: Read>(input: &mut Input<R>, bytes: &mut Vec<u8>) -> Result<bool, TtlvFault>
    ensures bounded { vec_len bytes.new ≤ 0x10_0000 }
    ensures came { OnOk result (came_of input.new ≡ came_of input.old ++ bytes.new.items) }
    ensures whole { IfOk result (λ some. some ≡ true → IsWhole bytes.new.items) }
    ensures end { IfOk result (λ some. some ≡ false → (bytes.new.items ≡ []) × IsTrue (is_ended input.new)) }
    ensures fault { IfErr result
        (λ f. ReadTells (taken_of input.old) (appended_bytes (came_of input.old) (came_of input.new))
        (is_ended input.new) (is_failed input.new) f) }
    // Where a read failed or memory ran out, what came is the beginning of an item, as far as it goes.
    ensures inside { IfErr result (λ f. StopsInside f.kind (appended_bytes (came_of input.old) (came_of input.new))) }
    ensures sound { IfErr result (λ f. f.kind ≢ FaultKind.Device → is_failed input.new ≡ false) }
    ensures grows { StartsWith (came_of input.new) (came_of input.old) }
    ensures over { StaysOver R.remaining input.old input.new }
    ensures works { OnOk result (is_failed input.new ≡ false) }
    // A failed input answers Device, and stays failed.
    ensures failed { IsTrue (is_failed input.old)
        → result ≡ Err (record { offset = taken_of input.old; kind = FaultKind.Device }) }
    ensures stays { IsTrue (is_failed input.old) → IsTrue (is_failed input.new) }
{
    let place = input.taken();
    bytes.clear();
    let got = append_up_to(input, place, HEADER, bytes)?;
    if got == 0 {
        return Ok(false);
    }
    if got < HEADER {
        return Err(placed(place, got as u64, FaultKind::Truncated));
    }
    let all = match outer_extent(bytes) {
        Ok(all) => all,
        Err(fault) => return Err(placed(place, fault.offset, fault.kind)),
    };
    if all == HEADER {
        return Ok(true);
    }
    let more = append_up_to(input, place, all - HEADER, bytes)?;
    if more < all - HEADER {
        return Err(placed(place, HEADER as u64 + more as u64, FaultKind::Truncated));
    }
    Ok(true)
}

/// The fault so many bytes after this place of the input.
fn placed(place: u64, offset: u64, kind: FaultKind) -> TtlvFault
    ensures { result ≡ record { offset = capped (place + offset); kind = kind } }
{
    TtlvFault {
        offset: place.saturating_add(offset),
        kind,
    }
}

/// Appends the bytes of the input up to its end. Errors: Device where the input is failed, and Memory. The bytes that
/// came before are then appended, and the fault's offset is their number.
pub fn read_all<R: Read>(input: &mut Input<R>, out: &mut Vec<u8>) -> Result<(), TtlvFault>
    // All bytes up to the end.
    ensures whole { OnOk result (came_of input.new ≡ came_of input.old ++ appended_bytes out.old.items out.new.items) }
    ensures end { OnOk result (IsTrue (is_ended input.new)) }
    ensures works { OnOk result (is_failed input.new ≡ false) }
    // What was there stays, and what is appended is what came first, also after a fault.
    ensures appends { StartsWith out.new.items out.old.items }
    ensures front { StartsWith (appended_bytes (came_of input.old) (came_of input.new))
        (appended_bytes out.old.items out.new.items) }
    // All bytes that came are appended, save some where memory ran out.
    ensures kept { IfErr result
        (λ fault. fault.kind ≡ FaultKind.Device
        → came_of input.new ≡ came_of input.old ++ appended_bytes out.old.items out.new.items) }
    ensures sound { IfErr result (λ f. f.kind ≢ FaultKind.Device → is_failed input.new ≡ false) }
    ensures grows { StartsWith (came_of input.new) (came_of input.old) }
    ensures over { StaysOver R.remaining input.old input.new }
    ensures counted { IfErr result (λ fault. vec_len out.new ≡ vec_len out.old + fault.offset) }
    ensures kinds { IfErr result (λ fault. (fault.kind ≡ FaultKind.Device × IsTrue (is_failed input.new))
        ⊎ (fault.kind ≡ FaultKind.Memory)) }
    // A failed input answers Device, and stays failed.
    ensures failed { IsTrue (is_failed input.old) → (result ≡ Err (record { offset = 0; kind = FaultKind.Device }))
        × (out.new.items ≡ out.old.items) }
    ensures stays { IsTrue (is_failed input.old) → IsTrue (is_failed input.new) }
{
    let mut chunk = [0u8; CHUNK];
    let mut appended: u64 = 0;
    'reads: loop {
        let Some(n) = input.read_some(&mut chunk) else {
            return Err(TtlvFault {
                offset: appended,
                kind: FaultKind::Device,
            });
        };
        if n == 0 {
            return Ok(());
        }
        if out.extend_from_slice(&chunk[..n]).is_err() {
            return Err(TtlvFault {
                offset: appended,
                kind: FaultKind::Memory,
            });
        }
        appended += n as u64;
    }
}

/// Appends the next `most` bytes of the input, or fewer at its end, and answers how many. It reads no further. The
/// faults, Device and Memory, are reported with this place.
#[inline(always)]
fn append_up_to<R: Read>(
    input: &mut Input<R>,
    place: u64,
    most: usize,
    out: &mut Vec<u8>,
) -> Result<usize, TtlvFault>
    requires some { 0 < most }
    requires room { vec_len out.old + most ≤ 0x10_0000 }
    ensures counted { IfOk result (λ n. (vec_len out.new ≡ vec_len out.old + n) × (n ≤ most)) }
    ensures bounded { vec_len out.new ≤ vec_len out.old + most }
    ensures came { OnOk result (came_of input.new ≡ came_of input.old ++ appended_bytes out.old.items out.new.items) }
    ensures short { IfErr result (λ _. CameShort (came_of input.old) (came_of input.new) most) }
    ensures end { IfOk result (λ n. n < most → IsTrue (is_ended input.new)) }
    ensures sound { IfErr result (λ f. f.kind ≢ FaultKind.Device → is_failed input.new ≡ false) }
    ensures grows { StartsWith (came_of input.new) (came_of input.old) }
    ensures over { StaysOver R.remaining input.old input.new }
    ensures appends { StartsWith out.new.items out.old.items }
    ensures kinds { IfErr result (λ f. (f.offset ≡ place) × ((f.kind ≡ FaultKind.Device × IsTrue (is_failed input.new))
        ⊎ (f.kind ≡ FaultKind.Memory))) }
    ensures works { OnOk result (is_failed input.new ≡ is_failed input.old) }
    ensures failed { IsTrue (is_failed input.old) → result ≡ Err (record { offset = place; kind = FaultKind.Device }) }
    ensures stays { IsTrue (is_failed input.old) → IsTrue (is_failed input.new) }
{
    let start = out.len();
    if input.failed() {
        return Err(TtlvFault {
            offset: place,
            kind: FaultKind::Device,
        });
    }
    if out.resize(start + most, 0).is_err() {
        return Err(TtlvFault {
            offset: place,
            kind: FaultKind::Memory,
        });
    }
    let Some(got) = fill(input, out.slice_mut(start..)) else {
        return Err(TtlvFault {
            offset: place,
            kind: FaultKind::Device,
        });
    };
    out.truncate(start + got);
    Ok(got)
}

/// Reads into the buffer up to its end or that of the input, and answers how many bytes came; `None` where the input is
/// failed.
#[inline(always)]
fn fill<R: Read>(input: &mut Input<R>, buf: &mut [u8]) -> Option<usize>
    requires { 0 < length buf.old }
    ensures within { IfSome result (λ n. n ≤ length buf.new) }
    ensures came { IfSome result (λ n. came_of input.new ≡ came_of input.old ++ take n buf.new) }
    ensures short { IfNone result (CameShort (came_of input.old) (came_of input.new) (length buf.old)) }
    ensures end { IfSome result (λ n. n < length buf.new → IsTrue (is_ended input.new)) }
    ensures grows { StartsWith (came_of input.new) (came_of input.old) }
    ensures over { StaysOver R.remaining input.old input.new }
    ensures fails { IfNone result (IsTrue (is_failed input.new)) }
    ensures works { OnSome result ((is_failed input.old ≡ false) × (is_failed input.new ≡ false)) }
    ensures stays { IsTrue (is_failed input.old) → IsTrue (is_failed input.new) }
{
    let mut got: usize = 0;
    'reads: while got < buf.len() {
        let n = input.read_some(&mut buf[got..])?;
        if n == 0 {
            break;
        }
        got += n;
    }
    Some(got)
}
