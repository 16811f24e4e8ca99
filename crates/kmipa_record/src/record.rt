//! The next item of a file, as a header or a record.

ghost use Rattle.std.specs.Prelude.{◌≡◌, ◌≤◌, ◌↔◌, vec_len, ◌+◌, ◌++◌, ◌≢◌, ℕ, List, IsTrue, true, false, IfOk, IfErr, OnOk, MatchOption, MatchResult};
ghost use Rattle.std.specs.Io.{appended_bytes, StartsWith};
ghost use Rattle.kmipa_ttlv.specs.Input.{came_of, taken_of, is_ended, is_failed, LeavesBelow, EndsWith, StaysOver};
ghost use Rattle.kmipa_ttlv.specs.Reading.{IsWhole, ReadTells};
ghost use Rattle.kmipa_ttlv.specs.Spelling.{Spells};
ghost use Rattle.kmipa_ttlv.specs.Tree.{Tree};
ghost use Rattle.kmipa_ttlv.specs.ViewTree.{view_tree};
ghost use Rattle.kmipa_record.specs.Files.{TellsItem};
ghost use Rattle.kmipa_record.specs.Reading.{record_kind, TellsFlawOf, ReadFails, HeaderFails, NextIs, TakesSaid};

use crate::fault::{RecordFault, RecordKind};
use kmipa_ttlv::{FaultKind, Input, TtlvFault, View, decode_view, read_bytes};
use std::alloc::{AllocError, Global};
use std::io::Read;

/// A header or a record of a file.
pub trait Record: Sized {
    ghost says: { Tree → Self → Type 0 };

    ghost is_record: { Tree → Type 0 };

    /// What the item says, where it is such a header or record.
    fn of(alloc: Global, item: &View) -> Result<Option<Self>, AllocError>
        ensures { IfOk result
            (λ o. MatchOption o (¬ (is_record (view_tree item.now))) (λ x. says (view_tree item.now) x)) };
}

/// What comes next in a file.
#[derive(Drop)]
pub enum Next<T> {
    /// No byte.
    End,
    /// An item that is none of those asked for.
    Other,
    Record(T),
}

/// The header of a file, read through the buffer `bytes`.
pub fn read_header<R: Read, H: Record + Drop>(
    alloc: Global,
    input: &mut Input<R>,
    bytes: &mut Vec<u8>,
) -> Result<H, RecordFault>
    ensures ok { (left after : List ℕ) → LeavesBelow input.old input.new left after
        → IfOk result (TakesSaid H.says left after (taken_of input.old) (taken_of input.new)) }
    ensures fault { (left after : List ℕ) → LeavesBelow input.old input.new left after → EndsWith input.new after
        → IfErr result (HeaderFails H.is_record (taken_of input.old) left (is_failed input.new)) }
    ensures place { IfErr result (TellsItem (came_of input.new)) }
    ensures sound { MatchResult result (λ _. is_failed input.new ≡ false)
        (λ f. f.kind ≢ RecordKind.Device → is_failed input.new ≡ false) }
    ensures grows { StartsWith (came_of input.new) (came_of input.old) }
    ensures over { StaysOver R.remaining input.old input.new }
    ensures bounded { vec_len bytes.new ≤ 0x10_0000 }
    ensures came { OnOk result (came_of input.new ≡ came_of input.old ++ bytes.new.items) }
{
    let offset = input.taken();
    let header: Next<H> = read_next(alloc, input, bytes)?;
    match header {
        Next::Record(header) => Ok(header),
        Next::End | Next::Other => Err(RecordFault {
            offset,
            kind: RecordKind::Header,
        }),
    }
}

/// What comes next in a file, read through the buffer `bytes`.
pub fn read_next<R: Read, T: Record + Drop>(
    alloc: Global,
    input: &mut Input<R>,
    bytes: &mut Vec<u8>,
) -> Result<Next<T>, RecordFault>
    ensures ok { (left after : List ℕ) → LeavesBelow input.old input.new left after
        → IfOk result
        (NextIs T.says T.is_record left after (taken_of input.old) (taken_of input.new) (is_ended input.new)) }
    ensures fault { (left after : List ℕ) → LeavesBelow input.old input.new left after → EndsWith input.new after
        → IfErr result (ReadFails (taken_of input.old) left (is_failed input.new)) }
    ensures place { IfErr result (TellsItem (came_of input.new)) }
    ensures sound { MatchResult result (λ _. is_failed input.new ≡ false)
        (λ f. f.kind ≢ RecordKind.Device → is_failed input.new ≡ false) }
    ensures grows { StartsWith (came_of input.new) (came_of input.old) }
    ensures over { StaysOver R.remaining input.old input.new }
    ensures bounded { vec_len bytes.new ≤ 0x10_0000 }
    ensures came { OnOk result (came_of input.new ≡ came_of input.old ++ bytes.new.items) }
{
    let offset = input.taken();
    match read_bytes(input, bytes) {
        Ok(true) => {}
        Ok(false) => return Ok(Next::End),
        Err(fault) => return Err(fault_of(fault)),
    }
    let view = match view_of(offset, bytes) {
        Ok(view) => view,
        Err(fault) => return Err(fault),
    };
    match T::of(alloc, &view) {
        Ok(Some(record)) => Ok(Next::Record(record)),
        Ok(None) => Ok(Next::Other),
        Err(_) => Err(RecordFault {
            offset,
            kind: RecordKind::Memory,
        }),
    }
}

/// The fault of a read, as one of a file.
fn fault_of(fault: TtlvFault) -> RecordFault
    ensures { result ≡ record { offset = fault.offset; kind = record_kind fault.kind } }
{
    let kind = match fault.kind {
        FaultKind::Device => RecordKind::Device,
        FaultKind::Memory => RecordKind::Memory,
        kind => RecordKind::Ttlv(kind),
    };
    RecordFault {
        offset: fault.offset,
        kind,
    }
}

/// The item that whole bytes at this place spell.
fn view_of(place: u64, bytes: &[u8]) -> Result<View<'_>, RecordFault>
    requires { IsWhole bytes.now }
    ensures { MatchResult result (λ view. Spells (view_tree view) bytes.now) (TellsFlawOf place bytes.now) }
{
    match decode_view(bytes) {
        Ok((view, _)) => Ok(view),
        Err(fault) => Err(RecordFault {
            offset: place.saturating_add(fault.offset),
            kind: RecordKind::Ttlv(fault.kind),
        }),
    }
}
