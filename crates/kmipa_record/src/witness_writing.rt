//! Witnesses that are written, in the lowest version that serves.

ghost use Rattle.std.specs.Prelude.{◌≡◌, ◌∷◌, true, map, All, OnOk, IfErr};
ghost use Rattle.std.specs.Io.{StartsWith};
ghost use Rattle.kmipa_ttlv.specs.Written.{Legal};
ghost use Rattle.kmipa_record.specs.Witnesses.{bare_turn, turn_of, turn_item, witness_of, witness_header, IsWitness};
ghost use Rattle.kmipa_record.specs.Writing.{Appends, IsWrittenWitness, Unwritten, Adds, AddsAll, Refused, IsWritable, IsLowest};
ghost use Rattle.kmipa_record.specs.declared.version.Version.{Version};

use crate::append::append;
use crate::birth::are_births;
use crate::fault::{RecordFault, RecordKind};
use crate::fill::are_payloads;
use crate::header::write_witness_header;
use crate::turn::{Turn, write_turn};
use crate::version::{Version, needed, newer};
use crate::witness::Witness;
use std::alloc::Global;

/// Appends a witness of these turns, in the lowest version that serves.
///
/// `Entry` at 0 where no bytes are one: a call number below 1, a payload or attributes that are none, a turn too long for one item.
/// An `Err` changes nothing.
pub fn write_witness(alloc: Global, witness: &Witness, out: &mut Vec<u8>) -> Result<(), RecordFault>
    // What is appended is a witness of these turns, padded with zeros.
    ensures written { OnOk result (Appends (IsWrittenWitness (witness_of witness.now)) out.old.items out.new.items) }
    // It is refused where no bytes are one, or where memory ran out.
    ensures refused { IfErr result (Unwritten (λ bytes. IsWitness bytes (witness_of witness.now))) }
    ensures same { IfErr result (λ _. out.new.items ≡ out.old.items) }
{
    let start = out.len();
    match put_witness(alloc, &witness.turns, out) {
        Ok(()) => Ok(()),
        Err(kind) => {
            out.truncate(start);
            Err(RecordFault { offset: 0, kind })
        }
    }
}

fn put_witness(alloc: Global, turns: &[Turn], out: &mut Vec<u8>) -> Result<(), RecordKind>
    ensures put { OnOk result
        ((version : Version)
        × AddsAll (witness_header version ∷ map turn_item (map turn_of turns.now)) out.old.items out.new.items
        × IsLowest version (map turn_of turns.now) × All IsWritable (map turn_of turns.now)) }
    ensures refused { IfErr result (Refused (All IsWritable (map turn_of turns.now))) }
    ensures grows { StartsWith out.new.items out.old.items }
{
    let version = lowest(turns);
    append(&write_witness_header(alloc, version)?, out)?;
    put_turns(alloc, turns, out)
}

fn put_turns(alloc: Global, turns: &[Turn], out: &mut Vec<u8>) -> Result<(), RecordKind>
    ensures put { OnOk result
        (AddsAll (map turn_item (map turn_of turns.now)) out.old.items out.new.items
        × All IsWritable (map turn_of turns.now)) }
    ensures refused { IfErr result (Refused (All IsWritable (map turn_of turns.now))) }
    ensures grows { StartsWith out.new.items out.old.items }
{
    for turn in turns {
        append_turn(alloc, turn, out)?;
    }
    Ok(())
}

fn append_turn(alloc: Global, turn: &Turn, out: &mut Vec<u8>) -> Result<(), RecordKind>
    ensures ok { OnOk result
        (Adds (turn_item (turn_of turn.now)) out.old.items out.new.items × IsWritable (turn_of turn.now)) }
    ensures refused { IfErr result (Refused (IsWritable (turn_of turn.now))) }
    ensures same { IfErr result (λ _. out.new.items ≡ out.old.items) }
{
    if turn.call < 1 {
        return Err(RecordKind::Entry);
    }
    if !are_payloads(&turn.fills) {
        return Err(RecordKind::Entry);
    }
    if !are_births(&turn.births) {
        return Err(RecordKind::Entry);
    }
    if is_bare(turn) {
        return append_bare(turn.call, out);
    }
    append(&write_turn(alloc, turn)?, out)
}

/// Whether a turn gives nothing besides the number of its call.
fn is_bare(turn: &Turn) -> bool
    ensures { result ≡ true → turn_of turn.now ≡ bare_turn turn.now.call }
{
    turn.answer.is_none()
        && turn.places.is_empty()
        && turn.moment.is_none()
        && turn.fills.is_empty()
        && turn.births.is_empty()
        && turn.asides.is_empty()
}

/// Appends the item of a turn that gives only this number: the header of 16 bytes, and in them the number's own, the number, and its padding.
fn append_bare(call: i32, out: &mut Vec<u8>) -> Result<(), RecordKind>
    ensures ok { OnOk result (Adds (turn_item (bare_turn call)) out.old.items out.new.items) }
    ensures legal { OnOk result (Legal 16 (turn_item (bare_turn call))) }
    ensures memory { IfErr result (λ kind. kind ≡ RecordKind.Memory) }
    ensures same { IfErr result (λ _. out.new.items ≡ out.old.items) }
{
    let [a, b, c, d] = call.cast_unsigned().to_be_bytes();
    let item = [
        0x54, 0x00, 0x41, 1, 0, 0, 0, 16, 0x54, 0x00, 0x11, 2, 0, 0, 0, 4, a, b, c, d, 0, 0, 0, 0,
    ];
    out.extend_from_slice(&item)?;
    Ok(())
}

/// The lowest version that has such turns.
fn lowest(turns: &[Turn]) -> Version
    ensures { IsLowest result (map turn_of turns.now) }
{
    let mut version = Version::First;
    for turn in turns {
        version = newer(version, needed(turn));
    }
    version
}
