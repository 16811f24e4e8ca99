//! Witnesses: an order in which the calls may have been taken.

ghost use Rattle.std.specs.Prelude.{◌≡◌, ◌<◌, ◌↔◌, ℕ, List, [], ◌∷◌, ◌++◌, ◌≢◌, true, false, IsTrue, map, IfOk, IfErr, MatchResult};
ghost use Rattle.std.specs.Io.{StartsWith, appended_bytes};
ghost use Rattle.kmipa_ttlv.specs.Input.{came_of, taken_of, is_ended, is_failed, LeavesBelow, EndsWith, IsFileOf, StaysOver};
ghost use Rattle.kmipa_record.specs.Files.{Tells, TellsItem};
ghost use Rattle.kmipa_record.specs.Marks.{IsCallNumber};
ghost use Rattle.kmipa_record.specs.Witnesses.{turn_of, witness_of, ArePayloads, AreBirths, Admits, IsWitness, WitnessFault, IsWitnessUpTo};
ghost use Rattle.kmipa_record.specs.WitnessReading.{IsReadSoFar, RefusesTurn};

use crate::fault::{RecordFault, RecordKind};
use crate::header::WitnessHeader;
use crate::record::{Next, read_header, read_next};
use crate::turn::Turn;
use crate::version::{Version, needed};
use kmipa_ttlv::Input;
use std::alloc::Global;
use std::io::Read;

/// Calls in the order in which they are to be taken, one at a time.
#[derive(Drop)]
pub struct Witness {
    pub turns: Vec<Turn>,
}

/// Reads a witness of whose bytes none was read.
///
/// `Device` and `Memory` are reported with the place of the item that was being read.
pub fn read_witness<R: Read>(alloc: Global, input: &mut Input<R>) -> Result<Witness, RecordFault>
    requires { came_of input.old ≡ [] }
    // What is read is what the bytes are that came, to the end that was seen.
    ensures found { IfOk result
        (λ witness. IsWitness (came_of input.new) (witness_of witness) × IsTrue (is_ended input.new)) }
    // Else the first fault is reported, whatever follows what came, and nothing where the end was seen;
    // unless a read failed or memory ran out.
    ensures fault { (file : List ℕ) → IsFileOf file input.new
        → IfErr result (Tells WitnessFault IsWitnessUpTo file (is_failed input.new)) }
    // These two are reported where the item begins that was being read.
    ensures place { IfErr result (TellsItem (came_of input.new)) }
    ensures sound { MatchResult result (λ _. is_failed input.new ≡ false)
        (λ f. f.kind ≢ RecordKind.Device → is_failed input.new ≡ false) }
    // Over a reader whose bytes are known what came is their front, and all where the end was seen.
    ensures over { StaysOver R.remaining input.old input.new }
{
    let mut bytes = Vec::new(alloc);
    let header: WitnessHeader = read_header(alloc, input, &mut bytes)?;
    let mut turns = Vec::new(alloc);
    'turns: while read_turn(alloc, input, header.version, &mut bytes, &mut turns)? {}
    Ok(Witness { turns })
}

/// Reads the next turn of a witness of this version onto those before it; `false` at the end.
fn read_turn<R: Read>(
    alloc: Global,
    input: &mut Input<R>,
    version: Version,
    bytes: &mut Vec<u8>,
    turns: &mut Vec<Turn>,
) -> Result<bool, RecordFault>
    ensures read { (file left after : List ℕ) → LeavesBelow input.old input.new left after
        → IsReadSoFar file version (map turn_of turns.old.items) left (taken_of input.old)
        → IfOk result (λ more. IsReadSoFar file version (map turn_of turns.new.items) after (taken_of input.new)) }
    ensures fault { (file left after : List ℕ) → LeavesBelow input.old input.new left after → EndsWith input.new after
        → IsReadSoFar file version (map turn_of turns.old.items) left (taken_of input.old)
        → IfErr result (Tells WitnessFault IsWitnessUpTo file (is_failed input.new)) }
    ensures place { IfErr result (TellsItem (came_of input.new)) }
    ensures end { IfOk result (λ more. more ≡ false → IsTrue (is_ended input.new)) }
    ensures nearer { IfOk result (λ more. more ≡ true → taken_of input.old < taken_of input.new) }
    ensures sound { MatchResult result (λ _. is_failed input.new ≡ false)
        (λ f. f.kind ≢ RecordKind.Device → is_failed input.new ≡ false) }
    ensures grows { StartsWith (came_of input.new) (came_of input.old) }
    ensures over { StaysOver R.remaining input.old input.new }
{
    let offset = input.taken();
    let next: Next<Turn> = read_next(alloc, input, bytes)?;
    match next {
        Next::End => Ok(false),
        Next::Other => Err(RecordFault {
            offset,
            kind: RecordKind::Entry,
        }),
        Next::Record(turn) => {
            keep_turn(version, turns, turn, offset)?;
            Ok(true)
        }
    }
}

/// Puts a turn that stands at this place after the others, where a witness of this version may have it.
fn keep_turn(
    version: Version,
    turns: &mut Vec<Turn>,
    turn: Turn,
    offset: u64,
) -> Result<(), RecordFault>
    requires { ArePayloads (turn_of turn).fills × AreBirths (turn_of turn).births }
    ensures { MatchResult result
        (λ _. Admits version (turn_of turn) × IsCallNumber turn.call × (turns.new.items ≡ turns.old.items ++ turn ∷ []))
        (λ f. (f.offset ≡ offset) × RefusesTurn version (turn_of turn) f.kind) }
{
    if !admits(version, &turn) {
        return Err(RecordFault {
            offset,
            kind: RecordKind::Entry,
        });
    }
    if turn.call < 1 {
        return Err(RecordFault {
            offset,
            kind: RecordKind::Number,
        });
    }
    match turns.push(turn) {
        Ok(()) => Ok(()),
        Err(_) => Err(RecordFault {
            offset,
            kind: RecordKind::Memory,
        }),
    }
}

/// Whether a witness of this version may have the turn.
fn admits(version: Version, turn: &Turn) -> bool
    requires { ArePayloads (turn_of turn.now).fills × AreBirths (turn_of turn.now).births }
    ensures { IsTrue result ↔ Admits version (turn_of turn.now) }
{
    needed(turn).number() <= version.number()
}
