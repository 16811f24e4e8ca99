//! Files that are held in memory as they are read.

ghost use Rattle.std.specs.Prelude.{◌≡◌, ℕ, List, [], Err, true, false, IsTrue, IfOk, IfErr, IfSome, OnOk};
ghost use Rattle.kmipa_ttlv.specs.Input.{came_of, is_ended, is_failed, IsFileOf};
ghost use Rattle.kmipa_record.specs.Files.{Tells};

use crate::bytes::Kept;
use kmipa_record::{RecordFault, RecordKind};
use kmipa_ttlv::{FaultKind, Input, read_all};
use std::alloc::{AllocError, Global};
use std::io::Read;

/// How many bytes are asked for at once.
const CHUNK: usize = 65_536;

/// How many bytes are read before it is asked whether a fault stands in them already.
const FRONT: usize = 1_048_576;

/// Reads a file of which nothing was read, and holds the bytes that came. It is read to its end, save where a fault stands in its first
/// 1,048,576 bytes.
pub fn read_held<K: Kept + Drop, R: Read>(
    alloc: Global,
    input: &mut Input<R>,
    held: &mut Vec<u8>,
) -> Result<Result<K, RecordFault>, AllocError>
    requires came { came_of input.old ≡ [] }
    requires none { held.old.items ≡ [] }
    // What is read is what the bytes are that came, to the end that was seen.
    ensures found { IfOk result
        (λ read. IfOk read (λ kept. K.is (came_of input.new) kept × IsTrue (is_ended input.new))) }
    // Else the first fault is reported, whatever follows what came, and nothing where the end was seen;
    // unless a read failed or memory ran out.
    ensures fault { (file : List ℕ) → IsFileOf file input.new
        → IfOk result (λ read. IfErr read (Tells K.flaw K.right file (is_failed input.new))) }
    ensures held { OnOk result (held.new.items ≡ came_of input.new) }
{
    hold_front(input, held)?;
    let (front, all): (Result<K, RecordFault>, bool) = K::of(alloc, held.as_slice());
    if let Some(fault) = settled(front, all) {
        return Ok(Err(fault));
    }
    let whole = hold_rest(input, held)?;
    let (read, all): (Result<K, RecordFault>, bool) = K::of(alloc, held.as_slice());
    if whole {
        return Ok(read);
    }
    match settled(read, all) {
        Some(fault) => Ok(Err(fault)),
        None => Ok(Err(RecordFault {
            offset: 0,
            kind: RecordKind::Device,
        })),
    }
}

/// The fault of bytes that were not all read for it.
fn settled<K: Drop>(read: Result<K, RecordFault>, all: bool) -> Option<RecordFault>
    ensures { IfSome result (λ fault. (all ≡ false) × (read ≡ Err fault)) }
{
    match read {
        Err(fault) if !all => Some(fault),
        _ => None,
    }
}

/// Reads and holds the front of a file, or all of it where it is short.
fn hold_front<R: Read>(input: &mut Input<R>, held: &mut Vec<u8>) -> Result<(), AllocError>
    requires { held.old.items ≡ came_of input.old }
    ensures { OnOk result (held.new.items ≡ came_of input.new) }
{
    let mut chunk = [0u8; CHUNK];
    'reads: while held.len() < FRONT {
        let Some(n) = input.read_some(&mut chunk) else {
            break;
        };
        if n == 0 {
            break;
        }
        held.extend_from_slice(&chunk[..n])?;
    }
    Ok(())
}

/// Reads and holds the rest of a file: whether its end was seen, and no read failed.
fn hold_rest<R: Read>(input: &mut Input<R>, held: &mut Vec<u8>) -> Result<bool, AllocError>
    requires { held.old.items ≡ came_of input.old }
    ensures came { OnOk result (held.new.items ≡ came_of input.new) }
    ensures whole { IfOk result (λ whole. whole ≡ true → IsTrue (is_ended input.new)) }
    ensures fails { IfOk result (λ whole. whole ≡ false → IsTrue (is_failed input.new)) }
{
    match read_all(input, held) {
        Ok(()) => Ok(true),
        Err(fault) => match fault.kind {
            FaultKind::Device => Ok(false),
            _ => Err(AllocError),
        },
    }
}
