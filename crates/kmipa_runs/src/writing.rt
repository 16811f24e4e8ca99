//! `write`: a file of the items that hexadecimal digits spell.

ghost use Rattle.std.specs.Prelude.{◌≡◌, ◌<◌, ◌≤◌, ◌≢◌, ◌-◌, ◌⊎◌, [], ◌++◌, false, IsTrue, IfOk, IfErr, OnOk, length, take, string_bytes, Ok, Err};
ghost use Rattle.std.specs.Io.{StartsWith, appended_bytes};
ghost use Rattle.kmipa_ttlv.specs.Input.{came_of, is_ended, is_failed};
ghost use Rattle.kmipa_ttlv.specs.Reading.{TellsKnown};
ghost use Rattle.kmipa_ttlv.specs.Spelling.{Spells};
ghost use Rattle.kmipa_ttlv.specs.Tree.{Tree};
ghost use Rattle.kmipa_ttlv.specs.Written.{spelling};
ghost use Rattle.kmipa_runs.specs.Inputs.{AreWritten, HasOther, MakesOrTells, TellsFirst, Writes, refused_line};
ghost use Rattle.kmipa_jobs.specs.Statuses.{IsSilent};

use crate::digits::read_digits;
use crate::flaws::tell_flaw;
use crate::lines::Lines;
use crate::reporting::append;
use crate::text::read_text;
use hex::FromHexError;
use kmipa_jobs::Status;
use kmipa_ttlv::{FaultKind, Input, TtlvFault, decode, encode};
use std::alloc::{AllocError, Global};
use std::io::Read;

/// `write HEX OUT`: appends to `made` the spellings of the items that the digits of an input spell, with zeros for
/// padding, or to `out` the line of what is wrong, and answers the status. After a fault, or where memory runs out,
/// nothing is made.
pub fn write_run<R: Read>(
    alloc: Global,
    input: &mut Input<R>,
    out: &mut Vec<u8>,
    made: &mut Vec<u8>,
) -> Status
    requires { came_of input.old ≡ [] }
    // What is made and printed is that of the bytes that came; they are refused where one of them is no
    // digit, whatever follows.
    ensures writes { Writes (came_of input.new) (is_failed input.new) result
        (appended_bytes out.old.items out.new.items) (appended_bytes made.old.items made.new.items) }
    // Nothing else is reported before the end was seen, but want of memory or a failed input.
    ensures whole { result ≢ Status.Failed → IsTrue (is_ended input.new) ⊎ HasOther (came_of input.new) }
    ensures appends { StartsWith out.new.items out.old.items }
    ensures makes { StartsWith made.new.items made.old.items }
{
    let mut text = Vec::new(alloc);
    if let Err(fault) = read_text(input, &mut text) {
        return tell_flaw(alloc, fault, out);
    }
    match read_digits(alloc, &text) {
        Ok(bytes) => write_bytes(alloc, &bytes, out, made),
        Err(error) => tell_digits(alloc, error, out),
    }
}

/// Appends the line of digits that are none; no line where memory ran out.
fn tell_digits(alloc: Global, error: FromHexError, out: &mut Vec<u8>) -> Status
    ensures tells { IsSilent result (appended_bytes out.old.items out.new.items)
        ⊎ ((error ≢ FromHexError.OutOfMemory) × (result ≡ Status.Refused)
        × (appended_bytes out.old.items out.new.items ≡ refused_line)) }
    ensures appends { StartsWith out.new.items out.old.items }
{
    match error {
        FromHexError::OutOfMemory => Status::Failed,
        _ => append(refused_lines(alloc), out),
    }
}

fn refused_lines(alloc: Global) -> Result<Lines, AllocError>
    ensures { IfOk result (λ lines. (lines.status ≡ Status.Refused) × (string_bytes lines.text ≡ refused_line)) }
{
    Ok(Lines {
        text: String::from_str(alloc, "hex: refused\n")?,
        status: Status::Refused,
    })
}

/// Appends to `made` the spellings of the items that these bytes are, or to `out` the line of their first fault.
fn write_bytes(alloc: Global, bytes: &[u8], out: &mut Vec<u8>, made: &mut Vec<u8>) -> Status
    ensures writes { MakesOrTells bytes.now result (appended_bytes out.old.items out.new.items)
        (appended_bytes made.old.items made.new.items) }
    ensures appends { StartsWith out.new.items out.old.items }
    ensures makes { StartsWith made.new.items made.old.items }
{
    let kept = made.len();
    match write_items(alloc, bytes, made) {
        Ok(()) => Status::Done,
        Err(fault) => {
            made.truncate(kept);
            tell_flaw(alloc, fault, out)
        }
    }
}

/// Appends the spellings of the items that these bytes are. After a fault those of some may be appended.
fn write_items(alloc: Global, bytes: &[u8], made: &mut Vec<u8>) -> Result<(), TtlvFault>
    ensures writes { OnOk result (AreWritten bytes.now (appended_bytes made.old.items made.new.items)) }
    ensures fault { IfErr result (TellsFirst bytes.now false) }
    ensures appends { StartsWith made.new.items made.old.items }
{
    let mut at = 0;
    'items: while at < bytes.len() {
        at += write_next(alloc, at, &bytes[at..], made)?;
    }
    Ok(())
}

/// Appends the spelling of the item at the front of these bytes, which stand at this place, and answers how many of
/// them are the item's.
fn write_next(
    alloc: Global,
    at: usize,
    bytes: &[u8],
    made: &mut Vec<u8>,
) -> Result<usize, TtlvFault>
    requires { 0 < length bytes.now }
    ensures writes { IfOk result
        (λ n. (item : Tree) × Spells item (take n bytes.now) × (made.new.items ≡ made.old.items ++ spelling item)) }
    ensures within { IfOk result (λ n. (0 < n) × (n ≤ length bytes.now)) }
    ensures fault { IfErr result (TellsKnown at bytes.now false) }
    ensures appends { StartsWith made.new.items made.old.items }
{
    let place = at as u64;
    match decode(alloc, bytes) {
        Ok((item, n)) => match encode(&item, made) {
            Ok(()) => Ok(n),
            Err(_) => Err(TtlvFault {
                offset: place,
                kind: FaultKind::Memory,
            }),
        },
        Err(fault) => Err(TtlvFault {
            offset: place.saturating_add(fault.offset),
            kind: fault.kind,
        }),
    }
}
