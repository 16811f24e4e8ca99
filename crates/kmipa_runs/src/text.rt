//! The text of digits that an input has, as far as it can be one.

ghost use Rattle.std.specs.Prelude.{◌≡◌, ◌⊎◌, ◌++◌, true, false, IsTrue, IfErr, OnOk};
ghost use Rattle.std.specs.Io.{StartsWith, appended_bytes};
ghost use Rattle.kmipa_ttlv.specs.Input.{came_of, is_ended, is_failed};
ghost use Rattle.hex.specs.Hex.{is_hex_digit};
ghost use Rattle.kmipa_runs.specs.Inputs.{HasOther, is_kept};

use kmipa_ttlv::{FaultKind, Input, TtlvFault};
use std::io::Read;

/// How many bytes are asked for at once.
const PIECE: usize = 65_536;

/// Appends the bytes of an input up to its end, or up to the end of the first piece with a byte that is neither a digit nor white space, so
/// that an input without an end is refused where it has one. Errors: Device where the input is failed, and Memory.
pub fn read_text<R: Read>(input: &mut Input<R>, out: &mut Vec<u8>) -> Result<(), TtlvFault>
    ensures came { OnOk result (came_of input.new ≡ came_of input.old ++ appended_bytes out.old.items out.new.items) }
    ensures end { OnOk result (IsTrue (is_ended input.new) ⊎ HasOther out.new.items) }
    ensures appends { StartsWith out.new.items out.old.items }
    ensures kinds { IfErr result (λ fault. (fault.kind ≡ FaultKind.Device × IsTrue (is_failed input.new))
        ⊎ (fault.kind ≡ FaultKind.Memory)) }
{
    let mut piece = [0u8; PIECE];
    'pieces: loop {
        let Some(n) = input.read_some(&mut piece) else {
            return Err(fault_at(input.taken(), FaultKind::Device));
        };
        if n == 0 {
            return Ok(());
        }
        if out.extend_from_slice(&piece[..n]).is_err() {
            return Err(fault_at(input.taken(), FaultKind::Memory));
        }
        if has_other(&piece[..n]) {
            return Ok(());
        }
    }
}

fn fault_at(offset: u64, kind: FaultKind) -> TtlvFault
    ensures { result ≡ record { offset = offset; kind = kind } }
{
    TtlvFault { offset, kind }
}

/// Whether one of the bytes is neither a digit nor white space.
fn has_other(bytes: &[u8]) -> bool
    ensures { result ≡ true → HasOther bytes.now }
{
    'bytes: for byte in bytes {
        if is_other(*byte) {
            return true;
        }
    }
    false
}

/// Whether a byte is neither a digit nor white space.
fn is_other(byte: u8) -> bool
    ensures { result ≡ true → IsTrue (is_kept byte) × (is_hex_digit byte ≡ false) }
{
    match byte {
        b' ' | b'\t' | b'\r' | b'\n' => false,
        b'0'..=b'9' | b'a'..=b'f' | b'A'..=b'F' => false,
        _ => true,
    }
}
